//! Where in a policy file something stands, and its name in a fault.
ghost use Rattle.std.specs.Prelude.{◌≡◌, ◌<◌, ◌++◌, ◌⊎◌, map, IfOk, OnOk};
ghost use Rattle.std.specs.Fmt.{decimal};
ghost use Rattle.policy_file.specs.Sections.{rows_of, item_name, section_name};
ghost use Rattle.policy_file.specs.Sections.{key_prefix, key_name};
ghost use Rattle.policy_file.specs.Outcomes.{found as found_of};
ghost use Rattle.policies.specs.Outcomes.{Gives};
ghost use Rattle.policy_file.specs.Shown.{shown_row};

use crate::keys::{ItemKind, KeyRow, TOP_KEYS};
use cv_io::{Memory, Text};
use policies::{PolicyFault, push_word};
use std::alloc::Global;

/// The file itself, or an item of it by its number in the file, from 0.
#[derive(Clone, Copy, PartialEq, Eq, Debug)]
pub(crate) enum Section {
    Top,
    Item { kind: ItemKind, number: usize },
}

/// Appends a number in decimal digits.
fn push_number(alloc: Global, text: &mut Text, number: usize) -> Result<(), Memory>
    ensures { OnOk result (text.new ≡ text.old ++ decimal number) }
{
    let digits = format!(in alloc; "{number}")?;
    text.push_text(&Text::from_slice(alloc, digits.as_bytes())?)
}

/// The name of an item, as `member[0]`.
fn item_text(alloc: Global, kind: ItemKind, number: usize) -> Result<Text, Memory>
    ensures { IfOk result (λ text. text ≡ item_name kind number) }
{
    let mut text = Text::new(alloc);
    push_word(&mut text, kind.key().as_bytes())?;
    text.push(b'[')?;
    push_number(alloc, &mut text, number)?;
    text.push(b']')?;
    Ok(text)
}

impl Section {
    /// The keys that may stand there.
    pub(crate) fn rows(self) -> &'static [KeyRow]
        ensures { map shown_row result.now ≡ rows_of self }
    {
        match self {
            Section::Top => &TOP_KEYS,
            Section::Item { kind, .. } => kind.rows(),
        }
    }

    /// Its own name, as `member[32]`.
    fn text(self, alloc: Global) -> Result<Text, Memory>
        ensures { IfOk result (λ text. text ≡ section_name self) }
    {
        match self {
            Section::Top => Ok(Text::new(alloc)),
            Section::Item { kind, number } => item_text(alloc, kind, number),
        }
    }

    /// What stands before a key there, as `member[0].`.
    fn prefix(self, alloc: Global) -> Result<Text, Memory>
        ensures { IfOk result (λ text. text ≡ key_prefix self) }
    {
        match self {
            Section::Top => Ok(Text::new(alloc)),
            Section::Item { kind, number } => {
                let mut text = item_text(alloc, kind, number)?;
                text.push(b'.')?;
                Ok(text)
            }
        }
    }

    /// The name of a key there, as `hops` or `member[0].bits`.
    pub(crate) fn name(self, alloc: Global, key: &str) -> Result<Text, Memory>
        ensures { IfOk result (λ name. name ≡ key_name self key.now) }
    {
        let mut text = self.prefix(alloc)?;
        push_word(&mut text, key.as_bytes())?;
        Ok(text)
    }

    /// What was read of a key there, or the fault that it can't be so.
    pub(crate) fn found<T: Drop>(
        self,
        alloc: Global,
        key: &str,
        found: Option<T>,
    ) -> Result<T, PolicyFault>
        ensures { Gives (found_of self key.now found) result }
    {
        match found {
            Some(value) => Ok(value),
            None => Err(PolicyFault::Value {
                name: self.name(alloc, key)?,
            }),
        }
    }

    /// The fault that the whole item can't be there.
    pub(crate) fn surplus(self, alloc: Global) -> PolicyFault
        ensures { (result ≡ PolicyFault.Memory) ⊎ (result ≡ PolicyFault.Value (section_name self)) }
    {
        match self.text(alloc) {
            Ok(name) => PolicyFault::Value { name },
            Err(wanted) => PolicyFault::from(wanted),
        }
    }
}
