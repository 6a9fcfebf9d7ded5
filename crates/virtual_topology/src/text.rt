//! Places as texts.
ghost use Rattle.std.specs.Prelude.{◌≡◌, ◌++◌, ◌∷◌, [], IfOk, OnOk};
ghost use Rattle.virtual_topology.specs.Faults.{place_text as place_text_of};
ghost use Rattle.std.specs.Fmt.{decimal};
ghost use Rattle.virtual_topology.specs.Shown.{shown};

use crate::plan::PortPlace;
use crate::uses::Use;
use cv_io::{Memory, Text};
use std::alloc::Global;

/// A number in decimal digits.
fn decimal_text(alloc: Global, number: u16) -> Result<Text, Memory>
    ensures { IfOk result (λ text. text ≡ decimal number) }
{
    let digits = format!(in alloc; "{number}")?;
    Text::from_slice(alloc, digits.as_bytes())
}

/// Appends NAME:DIGITS.
fn push_parts(text: &mut Text, name: &Text, digits: &Text) -> Result<(), Memory>
    ensures { OnOk result (text.new ≡ ((text.old ++ name.now) ++ 58 ∷ []) ++ digits.now) }
{
    text.push_text(name)?;
    text.push(b':')?;
    text.push_text(digits)
}

/// A place as a policy file writes it: NAME:PORT.
fn text_of(alloc: Global, name: &Text, port: u16) -> Result<Text, Memory>
    ensures { IfOk result (λ text. text ≡ place_text_of (record { name = name.now; port = port })) }
{
    let digits = decimal_text(alloc, port)?;
    let mut text = Text::new(alloc);
    push_parts(&mut text, name, &digits)?;
    Ok(text)
}

/// The text of a place of the plan.
pub(crate) fn place_text(alloc: Global, place: &PortPlace) -> Result<Text, Memory>
    ensures { IfOk result (λ text. text ≡ place_text_of place.now) }
{
    text_of(alloc, &place.name, place.port)
}

/// The text of a place that is used.
pub(crate) fn use_text(alloc: Global, place: &Use<'_>) -> Result<Text, Memory>
    ensures { IfOk result (λ text. text ≡ place_text_of (shown place.now).place) }
{
    text_of(alloc, place.name.0, place.port)
}
