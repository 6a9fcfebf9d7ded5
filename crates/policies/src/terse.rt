//! Faults as a report writes them.
ghost use Rattle.std.specs.Prelude.{◌≡◌, ◌++◌, [], IfOk, OnOk, codes, option_map};
ghost use Rattle.std.specs.Option.{option_map_or};
ghost use Rattle.policies.specs.Showing.{shown};
ghost use Rattle.policies.specs.Terse.{expr_kind as expr_kind_of, topology_kind as topology_kind_of};
ghost use Rattle.policies.specs.Terse.{path_kind as path_kind_of, kind as kind_of, named as name_of};
ghost use Rattle.policies.specs.Terse.{inner_kind as inner_kind_of, next_word, terse as terse_of};

use crate::fault::PolicyFault;
use crate::showing::push_word;
use cv_io::{Memory, Text};
use inner_paths::PathFault;
use policy_expr::ExprFault;
use std::alloc::Global;
use virtual_topology::TopologyFault;

/// The kind of a fault of an expression, as a report writes it.
pub fn expr_kind(fault: &ExprFault) -> &'static str
    ensures { result.now ≡ expr_kind_of fault.now }
{
    match fault {
        ExprFault::Syntax { .. } => "syntax",
        ExprFault::Unknown { .. } => "unknown",
        ExprFault::Twice { .. } => "twice",
        ExprFault::Unused { .. } => "unused",
        ExprFault::TooMany { .. } => "toomany",
        ExprFault::ParallelLeft { .. } => "parallelleft",
        ExprFault::Memory => "memory",
    }
}

fn topology_kind(fault: &TopologyFault) -> &'static str
    ensures { result.now ≡ topology_kind_of fault.now }
{
    match fault {
        TopologyFault::PortTwice { .. } => "porttwice",
        TopologyFault::Unknown { .. } => "unknown",
        TopologyFault::LinkShape { .. } => "linkshape",
        TopologyFault::Mixed { .. } => "mixed",
        TopologyFault::TooMany { .. } => "toomany",
        TopologyFault::Memory => "memory",
    }
}

fn path_kind(fault: &PathFault) -> &'static str
    ensures { result.now ≡ path_kind_of fault.now }
{
    match fault {
        PathFault::Unreachable { .. } => "unreachable",
        PathFault::Memory => "memory",
    }
}

/// Appends a blank and a word.
fn push_next(text: &mut Text, word: &str) -> Result<(), Memory>
    ensures { OnOk result (text.new ≡ text.old ++ next_word (shown word.now)) }
{
    text.push(b' ')?;
    push_word(text, word.as_bytes())
}

/// Appends a blank and the name, or `-` for none.
fn push_name(text: &mut Text, name: Option<&Text>) -> Result<(), Memory>
    ensures { OnOk result (text.new ≡ text.old ++ next_word (option_map_or (λ name. name.now) name.entry (codes "-"))) }
{
    match name {
        Some(name) => {
            text.push(b' ')?;
            text.push_text(name)
        }
        None => push_next(text, "-"),
    }
}

/// Appends a blank and a word, if there is one.
fn push_some(text: &mut Text, word: Option<&'static str>) -> Result<(), Memory>
    ensures { OnOk result (text.new ≡ text.old ++ option_map_or (λ word. next_word (shown word.now)) word.entry []) }
{
    match word {
        Some(word) => push_next(text, word),
        None => Ok(()),
    }
}

impl PolicyFault {
    /// The name of the kind of fault, in lower case.
    pub fn kind(&self) -> &'static str
        ensures { result.now ≡ kind_of self.now }
    {
        match self {
            PolicyFault::Long => "long",
            PolicyFault::Syntax => "syntax",
            PolicyFault::Key { .. } => "key",
            PolicyFault::Missing { .. } => "missing",
            PolicyFault::Value { .. } => "value",
            PolicyFault::Expr { .. } => "expr",
            PolicyFault::Topology { .. } => "topology",
            PolicyFault::Paths { .. } => "paths",
            PolicyFault::TooWide { .. } => "toowide",
            PolicyFault::Memory => "memory",
        }
    }

    /// What the fault names: a key, or a virtual switch.
    pub fn name(&self) -> Option<&Text>
        ensures { option_map (λ name. name.now) result ≡ name_of self.now }
    {
        match self {
            PolicyFault::Key { name }
            | PolicyFault::Missing { name }
            | PolicyFault::Value { name }
            | PolicyFault::Expr { name, .. }
            | PolicyFault::TooWide { name, .. } => Some(name),
            _ => None,
        }
    }

    /// The kind of the fault of an expression, a topology or paths.
    pub fn inner_kind(&self) -> Option<&'static str>
        ensures { option_map (λ kind. kind.now) result ≡ inner_kind_of self.now }
    {
        match self {
            PolicyFault::Expr { fault, .. } => Some(expr_kind(fault)),
            PolicyFault::Topology { fault } => Some(topology_kind(fault)),
            PolicyFault::Paths { fault } => Some(path_kind(fault)),
            _ => None,
        }
    }

    #[tactic(auto, using(crate::proofs::Shows::kind_shown, crate::proofs::Shows::inner_shown))]
    /// The fault as a report writes it: its kind, its name or `-`, and the inner kind where there is one.
    pub fn terse(&self, alloc: Global) -> Result<Text, Memory>
        ensures { IfOk result (λ text. text ≡ terse_of self.now) }
    {
        let mut text = Text::new(alloc);
        push_word(&mut text, self.kind().as_bytes())?;
        push_name(&mut text, self.name())?;
        push_some(&mut text, self.inner_kind())?;
        Ok(text)
    }
}
