//! What goes and comes in one change is told apart from what stays.
ghost use Rattle.std.specs.Prelude.{◌≡◌, ◌+◌, ◌-◌, ◌<◌, List, OnOk, IfOk, IfNone, IfSome, false, get_or, length, true};
ghost use Rattle.std.specs.declared.cmp.Ordering.TheVariants.{Equal, Greater, Less};
ghost use Rattle.rule_ancestry.specs.Holding.{Held};
ghost use Rattle.policy_meaning.specs.declared.rule.Rule.{Rule};
ghost use Rattle.policy_meaning.specs.Order.{by_ancestry};
ghost use Rattle.made_rules.specs.declared.made.Made.{Made};
ghost use Rattle.made_rules.specs.Parting.{Differ, IsParted, IsToldApart, OldsRise};

use crate::made::Made;
use crate::old::Old;
use cv_io::Memory;
use policy_meaning::Rule;
use std::alloc::Global;
use std::cmp::Ordering;

/// A rule that stays, and the same rule as it is made anew.
#[derive(Debug, Drop)]
pub struct Both {
    pub id: usize,
    pub made: Made,
}

/// The rules that go, those that come and those that stay.
#[derive(Drop)]
pub(crate) struct Parted<'a> {
    pub(crate) gone: Vec<Old<'a>>,
    pub(crate) come: Vec<Made>,
    pub(crate) both: Vec<Both>,
}

/// How the last rules of two lists stand to each other.
fn order_of_last(gone: &[Old], come: &[Made]) -> Ordering
    requires gone { 0 < length gone.now }
    requires come { 0 < length come.now }
    ensures { (x : Held Rule) → (y : Made)
        → result ≡ by_ancestry (get_or gone.now (length gone.now - 1) x).item
        (get_or come.now (length come.now - 1) y).rule }
{
    let old = &gone[gone.len() - 1];
    old.rule.cmp_listed(&come[come.len() - 1].rule)
}

/// Whether two rules are the same.
fn is_same(a: &Rule, b: &Rule) -> bool
    ensures same { result ≡ true → a.now ≡ b.now }
    ensures other { result ≡ false → a.now ≡ b.now → ⊥ }
{
    *a == *b
}

/// How a rule that is held is listed against another; equal only if it is the same, else greater.
fn compared(old: &Old, rule: &Rule) -> Ordering
    ensures same { result ≡ Equal → old.now.item ≡ rule.now }
    ensures below { result ≡ Less → by_ancestry old.now.item rule.now ≡ Less }
    ensures other { result ≡ Greater → old.now.item ≡ rule.now → ⊥ }
{
    if is_same(old.rule, rule) {
        return Ordering::Equal;
    }
    match old.rule.cmp_listed(rule) {
        Ordering::Less => Ordering::Less,
        _ => Ordering::Greater,
    }
}

/// A place, in a rising list, of a rule that is the same.
fn place_of(gone: &[Old], rule: &Rule) -> Option<usize>
    ensures found { IfSome result (λ place. (place < length gone.now)
        × ((d : Held Rule) → (get_or gone.now place d).item ≡ rule.now)) }
    ensures none { IfNone result (OldsRise gone.now → Differ gone.now rule.now) }
{
    let mut end = gone.len();
    while 0 < end {
        end -= 1;
        match compared(&gone[end], rule) {
            Ordering::Less => return None,
            Ordering::Equal => return Some(end),
            Ordering::Greater => {}
        }
    }
    None
}

/// Takes the last of the rules that come, with the one that goes and is the same, if there is one.
fn take_come<'a>(
    gone: &mut Vec<Old<'a>>,
    come: &mut Vec<Made>,
    parted: &mut Parted<'a>,
) -> Result<(), Memory>
    requires { 0 < length come.old.items }
    ensures parted { (all : List (Held Rule)) → (others : List Made)
        → IsParted all others gone.old.items come.old.items parted.old.gone.items parted.old.come.items
        parted.old.both.items
        → OnOk result (IsParted all others gone.new.items come.new.items parted.new.gone.items parted.new.come.items
        parted.new.both.items) }
    ensures fewer { length gone.new.items + length come.new.items < length gone.old.items + length come.old.items }
{
    if let Some(made) = come.pop() {
        match place_of(gone, &made.rule) {
            Some(place) => {
                let old = gone.remove(place);
                parted.both.push(Both { id: old.id, made })?;
            }
            None => parted.come.push(made)?,
        }
    }
    Ok(())
}

/// Takes the last of the rules that go, where it is above those that come; else the last of those that
/// come.
fn part_one<'a>(
    gone: &mut Vec<Old<'a>>,
    come: &mut Vec<Made>,
    parted: &mut Parted<'a>,
) -> Result<(), Memory>
    requires gone { 0 < length gone.old.items }
    requires come { 0 < length come.old.items }
    ensures parted { (all : List (Held Rule)) → (others : List Made)
        → IsParted all others gone.old.items come.old.items parted.old.gone.items parted.old.come.items
        parted.old.both.items
        → OnOk result (IsParted all others gone.new.items come.new.items parted.new.gone.items parted.new.come.items
        parted.new.both.items) }
    ensures fewer { length gone.new.items + length come.new.items < length gone.old.items + length come.old.items }
{
    match order_of_last(gone, come) {
        Ordering::Greater => {
            if let Some(old) = gone.pop() {
                parted.gone.push(old)?;
            }
            Ok(())
        }
        _ => take_come(gone, come, parted),
    }
}

/// Tells the rules that go and those that come apart from those that do both.
pub(crate) fn part<'a>(
    alloc: Global,
    gone: Vec<Old<'a>>,
    come: Vec<Made>,
) -> Result<Parted<'a>, Memory>
    ensures { IfOk result (λ parted. IsToldApart gone.entry.items come.items parted.gone.items parted.come.items
        parted.both.items) }
{
    let mut gone = gone;
    let mut come = come;
    gone.sort_by(|a, b| a.rule.cmp_listed(b.rule))?;
    come.sort_by(|a, b| a.rule.cmp_listed(&b.rule))?;
    let mut parted = Parted {
        gone: Vec::new(alloc),
        come: Vec::new(alloc),
        both: Vec::new(alloc),
    };
    while !gone.is_empty() && !come.is_empty() {
        part_one(&mut gone, &mut come, &mut parted)?;
    }
    parted.gone.append(&mut gone)?;
    parted.come.append(&mut come)?;
    Ok(parted)
}
