//! Laws of rewrites and of the bytes of actions, each the contract of a function that does nothing.
ghost use Rattle.std.specs.Prelude.{◌≡◌, ℕ, List};
ghost use Rattle.of10_match.specs.Fields.{HeaderOf};
ghost use Rattle.of10_actions.specs.declared.action.Action.{Action};
ghost use Rattle.of10_actions.specs.Actions.{AreActions};
ghost use Rattle.of10_actions.specs.Fields.{RewriteOf};
ghost use Rattle.of10_actions.specs.Numbers as numbers;
ghost use Rattle.of10_actions.specs.Reading.{reading};
ghost use Rattle.of10_actions.specs.Rewriting.{Extends, and_then, apply, no_rewrite};
ghost use Rattle.of10_actions.specs.Spelling.{IsBytes, SpellsList, spellings};
ghost use Rattle.of10_actions.specs.Worked.{FaultsBehindIt, SetWhereThere, ToOneIsSpelled, TwoSets};

use crate::effects::{ACTION, NO_MATCH};
use crate::kind::VENDOR;
use crate::port::{ALL, CONTROLLER, FLOOD, IN_PORT, LOCAL, MAX, NONE, NORMAL, TABLE};

/// Rewriting by one and then by the next is rewriting by their composition, for every header.
pub fn composition()
    ensures { (r s : RewriteOf) (h : HeaderOf) → apply (and_then r s) h ≡ apply s (apply r h) }
{}

/// Composition groups as one likes, and the empty rewrite changes nothing at either end.
pub fn grouping()
    ensures groups { (r s t : RewriteOf) → and_then (and_then r s) t ≡ and_then r (and_then s t) }
    ensures empty_first { (r : RewriteOf) → and_then no_rewrite r ≡ r }
    ensures empty_last { (r : RewriteOf) → and_then r no_rewrite ≡ r }
{}

/// Extending is an order, kept by what comes before; a composition extends its first part.
pub fn extension()
    ensures itself { (r : RewriteOf) → Extends r r }
    ensures onward { (r s t : RewriteOf) → Extends t s → Extends s r → Extends t r }
    ensures composed { (r s : RewriteOf) → Extends (and_then r s) r }
    ensures after { (r s t : RewriteOf) → Extends t s → Extends (and_then r t) (and_then r s) }
    ensures absorbs { (r s : RewriteOf) → Extends s r → and_then r s ≡ s }
{}

/// What is read is spelled so, whatever is spelled so is read, and so is what is written.
pub fn grammar()
    ensures only_spellings { (bytes : List ℕ) (list : List Action) →
        IsBytes bytes → reading bytes ≡ Ok list → SpellsList list bytes × AreActions list }
    ensures all_spellings { (bytes : List ℕ) (list : List Action) →
        AreActions list → SpellsList list bytes → reading bytes ≡ Ok list }
    ensures round_trip { (list : List Action) → AreActions list → reading (spellings list) ≡ Ok list }
{}

/// The constants are the numbers of the standard.
pub fn numbers_meet()
    ensures max { MAX ≡ numbers.MAX }
    ensures in_port { IN_PORT ≡ numbers.IN_PORT }
    ensures table { TABLE ≡ numbers.TABLE }
    ensures normal { NORMAL ≡ numbers.NORMAL }
    ensures flood { FLOOD ≡ numbers.FLOOD }
    ensures all { ALL ≡ numbers.ALL }
    ensures controller { CONTROLLER ≡ numbers.CONTROLLER }
    ensures local { LOCAL ≡ numbers.LOCAL }
    ensures none { NONE ≡ numbers.NONE }
    ensures vendor { VENDOR ≡ numbers.VENDOR }
    ensures no_match { NO_MATCH ≡ numbers.NO_MATCH }
    ensures action { ACTION ≡ numbers.ACTION }
{}

/// The definitions give what is written by hand in these examples.
pub fn worked_examples()
    ensures spelled { ToOneIsSpelled }
    ensures faults { FaultsBehindIt }
    ensures two_sets { TwoSets }
    ensures set_where_there { SetWhereThere }
{}
