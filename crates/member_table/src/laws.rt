//! Laws.
ghost use Rattle.std.specs.Prelude.{◌≡◌, ℕ, List};
ghost use Rattle.member_table.specs.Changes.{committed};
ghost use Rattle.member_table.specs.Planning.{removing};
ghost use Rattle.member_table.specs.Sound.{IsSound};
ghost use Rattle.member_table.specs.Tables.{TableOf};
ghost use Rattle.member_table.specs.Timeouts.{ListsRising, is_hard_due, serials_of, without_expired};

/// Where the entries go that are due by their hard timeouts, as `Table::due` lists them, the table without
/// expired entries is left.
#[tactic(auto, using(crate::proofs::Plans::expired_is))]
pub fn removing_what_is_due_leaves_what_has_not_expired()
    ensures { (t : TableOf) (now : ℕ) (due : List ℕ) → IsSound t
        → ListsRising (serials_of (is_hard_due now) t.entries) due
        → committed t (removing due) ≡ without_expired now t }
{}
