//! Laws of nodes. The functions do nothing; their clauses say what is proved.
ghost use Rattle.std.specs.Prelude.{◌≡◌, ◌++◌, ℕ, Bool, List, IsPermutation, filter, flat_map, map, not};
ghost use Rattle.list_change.specs.Pairing.{by_left, by_right, made};
ghost use Rattle.op_compose.specs.declared.op.Op.{Op};
ghost use Rattle.op_compose.specs.declared.op.Op.TheVariants.{Over, Par, Seq};
ghost use Rattle.policy_meaning.specs.Rules.{chains_with, shifts_with, sums_with};
ghost use Rattle.policy_meaning.specs.declared.rule.Rule.{Rule};
ghost use Rattle.rule_ancestry.specs.Holding.{Held, id_of, is_outside, item_of};
ghost use Rattle.made_rules.specs.Changing.{ChangeOf, IsReady, settled};
ghost use Rattle.made_rules.specs.Rules.{rule_of, rules_in};
ghost use Rattle.made_rules.specs.declared.made.Made.{Made};
ghost use Rattle.incr_compile.specs.Ways.{held_way, is_not_of, left_origin, right_origin, without_ids, way};

/// What a node made stays what its operands make, where a change of one of them is carried over: what
/// was made of the rules that go goes, and what those that come make comes.
pub fn changes_carry()
    ensures left { (op : Op) → (size : ℕ) → (gone : List ℕ) → (items fresh : List Made)
        → (lefts after coming rights : List (Held Rule)) → IsPermutation items (made (held_way op size) lefts rights)
        → IsPermutation fresh (by_left (held_way op size) coming rights)
        → IsPermutation after (coming ++ filter (is_outside gone) lefts)
        → IsPermutation (fresh ++ filter (is_not_of (map left_origin gone)) items)
        (made (held_way op size) after rights) }
    ensures right { (op : Op) → (size : ℕ) → (gone : List ℕ) → (items fresh : List Made)
        → (lefts rights after coming : List (Held Rule)) → IsPermutation items (made (held_way op size) lefts rights)
        → IsPermutation fresh (by_right (held_way op size) lefts coming)
        → IsPermutation after (coming ++ filter (is_outside gone) rights)
        → IsPermutation (fresh ++ filter (is_not_of (map right_origin gone)) items)
        (made (held_way op size) lefts after) }
{}

/// What is held once a change is settled: the rules that were made without those that pass a test, where
/// these were lost, and those that are made anew; and what the nodes above see of it.
pub fn changes_settle()
    ensures made { (before now : List (Held Made)) → (lost : List ℕ) → (fresh : List Made) → (change : ChangeOf)
        → (r : IsReady before now lost fresh change) → (p : Made → Bool)
        → lost ≡ map id_of (filter (λ h. p h.item) before)
        → IsPermutation (map item_of (settled r)) (fresh ++ filter (λ m. not (p m)) (map item_of before)) }
    ensures seen { (before now : List (Held Made)) → (lost : List ℕ) → (fresh : List Made) → (change : ChangeOf)
        → (r : IsReady before now lost fresh change)
        → IsPermutation (rules_in (settled r))
        (rules_in r.coming ++ filter (is_outside change.gone) (rules_in before)) }
{}

/// What operands make is what the rules of their operator are from scratch.
pub fn from_scratch()
    ensures rules { (op : Op) → (size : ℕ) → (xs ys : List (Held Rule))
        → map rule_of (made (held_way op size) xs ys) ≡ made (way op size) (without_ids xs) (without_ids ys) }
    ensures sums { (size : ℕ) → (xs ys : List Rule) → made (way Par size) xs ys ≡ flat_map (sums_with ys) xs }
    ensures chains { (size : ℕ) → (xs ys : List Rule)
        → IsPermutation (made (way Seq size) xs ys) (flat_map (chains_with size ys) xs) }
    ensures shifts { (size : ℕ) → (xs ys : List Rule)
        → made (way Over size) xs ys ≡ flat_map (shifts_with size) xs ++ ys }
{}
