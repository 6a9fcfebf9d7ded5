//! Laws of changes, of what two operands make, and of permutations.
ghost use Rattle.std.specs.Prelude.{◌≡◌, ◌++◌, [], Bool, true, false, List, Option, Some, None, IsPermutation, filter};
ghost use Rattle.std.specs.Prelude.{filter_map, flat_map};
ghost use Rattle.list_change.specs.Changes.{Apart, Changed};
ghost use Rattle.list_change.specs.Coming.{TellsEqual, came};
ghost use Rattle.list_change.specs.Pairing.{Way, by_left, by_one, by_right, made, pairs};

/// A change of an operand is a change of what both operands make.
pub fn changes_pass<A, B, C>()
    ensures left { (w : Way A B C) → (xs zs gone come : List A) → (ys : List B) → Changed xs zs gone come
        → Changed (made w xs ys) (made w zs ys) (by_left w gone ys) (by_left w come ys) }
    ensures right { (w : Way A B C) → (xs : List A) → (ys zs gone come : List B) → Changed ys zs gone come
        → Changed (made w xs ys) (made w xs zs) (by_right w xs gone) (by_right w xs come) }
{}

/// What is in both lists of a change stays, so that it can be left out of both.
pub fn both_stay<A>()
    ensures { (before after gone come rest others both : List A) → Changed before after gone come
        → IsPermutation gone (rest ++ both) → IsPermutation come (others ++ both) → Changed before after rest others }
{}

/// A change is the same in any order of its lists, and changes stand beside each other.
pub fn changes_join<A>()
    ensures ordered { (xs ys us vs gone come others rest : List A) → IsPermutation xs us → IsPermutation ys vs
        → IsPermutation gone others → IsPermutation come rest → Changed xs ys gone come → Changed us vs others rest }
    ensures beside { (xs ys gone come us vs gone2 come2 : List A) → Changed xs ys gone come → Changed us vs gone2 come2
        → Changed (xs ++ us) (ys ++ vs) (gone ++ gone2) (come ++ come2) }
{}

/// Without some items of one operand: what came of them goes, and nothing else.
pub fn parts_go<A, B, C>()
    ensures left { (w : Way A B C) → (p : C → Bool) → (q : A → Bool)
        → ((a : A) → (c : C) → w.lone a ≡ Some c → p c ≡ q a)
        → ((a : A) → (b : B) → (c : C) → w.pair a b ≡ Some c → p c ≡ q a)
        → ((b : B) → (c : C) → w.other b ≡ Some c → p c ≡ true) → (xs : List A) → (ys : List B)
        → filter p (made w xs ys) ≡ made w (filter q xs) ys }
    ensures right { (w : Way A B C) → (p : C → Bool) → (q : B → Bool)
        → ((a : A) → (c : C) → w.lone a ≡ Some c → p c ≡ true)
        → ((a : A) → (b : B) → (c : C) → w.pair a b ≡ Some c → p c ≡ q b)
        → ((b : B) → (c : C) → w.other b ≡ Some c → p c ≡ q b) → (xs : List A) → (ys : List B)
        → filter p (made w xs ys) ≡ made w xs (filter q ys) }
{}

/// Items that make nothing can be passed over, and what all make is what one after the other makes.
pub fn candidates_suffice<A, B, C>()
    ensures passed { (g : B → Option C) → (could : B → Bool) → ((b : B) → could b ≡ false → g b ≡ None) → (ys : List B)
        → filter_map g ys ≡ filter_map g (filter could ys) }
    ensures each { (w : Way A B C) → (ys : List B) → (xs : List A)
        → IsPermutation (by_left w xs ys) (flat_map (by_one w ys) xs) }
{}

/// What came of a change is what the list after it has more often than the one before, in any order.
pub fn what_came<A>()
    ensures come { (same : A → A → Bool) → TellsEqual same → (before after gone come : List A)
        → Changed before after gone come → Apart gone come → IsPermutation (came same before after) come }
    ensures ordered { (same : A → A → Bool) → TellsEqual same → (before others after rest : List A)
        → IsPermutation before others → IsPermutation after rest
        → IsPermutation (came same before after) (came same others rest) }
    ensures none { (same : A → A → Bool) → TellsEqual same → (xs : List A) → came same xs xs ≡ [] }
    ensures all { (same : A → A → Bool) → (xs : List A) → came same [] xs ≡ xs }
{}
