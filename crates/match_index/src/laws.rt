//! Laws of an index. The function does nothing; its clauses say what is proved of every question.
ghost use Rattle.std.specs.Prelude.{◌≡◌, true, Bool, List, Option, IsPermutation};
ghost use Rattle.of10_match.specs.Ranges.{IsMatch};
ghost use Rattle.match_index.specs.InsideShapes.{is_named_by, kept_by, shape_of};
ghost use Rattle.match_index.specs.InsideGroups.{SameItems};
ghost use Rattle.match_index.specs.Items.{IsTop, ids_of};
ghost use Rattle.match_index.specs.Questions.{asks, probe};
ghost use Rattle.match_index.specs.declared.item.Item.{Item};
ghost use Rattle.match_index.specs.declared.question.Question.{Question};

/// Where a question names all fields of an item's match, the item is asked for only if its match is
/// what the question has in these fields. The first of the items that pass a test, and their ids, don't
/// depend on the order of the items.
pub fn search_laws()
    ensures place { (q : Question) (e : Item) → IsMatch e.normal → asks q e ≡ true
        → is_named_by (shape_of e.normal) (probe q) ≡ true → kept_by (shape_of e.normal) (probe q) ≡ e.normal }
    ensures first { (p : Item → Bool) (xs ys : List Item) (a : Option Item) → SameItems xs ys → IsTop p ys a
        → IsTop p xs a }
    ensures ids { (p : Item → Bool) (xs ys : List Item) → SameItems xs ys → IsPermutation (ids_of p xs) (ids_of p ys) }
{}
