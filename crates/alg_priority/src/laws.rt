//! Laws of the levels: each function does nothing, and its contract is a law over all numbers.
ghost use Rattle.std.specs.Prelude.{◌≡◌};
ghost use Rattle.alg_priority.specs.Sizes.{WIDEST as widest};
ghost use Rattle.alg_priority.specs.Worked.{Capped, EightLevels};
ghost use Rattle.alg_priority.specs.Laws.{SumIsBelow, SumRises, ConcatIsBelow, ConcatCompares, ShiftIsBelow};
ghost use Rattle.alg_priority.specs.Laws.{ShiftIsAbove, ShiftRises, SumSizeGroups, ConcatSizeGroups, ShiftSizeGroups};
ghost use Rattle.alg_priority.specs.Laws.{SizesArePositive, SaturatesOnce};

use crate::width::WIDEST;

/// Sums of levels stay below the sum's size and rise strictly in each part.
pub fn sum_keeps_order()
    ensures below { SumIsBelow }
    ensures rises { SumRises }
{}

/// Concatenations stay below the concatenation's size and compare by the left part, then the right.
pub fn concat_keeps_order()
    ensures below { ConcatIsBelow }
    ensures compares { ConcatCompares }
{}

/// Shifted left levels stay below the size of the whole, above every right level, and in order.
pub fn shift_keeps_order()
    ensures below { ShiftIsBelow }
    ensures above { ShiftIsAbove }
    ensures rises { ShiftRises }
{}

/// Sizes of one operator do not depend on the grouping, and none is 0.
pub fn sizes_group()
    ensures sums { SumSizeGroups }
    ensures concatenations { ConcatSizeGroups }
    ensures shifts { ShiftSizeGroups }
    ensures positive { SizesArePositive }
{}

/// The greatest size is the literal.
pub fn widest_meets()
    ensures { WIDEST ≡ widest }
{}

/// A size that is computed by saturating steps is the size itself, saturated once.
pub fn saturation_is_late()
    ensures { SaturatesOnce }
{}

/// What the definitions give in examples.
pub fn worked_examples()
    ensures levels { EightLevels }
    ensures capped { Capped }
{}
