//! Levels and sizes of composed rules, saturating.
ghost use Rattle.std.specs.Prelude.{◌≡◌, ◌<◌, ◌^◌};
ghost use Rattle.alg_priority.specs.Levels.{capped, sum_level, concat_level, shift_level};
ghost use Rattle.alg_priority.specs.Sizes.{sum_size, concat_size, shift_size};

/// The level of a rule of `a + b`, from the levels of its two parts.
pub fn sum(a: u64, b: u64) -> u64
    ensures saturated { result ≡ capped (sum_level a b) }
    ensures exact { sum_level a b < 2 ^ 64 → result ≡ sum_level a b }
{
    a.saturating_add(b)
}

/// The level of a rule of `a >> b`, from the levels of its two parts: in base `size_b`, the digit `a`
/// and then the digit `b`. A rule that stands without a right part has `b` 0.
pub fn concat(a: u64, b: u64, size_b: u64) -> u64
    ensures saturated { result ≡ capped (concat_level a b size_b) }
    ensures exact { concat_level a b size_b < 2 ^ 64 → result ≡ concat_level a b size_b }
{
    a.saturating_mul(size_b).saturating_add(b)
}

/// The level of a left rule of `a |> b`: above all right rules, whose levels lie below `size_b`.
pub fn shift(a: u64, size_b: u64) -> u64
    ensures saturated { result ≡ capped (shift_level a size_b) }
    ensures exact { shift_level a size_b < 2 ^ 64 → result ≡ shift_level a size_b }
{
    size_b.saturating_add(a)
}

/// How many levels `a + b` has.
pub fn size_sum(a: u64, b: u64) -> u64
    ensures { result ≡ capped (sum_size a b) }
{
    match a.checked_sub(1) {
        Some(top) => top.saturating_add(b),
        None => b.saturating_sub(1),
    }
}

/// How many levels `a >> b` has.
pub fn size_concat(a: u64, b: u64) -> u64
    ensures { result ≡ capped (concat_size a b) }
{
    a.saturating_mul(b)
}

/// How many levels `a |> b` has.
pub fn size_shift(a: u64, b: u64) -> u64
    ensures { result ≡ capped (shift_size a b) }
{
    a.saturating_add(b)
}
