//! Whether a size fits a switch.
ghost use Rattle.std.specs.Prelude.{◌≡◌, ◌≤◌, ◌<◌, ◌↔◌, IsOk, IfErr};
ghost use Rattle.alg_priority.specs.Sizes.{WIDEST as widest};

use thiserror::Error;

/// The most levels that a switch's 16-bit priorities can hold beside those that are kept for the
/// program's own entries.
pub const WIDEST: u64 = 65_534;

/// An expression has more levels than a switch has priorities for.
#[derive(Clone, Copy, Debug, PartialEq, Eq, Error)]
#[error("{needed} priorities are needed and {limit} are there")]
pub struct TooWide {
    /// How many levels the expression has, at most the greatest u64.
    pub needed: u64,
    /// How many there may be.
    pub limit: u64,
}

/// Tests that this many levels fit a switch.
pub fn fits(needed: u64) -> Result<(), TooWide>
    ensures ok { IsOk result ↔ (needed ≤ widest) }
    ensures err { IfErr result (λ e. (e.needed ≡ needed) × (e.limit ≡ widest)) }
{
    if needed > WIDEST {
        return Err(TooWide {
            needed,
            limit: WIDEST,
        });
    }
    Ok(())
}
