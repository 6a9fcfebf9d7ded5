//! The internet checksum, mended where words change (RFC 1624).
ghost use Rattle.std.specs.Prelude.{◌≡◌, ◌<◌, ◌≤◌, ◌+◌, ◌^◌};
ghost use Rattle.pkt_bytes.specs.Checksums.{change as change_of, mended as mended_of, ones_sum as ones_sum_of};

/// What a word that changes adds to a sum.
#[tactic(auto, unfolding(crate::specs::Checksums::change))]
pub(crate) fn change(old: u16, new: u16) -> u32
    ensures value { result ≡ change_of old new }
    ensures small { result < 2 ^ 17 }
{
    if old == new {
        0
    } else {
        u32::from(!old) + u32::from(new)
    }
}

/// The one's complement sum of words, of their plain sum: what overflows 16 bits is added again.
#[tactic(auto, unfolding(crate::specs::Checksums::ones_sum))]
fn ones_sum(total: u32) -> u16
    ensures { result ≡ ones_sum_of total }
{
    let once = (total & 0xffff) + (total >> 16);
    let twice = (once & 0xffff) + (once >> 16);
    twice as u16
}

/// A checksum after changes that add this much.
#[tactic(auto, unfolding(crate::specs::Checksums::mended))]
pub(crate) fn mended(checksum: u16, changes: u32) -> u16
    requires { changes < 2 ^ 31 }
    ensures { result ≡ mended_of checksum changes }
{
    !ones_sum(u32::from(!checksum) + changes)
}
