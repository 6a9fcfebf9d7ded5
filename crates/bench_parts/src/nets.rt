//! The nets that entries of several parts are about.
ghost use Rattle.of10_match.specs.Ranges.{IsPrefix};

use of10_match::Prefix;

/// The net 10.x.y.0/24 of this number.
pub(crate) fn net(number: u32) -> Prefix
    ensures { IsPrefix result }
{
    Prefix {
        addr: (0x000a_0000 + number % 0x1_0000) * 256,
        len: 24,
    }
}
