//! Bits of masks.
ghost use Rattle.std.specs.Prelude.{◌≡◌, ◌<◌};
ghost use Rattle.grants.specs.Names.{has_bit as has_bit_of};

/// Whether a bit of a mask is set.
pub fn has_bit(mask: u32, bit: u8) -> bool
    requires { bit < 32 }
    ensures { result ≡ has_bit_of mask bit }
{
    (mask >> bit) & 1 == 1
}
