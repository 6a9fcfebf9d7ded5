//! Texts of a width.
ghost use Rattle.std.specs.Prelude.{◌≡◌};
ghost use Rattle.member_replies.specs.Ports.{filled as filled_to};

/// A text, filled with zeros up to so many bytes, or cut off there.
pub fn filled<const N: usize>(text: &[u8]) -> [u8; N]
    ensures { result ≡ filled_to N text.now }
{
    let size = text.len().min(N);
    let mut bytes = [0; N];
    bytes[..size].copy_from_slice(&text[..size]);
    bytes
}
