//! Why bytes are no line of a script.
ghost use Rattle.std.specs.Prelude.{◌≡◌};
ghost use Rattle.script_text.specs.declared.fault.LineFault.TheVariants as faults;

use cv_io::Memory;
use thiserror::Error;

/// The first thing that is wrong with a line, in the order in which it is looked for; or want of memory.
/// Each prints as its kind.
#[derive(Clone, Copy, PartialEq, Eq, Debug, Error)]
pub enum LineFault {
    /// Another first word, another number of words, or a byte that isn't printable ASCII.
    #[error("word")]
    Word,
    /// A name, or a place, is not of its form.
    #[error("name")]
    Name,
    /// The digits are not those of so many bytes.
    #[error("hex")]
    Hex,
    /// A number is not of its form, or too large.
    #[error("number")]
    Number,
    #[error("memory")]
    Memory,
}

impl From<Memory> for LineFault {
    ghost from_gives = { λ _ fault. fault ≡ faults.Memory };

    fn from(_wanted: Memory) -> LineFault {
        LineFault::Memory
    }
}
