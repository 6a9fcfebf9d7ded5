//! Texts of ASCII.
ghost use Rattle.std.specs.Prelude.{◌≡◌, ◌==◌, ◌↔◌, ◌<◌, [], ◌∷◌, ◌++◌, IfOk, IfErr, OnErr, OnOk, IsOk, length};
ghost use Rattle.cv_io.specs.Text.{IsAsciiText, IsFirstOther};
ghost use Rattle.std.specs.Cmp.Lexicographic.{pointwise, nat_list_eq_equiv};
ghost use Rattle.std.specs.Cmp;

use crate::list::{Bytes, Duplicate};
use crate::memory::Memory;
use std::alloc::Global;
use std::fmt;
use std::marker::Model;
use thiserror::Error;

/// Bytes that aren't all ASCII: the place of the first one that isn't.
#[derive(Clone, Copy, PartialEq, Eq, Debug, Error)]
#[error("byte {at} is not ASCII")]
pub struct NotAscii {
    pub at: usize,
}

/// A list of ASCII bytes.
#[derive(Drop, Debug)]
pub struct Text {
    bytes: Bytes,
}

impl Model for Text {
    ghost use Rattle.std.specs.Prelude.{List, ℕ};
    ghost use Rattle.cv_io.specs.Text.{IsAsciiText};

    ghost Value = { List ℕ };

    ghost view = { λ text. text.bytes };

    ghost invariant = { λ text. IsAsciiText text.bytes };
}

impl Text {
    /// The empty text.
    pub fn new(alloc: Global) -> Self
        ensures { result ≡ [] }
    {
        Text {
            bytes: Bytes::new(alloc),
        }
    }

    /// The text of these bytes.
    pub fn from_bytes(bytes: Bytes) -> Result<Self, NotAscii>
        ensures ascii { IsOk result ↔ IsAsciiText bytes }
        ensures text { IfOk result (λ text. text ≡ bytes) }
        ensures first { IfErr result (λ fault. IsFirstOther bytes fault.at) }
    {
        for (at, byte) in bytes.as_slice().iter().enumerate() {
            if *byte >= 128 {
                return Err(NotAscii { at });
            }
        }
        Ok(Text { bytes })
    }

    /// The text of ASCII bytes that are lent.
    pub fn from_slice(alloc: Global, bytes: &[u8]) -> Result<Self, Memory>
        requires { IsAsciiText bytes.now }
        ensures { IfOk result (λ text. text ≡ bytes.now) }
    {
        Ok(Text {
            bytes: Bytes::from_slice(alloc, bytes)?,
        })
    }

    /// The bytes of the text.
    pub fn into_bytes(self) -> Bytes
        ensures { result ≡ self }
    {
        let Text { bytes } = self;
        bytes
    }

    pub fn is_empty(&self) -> bool
        ensures { result ≡ (length self.now == 0) }
    {
        self.bytes.is_empty()
    }

    pub fn len(&self) -> usize
        ensures { result ≡ length self.now }
    {
        self.bytes.len()
    }

    pub fn as_bytes(&self) -> &[u8]
        ensures bytes { result.now ≡ self.now }
        ensures ascii { IsAsciiText result.now }
    {
        self.bytes.as_slice()
    }

    /// Appends a byte of ASCII.
    pub fn push(&mut self, byte: u8) -> Result<(), Memory>
        requires { byte < 128 }
        ensures pushed { OnOk result (self.new ≡ self.old ++ byte ∷ []) }
        ensures memory { OnErr result (self.new ≡ self.old) }
    {
        self.bytes.push(byte)
    }

    /// Appends a text.
    pub fn push_text(&mut self, more: &Text) -> Result<(), Memory>
        ensures pushed { OnOk result (self.new ≡ self.old ++ more.now) }
        ensures memory { OnErr result (self.new ≡ self.old) }
    {
        self.bytes.extend_from_slice(more.as_bytes())
    }
}

impl fmt::Display for Text {
    fn fmt<W: fmt::Write>(&self, f: &mut fmt::Formatter<W>) -> fmt::Result {
        for byte in self.as_bytes() {
            f.write_char(char::from(*byte))?;
        }
        Ok(())
    }
}

impl Duplicate for Text {
    fn copy(&self) -> Result<Text, Memory> {
        Ok(Text {
            bytes: self.bytes.copy()?,
        })
    }
}

impl PartialEq for Text {
    ghost use Rattle.std.specs.Prelude.{nat_eq};

    ghost eq = { pointwise nat_eq };

    ghost laws = { Cmp.partial_equiv_from_equiv nat_list_eq_equiv };

    fn eq(&self, other: &Text) -> bool {
        self.as_bytes() == other.as_bytes()
    }
}

impl Eq for Text {
    ghost laws = { nat_list_eq_equiv };
}
