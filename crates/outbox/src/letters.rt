//! Messages that are to be put into an outbox.
ghost use Rattle.std.specs.Prelude.{◌≡◌, ◌∷◌, ◌++◌, ◌==◌, ◌<◌, ◌^◌, ◌+◌, [], OnErr, OnOk, length, MatchOption};

use cv_io::{Bytes, Duplicate, Memory};
use std::alloc::Global;
use std::collections::LinkedList;
use std::marker::Model;

/// Messages, the first one first. Joining them to others takes no memory.
#[derive(Drop, Debug)]
pub struct Letters {
    items: LinkedList<Bytes>,
    // How many bytes they have together.
    bytes: usize,
}

impl Model for Letters {
    ghost use Rattle.std.specs.Prelude.{ℕ, List};

    ghost Value = { List (List ℕ) };

    ghost view = { λ a. a.items };
}

impl Letters {
    /// No messages.
    pub fn new(alloc: Global) -> Letters
        ensures { result ≡ [] }
    {
        Letters {
            items: LinkedList::new(alloc),
            bytes: 0,
        }
    }

    /// How many there are.
    pub fn len(&self) -> usize
        ensures count { result ≡ length self.now }
        ensures fits { result < 2 ^ 63 }
    {
        self.items.len()
    }

    /// How many bytes they have together. No promise rests on it.
    pub fn bytes(&self) -> usize {
        self.bytes
    }

    /// There are none.
    pub fn is_empty(&self) -> bool
        ensures { result ≡ (length self.now == 0) }
    {
        self.items.len() == 0
    }

    /// Puts a message behind the others.
    pub fn push(&mut self, message: Bytes) -> Result<(), Memory>
        ensures pushed { OnOk result (self.new ≡ self.old ++ message ∷ []) }
        ensures memory { OnErr result (self.new ≡ self.old) }
    {
        let bytes = self.bytes.saturating_add(message.len());
        self.items.push_back(message)?;
        self.bytes = bytes;
        Ok(())
    }

    /// Moves messages behind the others, without memory.
    pub fn join(&mut self, mut more: Letters)
        requires { length self.old + length more < 2 ^ 63 }
        ensures { self.new ≡ self.old ++ more }
    {
        self.items.append(&mut more.items).unwrap();
        self.bytes = self.bytes.saturating_add(more.bytes);
    }

    pub(crate) fn clear(&mut self)
        ensures { self.new ≡ [] }
    {
        self.items.clear();
        self.bytes = 0;
    }

    /// Takes the first message.
    pub fn pop(&mut self) -> Option<Bytes>
        ensures { MatchOption result ((self.old ≡ []) × (self.new ≡ [])) (λ m. self.old ≡ m ∷ self.new) }
    {
        let message = self.items.pop_front()?;
        self.bytes = self.bytes.saturating_sub(message.len());
        Some(message)
    }
}

impl Duplicate for Letters {
    fn copy(&self) -> Result<Letters, Memory> {
        let mut items = LinkedList::new(*self.items.allocator());
        for message in &self.items {
            items.push_back(message.copy()?)?;
        }
        Ok(Letters {
            items,
            bytes: self.bytes,
        })
    }
}
