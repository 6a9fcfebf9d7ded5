//! Lists over a vector, which contracts see as lists.
ghost use Rattle.std.specs.Prelude.{◌≡◌, ◌==◌, ◌<◌, ◌≤◌, ◌+◌, ◌^◌, ◌↔◌, [], ◌∷◌, ◌++◌, IfOk, OnErr, OnOk, IsSome};
ghost use Rattle.std.specs.Prelude.{IsTrue, Some, length, take, option_to_list, slice_set};
ghost use Rattle.std.specs.List.{slice_get, insert as list_insert, remove as list_remove};
ghost use Rattle.std.specs.Borrow.{sem};
ghost use Rattle.cv_io.specs.Lends.{lends_slice};
ghost use Rattle.std.specs.Option.{option_copied};
ghost use Rattle.std.specs.Slice.{IsItemAt};
ghost use Rattle.std.specs.Cmp.Lexicographic.{pointwise, lists_per, lists_equiv};

use crate::memory::Memory;
use std::alloc::Global;
use std::marker::Model;

/// A value that can be copied where there is memory for it.
pub trait Duplicate: Sized {
    fn copy(&self) -> Result<Self, Memory>
        ensures { IfOk result (λ copied. copied ≡ self.now) };

    /// Copies of a slice's items. Plain items are copied at once.
    fn copies(alloc: Global, items: &[Self]) -> Result<List<Self>, Memory>
    where
        Self: Drop,
        ensures { IfOk result (λ list. list ≡ items.now) }
    {
        let mut copied = List::with_capacity(alloc, items.len())?;
        for item in items {
            copied.push(item.copy()?)?;
        }
        Ok(copied)
    }
}

/// A list over a vector.
#[derive(Drop, Debug)]
pub struct List<T> {
    items: Vec<T>,
}

/// A list of bytes.
pub type Bytes = List<u8>;

impl<T> Model for List<T> {
    ghost use Rattle.std.specs.Prelude.{List};

    ghost Value = { List T };

    ghost view = { λ list. list.items.items };
}

impl<T> List<T> {
    /// The empty list, which takes no memory.
    pub fn new(alloc: Global) -> Self
        ensures { result ≡ [] }
    {
        List {
            items: Vec::new(alloc),
        }
    }

    /// The empty list, with room for so many items.
    pub fn with_capacity(alloc: Global, room: usize) -> Result<Self, Memory>
        ensures { IfOk result (λ list. list ≡ []) }
    {
        Ok(List {
            items: Vec::with_capacity(alloc, room)?,
        })
    }

    /// The list of a vector's items.
    pub fn from_vec(items: Vec<T>) -> Self
        ensures { result ≡ items.items }
    {
        List { items }
    }

    /// The vector of the list's items.
    pub fn into_vec(self) -> Vec<T>
        ensures { result.items ≡ self }
    {
        self.items
    }

    pub fn len(&self) -> usize
        ensures { result ≡ length self.now }
    {
        self.items.len()
    }

    pub fn is_empty(&self) -> bool
        ensures { result ≡ (length self.now == 0) }
    {
        self.items.is_empty()
    }

    pub fn as_slice(&self) -> &[T]
        ensures { result.now ≡ self.now }
    {
        self.items.as_slice()
    }

    /// The item at a place, from 0.
    pub fn get(&self, place: usize) -> Option<&T>
        ensures value { option_copied result ≡ slice_get self.now place }
        ensures item { IsItemAt self.now place result }
    {
        self.items.as_slice().get(place)
    }

    /// The items, for writing.
    pub fn as_mut_slice(&mut self) -> &mut [T]
        ensures* writes_back { sem 𝓛 (lends_slice T.row self.entry result) }
        ensures value { result.now ≡ self.old }
    {
        self.items.as_mut_slice()
    }

    /// Makes room for so many more items.
    pub fn reserve(&mut self, more: usize) -> Result<(), Memory>
        ensures { self.new ≡ self.old }
    {
        self.items.reserve(more)?;
        Ok(())
    }

    /// Takes out the item at a place; the later ones move down.
    pub fn remove(&mut self, place: usize) -> T
        requires { place < length self.old }
        ensures item { slice_get self.old place ≡ Some result }
        ensures items { self.new ≡ list_remove self.old place }
    {
        self.items.remove(place)
    }

    /// Takes the last item.
    pub fn pop(&mut self) -> Option<T>
        ensures items { self.old ≡ self.new ++ option_to_list result }
        ensures there { IsSome result ↔ (0 < length self.old) }
    {
        self.items.pop()
    }
}

impl<T: Drop> List<T> {
    /// Appends an item.
    pub fn push(&mut self, item: T) -> Result<(), Memory>
        ensures pushed { OnOk result (self.new ≡ self.old ++ item ∷ []) }
        ensures memory { OnErr result (self.new ≡ self.old) }
    {
        self.items.push(item)?;
        Ok(())
    }

    /// Appends an item, if there is one.
    pub fn push_some(&mut self, item: Option<T>) -> Result<(), Memory>
        ensures pushed { OnOk result (self.new ≡ self.old ++ option_to_list item) }
        ensures memory { OnErr result (self.new ≡ self.old) }
    {
        match item {
            Some(item) => self.push(item),
            None => Ok(()),
        }
    }

    /// Appends another list's items.
    pub fn append(&mut self, more: List<T>) -> Result<(), Memory>
        ensures appended { OnOk result (self.new ≡ self.old ++ more) }
        ensures memory { OnErr result (self.new ≡ self.old) }
    {
        let List { mut items } = more;
        self.items.append(&mut items)?;
        Ok(())
    }

    /// Puts an item at a place, from 0 to the length; the item there and those after it move up.
    pub fn insert(&mut self, place: usize, item: T) -> Result<(), Memory>
        requires { place ≤ length self.old }
        ensures inserted { OnOk result (self.new ≡ list_insert self.old place item) }
        ensures memory { OnErr result (self.new ≡ self.old) }
    {
        self.items.insert(place, item)?;
        Ok(())
    }

    /// Puts an item in the place of another.
    pub fn set(&mut self, place: usize, item: T)
        requires { place < length self.old }
        ensures { self.new ≡ slice_set self.old place item }
    {
        self.items[place] = item;
    }

    /// Keeps the first so many items.
    pub fn truncate(&mut self, kept: usize)
        ensures { self.new ≡ take kept self.old }
    {
        self.items.truncate(kept);
    }

    pub fn clear(&mut self)
        ensures { self.new ≡ [] }
    {
        self.items.clear();
    }
}

impl<T: Copy> List<T> {
    /// The list of a slice's items.
    pub fn from_slice(alloc: Global, items: &[T]) -> Result<Self, Memory>
        ensures { IfOk result (λ list. list ≡ items.now) }
    {
        Ok(List {
            items: Vec::from_slice(alloc, items)?,
        })
    }

    /// A copy.
    pub fn copied(&self) -> Result<List<T>, Memory>
        ensures { IfOk result (λ list. list ≡ self.now) }
    {
        List::from_slice(*self.items.allocator(), self.items.as_slice())
    }

    /// Appends a slice's items.
    pub fn extend_from_slice(&mut self, items: &[T]) -> Result<(), Memory>
        ensures extended { OnOk result (self.new ≡ self.old ++ items.now) }
        ensures memory { OnErr result (self.new ≡ self.old) }
    {
        self.items.extend_from_slice(items)?;
        Ok(())
    }
}

impl<T: Duplicate + Drop> Duplicate for List<T> {
    fn copy(&self) -> Result<List<T>, Memory> {
        T::copies(*self.items.allocator(), self.items.as_slice())
    }
}

impl<T: PartialEq> PartialEq for List<T> {
    ghost eq = { pointwise T.eq };

    ghost laws = { lists_per T.laws };

    fn eq(&self, other: &List<T>) -> bool {
        self.as_slice() == other.as_slice()
    }
}

impl<T: Eq> Eq for List<T> {
    ghost laws = { lists_equiv T.Eq.laws };
}

impl Duplicate for u8 {
    fn copy(&self) -> Result<u8, Memory> {
        Ok(*self)
    }

    fn copies(alloc: Global, items: &[u8]) -> Result<List<u8>, Memory> {
        List::from_slice(alloc, items)
    }
}

impl Duplicate for u16 {
    fn copy(&self) -> Result<u16, Memory> {
        Ok(*self)
    }

    fn copies(alloc: Global, items: &[u16]) -> Result<List<u16>, Memory> {
        List::from_slice(alloc, items)
    }
}

impl Duplicate for u32 {
    fn copy(&self) -> Result<u32, Memory> {
        Ok(*self)
    }

    fn copies(alloc: Global, items: &[u32]) -> Result<List<u32>, Memory> {
        List::from_slice(alloc, items)
    }
}

impl Duplicate for u64 {
    fn copy(&self) -> Result<u64, Memory> {
        Ok(*self)
    }

    fn copies(alloc: Global, items: &[u64]) -> Result<List<u64>, Memory> {
        List::from_slice(alloc, items)
    }
}

impl Duplicate for usize {
    fn copy(&self) -> Result<usize, Memory> {
        Ok(*self)
    }

    fn copies(alloc: Global, items: &[usize]) -> Result<List<usize>, Memory> {
        List::from_slice(alloc, items)
    }
}

impl Duplicate for bool {
    fn copy(&self) -> Result<bool, Memory> {
        Ok(*self)
    }

    fn copies(alloc: Global, items: &[bool]) -> Result<List<bool>, Memory> {
        List::from_slice(alloc, items)
    }
}

impl<T: Duplicate> Duplicate for Option<T> {
    fn copy(&self) -> Result<Option<T>, Memory> {
        match self {
            Some(value) => Ok(Some(value.copy()?)),
            None => Ok(None),
        }
    }
}

impl<A: Duplicate + Drop, B: Duplicate> Duplicate for (A, B) {
    fn copy(&self) -> Result<(A, B), Memory> {
        Ok((self.0.copy()?, self.1.copy()?))
    }
}
