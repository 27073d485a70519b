//! A list over a vector, which contracts see as the list of its items.

ghost use Rattle.std.specs.Prelude.{◌≡◌, ◌+◌, ◌<◌, ◌≤◌, ◌^◌, ◌↔◌, List, [], ◌∷◌, ◌++◌, length, take, IsTrue, OnOk, OnErr, IfOk};
ghost use Rattle.std.specs.Cmp.Lexicographic.{pointwise, lists_per, lists_equiv};
ghost use Rattle.std.specs.Iterator.Runs.{EveryRun, ItemsAre, ItemsMapTo};
ghost use Rattle.std.specs.Slice.Iter.{iter_rest, iter_steps};
ghost use Rattle.std.specs.Vec.{vec_len, vec_capacity};
ghost use Rattle.std.specs.declared.alloc.Global.{Global};
ghost use Rattle.std.specs.Vec.Iter.{into_iter_items, into_iter_steps};

use std::alloc::{AllocError, Global};
use std::marker::Model;
use std::{mem, slice, vec};

/// A list, which contracts see as the list of its items.
#[derive(Debug, Drop)]
pub struct PlainList<T> {
    items: Vec<T>,
}

impl<T> Model for PlainList<T> {
    ghost use Rattle.std.specs.Prelude.{List};

    ghost Value = { List T };

    ghost view = { λ list. list.items.items };
}

impl<T> PlainList<T> {
    /// The empty list. Takes no memory.
    pub fn new(alloc: Global) -> PlainList<T>
        ensures { result ≡ [] }
    {
        PlainList {
            items: Vec::new(alloc),
        }
    }

    /// The empty list, with room for so many items.
    ///
    /// # Errors
    /// Only where memory runs out.
    pub fn with_capacity(alloc: Global, count: usize) -> Result<PlainList<T>, AllocError>
        ensures { IfOk result (λ list. list ≡ []) }
    {
        let items = Vec::with_capacity(alloc, count)?;
        Ok(PlainList { items })
    }

    /// Makes room for so many more items.
    ///
    /// # Errors
    /// Only where memory runs out.
    pub fn reserve(&mut self, count: usize) -> Result<(), AllocError>
        ensures { self.new ≡ self.old }
    {
        self.items.reserve(count)
    }

    /// The list of a vector's items. Takes no memory.
    pub fn from_vec(items: Vec<T>) -> PlainList<T>
        ensures { result ≡ items.items }
    {
        PlainList { items }
    }

    /// The vector of the same items. Takes no memory.
    pub fn into_vec(self) -> Vec<T>
        ensures { result.items ≡ self }
    {
        self.items
    }

    /// Swaps the items with those of a vector. Takes no memory.
    pub fn swap_vec(&mut self, other: &mut Vec<T>)
        ensures list { self.new ≡ other.old.items }
        ensures vec { other.new.items ≡ self.old }
    {
        mem::swap(&mut self.items, other);
    }

    /// Takes the items out as a vector, and leaves none. Takes no memory.
    pub fn take_vec(&mut self) -> Vec<T>
        ensures vec { result.items ≡ self.old }
        ensures list { self.new ≡ [] }
    {
        let empty = Vec::new(*self.items.allocator());
        mem::replace(&mut self.items, empty)
    }

    /// The items as a slice.
    pub fn as_slice(&self) -> &[T]
        ensures { result.now ≡ self.now }
    {
        self.items.as_slice()
    }

    /// How many items there are.
    pub fn len(&self) -> usize
        ensures { result ≡ length self.now }
    {
        self.items.len()
    }

    /// Whether there is no item.
    pub fn is_empty(&self) -> bool
        ensures { IsTrue result ↔ (self.now ≡ []) }
    {
        self.items.is_empty()
    }
}

impl<T: Drop> PlainList<T> {
    /// Drops all items and keeps their memory for later ones.
    pub fn clear(&mut self)
        ensures { self.new ≡ [] }
    {
        self.items.clear();
    }

    /// Keeps the first so many items and drops those behind. Takes no memory.
    pub fn truncate(&mut self, count: usize)
        ensures { self.new ≡ take count self.old }
    {
        self.items.truncate(count);
    }

    /// Adds an item at the end.
    ///
    /// # Errors
    /// Only where memory runs out; the list is then unchanged and the item dropped.
    pub fn push(&mut self, item: T) -> Result<(), AllocError>
        ensures ok { OnOk result (self.new ≡ self.old ++ item ∷ []) }
        ensures err { OnErr result (self.new ≡ self.old) }
    {
        self.items.push(item)?;
        Ok(())
    }

    /// Moves the items of another list behind those of this one.
    ///
    /// # Errors
    /// Only where memory runs out; both lists are then unchanged.
    pub fn append_list(&mut self, other: &mut PlainList<T>) -> Result<(), AllocError>
        ensures ok { OnOk result (self.new ≡ self.old ++ other.old) }
        ensures moved { OnOk result (other.new ≡ []) }
        ensures err { OnErr result (self.new ≡ self.old) }
        ensures kept { OnErr result (other.new ≡ other.old) }
    {
        self.items.append(&mut other.items)
    }
}

impl<T: Copy> PlainList<T> {
    /// A copy of a slice.
    ///
    /// # Errors
    /// Only where memory runs out.
    pub fn from_slice(alloc: Global, items: &[T]) -> Result<PlainList<T>, AllocError>
        ensures { IfOk result (λ list. list ≡ items.now) }
    {
        let items = Vec::from_slice(alloc, items)?;
        Ok(PlainList { items })
    }

    /// Adds the items of a slice at the end.
    ///
    /// # Errors
    /// Only where memory runs out; the list is then unchanged.
    pub fn append(&mut self, piece: &[T]) -> Result<(), AllocError>
        ensures ok { OnOk result (self.new ≡ self.old ++ piece.now) }
        ensures err { OnErr result (self.new ≡ self.old) }
    {
        self.items.extend_from_slice(piece)
    }
}

/// Adds the items of a slice behind those of a vector that has the room for them. Takes no memory.
pub fn append_reserved<T: Copy>(items: &mut Vec<T>, piece: &[T])
    requires { vec_len items.old + length piece.now ≤ vec_capacity items.old }
    ensures items { items.new.items ≡ items.old.items ++ piece.now }
    ensures len { vec_len items.new ≡ vec_len items.old + length piece.now }
    ensures room { vec_capacity items.old ≤ vec_capacity items.new }
{
    items.extend_from_slice(piece).unwrap();
}

impl<T: Copy> Clone for PlainList<T> {
    ghost is_clone = { λ list copy. copy ≡ list };

    fn clone(&self) -> Result<PlainList<T>, AllocError> {
        PlainList::from_slice(*self.items.allocator(), self.items.as_slice())
    }
}

impl<T: PartialEq> PartialEq for PlainList<T> {
    ghost eq = { pointwise T.eq };

    ghost laws = { lists_per T.laws };

    fn eq(&self, other: &PlainList<T>) -> bool {
        self.items.as_slice() == other.items.as_slice()
    }
}

impl<T: Eq> Eq for PlainList<T> {
    ghost laws = { lists_equiv T.Eq.laws };
}

impl<'a, T> IntoIterator for &'a PlainList<T> {
    type Item = &'a T;

    type IntoIter = slice::Iter<'a, T>;

    ghost into_iter_gives = { λ list it. (iter_rest it ≡ list.now)
        × (length (iter_rest it) < 2 ^ 64)
        × EveryRun (iter_steps {A = T}) (λ p. ItemsMapTo p (λ x. x.now) (iter_rest p.from)) };

    fn into_iter(self) -> slice::Iter<'a, T> {
        self.items.as_slice().iter()
    }
}

impl<T: Drop> IntoIterator for PlainList<T> {
    type Item = T;

    type IntoIter = vec::IntoIter<T>;

    ghost into_iter_gives = { λ list it. (into_iter_items it ≡ list)
        × EveryRun (into_iter_steps {X = T} {Z = Global})
        (λ p. ItemsAre p (into_iter_items p.from)) };

    fn into_iter(self) -> vec::IntoIter<T> {
        self.items.into_iter()
    }
}
