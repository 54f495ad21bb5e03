//! Lists that are mostly short. Contracts see a `ShortList` as the list of its items.

ghost use Rattle.std.specs.Prelude.{◌≡◌, ◌↔◌, [], ◌∷◌, ◌++◌, length, IsTrue, IfOk, OnOk, OnErr};

use crate::NoMemory;
use smallvec::SmallVec;
use std::alloc::Global;
use std::default::MadeWith;
use std::marker::Model;

/// A list of items. Up to N of them stand in the value itself, and more in memory of their own.
#[derive(Debug)]
pub struct ShortList<T, const N: usize> {
    items: SmallVec<T, N>,
}

impl<T, const N: usize> Model for ShortList<T, N> {
    ghost use Rattle.std.specs.Prelude.{List};
    ghost use Rattle.std.specs.Coded.{coded_list};

    ghost Value = { List T };

    ghost coded = { coded_list T.code };

    ghost view = { λ s. s.items.items };
}

impl<T: MadeWith<Global> + Drop, const N: usize> ShortList<T, N> {
    /// The empty list. It takes no memory.
    pub fn new(alloc: Global) -> ShortList<T, N>
        ensures { result ≡ [] }
    {
        ShortList {
            items: SmallVec::new(alloc),
        }
    }

    /// The empty list with room for so many items.
    pub fn with_capacity(alloc: Global, capacity: usize) -> Result<ShortList<T, N>, NoMemory>
        ensures { IfOk result (λ items. items ≡ []) }
    {
        Ok(ShortList {
            items: SmallVec::with_capacity(alloc, capacity)?,
        })
    }

    /// The list of a vector's items, in its memory where it has room for more than N.
    pub fn from_vec(items: Vec<T>) -> ShortList<T, N>
        ensures { result ≡ items.items }
    {
        ShortList {
            items: SmallVec::from_vec(items),
        }
    }

    /// Puts an item last.
    pub fn push(&mut self, item: T) -> Result<(), NoMemory>
        ensures ok { OnOk result (self.new ≡ self.old ++ item ∷ []) }
        ensures err { OnErr result (self.new ≡ self.old) }
    {
        self.items.push(item)?;
        Ok(())
    }

    /// Drops the items, and keeps the memory.
    pub fn clear(&mut self)
        ensures { self.new ≡ [] }
    {
        self.items.clear();
    }
}

impl<T, const N: usize> ShortList<T, N> {
    /// Lends the items.
    pub fn as_slice(&self) -> &[T]
        ensures { result.now ≡ self.now }
    {
        self.items.as_slice()
    }

    /// How many items there are.
    pub fn len(&self) -> usize
        ensures { result ≡ length self.now }
    {
        self.items.len()
    }

    /// Whether there are none.
    pub fn is_empty(&self) -> bool
        ensures { IsTrue result ↔ (self.now ≡ []) }
    {
        self.items.is_empty()
    }
}

impl<T: MadeWith<Global> + Copy, const N: usize> ShortList<T, N> {
    /// The list of a slice's items.
    pub fn from_slice(alloc: Global, items: &[T]) -> Result<ShortList<T, N>, NoMemory>
        ensures { IfOk result (λ list. list ≡ items.now) }
    {
        Ok(ShortList {
            items: SmallVec::from_slice(alloc, items)?,
        })
    }

    /// Puts the items of a slice last, all or none.
    pub fn extend_from_slice(&mut self, items: &[T]) -> Result<(), NoMemory>
        ensures ok { OnOk result (self.new ≡ self.old ++ items.now) }
        ensures err { OnErr result (self.new ≡ self.old) }
    {
        self.items.extend_from_slice(items)
    }
}

impl<T: PartialEq, const N: usize> PartialEq for ShortList<T, N> {
    ghost use Rattle.std.specs.Cmp.Lexicographic.{pointwise, lists_per};

    ghost eq = { pointwise T.eq };

    ghost laws = { lists_per T.laws };

    fn eq(&self, other: &ShortList<T, N>) -> bool {
        self.items.as_slice() == other.items.as_slice()
    }
}

impl<T: MadeWith<Global> + Clone, const N: usize> Clone for ShortList<T, N> {
    ghost use Rattle.std.specs.List.{AllZip};

    ghost is_clone = { λ l n. AllZip T.is_clone l n };

    fn clone(&self) -> Result<ShortList<T, N>, NoMemory> {
        Ok(ShortList {
            items: self.items.clone()?,
        })
    }
}

impl<T: Drop, const N: usize> Drop for ShortList<T, N> {
    fn drop(self) {
        let ShortList { items: _ } = self;
    }
}
