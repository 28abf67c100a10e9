//! Lists that grow at the end: vectors, and vectors that store a few items inline.

ghost use Rattle.std.specs.Prelude.{◌≡◌, [], ◌∷◌, ◌++◌, List, OnOk};

use smallvec::SmallVec;
use std::alloc::{AllocError, Global};
use std::default::MadeWith;

/// The number of items that a short list stores inline: one for each process.
pub(crate) const INLINE: usize = 4;

/// The capacity of a vector after its first item. It is small because most lists are short.
const FIRST: usize = 2;

/// A list to which items can be appended.
pub(crate) trait Growing<T>: Sized {
    // the items, in order
    ghost listed: { Self → List T };

    /// Creates an empty list.
    fn empty(alloc: Global) -> Self
        ensures { listed result ≡ [] };

    /// Appends `item`.
    fn put(&mut self, item: T) -> Result<(), AllocError>
        ensures { OnOk result (listed self.new ≡ listed self.old ++ item ∷ []) };
}

impl<T: Drop> Growing<T> for Vec<T> {
    ghost listed = { λ v. v.items };

    fn empty(alloc: Global) -> Vec<T> {
        Vec::new(alloc)
    }

    #[inline(always)]
    fn put(&mut self, item: T) -> Result<(), AllocError> {
        if self.is_empty() {
            self.reserve_exact(FIRST)?;
        }
        Ok(self.push(item)?)
    }
}

impl<T: MadeWith<Global> + Drop> Growing<T> for SmallVec<T, INLINE> {
    ghost listed = { λ v. v.items };

    fn empty(alloc: Global) -> SmallVec<T, INLINE> {
        SmallVec::new(alloc)
    }

    #[inline(always)]
    fn put(&mut self, item: T) -> Result<(), AllocError> {
        Ok(self.push(item)?)
    }
}
