//! One block of raw memory, as a row of cells: each is empty or holds a value. Nothing else is here.
//!
//! `First` says where the block begins, `Cells` owns the cells, and `Lease` is the right to give the block back.
//! The last two take no space: they are what the proofs hold on to.
ghost use Rattle.std.specs.Prelude.{◌≡◌, ℕ, List, Option, Some, None, replicate, get_or, slice_set, IfOk, ⊤};
ghost use Rattle.std.specs.Borrow.{sem};
ghost use Rattle.std.specs.Vec.Ownership.{FitsInBlock};
ghost use denote.RawPtr.{Ptr};
ghost use Rattle.spend_ring.specs.Cells.{IsEmpty, IsFull};
ghost use Rattle.spend_ring.specs.Memory.{cells_own, cells_lent, lease_owns};

use std::alloc::{AllocError, Allocator};
use std::marker::{Model, PhantomData};
use std::mem::{align_of, size_of};

/// Where the first cell lies. It owns nothing.
pub struct First<T> {
    cell: *mut T,
}

// By hand, since derived impls would ask the same of `T`.
impl<T> Clone for First<T> {
    ghost is_clone = { λ x y. y ≡ x };

    ghost is_infallible = { λ _. ⊤ };

    fn clone(&self) -> Result<First<T>, AllocError> {
        Ok(*self)
    }
}

impl<T> Copy for First<T> {}

/// The owner of the cells of the block at `at`.
pub struct Cells<T> {
    mark: PhantomData<*const T>,
    ghost at: { Ptr },
    ghost held: { List (Option T) },
}

impl<T> Model for Cells<T> {
    ghost also_owns = { λ c. cells_own T.row c.at c.held };

    ghost also_shares = { λ c _ κ. cells_lent T.row c.at c.held κ };
}

/// The right to give the block of `count` cells at `at` back to `alloc`.
pub struct Lease<T, A: Allocator> {
    mark: PhantomData<*const (T, A)>,
    ghost at: { Ptr },
    ghost count: { ℕ },
    ghost alloc: { A },
}

impl<T, A: Allocator> Model for Lease<T, A> {
    ghost also_owns = { λ l. lease_owns T.row (A.dealloc_token l.alloc) l.at l.count };
}

impl<T, A: Allocator> Lease<T, A> {
    ghost use Rattle.spend_ring.specs.Block.{IsBlock};

    /// Takes a block of `count` empty cells.
    pub(crate) fn reserve(
        alloc: &A,
        count: usize,
    ) -> Result<(First<T>, Cells<T>, Lease<T, A>), AllocError>
        requires { FitsInBlock T.row count }
        ensures block { IfOk result (λ r. IsBlock r.0 r.1 r.2 count alloc.now) }
        ensures empty { IfOk result (λ r. r.1.held ≡ replicate count None) }
    {
        match alloc.allocate(count * size_of::<T>(), align_of::<T>()) {
            Ok(block) => {
                let first = First {
                    cell: block as *mut T,
                };
                Ok((
                    first,
                    Cells { mark: PhantomData },
                    Lease { mark: PhantomData },
                ))
            }
            Err(refused) => Err(refused),
        }
    }

    /// Gives a block of `count` empty cells back.
    ///
    /// No clause says that the block is given back: `deallocate` ensures nothing that one could cite, and a proof may
    /// let memory go. But nothing else ends a lease, so the call below is the one place to read for that.
    pub(crate) fn give_back(self, alloc: &A, first: First<T>, count: usize, cells: Cells<T>)
        requires block { IsBlock first cells self count alloc.now }
        requires empty { cells.held ≡ replicate count None }
    {
        let Lease { mark: _ } = self;
        let Cells { mark: _ } = cells;
        unsafe {
            alloc.deallocate(
                first.cell as *mut u8,
                count * size_of::<T>(),
                align_of::<T>(),
            );
        }
    }
}

impl<T> Cells<T> {
    ghost use Rattle.spend_ring.specs.Lends.{lends_cell};

    /// Puts a value into an empty cell.
    #[inline(always)]
    pub(crate) fn put(&mut self, first: First<T>, place: usize, item: T)
        requires first { first.cell ≡ self.old.at }
        requires empty { IsEmpty self.old.held place }
        ensures block { self.new.at ≡ self.old.at }
        ensures held { self.new.held ≡ slice_set self.old.held place (Some item) }
    {
        unsafe { first.cell.add(place).write(item) }
    }

    /// Takes the value out of a cell, which is then empty.
    #[inline(always)]
    pub(crate) fn take(&mut self, first: First<T>, place: usize) -> T
        requires first { first.cell ≡ self.old.at }
        requires full { IsFull self.old.held place }
        ensures value { get_or self.old.held place None ≡ Some result }
        ensures block { self.new.at ≡ self.old.at }
        ensures held { self.new.held ≡ slice_set self.old.held place None }
    {
        unsafe { first.cell.add(place).read() }
    }

    /// Shows the value of a cell.
    #[inline(always)]
    pub(crate) fn get(&self, first: First<T>, place: usize) -> &T
        requires first { first.cell ≡ self.now.at }
        requires full { IsFull self.now.held place }
        ensures value { get_or self.now.held place None ≡ Some result.now }
    {
        unsafe { &*first.cell.add(place) }
    }

    /// Lends the value of a cell to be written.
    pub(crate) fn get_mut(&mut self, first: First<T>, place: usize) -> &mut T
        requires first { first.cell ≡ self.old.at }
        requires full { IsFull self.old.held place }
        ensures* writes_back { sem 𝓛 (lends_cell T.row self.entry place result) }
        ensures value { get_or self.old.held place None ≡ Some result.now }
    {
        unsafe { &mut *first.cell.add(place) }
    }
}
