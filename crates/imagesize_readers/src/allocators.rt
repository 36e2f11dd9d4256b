//! Allocators that do what memory rarely does.

use std::alloc::{AllocError, Allocator};
use std::cell::Cell;

/// Passes calls on to another allocator, makes one of them fail, and counts the blocks that are allocated.
pub struct Refusing<A: Allocator> {
    inner: A,
    book: Cell<Book>,
}

// What was allocated, and whether a call failed.
#[derive(Clone, Copy)]
struct Book {
    // How many calls succeed before one fails; `None` after that.
    left: Option<u64>,
    // How many blocks are allocated.
    out: u64,
}

impl<A: Allocator> Refusing<A> {
    /// Lets `left` calls succeed, then one fail, and all later ones succeed.
    pub fn new(inner: A, left: u64) -> Refusing<A> {
        Refusing {
            inner,
            book: Cell::new(Book {
                left: Some(left),
                out: 0,
            }),
        }
    }

    /// Whether a call failed.
    pub fn has_refused(&self) -> bool {
        self.book.get().left.is_none()
    }

    /// How many blocks were not freed.
    pub fn out(&self) -> u64 {
        self.book.get().out
    }
}

impl<A: Allocator> Drop for Refusing<A> {
    fn drop(self) {
        let Self { inner: _, book: _ } = self;
    }
}

// Counts a call, and returns whether it fails.
fn refuses(book: &Cell<Book>) -> bool {
    let Book { left, out } = book.get();
    if left == Some(0) {
        book.set(Book { left: None, out });
        return true;
    }
    book.set(Book {
        left: left.map(|left| left.saturating_sub(1)),
        out: out.saturating_add(1),
    });
    false
}

// Counts a freed block.
fn take_back(book: &Cell<Book>) {
    let Book { left, out } = book.get();
    book.set(Book {
        left,
        out: out.saturating_sub(1),
    });
}

unsafe impl<A: Allocator> Allocator for Refusing<A> {
    ghost dealloc_token = { λ heap ty ptr. A.dealloc_token heap.inner ty ptr };

    fn allocate(&self, size: usize, align: usize) -> Result<*mut u8, AllocError> {
        if refuses(&self.book) {
            return Err(AllocError);
        }
        self.inner.allocate(size, align)
    }

    unsafe fn deallocate(&self, ptr: *mut u8, size: usize, align: usize) {
        take_back(&self.book);
        self.inner.deallocate(ptr, size, align);
    }
}
