// The handle that C has: a struct that owns what lies behind it, though no type that C may hold owns memory. It has
// a pointer that says nothing of what it points to, and a ghost value that does.
ghost use Rattle.std.specs.Prelude.{◌≡◌, Option, Some, None, IsSome, is_some, option_map};
ghost use Rattle.std.specs.Box.Ownership.{box_owns};
ghost use Rattle.recfile_c.specs.Paged.{Discards};
ghost use Rattle.recfile_c.specs.Slots.{coded_slot};
ghost use Rattle.recfile_c.specs.declared.held.Held.{Held as HeldFile};

mod root;

use crate::held::Held;
use crate::outcome::{CLOSED, OK};
use std::alloc::{Allocator, Global};
use std::marker::Model;

/// What a pointer of a `Slot` is said to point to: nobody reads it.
#[repr(C)]
#[derive(Drop)]
pub struct Opaque {
    seal: u8,
}

/// Where a file lies, or nothing.
#[repr(C)]
#[derive(Drop)]
pub struct Slot {
    at: *mut Opaque,
    ghost value: { Option HeldFile } by { coded_slot },
}

/// A handle: closed, or with what lies behind it.
#[repr(C)]
#[derive(Drop)]
pub struct RecFile {
    is_open: bool,
    slot: Slot,
    ghost whole: { is_open ≡ is_some slot.value },
}

// A box as its pointer. It is made of a box and gives it back.
struct Loose<T, A: Allocator> {
    at: *mut T,
    alloc: A,
    ghost value: { T },
}

impl<T, A: Allocator> Model for Loose<T, A> {
    ghost also_owns = { λ l. box_owns (A.dealloc_token l.alloc) T.row l.at l.value };
}

impl<T: Drop, A: Allocator> Loose<T, A> {
    // The box, taken apart.
    fn of(value: Box<T, A>) -> Loose<T, A>
        ensures { result.value ≡ value.value }
    {
        let (at, alloc) = Box::into_raw_with_allocator(value);
        Loose { at, alloc }
    }

    // The box again.
    fn into_box(self) -> Box<T, A>
        ensures { result.value ≡ self.value }
    {
        let Loose { at, alloc } = self;
        unsafe { Box::from_raw(alloc, at) }
    }
}

impl Model for Slot {
    ghost use Rattle.recfile_c.specs.Slots.{slot_owns};

    ghost also_owns = { λ s. slot_owns s.at s.value };
}

impl Slot {
    // The file, behind its pointer.
    fn seal(file: Loose<Held, Global>) -> Slot
        ensures { result.value ≡ Some file.value }
    {
        let Loose { at, alloc: _ } = file;
        Slot { at: at.cast() }
    }

    // The file again.
    fn unseal(self, alloc: Global) -> Loose<Held, Global>
        requires { IsSome self.value }
        ensures { self.value ≡ Some result.value }
    {
        let Slot { at } = self;
        Loose {
            at: at.cast(),
            alloc,
        }
    }

    // No file.
    fn empty() -> Slot
        ensures { result.value ≡ None }
    {
        Slot {
            at: std::ptr::null_mut(),
        }
    }
}

impl Default for RecFile {
    ghost use Rattle.std.specs.Prelude.{◌≡◌, None};

    ghost is_default = { λ file. file.slot.value ≡ None };

    /// A closed handle.
    fn default() -> RecFile {
        RecFile {
            is_open: false,
            slot: Slot::empty(),
        }
    }
}

impl RecFile {
    /// Takes out what lies behind the handle, which is closed then.
    pub(crate) fn take(&mut self, alloc: Global) -> Option<Box<Held, Global>>
        ensures value { option_map (λ held. held.value) result ≡ self.old.slot.value }
        ensures after { self.new.slot.value ≡ None }
    {
        let RecFile { is_open, slot } = std::mem::take(self);
        if is_open {
            Some(slot.unseal(alloc).into_box())
        } else {
            None
        }
    }

    /// Puts it behind a closed handle.
    pub(crate) fn give(&mut self, held: Box<Held, Global>)
        requires { self.old.slot.value ≡ None }
        ensures { self.new.slot.value ≡ Some held.value }
    {
        *self = RecFile {
            is_open: true,
            slot: Slot::seal(Loose::of(held)),
        };
    }
}

/// Gives up whatever lies behind a handle, which is closed then: an open file with its changes, pages handed in, steps.
/// Statuses: OK, CLOSED.
#[unsafe(no_mangle)]
pub extern "C" fn recfile_discard(alloc: Global, file: &mut RecFile) -> i32
    ensures { Discards result file.old.slot.value file.new.slot.value }
{
    match file.take(alloc) {
        Some(_held) => OK,
        None => CLOSED,
    }
}
