// The pointer of a handle, as C has it.
ghost use Rattle.std.specs.Prelude.{◌≡◌, ◌⊎◌, pos, Option, Some, IsSome};
ghost use Rattle.recfile_c.specs.Outcomes.{ok, memory};
ghost use Rattle.recfile_c.specs.Roots.{coded_root, IsHanded, coded_handed};
ghost use Rattle.recfile_c.specs.declared.handle.RecFile.{RecFile as Handle};

use crate::handle::{Loose, RecFile};
use crate::outcome::{MEMORY, OK};
use std::alloc::Global;
use std::marker::Model;
use std::ptr::NonNull;

/// The pointer of a handle on the heap, or null. C passes a struct of one pointer as that pointer.
#[repr(C)]
#[derive(Drop)]
pub struct Root {
    at: *mut RecFile,
    ghost value: { Option Handle } by { coded_root },
    ghost handed: { IsHanded at value } by { coded_handed at value },
}

impl Model for Root {
    ghost use Rattle.recfile_c.specs.Roots.{root_owns};

    ghost also_owns = { λ r. root_owns r.at r.value };
}

impl Root {
    // The pointer, and what came with it.
    fn told(self) -> (*mut RecFile, Root)
        ensures { (result.1.value ≡ self.value) × IsHanded result.0 self.value }
    {
        let Root { at } = self;
        (at, Root { at })
    }

    // The handle, as a box taken apart.
    fn unseal(self, alloc: Global) -> Loose<RecFile, Global>
        requires { IsSome self.value }
        ensures { self.value ≡ Some result.value }
    {
        let Root { at } = self;
        Loose { at, alloc }
    }
}

/// Makes a closed handle. Statuses: OK; MEMORY, and the pointer is as it was.
#[unsafe(no_mangle)]
pub extern "C" fn recfile_new(alloc: Global, out: &mut *mut RecFile) -> i32
    ensures { (result ≡ pos ok) ⊎ ((result ≡ pos memory) × (out.new ≡ out.old)) }
{
    match Box::new(alloc, RecFile::default()) {
        Ok(file) => {
            *out = Box::into_raw(file);
            OK
        }
        Err(_) => MEMORY,
    }
}

/// Gives a handle's memory back, and all that lies behind it. Null is no handle, and nothing is done.
#[unsafe(no_mangle)]
pub extern "C" fn recfile_free(alloc: Global, file: Root) {
    let (at, file) = file.told();
    if NonNull::new(at).is_none() {
        return;
    }
    let mut handle = Box::into_inner(file.unseal(alloc).into_box());
    drop(handle.take(alloc));
}
