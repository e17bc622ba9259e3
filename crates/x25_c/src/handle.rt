//! A box of a station as the pointer that C holds, or none.
ghost use Rattle.std.specs.Prelude.{◌≡◌, Option, IsSome};
ghost use Rattle.std.specs.declared.option.Option.TheVariants.{None, Some};
ghost use Rattle.x25_c.specs.declared.held.Held.{Held};
ghost use Rattle.x25_c.specs.Handle.{handle_owns, held_coded};

use crate::held::Held;
use crate::unboxed::Unboxed;
use std::alloc::Global;
use std::marker::Model;
use std::ptr::null_mut;

/// The pointer leads to a station where `held` is one, and else nowhere.
// The pointer is one to octets, since a type that leads to a `Box` or a `Vec` may not stand in what C holds.
#[repr(C)]
#[derive(Drop)]
pub struct Handle {
    at: *mut u8,
    alloc: Global,
    pub ghost held: { Option Held } by { held_coded },
}

impl Model for Handle {
    ghost also_owns = { λ h. handle_owns h.alloc h.at h.held };
}

impl Handle {
    pub(crate) fn empty(alloc: Global) -> Handle
        ensures { result.held ≡ None }
    {
        Handle {
            at: null_mut(),
            alloc,
        }
    }

    pub(crate) fn holding(unboxed: Unboxed<Held, Global>) -> Handle
        ensures { result.held ≡ Some unboxed.value }
    {
        let Unboxed { at, alloc } = unboxed;
        Handle {
            at: at as *mut u8,
            alloc,
        }
    }

    pub(crate) fn release(self) -> Unboxed<Held, Global>
        requires { IsSome self.held }
        ensures { self.held ≡ Some result.value }
    {
        let Handle { at, alloc } = self;
        Unboxed {
            at: at as *mut Held,
            alloc,
        }
    }
}

unsafe impl Send for Handle {}
