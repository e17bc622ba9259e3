//! The place where a C program holds a station, or none.
ghost use Rattle.std.specs.Prelude.{◌≡◌, MatchOption, is_some};
ghost use Rattle.std.specs.declared.option.Option.TheVariants.{None, Some};

use crate::handle::Handle;
use crate::held::Held;
use crate::unboxed::Unboxed;
use std::alloc::Global;
use std::mem::replace;

/// All zeros hold none.
#[repr(C)]
#[derive(Drop)]
pub struct Slot {
    pub(crate) handle: Handle,
    pub(crate) is_open: bool,
    pub(crate) ghost fits: { is_open ≡ is_some handle.held },
}

impl Slot {
    pub(crate) fn put(&mut self, held: Box<Held>)
        requires { self.old.handle.held ≡ None }
        ensures { self.new.handle.held ≡ Some held.value }
    {
        *self = Slot {
            handle: Handle::holding(Unboxed::from_box(held)),
            is_open: true,
        };
    }

    pub(crate) fn take(&mut self, alloc: Global) -> Option<Box<Held>>
        ensures taken { MatchOption result (self.old.handle.held ≡ None)
            (λ b. self.old.handle.held ≡ Some b.value) }
        ensures left { self.new.handle.held ≡ None }
    {
        if !self.is_open {
            return None;
        }
        let empty = Slot {
            handle: Handle::empty(alloc),
            is_open: false,
        };
        let Slot { handle, .. } = replace(self, empty);
        Some(handle.release().into_box())
    }
}
