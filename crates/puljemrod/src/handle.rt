// The state that C keeps between two calls.
ghost use Rattle.std.specs.Prelude.{◌≡◌, Option, None, Some, IfSome, IfNone, is_some};
ghost use Rattle.puljemrod.specs.declared.handle_state.HandleState.{HandleState};
ghost use Rattle.puljemrod.specs.Handles.{kept_coded, handle_owns};

use crate::handle_state::HandleState;
use crate::parts::BoxParts;
use std::alloc::Global;
use std::marker::Model;
use std::{mem, ptr};

/// A box of the handle's state, or none, as a pointer that C may hold. C never dereferences it.
#[repr(C)]
#[derive(Drop)]
pub struct Handle {
    at: *mut u8,
    alloc: Global,
    pub ghost kept: { Option HandleState } by { kept_coded },
}

impl Model for Handle {
    ghost also_owns = { λ h. handle_owns h.alloc h.at h.kept };
}

unsafe impl Send for Handle {}

impl Handle {
    fn empty(alloc: Global) -> Handle
        ensures { result.kept ≡ None }
    {
        Handle {
            at: ptr::null_mut(),
            alloc,
        }
    }

    fn full(parts: BoxParts<HandleState, Global>) -> Handle
        ensures { result.kept ≡ Some parts.value }
    {
        let BoxParts { ptr, alloc } = parts;
        Handle {
            at: ptr as *mut u8,
            alloc,
        }
    }

    fn into_parts(self) -> BoxParts<HandleState, Global>
        requires { (x : HandleState) × (self.kept ≡ Some x) }
        ensures { self.kept ≡ Some result.value }
    {
        let Handle { at, alloc } = self;
        BoxParts {
            ptr: at as *mut HandleState,
            alloc,
        }
    }
}

/// A handle, and whether it is open. C starts with all zeros, which is closed.
#[repr(C)]
#[derive(Drop)]
pub struct Slot {
    pub handle: Handle,
    pub is_open: bool,
    ghost open_if_kept: { is_open ≡ is_some handle.kept },
}

impl Slot {
    fn closed(alloc: Global) -> Slot
        ensures { result.handle.kept ≡ None }
    {
        Slot {
            handle: Handle::empty(alloc),
            is_open: false,
        }
    }

    /// Takes the state out, which closes the slot; `None` if it was closed.
    pub fn take(&mut self, alloc: Global) -> Option<Box<HandleState>>
        ensures some { IfSome result (λ b. self.old.handle.kept ≡ Some b.value) }
        ensures none { IfNone result (self.old.handle.kept ≡ None) }
        ensures closed { self.new.handle.kept ≡ None }
    {
        let Slot { handle, is_open } = mem::replace(self, Slot::closed(alloc));
        if is_open {
            Some(handle.into_parts().into_box())
        } else {
            None
        }
    }

    /// Stores the state, which opens the slot.
    pub fn put(&mut self, kept: Box<HandleState>)
        requires { self.old.handle.kept ≡ None }
        ensures { self.new.handle.kept ≡ Some kept.value }
    {
        *self = Slot {
            handle: Handle::full(BoxParts::of(kept)),
            is_open: true,
        };
    }
}

fn crossing<T: Send>(x: T) -> T {
    x
}

/// A slot may move to another thread: this would not compile otherwise.
pub fn slot_crosses(slot: Slot) -> Slot {
    crossing(slot)
}
