// The handle of a machine: `psxgpu` in c/psxgpu.h.
ghost use Rattle.std.specs.Prelude.{◌≡◌, Option, Some, None};
ghost use Rattle.std.specs.Option.{MatchOption};
ghost use Rattle.std.specs.Coded.{coded_option};
ghost use Rattle.psxgpu_c.specs.Handle.{holds, IsOpen, mark_of};
ghost use Rattle.psxgpu_c.specs.MachineHandle.{machine_row};

use crate::parts::Parts;
use event_play::Rig;
use std::alloc::Global;
use std::marker::Model;
use std::mem;
use std::ptr::null_mut;

/// A boxed machine as a raw pointer, or none.
#[repr(C)]
#[derive(Drop)]
pub struct Held {
    at: *mut u8,
    alloc: Global,
    pub ghost value: { Option machine_row.Denot } by { coded_option machine_row.coded },
}

impl Model for Held {
    ghost also_owns = { λ h. holds machine_row h.alloc h.at h.value };
}

impl Held {
    fn none(alloc: Global) -> Held
        ensures { result.value ≡ None }
    {
        Held {
            at: null_mut(),
            alloc,
        }
    }

    fn of_parts(parts: Parts<Rig, Global>) -> Held
        ensures { result.value ≡ Some parts.value }
    {
        let Parts { ptr, alloc } = parts;
        Held {
            at: ptr as *mut u8,
            alloc,
        }
    }

    fn into_parts(self) -> Parts<Rig, Global>
        requires { IsOpen self.value }
        ensures { self.value ≡ Some result.value }
    {
        let Held { at, alloc } = self;
        Parts {
            ptr: at as *mut Rig,
            alloc,
        }
    }
}

/// A machine, or none. C initializes it with zeros (`PSXGPU_NONE`).
#[repr(C)]
#[derive(Drop)]
pub struct Psxgpu {
    held: Held,
    mark: u32,
    ghost marked: { mark ≡ mark_of held.value },
}

impl Psxgpu {
    /// Removes and returns the machine, if there is one.
    pub(crate) fn take(&mut self, alloc: Global) -> Option<Box<Rig>>
        ensures machine { MatchOption result (self.old.held.value ≡ None)
            (λ rig. self.old.held.value ≡ Some rig.value) }
        ensures empty { self.new.held.value ≡ None }
    {
        if self.mark == 0 {
            return None;
        }
        let full = mem::replace(self, Psxgpu::none(alloc));
        Some(full.held.into_parts().into_box())
    }

    fn none(alloc: Global) -> Psxgpu
        ensures { result.held.value ≡ None }
    {
        Psxgpu {
            held: Held::none(alloc),
            mark: 0,
        }
    }

    /// Stores a machine.
    pub(crate) fn put(&mut self, rig: Box<Rig>)
        ensures { self.new.held.value ≡ Some rig.value }
    {
        *self = Psxgpu {
            held: Held::of_parts(Parts::of(rig)),
            mark: 1,
        };
    }
}
