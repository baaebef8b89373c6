// The handle of an output: `psxgpu_output` in c/psxgpu.h. It is a handle as that of a machine: the kit lets no exported
// struct have a type parameter for what the box contains.
ghost use Rattle.std.specs.Prelude.{◌≡◌, Option, Some, None};
ghost use Rattle.std.specs.Option.{MatchOption};
ghost use Rattle.std.specs.Coded.{coded_option};
ghost use Rattle.psxgpu_c.specs.Handle.{holds, IsOpen, mark_of};
ghost use Rattle.psxgpu_c.specs.OutputHandle.{output_row};

use crate::output::Output;
use crate::parts::Parts;
use std::alloc::Global;
use std::marker::Model;
use std::mem;
use std::ptr::null_mut;

/// A boxed output as a raw pointer, or none.
#[repr(C)]
#[derive(Drop)]
pub struct HeldOutput {
    at: *mut u8,
    alloc: Global,
    pub ghost value: { Option output_row.Denot } by { coded_option output_row.coded },
}

impl Model for HeldOutput {
    ghost also_owns = { λ h. holds output_row h.alloc h.at h.value };
}

impl HeldOutput {
    fn none(alloc: Global) -> HeldOutput
        ensures { result.value ≡ None }
    {
        HeldOutput {
            at: null_mut(),
            alloc,
        }
    }

    fn of_parts(parts: Parts<Output, Global>) -> HeldOutput
        ensures { result.value ≡ Some parts.value }
    {
        let Parts { ptr, alloc } = parts;
        HeldOutput {
            at: ptr as *mut u8,
            alloc,
        }
    }

    fn into_parts(self) -> Parts<Output, Global>
        requires { IsOpen self.value }
        ensures { self.value ≡ Some result.value }
    {
        let HeldOutput { at, alloc } = self;
        Parts {
            ptr: at as *mut Output,
            alloc,
        }
    }
}

/// An output, or none. C initializes it with zeros (`PSXGPU_OUTPUT_NONE`).
#[repr(C)]
#[derive(Drop)]
pub struct PsxgpuOutput {
    held: HeldOutput,
    mark: u32,
    ghost marked: { mark ≡ mark_of held.value },
}

impl PsxgpuOutput {
    /// Removes and returns the output, if there is one.
    pub(crate) fn take(&mut self, alloc: Global) -> Option<Box<Output>>
        ensures output { MatchOption result (self.old.held.value ≡ None)
            (λ output. self.old.held.value ≡ Some output.value) }
        ensures empty { self.new.held.value ≡ None }
    {
        if self.mark == 0 {
            return None;
        }
        let full = mem::replace(self, PsxgpuOutput::none(alloc));
        Some(full.held.into_parts().into_box())
    }

    fn none(alloc: Global) -> PsxgpuOutput
        ensures { result.held.value ≡ None }
    {
        PsxgpuOutput {
            held: HeldOutput::none(alloc),
            mark: 0,
        }
    }

    /// Stores an output.
    pub(crate) fn put(&mut self, output: Box<Output>)
        ensures { self.new.held.value ≡ Some output.value }
    {
        *self = PsxgpuOutput {
            held: HeldOutput::of_parts(Parts::of(output)),
            mark: 1,
        };
    }
}
