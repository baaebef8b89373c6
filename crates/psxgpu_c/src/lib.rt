//! The C interface of the drawing processor (GPU). c/psxgpu.h has the declarations.
//!
//! A handle is a struct that the C program owns and initializes with zeros. Each function except `psxgpu_free` returns
//! 0 on success, otherwise a code for the cause. A function that needs a machine returns the code of `Closed` if the
//! handle has none. After a failure the machine is unchanged.
#![tactic(auto)]

mod count_sink;
mod ended;
mod fill;
mod front;
mod growing_sink;
mod handle;
mod in_memory;
mod looks;
mod machine;
mod memory;
mod note;
mod notes;
mod output;
mod output_handle;
mod outputs;
mod parts;
mod pictures;
mod ports;
mod refusal;
mod rgba;
mod room_sink;
mod run;
mod sent;
mod slice_source;
mod snapshots;
mod state;
mod views;
mod whole;
mod words;

pub use ended::Ended;
pub use handle::Psxgpu;
pub use note::ItemNote;
pub use output_handle::PsxgpuOutput;
