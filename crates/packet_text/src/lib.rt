//! The lines that the commands write, and numbers as text.
//!
//! Every line ends with one newline byte. Each call fails only if its sink does. Then only a proper prefix of its bytes
//! was written.
#![tactic(auto)]

mod line;
mod number;
mod sums;
mod tap;

pub use line::{LineText, change_text, note_text, write_note, write_status, write_word};
pub use number::{address_digits, decimal_text, hex_digits};
pub use sums::{write_frame_sum, write_vram_sum};
pub use tap::{write_last, write_sum, write_tap};
