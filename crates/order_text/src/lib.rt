// An order file as lines that people read.
#![tactic(auto)]

mod lines;
mod signs;

pub use lines::{ending_line, order_line};
pub use signs::{dial_signs, hexadecimal};
