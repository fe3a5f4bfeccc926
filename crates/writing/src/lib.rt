// The one writer: bytes, numbers, words and fields put one after the other into a fixed space, and a line written from
// a row of the table of shapes and its numbers.
#![tactic(auto)]

mod bytes;
mod forms;
mod whole;

pub use bytes::{SPACE, Written};
pub use whole::{write_line, write_row};
