// Prints an answer, and parts a text into lines (document 01, 'The desk program'; document 02, request b).
#![tactic(auto)]

mod lines;
mod printing;

pub use lines::{Span, next_line};
pub use printing::print;
