// Reads a line of bytes, as document 01 says. Here are the bytes that may stand in it.
#![tactic(auto)]

mod forms;
mod reading;

ghost use Rattle.std.specs.Prelude.{◌≡◌};
ghost use Rattle.meaning.specs.Fields.{allowed};

pub use forms::form_value;
pub use reading::{Line, read_line};

// Only digits, capital ASCII letters and commas occur.
fn allowed(c: u8) -> bool
    ensures { result ≡ allowed c }
{
    c.is_ascii_digit() || c.is_ascii_uppercase() || c == b','
}
