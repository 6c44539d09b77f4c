// Trace frames: a line's bytes to a request, and an answer to a line's bytes (document 01, "Trace frames").
//
//     hex      digits and fields: a number as any number of hexadecimal digits
//     line     a line of input, read
//     answer   a line of output, written
//
// Any bytes and any numbers may be passed. Each contract is one equation with a definition of specs/; proofs/Frames.antt says that what
// is written is read back, and that nothing else is accepted.
#![tactic(auto)]

mod answer;
mod hex;
mod line;

pub use answer::write_answer;
pub use hex::{read_field, write_field};
pub use line::{Request, read_line};
