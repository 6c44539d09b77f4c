// The heap map (W-201): a heap on paper, one line for each chunk, and back.
//
// A line has two digits for the kind (10 free, 11 live, 12 cached), eight for the header's offset, eight for the length, and a line feed:
// nineteen bytes. The guard has no line. Any record, words and bytes may be passed.
//
//     kind     the kinds of chunks and their numbers
//     rows     a row, its line, and what may follow it
//     chunks   the chunks that the headers of a heap give
//     write    the map of a heap, written into lent bytes
//     read     such lines, read into lent words: three for each chunk
//     refusal  why there is no map, and an answer in numbers
//
// The contracts are equations with specs/Calls.antt; proofs/Maps.antt says that exactly the legal maps are read, and that writing and
// reading undo each other.
#![tactic(auto)]

mod chunks;
mod kind;
mod read;
mod refusal;
mod rows;
mod write;

pub use kind::{ChunkKind, UnknownKind};
pub use read::read_map;
pub use refusal::{InNumbers, Refusal};
pub use rows::Row;
pub use write::write_map;
