// A reader and a writer around the trace: a read, the bytes that it gave fed, their answers written.
//
//     step    one read: its bytes are counted and fed, and their answers stand in the room
//     whole   reads up to the end of the input, and writes the answers
//
// What a read's answer leads to is a function that neither reads nor writes, `take_in`. A run is tied to `trace_of` (crate `feed`): record and memory
// are those after as many bytes as were counted as read, and as many bytes were handed over as the trace of them has (specs/Ran.antt). Where reader and
// writer say which bytes they have, as those over memory do, the trace of all that the reader had is what the writer got, unless the run failed
// (specs/Bytes.antt).
//
// WHAT IS NOT SAID of standard input and output, here or of any program above, since no contract can say it: that a read is made, and which bytes the
// system gives; that a write is made, and what arrives; that a run goes on until the input ends, for a read or a write that fails ends it. Two lines of
// code are to be read for that: `reader.read(input)` in `next` and `writer.write_all(&out[..n])` in `write`.
#![tactic(auto)]

mod step;
mod whole;

pub use step::{Course, Stream};
pub use whole::run;
