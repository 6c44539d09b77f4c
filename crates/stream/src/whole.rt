// The whole input. Contracts cite specs/Ran.antt and specs/Bytes.antt.
ghost use Rattle.std.specs.Prelude.{◌≡◌, ◌≢◌, ◌+◌, ◌≤◌, length, take, IfSome};
ghost use Rattle.heap.specs.Kind.{places_of};
ghost use Rattle.feed.specs.Reading.{text_of};
ghost use Rattle.feed.specs.Feeding.{last_line};
ghost use Rattle.stream.specs.Stepping.{Writes};
ghost use Rattle.stream.specs.Ran.{Going, Answered};
ghost use Rattle.stream.specs.Bytes.{Wrote, Carried, Through};

use super::step::{Course, Stream};
use heap::Kind;
use std::io::{Read, Write};

// Reads up to the end of the input, on a heap of this kind, and writes the answers if they are wanted.
pub fn run<R: Read, W: Write>(
    reader: &mut R,
    writer: &mut W,
    memory: &mut [u32],
    answering: bool,
    kind: Kind,
) -> Stream
    ensures answered { Answered (places_of kind) answering memory.old result memory.new }
    ensures over { result.course ≢ Course.Going }
    ensures bytes { result.course ≢ Course.Failed → IfSome (R.remaining reader.old)
        (λ xs. Through (places_of kind) answering memory.old xs result memory.new (W.contents writer.old) (W.contents writer.new)) }
{
    let mut input = [0u8; 4096];
    // nineteen bytes for each of 4,096: every byte may end a line
    let mut out = [0u8; 77824];
    let mut s = read_all(
        reader, writer, memory, &mut input, &mut out, answering, kind,
    );
    if answering && s.course == Course::Ended {
        s.finish(writer, &mut out);
    }
    s
}

// Piece after piece, up to the end of the input.
fn read_all<R: Read, W: Write>(
    reader: &mut R,
    writer: &mut W,
    memory: &mut [u32],
    input: &mut [u8],
    out: &mut [u8],
    answering: bool,
    kind: Kind,
) -> Stream
    ensures going { Going (places_of kind) answering memory.old result memory.new }
    ensures over { result.course ≢ Course.Going }
    ensures bytes { Carried (places_of kind) answering memory.old result memory.new (length input.old)
        (R.remaining reader.old) (R.remaining reader.new) (W.contents writer.old) (W.contents writer.new) }
{
    let mut s = Stream::start();
    while s.course == Course::Going {
        s.next(reader, memory, input, out, kind);
        if answering {
            s.write(writer, out);
        }
    }
    s
}

impl Stream {
    // Writes the answer to a line that lacks its line feed.
    fn finish<W: Write>(&mut self, writer: &mut W, out: &mut [u8])
        requires { (self.old.written + 19 ≤ 18446744073709551615) × (19 ≤ length out.old) }
        ensures writes { Writes self.old (length (last_line (text_of self.old.trace.line))) self.new }
        ensures bytes { Wrote self.old (last_line (text_of self.old.trace.line)) self.new (W.contents writer.old) (W.contents writer.new) }
    {
        self.filled = self.trace.finish(out);
        self.write(writer, out);
    }

    // Writes the answers that stand in the room.
    fn write<W: Write>(&mut self, writer: &mut W, out: &[u8])
        requires { (self.old.filled ≤ length out.now) × (self.old.written + self.old.filled ≤ 18446744073709551615) }
        ensures writes { Writes self.old self.old.filled self.new }
        ensures bytes { Wrote self.old (take self.old.filled out.now) self.new (W.contents writer.old) (W.contents writer.new) }
    {
        let n = self.filled;
        self.written += n;
        if writer.write_all(&out[..n]).is_err() {
            self.end(Course::Failed);
        }
    }
}
