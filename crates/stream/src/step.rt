// One step: a read, and its bytes fed. Contracts cite specs/Stepping.antt and specs/Bytes.antt.
ghost use Rattle.std.specs.Prelude.{◌≡◌, ◌*◌, ◌≤◌, length, []};
ghost use Rattle.heap.specs.Seen.{empty_record};
ghost use Rattle.heap.specs.Kind.{places_of};
ghost use Rattle.feed.specs.Reading.{text_of};
ghost use Rattle.stream.specs.Stepping.{ended, course_of, piece_of, Takes, Next};
ghost use Rattle.stream.specs.Ran.{most};
ghost use Rattle.stream.specs.Bytes.{Reads};

use feed::Trace;
use heap::Kind;
use std::io::{self, Read};

// How many bytes are read at most: the answers to them, nineteen for each, can still be counted. Nothing says that the input ends.
const MOST: usize = 970881267037344820;

// How a run stands.
#[derive(Clone, Copy, Debug, PartialEq, Eq)]
pub enum Course {
    // the input goes on
    Going,
    // the input is at its end
    Ended,
    // a read or a write failed, or there was no room
    Failed,
}

// Where a run stands.
#[derive(Clone, Copy)]
pub struct Stream {
    // the heap's record, and the line that has begun
    pub trace: Trace,
    // how many bytes may still be read
    pub left: usize,
    // how many bytes of the room the answers to the last piece fill
    pub filled: usize,
    // how many bytes were handed over to be written
    pub written: usize,
    // whether it goes on
    pub course: Course,
}

impl Stream {
    // Nothing read yet.
    pub fn start() -> Stream
        ensures empty { (result.trace.rec ≡ empty_record) × (text_of result.trace.line ≡ []) × (result.left ≡ most) × (result.written ≡ 0) }
        ensures goes { result.course ≡ Course.Going }
    {
        let trace = Trace::start();
        Stream {
            trace,
            left: MOST,
            filled: 0,
            written: 0,
            course: Course::Going,
        }
    }

    // Reads once and feeds what was read. The room has to have nineteen bytes for each that is lent to the read.
    pub fn next<R: Read>(
        &mut self,
        reader: &mut R,
        memory: &mut [u32],
        input: &mut [u8],
        out: &mut [u8],
        kind: Kind,
    )
        ensures next { Next (places_of kind) self.old memory.old self.new memory.new out.new }
        ensures bytes { Reads (places_of kind) self.old memory.old self.new memory.new out.new (length input.old) (R.remaining reader.old) (R.remaining reader.new) }
    {
        if out.len() / 19 < input.len() {
            self.end(Course::Failed);
            return;
        }
        let got = reader.read(input);
        self.take_in(got, memory, input, out, kind);
    }

    // What the answer of a read leads to: the bytes that it gave are counted and fed.
    fn take_in(
        &mut self,
        got: io::Result<usize>,
        memory: &mut [u32],
        input: &[u8],
        out: &mut [u8],
        kind: Kind,
    )
        requires { 19 * length input.now ≤ length out.old }
        ensures takes { Takes (places_of kind) self.old (piece_of self.old.left got input.now) memory.old self.new memory.new out.new }
        ensures course { self.new.course ≡ course_of self.old.left got (length input.now) }
    {
        let Ok(said) = got else {
            self.end(Course::Failed);
            return;
        };
        // never more than there are
        let count = said.min(input.len());
        if count == 0 {
            self.end(Course::Ended);
            return;
        }
        if self.left < count {
            self.end(Course::Failed);
            return;
        }
        let fed = feed::feed(self.trace, memory, &input[..count], out, kind);
        self.trace = fed.trace;
        self.left -= count;
        self.filled = fed.filled;
        self.course = Course::Going;
    }

    // The same place at an end: that of the input, or a failure.
    pub(crate) fn end(&mut self, course: Course)
        ensures { self.new ≡ ended self.old course }
    {
        self.filled = 0;
        self.course = course;
    }
}
