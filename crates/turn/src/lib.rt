// One turn of the trace: a line read, put to the heap that lies at the start of a memory (document 01, "Trace frames").
//
// The heap in use is the first words of the memory, as many as the record says; they are lent to the calls of crate `heap`, and the words
// behind them are kept. Before a heap is made the record is the empty one, and no words are lent.
//
// Any record, any memory and any line may be passed. The contract of `turn` is one equation with `turned` (specs/Turned.antt): it says
// number, value and compared count of the answer, the record and every word of the memory.
#![tactic(auto)]

ghost use Rattle.std.specs.Prelude.{◌≡◌};
ghost use Rattle.heap.specs.Seen.{seen};
ghost use Rattle.heap.specs.Kind.{places_of};
ghost use Rattle.turn.specs.declared.Refusal.TheVariants.{Heap};
ghost use Rattle.turn.specs.Turned.{turned, making, lent_of};
ghost use Rattle.turn.specs.Told.{outcome_of, reply_of, told_of, made};

use frame::Request;
use heap::{Done, Kind, Record, Told};
use std::error::Error;
use std::fmt;
use words::ByteOffset;

// Why a turn is refused.
#[derive(Clone, Copy, Debug, PartialEq, Eq)]
pub enum Refusal {
    // the line is no frame
    NoFrame,
    // the heap refuses what the frame asks
    Heap(heap::Refusal),
}

impl fmt::Display for Refusal {
    fn fmt<W: fmt::Write>(&self, f: &mut fmt::Formatter<W>) -> fmt::Result {
        match self {
            Refusal::NoFrame => f.write_str("no frame"),
            Refusal::Heap(refusal) => write!(f, "{refusal}"),
        }
    }
}

impl Error for Refusal {}

impl From<heap::Refusal> for Refusal {
    ghost from_gives = { λ refusal gives. gives ≡ Heap refusal };

    fn from(refusal: heap::Refusal) -> Refusal {
        Refusal::Heap(refusal)
    }
}

// The turn of one line, for a heap of this kind. A refusal leaves the record and every word of the memory.
pub fn turn(
    rec: &mut Record,
    memory: &mut [u32],
    line: Option<Request>,
    kind: Kind,
) -> Result<Done, Refusal>
    ensures { outcome_of (reply_of result rec.new) memory.new ≡ turned (places_of kind) (seen rec.old memory.old) line }
{
    let request = line.ok_or(Refusal::NoFrame)?;
    let n = lent_words(rec.words, memory.len());
    match request {
        Request::Make(words) => {
            make(rec, memory, words)?;
            Ok(nothing_out())
        }
        Request::HandOut(size) => {
            let (done, after) = rec.hand_out(&mut memory[0..n], size, kind)?;
            *rec = after;
            Ok(done)
        }
        Request::TakeBack(p) => {
            *rec = rec.take_back(&mut memory[0..n], ByteOffset(p), kind)?;
            Ok(nothing_out())
        }
    }
}

// Makes a heap of the first `words` words of the memory. A length that is refused leaves the heap in use as it is.
fn make(rec: &mut Record, memory: &mut [u32], words: u32) -> Result<(), heap::Refusal>
    ensures { outcome_of (reply_of (made result) rec.new) memory.new ≡ making (seen rec.old memory.old) words }
{
    let n = words as usize;
    if memory.len() < n {
        return Err(heap::Refusal::BadLength);
    }
    *rec = Record::make(&mut memory[0..n])?;
    Ok(())
}

// How many words are lent: as many as the record says, and no more than there are.
#[tactic(auto, using(crate::proofs::Laws::lent_min))]
fn lent_words(words: u32, most: usize) -> usize
    ensures { result ≡ lent_of words most }
{
    most.min(words as usize)
}

// Done, where nothing is handed out.
fn nothing_out() -> Done
    ensures { result ≡ record { payload = record { 0 = 0 }; compared = 0 } }
{
    Done {
        payload: ByteOffset(0),
        compared: 0,
    }
}

// What a turn's answer tells, in document 01's numbers: 7 where the line is no frame, else the heap's.
pub fn told(answer: Result<Done, Refusal>) -> Told
    ensures { result ≡ told_of answer }
{
    match answer {
        Ok(done) => Told::from(done),
        Err(Refusal::NoFrame) => Told {
            number: 7,
            value: 0,
            compared: 0,
        },
        Err(Refusal::Heap(refusal)) => Told::from(refusal),
    }
}
