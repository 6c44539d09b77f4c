// The kernel's door: what stands behind the calls that firmware links (include/lischemur.h declares them for C, crate `door_c` exports them).
//
// Making, handing out and taking back change a record where it lies; document 01 lets no other call do so. The others take the
// record by value, which on x86-64 is how C passes and returns a struct of this size: the audit and the map leave it alone, and the mark
// hands it back with its flag off. Each agrees with the call of crate `heap` or `map` that it stands for, and accepts any record, any
// words, any room and any number.
//
// A call takes the kind of heap where its answer depends on that; `door_c` has one name for each kind.
//
//     reply    an answer as document 01's three numbers, and the mark in plain ones
#![tactic(auto)]

ghost use Rattle.std.specs.Prelude.{◌≡◌};
ghost use Rattle.rules.specs.Demands.Meaning.{hand, back};
ghost use Rattle.heap.specs.Kind.{places_of};
ghost use Rattle.heap.specs.Seen.{seen, base};
ghost use Rattle.heap.specs.Mark.{mark_of};
ghost use Rattle.heap.specs.Answer.{sound_at};
ghost use Rattle.map.specs.Calls.{written};
ghost use Rattle.door.specs.Reply.{replied, marking_by, make_over};

mod reply;

use heap::{Kind, Record, Refusal, Told};
use map::InNumbers;
pub use reply::{Marking, Reply};
use words::ByteOffset;

// Makes a heap of the whole slice, which must have `words` words. After a 6 the record is as it was.
pub fn make(rec: &mut Record, heap: &mut [u32], words: u32) -> Reply
    ensures { replied result (seen rec.new heap.new) ≡ make_over (seen rec.old heap.old) words }
{
    if words as usize != heap.len() {
        return Reply::from(Told::from(Refusal::BadLength));
    }
    let made = Record::make(heap);
    *rec = made.unwrap_or(*rec);
    Reply::from(Told::from(made))
}

// Hands out a payload of at least `size` bytes.
pub fn hand_out(rec: &mut Record, heap: &mut [u32], size: u32, kind: Kind) -> Reply
    ensures { replied result (seen rec.new heap.new) ≡ hand base 65529 (places_of kind) (seen rec.old heap.old) size }
{
    let answer = rec.hand_out(heap, size, kind);
    if let Ok((_, after)) = answer {
        *rec = after;
    }
    Reply::from(Told::from(answer))
}

// Takes back the payload that begins at this offset.
pub fn take_back(rec: &mut Record, heap: &mut [u32], payload: u32, kind: Kind) -> Reply
    ensures { replied result (seen rec.new heap.new) ≡ back base 65529 (places_of kind) (seen rec.old heap.old) payload }
{
    let answer = rec.take_back(heap, ByteOffset(payload), kind);
    *rec = answer.unwrap_or(*rec);
    Reply::from(Told::from(answer))
}

// Whether the record and these words are sound.
pub fn audit(rec: Record, heap: &[u32], kind: Kind) -> bool
    ensures { result ≡ sound_at (places_of kind) (seen rec heap.now) }
{
    rec.audit(heap, kind)
}

// Writes the heap's map at the start of the room, a line for each chunk, and replies how many: 5 if the heap is damaged, else 6 if the
// room is too short.
pub fn write_map(rec: Record, heap: &[u32], room: &mut [u8], kind: Kind) -> Reply
    ensures { replied result room.new ≡ written (places_of kind) (seen rec heap.now) room.old }
{
    let answer = map::write_map(rec, heap, room, kind);
    Reply::from(InNumbers::from(answer))
}

// The mark, if high water has risen, and the record with its flag off.
pub fn mark(rec: Record, stacklets: u32) -> Marking
    ensures { result ≡ marking_by (mark_of rec stacklets) }
{
    let marked = rec.mark(stacklets);
    Marking {
        mark: marked.mark.unwrap_or(0),
        changed: u32::from(marked.mark.is_some()),
        rec: marked.rec,
    }
}
