// The library that C links (include/lischemur.h declares it): the calls of crate `door`, each under a name of its own for each kind of heap that it
// takes, and the four readers of a record.
//
// What each does, and why some take the record by value, stands in crate `door`. A bool that C reads is a number here, 1 or 0.
//
// The names end in the number of the layout that record, reply and marking have, so that a program with another layout does not link. The
// header calls them by their plain names (`lischemur_make`). tests/c/layout holds the number to the layout; its --next renames.
//
// The calls of a heap with one cache place are twins of four of them (`lischemur_one_..`); making, the mark and the readers serve both kinds.
#![tactic(auto)]

ghost use Rattle.std.specs.Prelude.{◌≡◌};
ghost use Rattle.words.specs.Choice.{bit};
ghost use Rattle.rules.specs.Demands.Meaning.{hand, back};
ghost use Rattle.rules.specs.Demands.Kind.{one, four};
ghost use Rattle.heap.specs.Seen.{seen, base};
ghost use Rattle.heap.specs.Mark.{mark_of};
ghost use Rattle.heap.specs.Answer.{sound_at};
ghost use Rattle.map.specs.Calls.{written};
ghost use Rattle.door.specs.Reply.{replied, marking_by, make_over};

use door::{Marking, Reply};
use heap::{Kind, Record};

// Makes a heap of the whole slice, which must have `words` words. After a 6 the record is as it was.
#[unsafe(no_mangle)]
pub extern "C" fn lischemur_make_needs_library_of_layout_4(
    rec: &mut Record,
    heap: &mut [u32],
    words: u32,
) -> Reply
    ensures { replied result (seen rec.new heap.new) ≡ make_over (seen rec.old heap.old) words }
{
    door::make(rec, heap, words)
}

// Hands out a payload of at least `size` bytes.
#[unsafe(no_mangle)]
pub extern "C" fn lischemur_hand_out_needs_library_of_layout_4(
    rec: &mut Record,
    heap: &mut [u32],
    size: u32,
) -> Reply
    ensures { replied result (seen rec.new heap.new) ≡ hand base 65529 four.places (seen rec.old heap.old) size }
{
    door::hand_out(rec, heap, size, Kind::Four)
}

// Takes back the payload that begins at this offset.
#[unsafe(no_mangle)]
pub extern "C" fn lischemur_take_back_needs_library_of_layout_4(
    rec: &mut Record,
    heap: &mut [u32],
    payload: u32,
) -> Reply
    ensures { replied result (seen rec.new heap.new) ≡ back base 65529 four.places (seen rec.old heap.old) payload }
{
    door::take_back(rec, heap, payload, Kind::Four)
}

// Whether the record and these words are sound: 1 or 0.
#[unsafe(no_mangle)]
pub extern "C" fn lischemur_audit_needs_library_of_layout_4(rec: Record, heap: &[u32]) -> u32
    ensures { result ≡ bit (sound_at four.places (seen rec heap.now)) }
{
    u32::from(door::audit(rec, heap, Kind::Four))
}

// Writes the heap's map at the start of the room, a line for each chunk, and replies how many: 5 if the heap is damaged, else 6 if the
// room is too short.
#[unsafe(no_mangle)]
pub extern "C" fn lischemur_write_map_needs_library_of_layout_4(
    rec: Record,
    heap: &[u32],
    room: &mut [u8],
) -> Reply
    ensures { replied result room.new ≡ written four.places (seen rec heap.now) room.old }
{
    door::write_map(rec, heap, room, Kind::Four)
}

// The mark, if high water has risen, and the record with its flag off.
#[unsafe(no_mangle)]
pub extern "C" fn lischemur_mark_needs_library_of_layout_4(rec: Record, stacklets: u32) -> Marking
    ensures { result ≡ marking_by (mark_of rec stacklets) }
{
    door::mark(rec, stacklets)
}

// Bytes in use, as tasks hold them.
#[unsafe(no_mangle)]
pub extern "C" fn lischemur_in_use_needs_library_of_layout_4(rec: Record) -> u32
    ensures { result ≡ rec.in_use }
{
    rec.in_use()
}

// Bytes committed: those in use, and those of the cached chunks.
#[unsafe(no_mangle)]
pub extern "C" fn lischemur_committed_needs_library_of_layout_4(rec: Record) -> u32
    ensures { result ≡ rec.committed }
{
    rec.committed()
}

// The most bytes that were ever committed.
#[unsafe(no_mangle)]
pub extern "C" fn lischemur_peak_needs_library_of_layout_4(rec: Record) -> u32
    ensures { result ≡ rec.peak }
{
    rec.peak()
}

// High water: the largest end of a chunk that was handed out.
#[unsafe(no_mangle)]
pub extern "C" fn lischemur_high_water_needs_library_of_layout_4(rec: Record) -> u32
    ensures { result ≡ rec.high }
{
    rec.high_water()
}

// ONE CACHE PLACE. Hands out a payload of at least `size` bytes.
#[unsafe(no_mangle)]
pub extern "C" fn lischemur_one_hand_out_needs_library_of_layout_4(
    rec: &mut Record,
    heap: &mut [u32],
    size: u32,
) -> Reply
    ensures { replied result (seen rec.new heap.new) ≡ hand base 65529 one.places (seen rec.old heap.old) size }
{
    door::hand_out(rec, heap, size, Kind::One)
}

// Takes back the payload that begins at this offset, with one cache place.
#[unsafe(no_mangle)]
pub extern "C" fn lischemur_one_take_back_needs_library_of_layout_4(
    rec: &mut Record,
    heap: &mut [u32],
    payload: u32,
) -> Reply
    ensures { replied result (seen rec.new heap.new) ≡ back base 65529 one.places (seen rec.old heap.old) payload }
{
    door::take_back(rec, heap, payload, Kind::One)
}

// Whether the record and these words are sound with one cache place: 1 or 0.
#[unsafe(no_mangle)]
pub extern "C" fn lischemur_one_audit_needs_library_of_layout_4(rec: Record, heap: &[u32]) -> u32
    ensures { result ≡ bit (sound_at one.places (seen rec heap.now)) }
{
    u32::from(door::audit(rec, heap, Kind::One))
}

// Writes the map of a heap with one cache place.
#[unsafe(no_mangle)]
pub extern "C" fn lischemur_one_write_map_needs_library_of_layout_4(
    rec: Record,
    heap: &[u32],
    room: &mut [u8],
) -> Reply
    ensures { replied result room.new ≡ written one.places (seen rec heap.now) room.old }
{
    door::write_map(rec, heap, room, Kind::One)
}
