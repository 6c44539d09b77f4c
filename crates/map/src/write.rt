// The map of a heap, written: the headers are walked twice, once to count the chunks and once to write their lines.
// Contracts cite specs/Calls.antt, and inside this crate specs/Writing.antt.
ghost use Rattle.std.specs.Prelude.{◌≡◌, length};
ghost use Rattle.words.specs.Numbers.{numbers};
ghost use Rattle.cache.specs.Places.{cached_of};
ghost use Rattle.heap.specs.Kind.{places_of};
ghost use Rattle.heap.specs.Seen.{seen};
ghost use Rattle.map.specs.Answer.{told};
ghost use Rattle.map.specs.Rows.{lines_of};
ghost use Rattle.map.specs.Layout.{kind_of, map_of};
ghost use Rattle.map.specs.Calls.{over, written};
ghost use Rattle.map.specs.Writing.{chunks_in, chunk_at, Short, Roomy};

use super::chunks::Chunks;
use super::kind::ChunkKind;
use super::refusal::Refusal;
use heap::{Kind, Record};
use words::{ByteOffset, Link, WordIndex};

// Writes the map of a heap of this kind at the start of the room: 5 if the heap is damaged, then 6 if the room is too short.
pub fn write_map(rec: Record, heap: &[u32], room: &mut [u8], kind: Kind) -> Result<usize, Refusal>
    ensures { told result room.new ≡ written (places_of kind) (seen rec heap.now) room.old }
{
    let sound = rec.audit(heap, kind);
    if !sound {
        return Err(Refusal::Damaged);
    }
    let n = count_chunks(heap);
    if room.len() / 19 < n {
        return Err(Refusal::NoRoom);
    }
    let cached = rec.cached;
    write_lines(heap, cached, room);
    Ok(n)
}

// How many chunks the headers give, up to the guard.
fn count_chunks(heap: &[u32]) -> usize
    requires { Short heap.now }
    ensures { result ≡ length (chunks_in heap.now) }
{
    Chunks::of(heap).count()
}

// Writes a line for each chunk, left to right, over the start of the room.
fn write_lines(heap: &[u32], cached: [Link; 4], room: &mut [u8])
    requires { Short heap.now × Roomy heap.now room.old }
    ensures { room.new ≡ over (lines_of (map_of (cached_of (numbers cached)) 0 (chunks_in heap.now))) room.old }
{
    for (k, (e, len)) in Chunks::of(heap).enumerate() {
        let kind = kind_at(heap, cached, e);
        frame::write_answer(&mut room[k * 19..k * 19 + 19], u8::from(kind), e, len);
    }
}

// The kind of the chunk whose header stands e bytes from the heap's start.
fn kind_at(heap: &[u32], cached: [Link; 4], e: u32) -> ChunkKind
    ensures { result ≡ kind_of (cached_of (numbers cached)) e (chunk_at heap.now e) }
{
    let free = words::is_this_free(heap, WordIndex::from(ByteOffset(e)));
    if free {
        return ChunkKind::Free;
    }
    let held = cache::holds(cached, e / 4 + 6);
    if held {
        return ChunkKind::Cached;
    }
    ChunkKind::Live
}
