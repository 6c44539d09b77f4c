// The chart program: reads trace frames from standard input, as the trace program does, and at their end writes the map of the heap in use (W-201).
//
// Its memory is 16,383 words set to 0, and its heap has four cache places. Crate `stream` does the reading, crate `map` the map. No line is answered,
// and a last line without its line feed does nothing. Where there is no map, as before a heap is made, one answer line says so: number 5, with value
// and count 0. A read that fails ends the program with nothing written, since the rest of the input is not known.
#![tactic(auto)]

use heap::{Kind, Record};
use map::{InNumbers, Refusal};
use std::io::Write;
use stream::Course;

fn main(rt: HostRuntime) {
    let mut memory = [0u32; 16383];
    let ran = stream::run(
        &mut rt.stdin(),
        &mut rt.stdout(),
        &mut memory,
        false,
        Kind::Four,
    );
    if ran.course == Course::Failed {
        return;
    }
    let trace = ran.trace;
    let rec = trace.rec;
    // 16,383 words have 65,528 bytes before the guard; a chunk has at least 16, so there are at most 4,095, and 19 times 4,096 bytes hold their lines
    let mut room = [0u8; 77824];
    let n = fill(rec, &memory, &mut room);
    if let Some(bytes) = room.get(..n) {
        let _ = rt.stdout().write_all(bytes);
    }
}

// Fills the room with the map of the heap in use, or with the answer line if there is none. Returns how many bytes.
fn fill(rec: Record, memory: &[u32], room: &mut [u8]) -> usize {
    match chart(rec, memory, room) {
        Ok(chunks) => chunks.saturating_mul(19).min(room.len()),
        Err(refusal) => {
            let told = InNumbers::from(Err(refusal));
            frame::write_answer(room, told.number, told.value, 0);
            19
        }
    }
}

// Writes the map of the heap that lies at the start of the memory.
fn chart(rec: Record, memory: &[u32], room: &mut [u8]) -> Result<usize, Refusal> {
    let heap = memory.get(..rec.words as usize).ok_or(Refusal::Damaged)?;
    map::write_map(rec, heap, room, Kind::Four)
}
