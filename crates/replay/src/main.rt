// The replay: answers frames as the trace program does, and after each answer prints the whole state of the heap in use, and its map.
//
// A state is one line of numbers, each a space and eight digits: the words of the heap, bytes in use, bytes committed, peak, high water, the links
// of the cached chunks, oldest first (0 for an unused place; only one is ever used), the flag, the six prev and the six next links of the sentinels,
// and every word of the heap. The lines of the map (W-201) come after it: one for each chunk, none before a heap is made. The file `stdin` holds
// requests, and `stdout` the original's states and maps after each of them, in the same form (tests/trace/README.md): the check of this crate
// compares them byte by byte.
//
// Crate `stream` does the reading. A read is lent one byte, so that at most one line is answered before its state is written.
#![tactic(auto)]

use heap::{Kind, Record};
use std::io;
use std::io::{Read, Write};
use stream::{Course, Stream};
use words::Link;

fn main(rt: HostRuntime) {
    let mut memory = [0u32; 16383];
    let mut input = [0u8; 1];
    // an answer line, 22 numbers of the record and 16,383 words of 9 bytes each, a line feed, and 4,095 lines of a map
    let mut room = [0u8; 225470];
    let _ = replay(
        &mut rt.stdin(),
        &mut rt.stdout(),
        &mut memory,
        &mut input,
        &mut room,
    );
}

// Reads byte by byte, and writes what there is to show after each line.
fn replay<R: Read, W: Write>(
    reader: &mut R,
    writer: &mut W,
    memory: &mut [u32],
    input: &mut [u8],
    room: &mut [u8],
) -> io::Result<()> {
    let mut s = Stream::start();
    while s.course == Course::Going {
        s.next(reader, memory, input, room, Kind::One);
        if 0 < s.filled {
            let trace = s.trace;
            let end = show(room, s.filled, trace.rec, memory);
            let Some(shown) = room.get(..end) else {
                return Ok(());
            };
            writer.write_all(shown)?;
        }
    }
    Ok(())
}

// Puts the whole state on a line, and the map after it. Returns where the next byte goes, as every put does.
fn show(room: &mut [u8], at: usize, rec: Record, memory: &[u32]) -> usize {
    let figures = [rec.words, rec.in_use, rec.committed, rec.peak, rec.high];
    let words = memory.get(..rec.words as usize).unwrap_or(memory);
    let mut end = at;
    end = put_words(room, end, &figures);
    end = put_words(room, end, &rec.cached.map(number));
    end = put_number(room, end, rec.fresh);
    end = put_words(room, end, &rec.prev.map(number));
    end = put_words(room, end, &rec.next.map(number));
    end = put_words(room, end, words);
    end = put_feed(room, end);
    put_map(room, end, rec, memory)
}

// The number of a link.
fn number(link: Link) -> u32 {
    u32::from(link.0)
}

// Puts each word as a space and eight digits.
fn put_words(room: &mut [u8], at: usize, words: &[u32]) -> usize {
    let mut end = at;
    for &word in words {
        end = put_number(room, end, word);
    }
    end
}

// Puts a space and a number's eight digits.
fn put_number(room: &mut [u8], at: usize, number: u32) -> usize {
    if room.len() < 9 || room.len() - 9 < at {
        return at;
    }
    frame::write_field(&mut room[at + 1..at + 9], number);
    room[at] = b' ';
    at + 9
}

// Puts a line feed.
fn put_feed(room: &mut [u8], at: usize) -> usize {
    if room.len() <= at {
        return at;
    }
    room[at] = b'\n';
    at + 1
}

// Puts the map of the heap in use, if there is one.
fn put_map(room: &mut [u8], at: usize, rec: Record, memory: &[u32]) -> usize {
    let Some(heap) = memory.get(..rec.words as usize) else {
        return at;
    };
    let Some(rest) = room.get_mut(at..) else {
        return at;
    };
    match map::write_map(rec, heap, rest, Kind::One) {
        Ok(chunks) => at + chunks.saturating_mul(19).min(rest.len()),
        Err(_) => at,
    }
}
