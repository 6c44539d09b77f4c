// The inspect program: reads a map from standard input and says in one answer line whether it is one (W-201).
//
// 00 and the number of chunks in eight digits if it is; 07 and the number of the first bad line, from 1, if not; and eight digits 0. What a map is
// stands in the crate `map`. A read that fails ends the program with nothing written.
//
// The longest heap has 65,529 words, so 262,112 bytes before the guard, and a chunk has at least 16: a map has at most 16,382 lines, and of anything
// else the first bad line is at most the next. The lines before it have nineteen bytes each, and its own first nineteen tell that it is bad. So the
// first 16,383 times 19 bytes tell all, and what comes after them is not read. Three words for each of 16,382 chunks are room for every map.
#![tactic(auto)]

ghost use Rattle.std.specs.Prelude.{◌≤◌, length, IfOk};

use heap::Kind;
use map::InNumbers;
use std::io;
use std::io::{Read, Write};

fn main(rt: HostRuntime) {
    let mut text = [0u8; 311277];
    let Ok(len) = read_whole(&mut rt.stdin(), &mut text) else {
        return;
    };
    let mut room = [0u32; 49146];
    let answer = map::read_map(&text[..len], &mut room, Kind::Four);
    let told = InNumbers::from(answer);
    let mut out = [0u8; 19];
    frame::write_answer(&mut out, told.number, told.value, 0);
    let _ = rt.stdout().write_all(&out);
}

// Reads until the text is full, the input ends or a read fails. Returns how many bytes were read.
fn read_whole<R: Read>(reader: &mut R, text: &mut [u8]) -> io::Result<usize>
    ensures { IfOk result (λ len. len ≤ length text.new) }
{
    let mut len = 0;
    loop {
        let count = reader.read(&mut text[len..])?;
        if count == 0 {
            return Ok(len);
        }
        len += count;
    }
}
