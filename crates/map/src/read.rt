// A map, read: its lines are tried one after the other, and then, if all are good and there is room, their rows are laid into it.
// Contracts cite specs/Reading.antt, specs/Steps.antt and specs/Calls.antt.
ghost use Rattle.std.specs.Prelude.{◌≡◌, ◌+◌, ◌*◌, ◌^◌, ◌/◌, ◌≤◌, ◌<◌, length, take, drop};
ghost use Rattle.heap.specs.Kind.{places_of};
ghost use Rattle.map.specs.Answer.{told};
ghost use Rattle.map.specs.Reading.{row_in, start, past, read_from, read_all};
ghost use Rattle.map.specs.Steps.{counted, words_in};
ghost use Rattle.map.specs.Calls.{over, read_into};

use super::kind::ChunkKind;
use super::refusal::Refusal;
use super::rows::{Place, Row, follows, read_row};
use heap::Kind;

// The place after a row.
fn place_after(p: Place, r: Row) -> Place
    requires { (p.at + r.len < 2 ^ 32) × (p.held < 5) }
    ensures { result ≡ past p r }
{
    let (free, held) = match r.kind {
        ChunkKind::Free => (true, p.held),
        ChunkKind::Live => (false, p.held),
        ChunkKind::Cached => (false, p.held + 1),
    };
    Place {
        at: p.at + r.len,
        free,
        held,
    }
}

// Tries every line, from the first on.
fn check_lines(lines: &[u8], kind: Kind) -> Result<usize, Refusal>
    ensures { result ≡ counted 0 (read_from 65529 (places_of kind) (length lines.now) start 1 lines.now) }
{
    let mut p = Place {
        at: 0,
        free: false,
        held: 0,
    };
    for (n, line) in lines.chunks(19).enumerate() {
        let Some(r) = read_row(line) else {
            return Err(Refusal::BadLine(n + 1));
        };
        if !follows(p, r, kind) {
            return Err(Refusal::BadLine(n + 1));
        }
        p = place_after(p, r);
    }
    Ok(lines.len() / 19)
}

// Lays the rows of the lines into the room, three words each, up to a bad one.
fn lay_rows(lines: &[u8], room: &mut [u32])
    requires { 3 * (length lines.now / 19) ≤ length room.old }
    ensures { room.new ≡ over (words_in (length lines.now) lines.now) room.old }
{
    for (k, line) in lines.chunks(19).enumerate() {
        let Some(r) = read_row(line) else {
            return;
        };
        let number = u32::from(u8::from(r.kind));
        room[k * 3] = number;
        room[k * 3 + 1] = r.at;
        room[k * 3 + 2] = r.len;
    }
}

// Reads lines into the room, three words for each chunk, for a heap of this kind: 7 with the number of the first bad line, then 6 if the room is
// too short.
#[tactic(auto, using(crate::proofs::Reader::Laid::into_bad_line))]
pub fn read_map(lines: &[u8], room: &mut [u32], kind: Kind) -> Result<usize, Refusal>
    ensures { told result room.new ≡ read_into (read_all 65529 (places_of kind) lines.now) room.old }
{
    if lines.is_empty() {
        return Err(Refusal::BadLine(1));
    }
    let n = check_lines(lines, kind)?;
    if room.len() / 3 < n {
        return Err(Refusal::NoRoom);
    }
    lay_rows(lines, room);
    Ok(n)
}
