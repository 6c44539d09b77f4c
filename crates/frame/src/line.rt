// A line of input: ten digits, two for the kind and eight for the number, or no frame. Contracts cite specs/Line.antt.
ghost use Rattle.std.specs.Prelude.{◌≡◌};
ghost use Rattle.frame.specs.Line.{request_of, line_of};

use super::hex::read_field;

// What a frame asks for: a heap of this many words, a payload of this many bytes, the payload at this offset to be taken back.
#[derive(Clone, Copy, Debug, PartialEq, Eq)]
pub enum Request {
    Make(u32),
    HandOut(u32),
    TakeBack(u32),
}

// What a kind asks for, with its number: 00 make, 01 hand out, 02 take back. There is no other kind.
fn request_of(kind: u32, number: u32) -> Option<Request>
    ensures { result ≡ request_of kind number }
{
    match kind {
        0 => Some(Request::Make(number)),
        1 => Some(Request::HandOut(number)),
        2 => Some(Request::TakeBack(number)),
        _ => None,
    }
}

// Reads a line, given without its line feed: its request, or none if it is no frame.
#[tactic(auto, using(crate::proofs::Laws::Line::by_field))]
pub fn read_line(line: &[u8]) -> Option<Request>
    ensures { result ≡ line_of line.now }
{
    if line.len() != 10 {
        return None;
    }
    let kind = read_field(&line[0..2])?;
    let number = read_field(&line[2..10])?;
    request_of(kind, number)
}
