// Why there is no map, and an answer as document 01's numbers.
// Contracts cite specs/Answer.antt.
ghost use Rattle.std.specs.Prelude.{◌≡◌};
ghost use Rattle.map.specs.Answer.{in_numbers};

use std::error::Error;
use std::fmt;

// Why a map is not written, or not read: the heap is damaged; the room is too short; the first bad line, from 1.
#[derive(Clone, Copy, Debug, PartialEq, Eq)]
pub enum Refusal {
    Damaged,
    NoRoom,
    BadLine(usize),
}

impl fmt::Display for Refusal {
    fn fmt<W: fmt::Write>(&self, f: &mut fmt::Formatter<W>) -> fmt::Result {
        match self {
            Refusal::Damaged => f.write_str("the heap is damaged"),
            Refusal::NoRoom => f.write_str("the room is too short"),
            Refusal::BadLine(k) => write!(f, "line {k} is bad"),
        }
    }
}

impl Error for Refusal {}

// An answer as document 01's numbers: 0 done, 5 damaged, 6 room too short, 7 bad line; with the number of chunks, or of the line, else 0.
#[derive(Clone, Copy, Debug, PartialEq, Eq)]
pub struct InNumbers {
    pub number: u8,
    pub value: u32,
}

impl From<Result<usize, Refusal>> for InNumbers {
    ghost from_gives = { λ answer told. told ≡ in_numbers answer };

    fn from(answer: Result<usize, Refusal>) -> InNumbers {
        let (number, value) = match answer {
            Ok(chunks) => (0, chunks),
            Err(Refusal::Damaged) => (5, 0),
            Err(Refusal::NoRoom) => (6, 0),
            Err(Refusal::BadLine(k)) => (7, k),
        };
        InNumbers {
            number,
            value: u32::try_from(value).unwrap_or(u32::MAX),
        }
    }
}
