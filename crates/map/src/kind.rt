// The kinds of chunks on the map, and their numbers.
// Contracts cite specs/Rows.antt and specs/Reading.antt.
ghost use Rattle.std.specs.Prelude.{◌≡◌};
ghost use Rattle.map.specs.Rows.{number_of};
ghost use Rattle.map.specs.Reading.{Decodes};

use std::error::Error;
use std::fmt;

// What a chunk is: free, live, or held by the cache.
#[derive(Clone, Copy, Debug, PartialEq, Eq)]
pub enum ChunkKind {
    Free = 0x10,
    Live = 0x11,
    Cached = 0x12,
}

// A number that no kind has.
#[derive(Clone, Copy, Debug, PartialEq, Eq)]
pub struct UnknownKind(pub u32);

impl From<ChunkKind> for u8 {
    ghost from_gives = { λ kind number. number ≡ number_of kind };

    fn from(kind: ChunkKind) -> u8 {
        kind as u8
    }
}

impl TryFrom<u32> for ChunkKind {
    type Error = UnknownKind;

    ghost try_from_gives = { Decodes };

    fn try_from(number: u32) -> Result<Self, UnknownKind> {
        match number {
            0x10 => Ok(ChunkKind::Free),
            0x11 => Ok(ChunkKind::Live),
            0x12 => Ok(ChunkKind::Cached),
            _ => Err(UnknownKind(number)),
        }
    }
}

impl fmt::Display for UnknownKind {
    fn fmt<W: fmt::Write>(&self, f: &mut fmt::Formatter<W>) -> fmt::Result {
        write!(f, "no kind of chunk has number {}", self.0)
    }
}

impl Error for UnknownKind {}
