// A row of the map: kind, header offset and length of a chunk; its line read; and whether it can follow the rows before it.
// Contracts cite specs/Reading.antt.
ghost use Rattle.std.specs.Prelude.{◌≡◌};
ghost use Rattle.heap.specs.Kind.{places_of};
ghost use Rattle.map.specs.Reading.{row_in, standsᵇ, followsᵇ};

use super::kind::ChunkKind;
use heap::Kind;

// A chunk on the map: its kind; the byte of its header; its length in bytes.
#[derive(Clone, Copy)]
pub struct Row {
    pub kind: ChunkKind,
    pub at: u32,
    pub len: u32,
}

// Where a reader stands: the byte where the next chunk begins, whether the last one is free, and how many were cached.
#[derive(Clone, Copy)]
pub(crate) struct Place {
    pub(crate) at: u32,
    pub(crate) free: bool,
    pub(crate) held: usize,
}

// Reads a line, given with its line feed.
pub(crate) fn read_row(line: &[u8]) -> Option<Row>
    ensures { result ≡ row_in line.now }
{
    if line.len() != 19 || line[18] != b'\n' {
        return None;
    }
    let number = frame::read_field(&line[0..2])?;
    let kind = ChunkKind::try_from(number).ok()?;
    let at = frame::read_field(&line[2..10])?;
    let len = frame::read_field(&line[10..18])?;
    Some(Row { kind, at, len })
}

// Whether a row begins at this byte, and has a legal length that ends in an accepted one.
fn stands(at: u32, r: Row) -> bool
    ensures { result ≡ standsᵇ 65529 at r }
{
    // 65,529 words have 262,112 bytes before the guard
    r.at == at && 16 <= r.len && r.len % 8 == 0 && at <= 262112 && r.len <= 262112 - at
}

// Whether a row can follow at this place, on a heap of this kind.
pub(crate) fn follows(p: Place, r: Row, kind: Kind) -> bool
    ensures { result ≡ followsᵇ 65529 (places_of kind) p r }
{
    let places = kind.places();
    let room = match r.kind {
        ChunkKind::Free => !p.free && p.held <= places,
        ChunkKind::Live => p.held <= places,
        ChunkKind::Cached => p.held < places,
    };
    stands(p.at, r) && room
}
