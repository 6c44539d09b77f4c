// Replies: the answers of the heap and of the map as a caller in C sees them. No enum crosses the door: an answer is document 01's three numbers.
//
// Contracts cite specs/Reply.antt.
ghost use Rattle.std.specs.Prelude.{◌≡◌};
ghost use Rattle.door.specs.Reply.{three_of};

use heap::{Record, Told};
use map::InNumbers;

// An answer as document 01's numbers.
#[repr(C)]
#[derive(Clone, Copy, Debug, PartialEq, Eq)]
pub struct Reply {
    // 0 done, 1 zero size, 2 too large, 3 no fit, 4 not live, 5 damaged, 6 bad length or room too short, 7 bad line of a map, 8 never fits
    pub number: u32,
    // the payload's offset if a handout is done, the number of lines if a map is, else 0
    pub value: u32,
    // how many free chunks were compared
    pub compared: u32,
}

// What the mark says, and the record with its flag off.
#[repr(C)]
#[derive(Clone, Copy)]
pub struct Marking {
    // high water less the stacks' share; 0 if nothing has changed
    pub mark: i64,
    // 1 if high water has risen since the mark was last read, else 0
    pub changed: u32,
    pub rec: Record,
}

// An answer of the heap.
impl From<Told> for Reply {
    ghost from_gives = { λ told reply. reply ≡ three_of told.number told.value told.compared };

    fn from(told: Told) -> Reply {
        Reply {
            number: told.number,
            value: told.value,
            compared: told.compared,
        }
    }
}

// An answer of the map; nothing is compared.
impl From<InNumbers> for Reply {
    ghost from_gives = { λ numbers reply. reply ≡ three_of numbers.number numbers.value 0 };

    fn from(numbers: InNumbers) -> Reply {
        Reply {
            number: u32::from(numbers.number),
            value: numbers.value,
            compared: 0,
        }
    }
}
