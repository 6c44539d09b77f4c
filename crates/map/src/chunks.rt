// The chunks of a heap, as the headers give them: one iterator, for those that count and those that write.
// Contracts cite specs/Walk.antt.
ghost use Rattle.std.specs.Prelude.{◌≡◌};
ghost use Rattle.std.specs.Iterator.{at_most};
ghost use Rattle.map.specs.Walk.{along, InTime, walks};

use words::{ByteOffset, WordIndex};

// What is left of a walk along the headers.
#[derive(Drop)]
pub(crate) struct Chunks<'a> {
    heap: &'a [u32],
    // the byte of the next header
    at: u32,
    // at most as many headers as words are walked along
    fuel: usize,
}

impl<'a> Chunks<'a> {
    // From the first header on.
    pub(crate) fn of(heap: &'a [u32]) -> Chunks<'a>
        ensures { result ≡ along heap.entry }
    {
        Chunks {
            heap,
            at: 0,
            fuel: heap.len(),
        }
    }
}

// The byte of each chunk's header, and the chunk's length, up to the guard.
impl<'a> Iterator for Chunks<'a> {
    type Item = (u32, u32);

    ghost can_next = { InTime };

    ghost next_gives = { walks };

    ghost remaining = { λ s. at_most s.fuel };

    fn next(&mut self) -> Option<(u32, u32)> {
        if self.fuel == 0 {
            return None;
        }
        let e = self.at;
        let len = words::get_hdr_chunk_size(self.heap, WordIndex::from(ByteOffset(e)));
        if len == 0 {
            return None;
        }
        self.at += len;
        self.fuel -= 1;
        Some((e, len))
    }
}
