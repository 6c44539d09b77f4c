// The six free lists: rings through the record's sentinels and the link words of free chunks.
//
// heap.rs reaches a sentinel through a pointer, like any chunk; here a store has two halves, one of which does nothing.
ghost use Rattle.std.specs.Prelude.{◌≡◌, ◌≤◌, ◌<◌};
ghost use Rattle.rules.specs.Rules.Steps.{unlink, link};
ghost use Rattle.heap.specs.Seen.{seen, base};

use super::record::{Record, set_sentinel};
use words::{Link, Next, Prev};

impl Record {
    // Takes a chunk out of its list.
    pub(crate) fn unlink_chunk(mut self, heap: &mut [u32], l: Link) -> Record
        requires { 6 ≤ l.0 }
        ensures { seen result heap.new ≡ unlink base (seen self heap.old) l.0 }
    {
        let prev = words::hdr_to_linked_hdr::<Prev>(heap, l);
        let next = words::hdr_to_linked_hdr::<Next>(heap, l);
        set_sentinel(&mut self.next, prev, next);
        words::set_chunk_link::<Next>(heap, prev, next);
        set_sentinel(&mut self.prev, next, prev);
        words::set_chunk_link::<Prev>(heap, next, prev);
        self
    }

    // Puts a chunk at the head of a class list.
    pub(crate) fn link_chunk(mut self, heap: &mut [u32], class: u16, l: Link) -> Record
        requires { (class < 6) × (6 ≤ l.0) }
        ensures { seen result heap.new ≡ link base (seen self heap.old) class l.0 }
    {
        let next = self.next[class as usize];
        set_sentinel(&mut self.next, Link(class), l);
        set_sentinel(&mut self.prev, next, l);
        words::set_chunk_link::<Prev>(heap, next, l);
        words::set_field::<Next>(heap, l, next);
        words::set_field::<Prev>(heap, l, Link(class));
        self
    }
}
