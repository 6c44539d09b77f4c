// Taking a listed chunk: it is unlinked and marked used, and the excess goes back to the lists.
ghost use Rattle.std.specs.Prelude.{◌≡◌, ◌+◌, ◌-◌, ◌/◌, ◌≤◌, ◌<◌, ◌^◌};
ghost use Rattle.rules.specs.Rules.Steps.{portion, return_excess, take_chunk};
ghost use Rattle.heap.specs.Seen.{seen, base};

use super::record::Record;
use words::{Link, WordIndex};

impl Record {
    // Of the total bytes at a used header only `size` are kept, if at least FREE_CHUNK_MIN_SIZE would remain: the right part becomes a free
    // chunk at the head of its list. Otherwise the right neighbour learns that the whole chunk is used.
    pub(crate) fn return_excess_to_free_list(
        self,
        heap: &mut [u32],
        hdr: WordIndex,
        total: u32,
        size: u32,
    ) -> Record
        requires { hdr.0 + total / 4 + 6 < 65536 }
        ensures { seen result heap.new ≡ return_excess base (seen self heap.old) hdr.0 total size }
    {
        let excess = total.saturating_sub(size);
        if excess < steps::FREE_CHUNK_MIN_SIZE {
            words::set_left_allocated(heap, words::hdr_to_right_hdr(hdr, total));
            return self;
        }
        let rest = words::hdr_to_right_hdr(hdr, size);
        steps::set_free_chunk_hdr_ftr(heap, rest, excess);
        let class = words::chunk_size_to_list_index(excess);
        self.link_chunk(heap, class, Link::from(rest))
    }

    // Takes the listed chunk of n bytes that l names, to serve z bytes.
    pub(crate) fn take_chunk(self, heap: &mut [u32], l: Link, n: u32, z: u32) -> Record
        requires { (6 ≤ l.0) × (l.0 + n / 4 < 65536) }
        ensures { seen result heap.new ≡ take_chunk base (seen self heap.old) (l.0 - 6) n z }
    {
        let hdr = WordIndex::from(l);
        let a = self.unlink_chunk(heap, l);
        words::set_hdr(heap, hdr, steps::portion_of(n, z), true, true);
        a.return_excess_to_free_list(heap, hdr, n, z)
    }
}
