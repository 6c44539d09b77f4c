// Releasing a chunk: it merges with its free neighbours, left before right, and goes to the head of its class list.
ghost use Rattle.std.specs.Prelude.{◌≡◌, IfSome, ◌+◌, ◌-◌, ◌≤◌, ◌<◌};
ghost use Rattle.rules.specs.Rules.Steps.{release_chunk};
ghost use Rattle.heap.specs.Seen.{seen, base};
ghost use Rattle.heap.specs.Released.{unlink_if, free_listed};
ghost use Rattle.steps.specs.Chunk.{Releasable};

use super::record::Record;
use words::{Link, WordIndex};

impl Record {
    // The free neighbours leave their lists: neither, left, right, both.
    #[tactic(auto, unfolding(crate::specs::Released::unlink_if))]
    fn merge_neighbor_if_possible(
        self,
        heap: &mut [u32],
        left: Option<Link>,
        right: Option<Link>,
    ) -> Record
        requires { IfSome left (λ l. 6 ≤ l.0) × IfSome right (λ l. 6 ≤ l.0) }
        ensures { seen result heap.new ≡ unlink_if (unlink_if (seen self heap.old) left) right }
    {
        match (left, right) {
            (None, None) => self,
            (Some(l), None) => self.unlink_chunk(heap, l),
            (None, Some(r)) => self.unlink_chunk(heap, r),
            (Some(l), Some(r)) => {
                let a = self.unlink_chunk(heap, l);
                a.unlink_chunk(heap, r)
            }
        }
    }

    // Makes the m bytes at a header a free chunk at the head of its class list: its tags, its right neighbour's left bit, and its links.
    pub(crate) fn free_listed(self, heap: &mut [u32], merged: WordIndex, m: u32) -> Record
        requires { merged.0 + 6 < 65536 }
        ensures { seen result heap.new ≡ free_listed (seen self heap.old) merged.0 m }
    {
        steps::set_free_chunk_hdr_ftr(heap, merged, m);
        words::set_left_free(heap, words::hdr_to_right_hdr(merged, m));
        let class = words::chunk_size_to_list_index(m);
        self.link_chunk(heap, class, Link::from(merged))
    }

    // Releases the used chunk of n bytes that l names.
    pub(crate) fn release_chunk(self, heap: &mut [u32], l: Link, n: u32) -> Record
        requires { Releasable heap.old l.0 n }
        ensures { seen result heap.new ≡ release_chunk base (seen self heap.old) (l.0 - 6) n }
    {
        let g = steps::merging(heap, l, n);
        let a = self.merge_neighbor_if_possible(heap, g.left, g.right);
        a.free_listed(heap, g.hdr, g.size)
    }
}
