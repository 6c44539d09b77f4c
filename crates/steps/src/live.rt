// Which chunks are live: the tiling is walked from the left, so that a task's data that looks like a header changes nothing.
ghost use Rattle.std.specs.Prelude.{◌≡◌, length};
ghost use Rattle.words.specs.Tags.{at};
ghost use Rattle.rules.specs.Rules.Place.{used_walk};
ghost use Rattle.steps.specs.Live.{if_used};

use words::{ByteOffset, WordIndex};

// The length of the used chunk whose header stands b bytes from the heap's start, if one does: a walk of the tiling.
pub fn used_length(heap: &[u32], b: u32) -> Option<u32>
    ensures { result ≡ if_used (used_walk (at heap.now) (length heap.now) 0 b) }
{
    let mut e: u32 = 0;
    while e < b {
        let n = words::get_hdr_chunk_size(heap, WordIndex::from(ByteOffset(e)));
        if n == 0 || b - e < n {
            return None;
        }
        e += n;
    }
    let hdr = WordIndex::from(ByteOffset(e));
    let n = words::get_hdr_chunk_size(heap, hdr);
    if n == 0 || words::is_this_free(heap, hdr) {
        return None;
    }
    Some(n)
}
