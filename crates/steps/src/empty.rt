// Payloads arrive empty: what a handout sets to 0 before it gives a chunk away.
ghost use Rattle.std.specs.Prelude.{◌≡◌};
ghost use Rattle.steps.specs.Chunk.{emptied_in};

use words::WordIndex;

// Sets the payload of the chunk of `len` bytes at a header to 0: every word after the header, up to the chunk's end or the heap's.
pub fn clear_payload(heap: &mut [u32], hdr: WordIndex, len: u32)
    ensures { heap.new ≡ emptied_in heap.old hdr.0 len }
{
    let w = hdr.0;
    let n = (len / 4) as usize;
    if heap.len() <= w {
        return;
    }
    let end = w + n.min(heap.len() - w);
    for i in w + 1..end {
        heap[i] = 0;
    }
}
