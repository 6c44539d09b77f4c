// A free chunk's tags, and which neighbours of a chunk are free.
ghost use Rattle.std.specs.Prelude.{◌≡◌};
ghost use Rattle.steps.specs.Chunk.{freed_in, left_free_in, right_free_in};

use words::WordIndex;

// Writes header and footer of a free chunk, its left neighbour used.
pub fn set_free_chunk_hdr_ftr(heap: &mut [u32], hdr: WordIndex, size: u32)
    ensures { heap.new ≡ freed_in heap.old hdr.0 size }
{
    words::set_hdr(heap, hdr, size, false, true);
    let ftr = words::hdr_to_ftr(hdr, size);
    words::set_ftr_chunk_size(heap, ftr, size);
}

// The bytes of the left neighbour if it is free, else 0.
pub fn left_free(heap: &[u32], hdr: WordIndex) -> u32
    ensures { result ≡ left_free_in heap.now hdr.0 }
{
    let free = words::is_left_free(heap, hdr);
    if !free {
        return 0;
    }
    words::word(heap, words::hdr_to_left_ftr(hdr))
}

// The bytes of the chunk at this header if it is free, else 0.
pub fn right_free(heap: &[u32], hdr: WordIndex) -> u32
    ensures { result ≡ right_free_in heap.now hdr.0 }
{
    let free = words::is_this_free(heap, hdr);
    if !free {
        return 0;
    }
    words::get_hdr_chunk_size(heap, hdr)
}
