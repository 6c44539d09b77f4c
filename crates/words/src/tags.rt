// Headers, flags and footers. This is where the layout is drawn.
//
//     free chunk    | header | prev, next |  ..  | footer |      the footer is the length
//     used chunk    | header |      payload ..            |      the payload is 8-aligned, the header 4 mod 8
//     header          length + 2 if this chunk is used + 1 if its left neighbour is used; the length is a multiple of 8, at least 16
//     guard           the last word of the heap: length 0, used
//
// Flags are read and set by quotient and remainder. Contracts cite specs/Tags.antt.
#![tactic(auto, unfolding(crate::specs::Tags::changed))]

ghost use Rattle.std.specs.Prelude.{◌≡◌, ℕ, ◌-◌, ◌/◌, ◌%◌, ◌^◌, set, slice_set};
ghost use Rattle.words.specs.Tags.{at, header_of, length_of, freeᵇ, left_freeᵇ, with_length, as_used, as_free, left_used, left_freed, right_of, footer_of, changed};

use super::names::WordIndex;

// The word at a place; 0 past the end.
pub fn word(heap: &[u32], i: WordIndex) -> u32
    ensures { result ≡ at heap.now i.0 }
{
    let k = i.0;
    if k < heap.len() { heap[k] } else { 0 }
}

// Stores a word; past the end nothing.
pub fn put(heap: &mut [u32], i: WordIndex, value: u32)
    ensures { heap.new ≡ slice_set heap.old i.0 value }
{
    let k = i.0;
    if k < heap.len() {
        heap[k] = value;
    }
}

// Changes the word at a place to what f makes of it; past the end nothing.
pub(crate) fn change<F: FnOnce(u32) -> u32>(heap: &mut [u32], i: WordIndex, f: F)
    requires { F.IsAlwaysCallable f }
    ensures { (w : ℕ) × F.post f (at heap.old i.0) w × (heap.new ≡ slice_set heap.old i.0 w) }
{
    let w = word(heap, i);
    put(heap, i, f(w));
}

// Given the header, the chunk's length.
pub fn get_hdr_chunk_size(heap: &[u32], hdr: WordIndex) -> u32
    ensures { result ≡ length_of (at heap.now hdr.0) }
{
    word(heap, hdr) / 4 * 4
}

// Sets the length in a header and leaves its flags.
pub fn set_hdr_chunk_size(heap: &mut [u32], hdr: WordIndex, size: u32)
    ensures { heap.new ≡ changed (λ h. with_length h size) heap.old hdr.0 }
{
    change(heap, hdr, |h| size / 4 * 4 + h % 4);
}

// Writes a whole header (heap.rs: clear_hdr, set_hdr_chunk_size and the flags).
pub fn set_hdr(heap: &mut [u32], hdr: WordIndex, size: u32, used: bool, left_used: bool)
    ensures { heap.new ≡ slice_set heap.old hdr.0 (header_of size used left_used) }
{
    put(
        heap,
        hdr,
        size / 4 * 4 + 2 * (used as u32) + left_used as u32,
    );
}

// Given the header, the place of the footer of a chunk of this length.
pub fn hdr_to_ftr(hdr: WordIndex, size: u32) -> WordIndex
    ensures { result.0 ≡ right_of hdr.0 size % 2 ^ 64 - 1 }
{
    let right = hdr_to_right_hdr(hdr, size);
    WordIndex(right.0.saturating_sub(1))
}

// Sets the length in a footer.
pub fn set_ftr_chunk_size(heap: &mut [u32], ftr: WordIndex, size: u32)
    ensures { heap.new ≡ slice_set heap.old ftr.0 size }
{
    put(heap, ftr, size);
}

// Given the header and the length, the right neighbour's header. It wraps at the end of the address space, as heap.rs's wrapping_byte_add does.
pub fn hdr_to_right_hdr(hdr: WordIndex, size: u32) -> WordIndex
    ensures { result.0 ≡ right_of hdr.0 size % 2 ^ 64 }
{
    WordIndex(hdr.0.wrapping_add((size / 4) as usize))
}

// Given the header, the left neighbour's footer.
pub fn hdr_to_left_ftr(hdr: WordIndex) -> WordIndex
    ensures { result.0 ≡ hdr.0 - 1 }
{
    WordIndex(hdr.0.saturating_sub(1))
}

// Given the header and the length of the left neighbour, the left neighbour's header.
pub fn hdr_to_left_hdr(hdr: WordIndex, size: u32) -> WordIndex
    ensures { result.0 ≡ hdr.0 - size / 4 }
{
    WordIndex(hdr.0.saturating_sub((size / 4) as usize))
}

// Whether the chunk is free.
pub fn is_this_free(heap: &[u32], hdr: WordIndex) -> bool
    ensures { result ≡ freeᵇ (at heap.now hdr.0) }
{
    word(heap, hdr) / 2 % 2 == 0
}

// Whether the left neighbour is free, by the flag in this header.
pub fn is_left_free(heap: &[u32], hdr: WordIndex) -> bool
    ensures { result ≡ left_freeᵇ (at heap.now hdr.0) }
{
    word(heap, hdr) % 2 == 0
}

// Whether the right neighbour of a chunk of this length is free, by the flag in its own header.
pub fn is_right_free(heap: &[u32], hdr: WordIndex, size: u32) -> bool
    ensures { result ≡ freeᵇ (at heap.now (right_of hdr.0 size % 2 ^ 64)) }
{
    is_this_free(heap, hdr_to_right_hdr(hdr, size))
}

// Marks the chunk as free.
pub fn set_this_free(heap: &mut [u32], hdr: WordIndex)
    ensures { heap.new ≡ changed as_free heap.old hdr.0 }
{
    change(heap, hdr, |h| h / 4 * 4 + h % 2);
}

// Marks the chunk as allocated.
pub fn set_self_allocated(heap: &mut [u32], hdr: WordIndex)
    ensures { heap.new ≡ changed as_used heap.old hdr.0 }
{
    change(heap, hdr, |h| h / 4 * 4 + 2 + h % 2);
}

// Marks the left neighbour as allocated, in this header.
pub fn set_left_allocated(heap: &mut [u32], hdr: WordIndex)
    ensures { heap.new ≡ changed left_used heap.old hdr.0 }
{
    change(heap, hdr, |h| h / 2 * 2 + 1);
}

// Marks the left neighbour as free, in this header.
pub fn set_left_free(heap: &mut [u32], hdr: WordIndex)
    ensures { heap.new ≡ changed left_freed heap.old hdr.0 }
{
    change(heap, hdr, |h| h / 2 * 2);
}
