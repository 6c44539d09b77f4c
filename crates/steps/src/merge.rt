// What releasing a chunk makes of it and its free neighbours: reads only, on any words, so that it can be known before anything is written.
ghost use Rattle.std.specs.Prelude.{◌≡◌};
ghost use Rattle.steps.specs.Merged.{link_if_free, merged_in};
ghost use Rattle.words.specs.Names.{links, held_name};

use super::free::{left_free, right_free};
use words::{Link, WordIndex};

// The merged chunk, and the neighbours that it is merged of.
#[derive(Clone, Copy)]
pub struct Merged {
    // where it begins: the chunk's own header, or its left neighbour's if that is free
    pub hdr: WordIndex,
    // its length in bytes; on damaged tags the sum may wrap
    pub size: u32,
    // the links of its left and its right neighbour, where they are free
    pub left: Option<Link>,
    pub right: Option<Link>,
}

// The chunk of n bytes that l names, merged with its free neighbours.
pub fn merging(heap: &[u32], l: Link, n: u32) -> Merged
    ensures { result ≡ merged_in heap.now l.0 n }
{
    let hdr = WordIndex::from(l);
    let next = words::hdr_to_right_hdr(hdr, n);
    let before = left_free(heap, hdr);
    let after = right_free(heap, next);
    let merged = words::hdr_to_left_hdr(hdr, before);
    let size = before.wrapping_add(n.wrapping_add(after));
    Merged {
        hdr: merged,
        size,
        left: free_link(merged, before),
        right: free_link(next, after),
    }
}

// The link of a chunk, if any of its bytes are free.
fn free_link(hdr: WordIndex, bytes: u32) -> Option<Link>
    ensures { result ≡ link_if_free bytes (held_name links hdr.0) }
{
    if bytes == 0 {
        None
    } else {
        Some(Link::from(hdr))
    }
}
