// Prev and next links. A free chunk's stand in its word 1, prev in the low half and next in the high half; a sentinel's stand in the record's arrays.
//
// A node is named by its link. A store comes in two halves, one for the arrays and one for the words (`set_chunk_link`): each does nothing
// where the node is of the other kind, so that no branch joins over the heap. Contracts cite specs/Links.antt, whose laws are over side and width.
ghost use Rattle.std.specs.Prelude.{◌≡◌, ◌+◌, ◌-◌};
ghost use Rattle.words.specs.Links.{narrow, half, with_half, link_at, set_link_at, node_link, set_chunk_link};
ghost use Rattle.words.specs.Links as links;
ghost use Rattle.words.specs.Numbers.{numbers};

use super::names::{Link, WordIndex};
use super::tags::{change, word};

// A side of a node in its list, and the half of a link word that holds its link. What holds of one side holds of both: proofs/Laws/Links.antt.
pub trait Side {
    ghost side: { links.Side };

    // The link in this side's half of a word.
    fn half(w: u32) -> Link
        ensures { result.0 ≡ half side w };

    // The word with this side's half changed.
    fn with_half(w: u32, to: Link) -> u32
        ensures { result ≡ with_half side w to.0 };
}

// The side of the previous node: the low half.
pub struct Prev;

impl Side for Prev {
    ghost side = { links.prev };

    fn half(w: u32) -> Link {
        Link((w % 65536) as u16)
    }

    fn with_half(w: u32, to: Link) -> u32 {
        w / 65536 * 65536 + to.0 as u32
    }
}

// The side of the next node: the high half.
pub struct Next;

impl Side for Next {
    ghost side = { links.next };

    fn half(w: u32) -> Link {
        Link((w / 65536) as u16)
    }

    fn with_half(w: u32, to: Link) -> u32 {
        to.0 as u32 * 65536 + w % 65536
    }
}

// The word that holds the links of a chunk: the one after its header.
fn link_word(l: Link) -> WordIndex
    ensures { result.0 ≡ (l.0 - 6) + 1 }
{
    let hdr = WordIndex::from(l);
    WordIndex(hdr.0 + 1)
}

// Given a free chunk, the one next to it in its list on a side (heap.rs: hdr_to_prev_hdr, hdr_to_next_hdr).
pub fn hdr_to_linked_hdr<S: Side>(heap: &[u32], l: Link) -> Link
    ensures { result.0 ≡ link_at narrow S.side heap.now (l.0 - 6) }
{
    S::half(word(heap, link_word(l)))
}

// Stores a free chunk's link of a side.
#[tactic(auto, unfolding(crate::specs::Links::set_link_at))]
pub fn set_field<S: Side>(heap: &mut [u32], l: Link, to: Link)
    ensures { heap.new ≡ set_link_at narrow S.side heap.old (l.0 - 6) to.0 }
{
    change(heap, link_word(l), |w| S::with_half(w, to));
}

// The node next to a node on a side, sentinel or chunk.
pub fn node_link<S: Side>(sentinels: [Link; 6], heap: &[u32], l: Link) -> Link
    ensures { result.0 ≡ node_link narrow S.side (numbers sentinels) heap.now l.0 }
{
    let k = l.0 as usize;
    if k < 6 {
        sentinels[k]
    } else {
        hdr_to_linked_hdr::<S>(heap, l)
    }
}

// The words' half of storing a node's link of a side: nothing where the node is a sentinel.
pub fn set_chunk_link<S: Side>(heap: &mut [u32], l: Link, to: Link)
    ensures { heap.new ≡ set_chunk_link narrow S.side heap.old l.0 to.0 }
{
    if 6 <= l.0 {
        set_field::<S>(heap, l, to);
    }
}
