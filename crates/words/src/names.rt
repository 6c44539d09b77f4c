// Names of a header: a link, a word index and a byte offset are three types that cannot be mixed.
//
// A link below 6 names a sentinel; the header at word w has link w + 6, byte offset 4 w and payload offset 4 w + 4.
// Contracts cite specs/Names.antt; that no conversion loses anything is proved once for all of them in proofs/Laws/Names.antt.
ghost use Rattle.std.specs.Prelude.{◌≡◌};
ghost use Rattle.words.specs.Names.{links, offsets, payloads, held_name};

// The name that free chunks call each other by; 16 bits.
#[repr(C)]
#[derive(Clone, Copy, PartialEq, Eq)]
pub struct Link(pub u16);

// The index of a word in the heap's slice.
#[derive(Clone, Copy, PartialEq, Eq)]
pub struct WordIndex(pub usize);

// Bytes from the heap's start.
#[derive(Clone, Copy, PartialEq, Eq)]
pub struct ByteOffset(pub u32);

// The header that a link names, word 0 for a sentinel's (heap.rs: link_to_ptr).
impl From<Link> for WordIndex {
    ghost from_gives = { λ l hdr. hdr.0 ≡ links.word l.0 };

    fn from(l: Link) -> WordIndex {
        WordIndex((l.0 as usize).saturating_sub(6))
    }
}

// The link that names a header; that of a header from word 65,530 on does not fit (heap.rs: ptr_to_link).
impl From<WordIndex> for Link {
    ghost from_gives = { λ hdr l. l.0 ≡ held_name links hdr.0 };

    fn from(hdr: WordIndex) -> Link {
        Link(((hdr.0 % 65536 + 6) % 65536) as u16)
    }
}

// The header's byte offset.
impl From<WordIndex> for ByteOffset {
    ghost from_gives = { λ hdr offset. offset.0 ≡ held_name offsets hdr.0 };

    fn from(hdr: WordIndex) -> ByteOffset {
        ByteOffset((hdr.0 % 0x4000_0000 * 4) as u32)
    }
}

// The word that holds a byte.
impl From<ByteOffset> for WordIndex {
    ghost from_gives = { λ offset hdr. hdr.0 ≡ offsets.word offset.0 };

    fn from(offset: ByteOffset) -> WordIndex {
        WordIndex((offset.0 / 4) as usize)
    }
}

// Given the header, the payload's byte offset.
pub fn hdr_to_payload(hdr: WordIndex) -> ByteOffset
    ensures { result.0 ≡ held_name payloads hdr.0 }
{
    ByteOffset(((hdr.0 % 0x4000_0000 * 4 + 4) % 0x1_0000_0000) as u32)
}

// Given the payload's byte offset, the header.
pub fn payload_to_hdr(payload: ByteOffset) -> WordIndex
    ensures { result.0 ≡ payloads.word payload.0 }
{
    WordIndex((payload.0.saturating_sub(4) / 4) as usize)
}
