// The arithmetic of sizes: rounded size, class of a length, threshold (document 01, "Rounding, classes, threshold").
//
// No sum wraps: the rounded size of every 32-bit size is given, in 64 bits. Contracts cite specs/Sizes.antt.
ghost use Rattle.std.specs.Prelude.{◌≡◌};
ghost use Rattle.words.specs.Sizes.{rounded_of, class_of, start_of, threshold_of};

// The bytes that a request takes: its header added, at least 16, a multiple of 8.
pub fn rounded_size(size: u32) -> u64
    ensures { result ≡ rounded_of size }
{
    let with_hdr = size as u64 + 4;
    with_hdr.max(16).next_multiple_of(8)
}

// The class of a chunk length, the number of its free list: how often 16 was doubled, counted by the leading zeros of the length. The last
// class is open. All 32-bit lengths have a class; below 16 it is 0.
pub fn chunk_size_to_list_index(size: u32) -> u16
    ensures { result ≡ class_of size }
{
    let doublings = 27u32.saturating_sub(size.leading_zeros());
    doublings.min(5) as u16
}

// The list where a search starts: the next class, so that below 512 any chunk found is long enough.
pub fn start_index(size: u32) -> u16
    ensures { result ≡ start_of size }
{
    let class = chunk_size_to_list_index(size);
    (class + 1).min(5)
}

// The least length that a search finds: below 512 the next power of two, from 512 the length itself.
pub fn threshold(size: u32) -> u32
    ensures { result ≡ threshold_of size }
{
    match size {
        0..=31 => 32,
        32..=63 => 64,
        64..=127 => 128,
        128..=255 => 256,
        256..=511 => 512,
        _ => size,
    }
}
