// Sums on two or three numbers: what a request gets of a chunk, and what the counters become.
ghost use Rattle.std.specs.Prelude.{◌≡◌, nat_lt};
ghost use Rattle.words.specs.Choice.{pick};
ghost use Rattle.rules.specs.Rules.Steps.{portion};

// The least excess that becomes a chunk of its own, under heap.rs's name and number. Lengths are multiples of 8, so it is 16 in fact.
pub const FREE_CHUNK_MIN_SIZE: u32 = 12;

// What a request for z gets of n bytes: z where at least FREE_CHUNK_MIN_SIZE remain, else all.
pub fn portion_of(n: u32, z: u32) -> u32
    ensures { result ≡ portion n z }
{
    let excess = n.saturating_sub(z);
    if excess < FREE_CHUNK_MIN_SIZE { n } else { z }
}

// The flag after a handout that ends at `end`: on if high water rises, else as it was.
pub fn risen(high: u32, end: u32, fresh: u32) -> u32
    ensures { result ≡ pick (nat_lt high end) 1 fresh }
{
    if high < end { 1 } else { fresh }
}
