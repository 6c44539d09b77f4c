// The record: what heap.rs keeps in statics (SENTINELS, CACHED, CUR_ALLOC_SIZE, MAX_ALLOC_SIZE, HIGH_WATER_MARK and its flag).
// `committed` is CUR_ALLOC_SIZE, and `in_use` is the part of it that tasks hold.
//
// It is plain data, passed and returned by value. All bytes zero is the empty record: a kernel's static memory at reset.
ghost use Rattle.std.specs.Prelude.{◌≡◌, ◌+◌, ◌-◌, ◌<◌, ◌^◌, max, ltb};
ghost use Rattle.words.specs.Choice.{pick};
ghost use Rattle.heap.specs.Seen.{empty_record, fresh_record, with_cached, counted_in, counted_out, stored};
ghost use Rattle.heap.specs.Mark.{mark_of};

use words::Link;

#[repr(C)]
#[derive(Clone, Copy)]
pub struct Record {
    // the prev link of each list's sentinel: its last chunk, or the sentinel itself
    pub prev: [Link; 6],
    // the next link of each list's sentinel: its first chunk, or the sentinel itself
    pub next: [Link; 6],
    // the cached chunks, oldest first; link 0, which names no chunk, for an unused place, and those come last
    pub cached: [Link; 4],
    // how many words the heap has; 0 before a heap is made
    pub words: u32,
    // bytes in use, as tasks hold them: the sum of live lengths
    pub in_use: u32,
    // bytes committed: the sum of used lengths, those of the cached chunks included
    pub committed: u32,
    // the largest value that `committed` has had
    pub peak: u32,
    // the largest end, in bytes, of a chunk that was handed out
    pub high: u32,
    // whether high water has risen since the mark was last read: 1 if it has, else 0; any other value counts as damage
    pub fresh: u32,
}

// The mark, none where nothing is new and else high water less the stacks' share; and the record with its flag off.
#[derive(Clone, Copy)]
pub struct Marked {
    pub mark: Option<i64>,
    pub rec: Record,
}

impl Record {
    pub const LEAST_WORDS: usize = 5;

    pub const MOST_WORDS: usize = 65529;

    pub const MOST_SIZE: u32 = 4294967284;

    pub const LEAST_CHUNK: u32 = 16;

    pub const PLACES: usize = 4;

    pub const SLACK: u32 = cache::SLACK;

    pub const STACKLET: u64 = 108;

    // The record before a heap is made.
    pub fn empty() -> Record
        ensures { result ≡ empty_record }
    {
        Record {
            prev: [Link(0); 6],
            next: [Link(0); 6],
            cached: [cache::UNUSED; 4],
            words: 0,
            in_use: 0,
            committed: 0,
            peak: 0,
            high: 0,
            fresh: 0,
        }
    }

    // The record of a heap of this many words, with empty lists.
    pub(crate) fn of_words(words: u32) -> Record
        ensures { result ≡ fresh_record words }
    {
        let selves = [Link(0), Link(1), Link(2), Link(3), Link(4), Link(5)];
        Record {
            prev: selves,
            next: selves,
            words,
            ..Record::empty()
        }
    }

    // Bytes in use, as tasks hold them: cached chunks do not count.
    pub fn in_use(self) -> u32
        ensures { result ≡ self.in_use }
    {
        self.in_use
    }

    // Bytes committed: those in use, and those of the cached chunks.
    pub fn committed(self) -> u32
        ensures { result ≡ self.committed }
    {
        self.committed
    }

    // The most bytes that were ever committed.
    pub fn peak(self) -> u32
        ensures { result ≡ self.peak }
    {
        self.peak
    }

    // High water: the largest end of a chunk that was handed out.
    pub fn high_water(self) -> u32
        ensures { result ≡ self.high }
    {
        self.high
    }

    // The mark of allocator/mod.rs: if high water has risen, high water less 108 bytes for each stacklet, and the flag is cleared. It never refuses:
    // any flag but 0 counts as on.
    pub fn mark(mut self, stacklets: u32) -> Marked
        ensures { result ≡ mark_of self stacklets }
    {
        if self.fresh == 0 {
            return Marked {
                mark: None,
                rec: self,
            };
        }
        self.fresh = 0;
        let high = self.high;
        let stacks = Self::STACKLET * (stacklets as u64);
        let top = high as u64;
        Marked {
            mark: Some((top as i64) - (stacks as i64)),
            rec: self,
        }
    }

    // The record with `held` bytes in use and the cached chunks c; `committed` stays.
    pub(crate) fn with_cached(mut self, held: u32, c: [Link; 4]) -> Record
        ensures { result ≡ with_cached self held c }
    {
        self.in_use = held;
        self.cached = c;
        self
    }

    // The counters after a chunk of m bytes that ends at byte `end` was taken from a list.
    pub(crate) fn count_in(mut self, m: u32, end: u32) -> Record
        requires { (self.in_use + m < 2 ^ 32) × (self.committed + m < 2 ^ 32) }
        ensures { result ≡ counted_in self m end }
    {
        self.in_use += m;
        self.committed += m;
        self.peak = self.peak.max(self.committed);
        self.fresh = steps::risen(self.high, end, self.fresh);
        self.high = self.high.max(end);
        self
    }

    // The record after a chunk of n bytes has left the cache for a list: the newer ones are still cached, and `held` bytes are in use.
    pub(crate) fn count_out(mut self, held: u32, n: u32, newer: [Link; 4]) -> Record
        ensures { result ≡ counted_out self held n newer }
    {
        self.in_use = held;
        self.committed = self.committed.saturating_sub(n);
        self.cached = newer;
        self
    }
}

// The record's half of storing a node's link, in the array of that side: nothing if the node is a chunk.
pub(crate) fn set_sentinel(links: &mut [Link; 6], l: Link, to: Link)
    ensures { links.new ≡ stored links.old l.0 to }
{
    let k = l.0 as usize;
    if k < 6 {
        links[k] = to;
    }
}
