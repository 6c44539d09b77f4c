// The audit: whether a record and its words are sound (document 01, "Sound"), the test behind answer 5. It reads any record and any words.
//
// What it costs: the tiling is walked once with all tests, and once more, from the first free chunk on, with a single one; each class list is followed
// once in both directions, and once more for each window of 2,048 words. An empty list costs two reads. A record of another length than the words, as
// one that was never made, is refused before a word is read. The first walk waits for the words of the cached chunks one after the other, with one test
// for each used chunk; their lengths are read after it. Besides the locals, the stack holds 128 bytes of marks, whatever the length. Tiling, rings and
// windows are not inlined: each loop has the processor's registers to itself.
//
//     ground    the words
//     tiling    chunks, from one header to the next
//     rings     the class lists as mirrored rings
//     windows   the free chunks of a stretch of words, marked, against the lists
//
// Words and bytes are counted in u32 once the length is tested: a usize has 64 bits, two registers on a meter's processor. So the functions below
// take the words as a `Ground`, of which there are fewer than 2^30.
//
// The contract is an equation with the rules' own test. In between stands `proofs/Sound.antt`: the same condition, in terms of words and counts.
#![tactic(auto)]

ghost use Rattle.std.specs.Prelude.{◌≡◌, Bool, true, ◌↔◌};
ghost use Rattle.words.specs.Links.{narrow};
ghost use Rattle.rules.specs.Rules.State.{ops};
ghost use Rattle.rules.specs.Sound.Test.{soundᵇ};
ghost use Rattle.audit.specs.Shown.{shown};
ghost use Rattle.words.specs.Numbers.{numbers};
ghost use Rattle.audit.specs.Walk.{FiguresFit};
ghost use Rattle.audit.specs.Cached.{cached_word, words_of, front_right, links_right};

mod ground;
mod rings;
mod tiling;
mod windows;

use ground::Ground;
use rings::rings_right;
use tiling::{count_chunks, lengths_at};
use windows::lists_right;
use words::Link;

// What a record holds besides its links, as the audit reads it.
#[derive(Clone, Copy)]
pub struct Figures {
    // The heap's length in words.
    pub words: u32,
    // Bytes in use as tasks hold them, bytes committed, their peak, and the high water mark.
    pub in_use: u32,
    pub committed: u32,
    pub peak: u32,
    pub high: u32,
    // The cached chunks, oldest first; link 0 for an unused place.
    pub cached: [Link; 4],
    // The flag: 0 off, 1 on.
    pub fresh: u32,
}

// The word of a cached chunk's header: the heap's length if the link names no chunk, the guard if it names one past the words. Neither is a used
// chunk's header.
#[tactic(auto, unfolding(crate::specs::Cached::cached_word, words::specs::Choice::pick))]
fn cached_word(n: u32, cached: Link) -> u32
    ensures { result ≡ cached_word n cached.0 }
{
    let guard = n.saturating_sub(1);
    cached
        .0
        .checked_sub(6)
        .map_or(n, |w| u32::from(w).min(guard))
}

// The words of the cached chunks' headers.
fn cached_words(n: u32, c: [Link; 4]) -> [u32; 4]
    ensures { result ≡ words_of n (numbers c) }
{
    c.map(|l| cached_word(n, l))
}

// Whether a link can stand before these: link 0 before another link 0, or a chunk's link that does not come again.
#[tactic(auto, unfolding(crate::specs::Cached::front_right, words::specs::Choice::pick))]
fn front_right(l: Link, rest: &[Link]) -> bool
    ensures { result ≡ front_right l.0 (numbers rest.now) }
{
    if l == cache::UNUSED {
        return rest.is_empty() || rest[0] == cache::UNUSED;
    }
    6 <= l.0 && !(0..rest.len()).any(|k| rest[k] == l)
}

// Whether the cached links are right by themselves: no unused place before a used one, chunks' links, all different, no more than there are places.
fn links_right(c: [Link; 4], places: usize) -> bool
    ensures { result ≡ links_right places (numbers c) }
{
    for i in 0..c.len() {
        if !front_right(c[i], &c[i + 1..]) {
            return false;
        }
    }
    cache::used_places(c) <= places
}

// Whether the figures are right for n words whose used chunks add up to `sum` bytes and end at `top`, with `held` of these bytes cached.
fn figures_right(f: Figures, n: u32, sum: u32, held: usize, top: u32) -> bool
    ensures { result ≡ true ↔ FiguresFit f n sum held top }
{
    let length = f.words == n && 5 <= n && n <= 65529 && n % 2 == 1;
    let bytes = f.committed == sum
        && f.in_use <= f.committed
        && (f.committed - f.in_use) as usize == held;
    let marks = f.committed <= f.peak && f.peak <= f.high && top <= f.high && f.high % 8 == 0;
    length && bytes && marks && f.high <= n * 4 - 4 && f.fresh <= 1
}

// Whether a record and its words are sound.
pub fn audit(
    prev: [Link; 6],
    next: [Link; 6],
    figures: Figures,
    heap: &[u32],
    places: usize,
) -> bool
    ensures { result ≡ soundᵇ (ops narrow) 65529 places (shown prev next figures heap.now) }
{
    let cached = figures.cached;
    if !links_right(cached, places) || 65529 < heap.len() {
        return false;
    }
    if figures.words as usize != heap.len() {
        return false;
    }
    let ground = Ground { words: heap };
    let n = ground.len();
    let ws = cached_words(n, cached);
    let Some(t) = count_chunks(ground, ws) else {
        return false;
    };
    if t.next != n || !figures_right(figures, n, t.sum, lengths_at(ground, ws), t.top) {
        return false;
    }
    rings_right(&prev, &next, ground, t.first, &t.frees)
        && lists_right(&next, ground, t.first, &t.frees)
}
