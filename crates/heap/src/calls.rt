// The three public calls: make (mcu_heap_init), hand_out (mcu_malloc) and take_back (mcu_free), and the audit that they go by.
//
// Each refuses in document 01's order of tests, and a refusal leaves record and words as they were: it comes before anything is written, or, where the
// cache was emptied for nothing, the words are put back. What follows a passed audit is heap.rs, but for that emptying and for `never`.
ghost use Rattle.std.specs.Prelude.{◌≡◌, true, [], ◌∷◌, ◌++◌, ◌-◌, ◌*◌, ◌≤◌, ◌<◌, ◌%◌, length};
ghost use Rattle.rules.specs.Rules.Calls.{never, without_cache, first_fit, took, from_merged, from_list, serve, settled, live};
ghost use Rattle.rules.specs.Rules.Making.{acceptedᵇ};
ghost use Rattle.rules.specs.Rules.Steps.{one_chunk};
ghost use Rattle.steps.specs.Live.{if_used};
ghost use Rattle.heap.specs.Seen.{seen, base, cached_in};
ghost use Rattle.heap.specs.Kind.{places_of};
ghost use Rattle.heap.specs.Promises.{Makes, HandsOut, TakesBack};
ghost use Rattle.heap.specs.Answer.{gives, out_of, out_after, out_made, sound_at, Served, Fitting, Missed};

use super::answer::{Done, NotMade, Refusal};
use super::kind::Kind;
use super::record::Record;
use audit::Figures;
use steps::Log;
use words::{ByteOffset, Link, WordIndex};

// Whether no heap of so many words can ever serve a rounded size. Thresholds are multiples of 8, so words compare as bytes do.
fn never(n: usize, z: u32) -> bool
    requires { z % 8 ≡ 0 }
    ensures { result ≡ never n z }
{
    n.saturating_sub(1) < (words::threshold(z) / 4) as usize
}

impl Record {
    // Whether a heap may have this many words: an odd count from 5 to 65,529.
    pub fn accepts(words: usize) -> bool
        ensures { result ≡ acceptedᵇ 65529 words }
    {
        Self::LEAST_WORDS <= words && words <= Self::MOST_WORDS && words % 2 == 1
    }

    // Whether the record and these words are sound, for a heap of this kind.
    pub fn audit(self, heap: &[u32], kind: Kind) -> bool
        ensures { result ≡ sound_at (places_of kind) (seen self heap.now) }
    {
        let prev = self.prev;
        let next = self.next;
        let cached = self.cached;
        let figures = Figures {
            words: self.words,
            in_use: self.in_use,
            committed: self.committed,
            peak: self.peak,
            high: self.high,
            cached,
            fresh: self.fresh,
        };
        let places = kind.places();
        audit::audit(prev, next, figures, heap, places)
    }

    // Makes a heap of the whole slice: one free chunk and the guard. Refuses a length that is not odd, or not 5 to 65,529, with the empty record.
    pub fn make(heap: &mut [u32]) -> Result<Record, NotMade>
        ensures { Makes heap.old (out_made result) heap.new }
    {
        let n = heap.len();
        let accepted = Self::accepts(n);
        if !accepted {
            return Err(NotMade {
                rec: Record::empty(),
                refusal: Refusal::BadLength,
            });
        }
        let rec = Record::of_words(n as u32);
        Ok(rec.one_chunk(heap))
    }

    // Hands out a payload of at least `size` bytes, all of them 0, its slack too.
    pub fn hand_out(
        self,
        heap: &mut [u32],
        size: u32,
        kind: Kind,
    ) -> Result<(Done, Record), Refusal>
        ensures { HandsOut (places_of kind) self heap.old size (out_of self result) heap.new }
    {
        if size == 0 {
            return Err(Refusal::ZeroSize);
        }
        if Self::MOST_SIZE < size {
            return Err(Refusal::TooLarge);
        }
        let sound = self.audit(heap, kind);
        if !sound {
            return Err(Refusal::Damaged);
        }
        let z = words::rounded_size(size) as u32;
        let hopeless = never(heap.len(), z);
        if hopeless {
            return Err(Refusal::NeverFits);
        }
        self.serve(heap, z)
    }

    // Takes back the payload that begins at this offset.
    pub fn take_back(
        self,
        heap: &mut [u32],
        payload: ByteOffset,
        kind: Kind,
    ) -> Result<Record, Refusal>
        ensures { TakesBack (places_of kind) self heap.old payload.0 (out_after self result) heap.new }
    {
        let sound = self.audit(heap, kind);
        if !sound {
            return Err(Refusal::Damaged);
        }
        let length = self.live_length(heap, payload.0).ok_or(Refusal::NotLive)?;
        let l = Link::from(words::payload_to_hdr(payload));
        let held = self.in_use.saturating_sub(length);
        let places = kind.places();
        Ok(self.settle(heap, held, l, places))
    }

    // One free chunk up to the guard, listed.
    fn one_chunk(self, heap: &mut [u32]) -> Record
        requires { (5 ≤ length heap.old) × (length heap.old ≤ 65529) }
        ensures { seen result heap.new ≡ one_chunk base (seen self heap.old) (4 * (length heap.old - 1)) }
    {
        let guard = heap.len() - 1;
        let bytes = (4 * guard) as u32;
        steps::set_free_chunk_hdr_ftr(heap, WordIndex(0), bytes);
        words::put(heap, WordIndex(guard), 2);
        let class = words::chunk_size_to_list_index(bytes);
        self.link_chunk(heap, class, Link(6))
    }

    // The length of the live chunk whose payload begins at p, if one does. Only the tiling tells: not the word before the payload.
    fn live_length(self, heap: &[u32], p: u32) -> Option<u32>
        ensures { result ≡ if_used (live base (seen self heap.now) p) }
    {
        let b = p.checked_sub(4)?;
        let cold = cache::holds(self.cached, b / 4 + 6);
        if cold {
            return None;
        }
        steps::used_length(heap, b)
    }

    // Caches the chunk l as the newest, `held` bytes being in use then; where all places are used, the oldest one is released first.
    fn settle(self, heap: &mut [u32], held: u32, l: Link, places: usize) -> Record
        requires { (sound_at 4 (seen self heap.old) ≡ true) × (6 ≤ l.0) × (0 < places) × (places ≤ 4) }
        ensures { seen result heap.new ≡ settled base places (seen self heap.old) held (cached_in self ++ l.0 ∷ []) }
    {
        let c = self.cached;
        let k = cache::used_places(c);
        if k < places {
            let more = cache::put_last(c, k, l);
            return self.with_cached(held, more);
        }
        let old = c[0];
        let n = words::get_hdr_chunk_size(heap, WordIndex::from(old));
        let a = self.release_chunk(heap, old, n);
        let others = cache::left_out(c, 0);
        let newer = cache::put_last(others, k.saturating_sub(1), l);
        a.count_out(held, n, newer)
    }

    // Serves a rounded size on a sound heap: from the cache, the oldest chunk that serves, else from the lists. The payload arrives empty.
    fn serve(self, heap: &mut [u32], z: u32) -> Result<(Done, Record), Refusal>
        requires { Served (seen self heap.old) z }
        ensures { gives self result heap.new ≡ serve base (seen self heap.old) z }
    {
        let c = self.cached;
        let Some(k) = cache::choice(heap, c, z) else {
            return self.serve_listed(heap, z);
        };
        let hdr = WordIndex::from(c[k]);
        let n = words::get_hdr_chunk_size(heap, hdr);
        steps::clear_payload(heap, hdr, n);
        let held = self.in_use + n;
        let others = cache::left_out(c, k);
        let done = Done {
            payload: words::hdr_to_payload(hdr),
            compared: 0,
        };
        Ok((done, self.with_cached(held, others)))
    }

    // Serves a rounded size on a sound heap from the lists; if they have nothing, once more with the cache emptied.
    fn serve_listed(self, heap: &mut [u32], z: u32) -> Result<(Done, Record), Refusal>
        requires { Served (seen self heap.old) z }
        ensures { gives self result heap.new
            ≡ from_list base (seen self heap.old) z (first_fit base (seen self heap.old) z) }
    {
        let found = steps::search_first_fit(self.next, heap, z)?;
        let c = found.compared as u32;
        match found.at {
            Some(l) => Ok(self.take_found(heap, l, c, z)),
            None => self.serve_merged(heap, z, c),
        }
    }

    // Serves a rounded size that a search of a sound heap found nothing for, comparing c chunks: every cached chunk is released and the lists are
    // searched again. If that finds nothing, the words are put back; the record at entry is still there. With nothing cached it would be the same search.
    fn serve_merged(self, heap: &mut [u32], z: u32, c: u32) -> Result<(Done, Record), Refusal>
        requires { Missed (seen self heap.old) z c }
        ensures { gives self result heap.new
            ≡ from_merged base (seen self heap.old) z c (first_fit base (without_cache base (seen self heap.old)) z) }
    {
        let cached = self.cached;
        if cached[0] == cache::UNUSED {
            return Err(Refusal::NoFit(c + c));
        }
        let mut notes = [0u32; 72];
        let mut log = Log {
            notes: &mut notes,
            len: 0,
        };
        let rec = self.empty_cache(heap, &mut log);
        // The lists of a sound heap end, so nothing leaves here with the words changed.
        let found = steps::search_first_fit(rec.next, heap, z)?;
        let compared = c + found.compared as u32;
        match found.at {
            Some(l) => Ok(rec.take_found(heap, l, compared, z)),
            None => {
                log.put_back(heap);
                Err(Refusal::NoFit(compared))
            }
        }
    }

    // Takes the chunk that a search found, after c comparisons, for a rounded size; what is cleared is the chunk as finally cut.
    fn take_found(self, heap: &mut [u32], l: Link, c: u32, z: u32) -> (Done, Record)
        requires { Fitting (seen self heap.old) z l.0 }
        ensures { gives self (Ok result) heap.new ≡ took base (seen self heap.old) z l.0 c }
    {
        let hdr = WordIndex::from(l);
        let n = words::get_hdr_chunk_size(heap, hdr);
        let m = steps::portion_of(n, z);
        let a = self.take_chunk(heap, l, n, z);
        steps::clear_payload(heap, hdr, m);
        let end = ByteOffset::from(words::hdr_to_right_hdr(hdr, m));
        let rec = a.count_in(m, end.0);
        let done = Done {
            payload: words::hdr_to_payload(hdr),
            compared: c,
        };
        (done, rec)
    }
}
