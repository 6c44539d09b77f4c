// Releasing a chunk, and emptying the cache, so that it can be undone: each step notes the words that it will overwrite, then does what its plain twin does.
//
// `Log::put_back` gives every word as it was. The record needs no notes: it is passed by value, so the caller still has it. That the notes suffice
// is shown of any words, sound or not.
ghost use Rattle.std.specs.Prelude.{◌≡◌, IfSome, true, ◌+◌, ◌-◌, ◌≤◌, ◌<◌, length};
ghost use Rattle.words.specs.Numbers.{numbers};
ghost use Rattle.cache.specs.Places.{used_places};
ghost use Rattle.rules.specs.Rules.Steps.{release_chunk};
ghost use Rattle.rules.specs.Rules.Calls.{without_cache};
ghost use Rattle.steps.specs.Chunk.{Releasable};
ghost use Rattle.steps.specs.Undone.{Room};
ghost use Rattle.heap.specs.Seen.{seen, base};
ghost use Rattle.heap.specs.Released.{unlink_if, free_listed, oldest_gone};
ghost use Rattle.heap.specs.Undoable.{Noted};
ghost use Rattle.heap.specs.Answer.{sound_at};

use super::record::Record;
use steps::Log;
use words::{Link, Next, Prev, WordIndex};

impl Record {
    // unlink_chunk, if there is one. Noted are the link words of the nodes before and after, both before either is written.
    pub(crate) fn unlink_noted(self, heap: &mut [u32], log: &mut Log, node: Option<Link>) -> Record
        requires { IfSome node (λ l. 6 ≤ l.0) × Room heap.old log.old.notes.now log.old.len 2 }
        ensures { Noted (unlink_if (seen self heap.old) node) 2 heap.old log.old result heap.new log.new }
    {
        let Some(l) = node else {
            return self;
        };
        let prev = words::hdr_to_linked_hdr::<Prev>(heap, l);
        let next = words::hdr_to_linked_hdr::<Next>(heap, l);
        log.note_link(heap, prev);
        log.note_link(heap, next);
        self.unlink_chunk(heap, l)
    }

    // free_listed. Noted are the tags, the link word of the first chunk of the class, and the chunk's own.
    pub(crate) fn free_noted(
        self,
        heap: &mut [u32],
        log: &mut Log,
        merged: WordIndex,
        m: u32,
    ) -> Record
        requires { (merged.0 + 6 < 65536) × Room heap.old log.old.notes.now log.old.len 5 }
        ensures { Noted (free_listed (seen self heap.old) merged.0 m) 5 heap.old log.old result heap.new log.new }
    {
        let class = words::chunk_size_to_list_index(m) as usize;
        let first = self.next[class];
        log.note_tags(heap, merged, m);
        log.note_link(heap, first);
        log.note(heap, WordIndex(merged.0 + 1));
        self.free_listed(heap, merged, m)
    }

    // release_chunk, in at most nine notes. Between the two neighbours the links are read anew, so that no place has to be guessed.
    pub(crate) fn release_noted(self, heap: &mut [u32], log: &mut Log, l: Link, n: u32) -> Record
        requires { Releasable heap.old l.0 n × Room heap.old log.old.notes.now log.old.len 9 }
        ensures { Noted (release_chunk base (seen self heap.old) (l.0 - 6) n) 9 heap.old log.old result heap.new log.new }
    {
        let g = steps::merging(heap, l, n);
        let a = self.unlink_noted(heap, log, g.left);
        let b = a.unlink_noted(heap, log, g.right);
        b.free_noted(heap, log, g.hdr, g.size)
    }

    // Releases the oldest cached chunk of a sound heap, in at most nine notes; what tasks hold stays.
    pub(crate) fn let_go(self, heap: &mut [u32], log: &mut Log) -> Record
        requires { (sound_at 4 (seen self heap.old) ≡ true) × (0 < used_places (numbers self.cached))
            × Room heap.old log.old.notes.now log.old.len 9 }
        ensures { Noted (oldest_gone (seen self heap.old)) 9 heap.old log.old result heap.new log.new }
    {
        let c = self.cached;
        let held = self.in_use;
        let old = c[0];
        let n = words::get_hdr_chunk_size(heap, WordIndex::from(old));
        let a = self.release_noted(heap, log, old, n);
        let others = cache::left_out(c, 0);
        a.count_out(held, n, others)
    }

    // Empties the cache of a sound heap, oldest chunk first, in at most nine notes each.
    pub(crate) fn empty_cache(self, heap: &mut [u32], log: &mut Log) -> Record
        requires { (sound_at 4 (seen self heap.old) ≡ true) × (72 ≤ length log.old.notes.now) × (log.old.len ≡ 0) }
        ensures { Noted (without_cache base (seen self heap.old)) 36 heap.old log.old result heap.new log.new }
    {
        let n = cache::used_places(self.cached);
        let mut rec = self;
        for _ in 0..n {
            rec = rec.let_go(heap, log);
        }
        rec
    }
}
