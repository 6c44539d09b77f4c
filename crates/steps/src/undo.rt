// Undoing: what a call changed before it refuses is put back. heap.rs has none of this, since it changes nothing before it refuses.
//
// Each word, before it is overwritten, is noted in a log that the caller lends: a pair of its index and what it holds. The notes are put back last
// first, so that a word noted twice gets what it held first. The contracts hold of any words, sound or not.
ghost use Rattle.std.specs.Prelude.{◌≡◌, ◌+◌, ◌-◌, ◌/◌, ◌^◌, ◌<◌, [], ◌∷◌, length};
ghost use Rattle.steps.specs.Undone.{put_back, tag_places};
ghost use Rattle.steps.specs.Log.{Logged};

use words::{Link, WordIndex};

// Notes in a slice that the caller lends, `len` of them so far. Any slice may be lent, and any number of notes may stand in it.
#[derive(Drop)]
pub struct Log<'a> {
    pub notes: &'a mut [u32],
    pub len: usize,
}

impl<'a> Log<'a> {
    // Notes the word at a place; nothing past the end, where a store does nothing, and nothing where the log is full.
    pub fn note(&mut self, heap: &[u32], i: WordIndex)
        ensures { Logged heap.now (i.0 ∷ []) self.old self.new }
    {
        let w = i.0;
        let k = self.len;
        if heap.len() <= w || self.notes.len() / 2 <= k {
            return;
        }
        self.notes[2 * k] = (w % 4294967296) as u32;
        self.notes[2 * k + 1] = heap[w];
        self.len = k + 1;
    }

    // Notes the word that holds the links of a node. A sentinel's stand in no word: for it word 1 is noted, which does no harm.
    pub fn note_link(&mut self, heap: &[u32], l: Link)
        ensures { Logged heap.now (((l.0 - 6) + 1) ∷ []) self.old self.new }
    {
        let hdr = WordIndex::from(l);
        self.note(heap, WordIndex(hdr.0 + 1));
    }

    // Notes the words that hold the tags of a free chunk of this length: its header, its footer, and its right neighbour's header.
    pub fn note_tags(&mut self, heap: &[u32], hdr: WordIndex, size: u32)
        ensures { hdr.0 < 2 ^ 32 → Logged heap.now (tag_places hdr.0 size) self.old self.new }
    {
        self.note(heap, hdr);
        self.note(heap, words::hdr_to_ftr(hdr, size));
        self.note(heap, words::hdr_to_right_hdr(hdr, size));
    }

    // Puts the notes back, last first; where the slice has fewer, those.
    pub fn put_back(&self, heap: &mut [u32])
        ensures { heap.new ≡ put_back self.now.notes.now self.now.len heap.old }
    {
        let n = self.len.min(self.notes.len() / 2);
        for j in (0..n).rev() {
            let to = WordIndex(self.notes[2 * j] as usize);
            words::put(heap, to, self.notes[2 * j + 1]);
        }
    }
}
