// The words of a heap, few enough to be counted in u32: a usize has 64 bits, two registers on a meter's processor.
ghost use Rattle.std.specs.Prelude.{◌<◌, ◌^◌, length};

// The words, fewer than 2^30. They are handed on by value, so that a walk has their place in a register.
#[derive(Clone, Copy)]
pub(crate) struct Ground<'a> {
    pub(crate) words: &'a [u32],
    ghost few: { length words.now < 2 ^ 30 },
}

impl Ground<'_> {
    ghost use Rattle.std.specs.Prelude.{◌≡◌, ◌<◌, ◌^◌, length, slice_index, slice_get};

    // How many there are.
    pub(crate) fn len(self) -> u32
        ensures is { result ≡ length self.entry.words.now }
        ensures few { result < 2 ^ 30 }
    {
        self.words.len() as u32
    }

    // The word at a place, if there is one; the slice's own `get` counts in usize.
    pub(crate) fn get(self, i: u32) -> Option<u32>
        ensures { result ≡ slice_get self.entry.words.now i }
    {
        if i < self.len() {
            Some(self.at(i))
        } else {
            None
        }
    }

    // The word at a place.
    pub(crate) fn at(self, i: u32) -> u32
        requires { i < length self.words.now }
        ensures { result ≡ slice_index self.entry.words.now i }
    {
        self.words[i as usize]
    }
}
