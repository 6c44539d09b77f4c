// The kinds of heap that a caller chooses from, at each call: how many chunks the cache may hold.
//
// The record does not say which kind it is of. With one place the calls keep to the first text of the rules; a record that holds more cached
// chunks than a call's kind has places is damaged to that call.
ghost use Rattle.std.specs.Prelude.{◌≡◌};
ghost use Rattle.heap.specs.Kind.{places_of};

#[derive(Clone, Copy)]
pub enum Kind {
    // one cache place, as heap.rs has
    One,
    // four
    Four,
}

impl Kind {
    // How many cache places a heap of this kind has.
    pub fn places(self) -> usize
        ensures { result ≡ places_of self }
    {
        match self {
            Kind::One => 1,
            Kind::Four => 4,
        }
    }
}
