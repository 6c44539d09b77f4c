// What the calls answer: done or refused; and an answer in document 01's three numbers, for callers who see no enum. The door and the trace pass them on.
//
// No other code says which number a case has. The contracts cite specs/Answer.antt.
ghost use Rattle.std.specs.Prelude.{◌≡◌, Ok, Err};
ghost use Rattle.heap.specs.declared.answer.Refusal.TheVariants.{Damaged};
ghost use Rattle.heap.specs.Answer.{number_of, count_of, answer_of, without_value, out_made, told_of};

use super::record::Record;
use std::error::Error;
use std::fmt;
use steps::Lost;
use words::ByteOffset;

// A handout: the payload's offset, and how many free chunks were compared.
#[derive(Clone, Copy)]
pub struct Done {
    pub payload: ByteOffset,
    pub compared: u32,
}

// Why a call is refused.
#[derive(Clone, Copy, Debug, PartialEq, Eq)]
pub enum Refusal {
    ZeroSize,
    TooLarge,
    // no fit now, and how many free chunks were compared
    NoFit(u32),
    NotLive,
    Damaged,
    BadLength,
    // no fit ever: no heap of this length can serve it
    NeverFits,
}

impl Refusal {
    // document 01's answer number.
    fn number(self) -> u32
        ensures { result ≡ number_of self }
    {
        match self {
            Refusal::ZeroSize => 1,
            Refusal::TooLarge => 2,
            Refusal::NoFit(_) => 3,
            Refusal::NotLive => 4,
            Refusal::Damaged => 5,
            Refusal::BadLength => 6,
            Refusal::NeverFits => 8,
        }
    }

    // How many free chunks were compared.
    fn compared(self) -> u32
        ensures { result ≡ count_of self }
    {
        match self {
            Refusal::NoFit(c) => c,
            _ => 0,
        }
    }
}

impl fmt::Display for Refusal {
    fn fmt<W: fmt::Write>(&self, f: &mut fmt::Formatter<W>) -> fmt::Result {
        f.write_str(match self {
            Refusal::ZeroSize => "zero size asked",
            Refusal::TooLarge => "too large",
            Refusal::NoFit(_) => "no fit",
            Refusal::NotLive => "not live",
            Refusal::Damaged => "damaged",
            Refusal::BadLength => "bad length",
            Refusal::NeverFits => "never fits",
        })
    }
}

impl Error for Refusal {}

// Making refused. Making takes no record, so its refusal hands back one: the empty record.
#[derive(Clone, Copy)]
pub struct NotMade {
    pub rec: Record,
    pub refusal: Refusal,
}

// As the refusal is shown.
impl fmt::Debug for NotMade {
    fn fmt<W: fmt::Write>(&self, f: &mut fmt::Formatter<W>) -> fmt::Result {
        fmt::Debug::fmt(&self.refusal, f)
    }
}

impl fmt::Display for NotMade {
    fn fmt<W: fmt::Write>(&self, f: &mut fmt::Formatter<W>) -> fmt::Result {
        fmt::Display::fmt(&self.refusal, f)
    }
}

impl Error for NotMade {}

// For callers whose own record still holds.
impl From<NotMade> for Refusal {
    ghost from_gives = { λ not_made refusal. refusal ≡ not_made.refusal };

    fn from(not_made: NotMade) -> Refusal {
        not_made.refusal
    }
}

// Lists that do not end are those of a damaged heap.
impl From<Lost> for Refusal {
    ghost from_gives = { λ _ refusal. refusal ≡ Damaged };

    fn from(_lost: Lost) -> Refusal {
        Refusal::Damaged
    }
}

// What an answer tells, in numbers.
#[derive(Clone, Copy, Debug, PartialEq, Eq)]
pub struct Told {
    // document 01's answer number
    pub number: u32,
    // the payload's offset for a handout, 0 otherwise
    pub value: u32,
    // how many free chunks were compared
    pub compared: u32,
}

impl From<Done> for Told {
    ghost from_gives = { λ done told. told ≡ told_of (Ok done) };

    fn from(done: Done) -> Told {
        Told {
            number: 0,
            value: done.payload.0,
            compared: done.compared,
        }
    }
}

impl From<Refusal> for Told {
    ghost from_gives = { λ refusal told. told ≡ told_of (Err refusal) };

    fn from(refusal: Refusal) -> Told {
        Told {
            number: refusal.number(),
            value: 0,
            compared: refusal.compared(),
        }
    }
}

impl From<Result<(Done, Record), Refusal>> for Told {
    ghost from_gives = { λ answer told. told ≡ told_of (answer_of answer) };

    fn from(answer: Result<(Done, Record), Refusal>) -> Told {
        match answer {
            Ok((done, _)) => Told::from(done),
            Err(refusal) => Told::from(refusal),
        }
    }
}

impl From<Result<Record, Refusal>> for Told {
    ghost from_gives = { λ answer told. told ≡ told_of (without_value answer) };

    fn from(answer: Result<Record, Refusal>) -> Told {
        match answer {
            Ok(_) => Told {
                number: 0,
                value: 0,
                compared: 0,
            },
            Err(refusal) => Told::from(refusal),
        }
    }
}

impl From<Result<Record, NotMade>> for Told {
    ghost from_gives = { λ made told. told ≡ told_of (out_made made).answer };

    fn from(made: Result<Record, NotMade>) -> Told {
        Told::from(made.map_err(Refusal::from))
    }
}
