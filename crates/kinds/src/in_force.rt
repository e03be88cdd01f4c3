// A thing in force: what a message said, and how long that stays.
ghost use Rattle.std.specs.Prelude.{◌≡◌};
ghost use Rattle.layouts.specs.Bits.{bit};
ghost use Rattle.kinds.specs.Contents.{lasting};

use records::period::Period;
use std::fmt;

#[derive(Clone, Copy, PartialEq, Eq, Debug)]
pub enum Stay {
    // the next picture ends it
    Once,
    // it outlasts pictures of its sequence
    Stays,
}

// A persistence flag tells whether it outlasts its picture.
impl From<bool> for Stay {
    ghost from_gives = { λ persistence r. r ≡ lasting (bit persistence) };

    fn from(persistence: bool) -> Stay {
        if persistence { Stay::Stays } else { Stay::Once }
    }
}

// A period of 0 pictures is that of its own picture alone.
impl From<Period> for Stay {
    ghost from_gives = { λ period r. r ≡ lasting period.pictures };

    fn from(period: Period) -> Stay {
        Stay::from(period.pictures > 0)
    }
}

#[derive(Clone, Copy, PartialEq, Eq, Debug, Drop)]
pub struct InForce<C> {
    pub content: C,
    pub stay: Stay,
}

impl fmt::Display for Stay {
    fn fmt<W: fmt::Write>(&self, f: &mut fmt::Formatter<W>) -> fmt::Result {
        match *self {
            Stay::Once => write!(f, "once"),
            Stay::Stays => write!(f, "stays"),
        }
    }
}
