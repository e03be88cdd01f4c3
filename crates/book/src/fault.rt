// Why a call of a visit is refused.
ghost use Rattle.std.specs.Prelude.{◌≡◌};
ghost use Rattle.book.specs.declared.fault.Refusal.TheVariants.{Offer as OfferCase, Unit as UnitCase};
ghost use Rattle.book.specs.Faults.{look_refusal, refusal_number, refusal_layer, refusal_place};

use kinds::fault::{LookFault, OfferFault};
use layouts::fault::{Fault, Layer, Told};
use std::fmt;
use units::fault::UnitFault;

// Why a call is refused. `Missing` and `ShortBuffer` say what the two cases of `LookFault` say, and no case holds one of
// them: a catch-up is refused for a short buffer too, and would then be told as a look, and no caller of a visit sees a
// look's fault.
#[derive(Clone, Copy, PartialEq, Eq, Debug)]
pub enum Refusal {
    // no picture has begun
    NoPicture,
    // a unit is refused before its messages are looked at
    Unit(UnitFault),
    // an offer is refused
    Offer(OfferFault),
    // there is no payload of that type and number
    Missing,
    // the buffer is too short
    ShortBuffer,
}

// A message of a unit that is refused: the place of its first byte in the unit, and the offer's fault.
#[derive(Clone, Copy, PartialEq, Eq, Debug)]
pub struct MessageFault {
    pub place: usize,
    pub fault: OfferFault,
}

impl From<UnitFault> for Refusal {
    ghost from_gives = { λ e r. r ≡ UnitCase e };

    fn from(fault: UnitFault) -> Refusal {
        Refusal::Unit(fault)
    }
}

impl From<OfferFault> for Refusal {
    ghost from_gives = { λ e r. r ≡ OfferCase e };

    fn from(fault: OfferFault) -> Refusal {
        Refusal::Offer(fault)
    }
}

impl From<LookFault> for Refusal {
    ghost from_gives = { λ e r. r ≡ look_refusal e };

    fn from(fault: LookFault) -> Refusal {
        match fault {
            LookFault::Missing => Refusal::Missing,
            LookFault::ShortBuffer => Refusal::ShortBuffer,
        }
    }
}

impl Fault for Refusal {
    ghost number = { refusal_number };

    ghost layer = { refusal_layer };

    ghost place = { refusal_place };

    fn number(&self) -> u8 {
        match *self {
            Refusal::NoPicture => 1,
            Refusal::Unit(unit) => unit.number(),
            Refusal::Offer(offer) => offer.number(),
            Refusal::Missing => LookFault::Missing.number(),
            Refusal::ShortBuffer => LookFault::ShortBuffer.number(),
        }
    }

    fn layer(&self) -> Layer {
        match *self {
            Refusal::Unit(unit) => unit.layer(),
            Refusal::Offer(offer) => offer.layer(),
            Refusal::NoPicture | Refusal::Missing | Refusal::ShortBuffer => Layer::Visit,
        }
    }

    fn place(&self) -> usize {
        match *self {
            Refusal::Unit(unit) => unit.place(),
            Refusal::Offer(offer) => offer.place(),
            Refusal::NoPicture | Refusal::Missing | Refusal::ShortBuffer => 0,
        }
    }
}

// The number, the layer and the place, as in `refused 9 payload 2`.
impl fmt::Display for Refusal {
    fn fmt<W: fmt::Write>(&self, f: &mut fmt::Formatter<W>) -> fmt::Result {
        write!(f, "refused {}", Told(*self))
    }
}
