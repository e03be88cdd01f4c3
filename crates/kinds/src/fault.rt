// What an offer and a look at a kind answer.
ghost use Rattle.std.specs.Prelude.{◌≡◌};
ghost use Rattle.kinds.specs.declared.fault.OfferFault.TheVariants.{Payload as PayloadCase};
ghost use Rattle.kinds.specs.declared.fault.LookFault.TheVariants.{ShortBuffer as ShortCase};
ghost use Rattle.kinds.specs.Faults.{offer_number, offer_layer, offer_place, look_number, look_layer, look_place};

use layouts::fault::{Fault, Layer, ShortBuffer};
use records::fault::PayloadFault;

// An offer that is not refused.
#[derive(Clone, Copy, PartialEq, Eq, Debug)]
pub enum Offered {
    // it is in force now, or has ended what was
    Granted,
    // it is not for this kind or this set, and nothing changes
    Passed,
}

// Why an offer is refused.
#[derive(Clone, Copy, PartialEq, Eq, Debug)]
pub enum OfferFault {
    // its payload is refused
    Payload(PayloadFault),
    // it does not agree with what is in force
    Disagrees,
    // as many are in force as there may be
    Full,
}

impl From<PayloadFault> for OfferFault {
    ghost from_gives = { λ e r. r ≡ PayloadCase e };

    fn from(payload: PayloadFault) -> OfferFault {
        OfferFault::Payload(payload)
    }
}

impl Fault for OfferFault {
    ghost number = { offer_number };

    ghost layer = { offer_layer };

    ghost place = { offer_place };

    fn number(&self) -> u8 {
        match *self {
            OfferFault::Payload(fault) => fault.number(),
            OfferFault::Disagrees => 10,
            OfferFault::Full => 11,
        }
    }

    fn layer(&self) -> Layer {
        match *self {
            OfferFault::Payload(fault) => fault.layer(),
            OfferFault::Disagrees | OfferFault::Full => Layer::Visit,
        }
    }

    fn place(&self) -> usize {
        match *self {
            OfferFault::Payload(fault) => fault.place(),
            OfferFault::Disagrees | OfferFault::Full => 0,
        }
    }
}

// Why a payload of a kind's part is not handed out.
#[derive(Clone, Copy, PartialEq, Eq, Debug)]
pub enum LookFault {
    // there is no payload of that number
    Missing,
    // the buffer is too short for it
    ShortBuffer,
}

impl From<ShortBuffer> for LookFault {
    ghost from_gives = { λ _ r. r ≡ ShortCase };

    fn from(_fault: ShortBuffer) -> LookFault {
        Self::ShortBuffer
    }
}

impl Fault for LookFault {
    ghost number = { look_number };

    ghost layer = { look_layer };

    ghost place = { look_place };

    fn number(&self) -> u8 {
        match *self {
            LookFault::Missing => 12,
            LookFault::ShortBuffer => ShortBuffer {}.number(),
        }
    }

    fn layer(&self) -> Layer {
        Layer::Visit
    }

    fn place(&self) -> usize {
        0
    }
}
