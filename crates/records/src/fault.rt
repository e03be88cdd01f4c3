// Why a payload is refused.
ghost use Rattle.std.specs.Prelude.{◌≡◌};
ghost use Rattle.records.specs.declared.fault.PayloadFault.TheVariants.{Field};
ghost use Rattle.records.specs.Faults.{payload_number, payload_layer, payload_place};

use layouts::fault::{Fault, FieldFault, Layer};

#[derive(Clone, Copy, PartialEq, Eq, Debug)]
pub enum PayloadFault {
    // more than 65,535 bytes
    TooLong,
    // a field of it is refused
    Field(FieldFault),
}

impl From<FieldFault> for PayloadFault {
    ghost from_gives = { λ e r. r ≡ Field e };

    fn from(field: FieldFault) -> PayloadFault {
        PayloadFault::Field(field)
    }
}

impl Fault for PayloadFault {
    ghost number = { payload_number };

    ghost layer = { payload_layer };

    ghost place = { payload_place };

    fn number(&self) -> u8 {
        match *self {
            PayloadFault::TooLong => 5,
            PayloadFault::Field(fault) => fault.number(),
        }
    }

    fn layer(&self) -> Layer {
        Layer::Payload
    }

    fn place(&self) -> usize {
        match *self {
            PayloadFault::TooLong => 0,
            PayloadFault::Field(fault) => fault.place(),
        }
    }
}
