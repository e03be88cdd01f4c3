// Why a unit is refused before any of its messages is looked at.
ghost use Rattle.units.specs.Faults.{unit_number, unit_layer, unit_place};

use layouts::fault::{Fault, Layer};

#[derive(Clone, Copy, PartialEq, Eq, Debug)]
pub enum UnitFault {
    // the source faults behind the bytes that were taken into the scratch
    Source { taken: usize },
    // a further byte comes behind those that fit the scratch and 65,536
    Room { taken: usize },
    // the frame is broken at a byte
    Frame { at: usize },
}

impl Fault for UnitFault {
    ghost number = { unit_number };

    ghost layer = { unit_layer };

    ghost place = { unit_place };

    fn number(&self) -> u8 {
        match *self {
            UnitFault::Source { .. } => 2,
            UnitFault::Room { .. } => 3,
            UnitFault::Frame { .. } => 4,
        }
    }

    fn layer(&self) -> Layer {
        match *self {
            UnitFault::Source { .. } => Layer::Source,
            UnitFault::Room { .. } | UnitFault::Frame { .. } => Layer::Unit,
        }
    }

    fn place(&self) -> usize {
        match *self {
            UnitFault::Source { taken } | UnitFault::Room { taken } => taken,
            UnitFault::Frame { at } => at,
        }
    }
}
