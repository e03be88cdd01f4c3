// Why a payload is refused, and how every refusal is told: by a number, a layer and a place.
ghost use Rattle.std.specs.Prelude.{◌≡◌, ℕ};
ghost use Rattle.layouts.specs.declared.fault.Layer.{Layer as LayerOf};
ghost use Rattle.layouts.specs.Faults.{field_number, field_layer, field_place, buffer_number, buffer_layer, buffer_place};

use std::fmt;

// The part of the core that refuses.
#[derive(Clone, Copy, PartialEq, Eq, Debug)]
pub enum Layer {
    Source,
    Unit,
    Payload,
    Visit,
}

impl fmt::Display for Layer {
    fn fmt<W: fmt::Write>(&self, f: &mut fmt::Formatter<W>) -> fmt::Result {
        match *self {
            Self::Source => write!(f, "source"),
            Self::Unit => write!(f, "unit"),
            Self::Payload => write!(f, "payload"),
            Self::Visit => write!(f, "visit"),
        }
    }
}

// A refusal: which question was answered with "no", in which layer, and where. Each is an enum, or
// `ShortBuffer`; its number is what is told outside. Three functions and no struct of the three: each hands its own
// question on to the fault below, at other cases than the others, and a caller takes what it needs.
pub trait Fault {
    ghost number: { Self → ℕ };

    ghost layer: { Self → LayerOf };

    ghost place: { Self → ℕ };

    fn number(&self) -> u8
        ensures { result ≡ number self.now };

    fn layer(&self) -> Layer
        ensures { result ≡ layer self.now };

    fn place(&self) -> usize
        ensures { result ≡ place self.now };
}

// A refusal as it is told: its number, its layer and its place, as in `9 payload 2`.
#[derive(Clone, Copy)]
pub struct Told<F>(pub F);

impl<F: Fault> fmt::Display for Told<F> {
    fn fmt<W: fmt::Write>(&self, f: &mut fmt::Formatter<W>) -> fmt::Result {
        let number = self.0.number();
        let layer = self.0.layer();
        let place = self.0.place();
        write!(f, "{number} {layer} {place}")
    }
}

// Why a field is refused, with the bit of the payload at which the field begins.
#[derive(Clone, Copy, PartialEq, Eq, Debug)]
pub enum FieldFault {
    // the payload does not hold the whole field
    Short(usize),
    // the number is outside the range that the format gives it
    OutOfRange(usize),
    // the number is past a limit of this core
    PastLimit(usize),
    // the payload does not end as it should after its last field
    Ending(usize),
}

impl Fault for FieldFault {
    ghost number = { field_number };

    ghost layer = { field_layer };

    ghost place = { field_place };

    fn number(&self) -> u8 {
        match *self {
            FieldFault::Short(_) => 6,
            FieldFault::OutOfRange(_) => 7,
            FieldFault::PastLimit(_) => 8,
            FieldFault::Ending(_) => 9,
        }
    }

    fn layer(&self) -> Layer {
        Layer::Payload
    }

    fn place(&self) -> usize {
        match *self {
            FieldFault::Short(bit)
            | FieldFault::OutOfRange(bit)
            | FieldFault::PastLimit(bit)
            | FieldFault::Ending(bit) => bit,
        }
    }
}

// The buffer is too short for what is to be written into it.
#[derive(Clone, Copy, PartialEq, Eq, Debug)]
pub struct ShortBuffer {}

impl Fault for ShortBuffer {
    ghost number = { buffer_number };

    ghost layer = { buffer_layer };

    ghost place = { buffer_place };

    fn number(&self) -> u8 {
        13
    }

    fn layer(&self) -> Layer {
        Layer::Visit
    }

    fn place(&self) -> usize {
        0
    }
}
