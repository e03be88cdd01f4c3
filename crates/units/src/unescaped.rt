// The layer over a source that removes emulation prevention (Rec. ITU-T H.264, 7.4.1.1).
ghost use Rattle.std.specs.Prelude.{◌≡◌};
ghost use Rattle.units.specs.declared.source.Source.{Ghosts};
ghost use Rattle.units.specs.Escapes.{weighed};
ghost use Rattle.units.specs.Layers.{unescaped_bytes, unescaped_faulty, unescaped_are_bytes, begun};

use crate::source::{Source, SourceFault};

// What stands right before the next byte below: no zero, one, two, or two and a 03 that was removed.
#[derive(Clone, Copy, PartialEq, Eq)]
enum Zeros {
    None,
    One,
    Two,
    Removed,
}

// What stands behind a byte below; the fault where no unit holds it there.
fn weigh(zeros: Zeros, byte: u8) -> Result<Zeros, SourceFault>
    ensures { result ≡ weighed zeros byte }
{
    match (zeros, byte) {
        (Zeros::Two, 0..=2) | (Zeros::Removed, 4..=255) => Err(SourceFault {}),
        (Zeros::Two, 3) => Ok(Zeros::Removed),
        (Zeros::One, 0) => Ok(Zeros::Two),
        (_, 0) => Ok(Zeros::One),
        _ => Ok(Zeros::None),
    }
}

// A source without the bytes that were put in below; it faults at bytes that no escaping leaves.
#[derive(Drop)]
pub struct Unescaped<S> {
    below: S,
    // or the fault, which stays
    zeros: Result<Zeros, SourceFault>,
}

impl<S: Source> Unescaped<S> {
    pub fn new(below: S) -> Unescaped<S>
        ensures { begun S.Source below result }
    {
        Unescaped {
            below,
            zeros: Ok(Zeros::None),
        }
    }
}

impl<S: Source> Source for Unescaped<S> {
    ghost coming = { unescaped_bytes S.Source };

    ghost faulty = { unescaped_faulty S.Source };

    ghost bytes = { unescaped_are_bytes S.Source };

    fn next(&mut self) -> Result<Option<u8>, SourceFault> {
        let mut zeros = self.zeros?;
        while let Some(byte) = self.below.next()? {
            self.zeros = weigh(zeros, byte);
            zeros = self.zeros?;
            if zeros != Zeros::Removed {
                return Ok(Some(byte));
            }
        }
        Ok(None)
    }
}
