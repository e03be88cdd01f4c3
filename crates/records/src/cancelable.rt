// Messages that begin with a cancel bit: one either ends what is in force of its kind, which is `None`, or brings
// something into force.
ghost use Rattle.std.specs.Prelude.{◌≡◌, ℕ, ◌+◌, ◌/◌, ◌≤◌, List};
ghost use Rattle.layouts.specs.Layout.{Layout, cancelable, extent, Holds};
ghost use Rattle.fields.specs.Reading.{left};
ghost use Rattle.fields.specs.Writing.{sheet, lays};
ghost use Rattle.records.specs.Cancelable.{cancel_numbers};
ghost use Rattle.records.specs.Record.{Decoded};
ghost use Rattle.std.proofs.Common.{arith, rules};
ghost use Rattle.layouts.proofs.Extents.{takes-cancelable};

use crate::record::Record;
use fields::reader::Reader;
use fields::writer::Writer;
use layouts::fault::FieldFault;

// What follows a cancel bit of 0, by its layout and its numbers, field after field.
pub trait Body: Copy {
    ghost content: { Layout };

    ghost content_numbers: { Self → List ℕ };

    // the bits that it takes at most
    ghost most: { ℕ };

    // The body in what is left of a payload, read to its end.
    fn decode(reader: Reader) -> Result<Self, FieldFault>
        ensures { Decoded content content_numbers (left reader.entry) result };

    // Writes the body's fields, to the payload's end.
    fn encode(&self, writer: &mut Writer)
        ensures after { sheet writer.new ≡ lays content (content_numbers self.now) (sheet writer.old) }
        ensures holds { Holds content (content_numbers self.now) };

    // No two bodies have the same numbers.
    ghost apart: { (c d : Self) → content_numbers c ≡ content_numbers d → c ≡ d };

    ghost short: { (vs : List ℕ) → Holds content vs → extent content vs ≤ most };

    ghost limited: { most ≤ 524279 };
}

impl<C: Body> Record for Option<C> {
    ghost layout = { cancelable C.Body.content };

    ghost numbers = { cancel_numbers C.Body.content_numbers };

    ghost greatest = { (C.Body.most + 8) / 8 };

    ghost apart = { Prim.search rules };

    ghost short = { λ vs h. omega (arith, takes-cancelable C.Body.most C.Body.content C.Body.short vs h) };

    ghost limited = { Prim.search rules };

    fn decode(mut reader: Reader) -> Result<Option<C>, FieldFault> {
        if reader.flag()? {
            reader.close()?;
            return Ok(None);
        }
        Ok(Some(C::decode(reader)?))
    }

    fn encode(&self, writer: &mut Writer) {
        match *self {
            None => {
                writer.flag(true);
                writer.close();
            }
            Some(body) => {
                writer.flag(false);
                body.encode(writer);
            }
        }
    }
}
