// A frame packing as a record, and its id alone.
ghost use Rattle.std.specs.Prelude.{◌≡◌, drop, slice_index};
ghost use Rattle.std.proofs.Common.{ap, arith, rules};
ghost use Rattle.fields.specs.Reading.{left};
ghost use Rattle.frame_packing.specs.FramePacking.{layout as packing_layout, numbers as packing_numbers, id_as, is_cancel, ReadsId};
ghost use Rattle.frame_packing.specs.Messages.{id_same, cancelable-same};
ghost use Rattle.frame_packing.specs.Lengths.{packing-whole-takes};

use crate::message::{Arrangement, FramePacking, PackingId};
use fields::reader::Reader;
use fields::writer::Writer;
use layouts::fault::FieldFault;
use records::fault::PayloadFault;
use records::record::{Record, check_length};

// The id that comes next; a reserved one is out of range.
fn decode_id(reader: &mut Reader) -> Result<PackingId, FieldFault>
    ensures { ReadsId (left reader.old) result (left reader.new) }
{
    let start = reader.place();
    PackingId::new(reader.ue()?).map_err(|_| FieldFault::OutOfRange(start))
}

impl FramePacking {
    // Whether it ends the packings in force.
    pub fn cancels(&self) -> bool
        ensures { result ≡ is_cancel self.now.arrangement }
    {
        self.arrangement.is_none()
    }

    // The id in a payload, reserved or not: nothing behind it is looked at.
    pub fn id_of(payload: &[u8]) -> Result<u32, PayloadFault>
        ensures { result ≡ id_as payload.now }
    {
        check_length(payload)?;
        let mut reader = Reader::new(payload);
        let id = reader.ue()?;
        Ok(id)
    }
}

// No `Option` as the other messages: an id stands before the cancel bit, and a cancel ends with an extension bit.
impl Record for FramePacking {
    ghost layout = { packing_layout };

    ghost numbers = { packing_numbers };

    ghost greatest = { 18 };

    ghost apart = { λ p q e.
        let i = id_same p.id q.id (ap (λ l. slice_index l 0) e) in
        let a = cancelable-same p.arrangement q.arrangement (ap (drop 1) e) in
        λ k. record { id = i k; arrangement = a k } };

    ghost short = { λ vs h. omega (arith, packing-whole-takes vs h) };

    ghost limited = { Prim.search rules };

    fn decode(mut reader: Reader) -> Result<FramePacking, FieldFault> {
        let id = decode_id(&mut reader)?;
        if reader.flag()? {
            reader.extension()?;
            return Ok(FramePacking {
                id,
                arrangement: None,
            });
        }
        let arrangement = Arrangement::decode(reader)?;
        Ok(FramePacking {
            id,
            arrangement: Some(arrangement),
        })
    }

    fn encode(&self, writer: &mut Writer) {
        writer.ue(self.id.number);
        match self.arrangement {
            None => {
                writer.flag(true);
                writer.extension();
            }
            Some(arrangement) => {
                writer.flag(false);
                arrangement.encode(writer);
            }
        }
    }
}
