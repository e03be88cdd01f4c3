// What a message's record is to its payload: how it is read, how long it is, how it is written.
ghost use Rattle.std.specs.Prelude.{◌≡◌, ℕ, ◌/◌, ◌<◌, ◌≤◌, ◌↔◌, List, length, IfOk, MatchResult, Ok};
ghost use Rattle.layouts.specs.Layout.{Layout, Holds, Plain, from};
ghost use Rattle.layouts.specs.Payloads.{size, payload as payload_of};
ghost use Rattle.fields.specs.Reading.{left};
ghost use Rattle.fields.specs.Writing.{sheet, lays};
ghost use Rattle.records.specs.declared.fault.PayloadFault.TheVariants.{TooLong};
ghost use Rattle.records.specs.Record.{reads_as, numbered, Decoded, written};

use crate::fault::PayloadFault;
use fields::LONGEST;
use fields::reader::Reader;
use fields::writer::Writer;
use layouts::fault::{FieldFault, ShortBuffer};

// A record, by its layout and its numbers, field after field.
pub trait Record: Sized {
    ghost layout: { Layout };

    ghost numbers: { Self → List ℕ };

    // the bytes that its payload takes at most
    ghost greatest: { ℕ };

    // The record in what is left of a payload, read to its end.
    fn decode(reader: Reader) -> Result<Self, FieldFault>
        ensures { Decoded layout numbers (left reader.entry) result };

    // Writes the record's fields, to its end.
    fn encode(&self, writer: &mut Writer)
        ensures after { sheet writer.new ≡ lays layout (numbers self.now) (sheet writer.old) }
        ensures holds { Holds layout (numbers self.now) };

    // The record of a payload. Written again it is the same bytes exactly where the payload is plain.
    fn read(payload: &[u8]) -> Result<Self, PayloadFault>
        ensures value { numbered numbers result ≡ reads_as layout payload.now }
        ensures plain { IfOk result (λ q. (payload_of layout (numbers q) ≡ payload.now) ↔ Plain layout (from payload.now 0)) }
    {
        check_length(payload)?;
        let record = Self::decode(Reader::new(payload))?;
        Ok(record)
    }

    // The length of its payload, told by a writer with no room. The payload reads as this record.
    fn payload_len(&self) -> usize
        ensures value { result ≡ length (payload_of layout (numbers self.now)) }
        ensures holds { Holds layout (numbers self.now) }
        ensures reads { reads_as layout (payload_of layout (numbers self.now)) ≡ Ok (numbers self.now) }
    {
        let mut none: [u8; 0] = [];
        let mut counter = Writer::new(&mut none);
        self.encode(&mut counter);
        whole_bytes(counter.len())
    }

    // Writes its payload to the buffer's front and answers its length. The payload reads as this record.
    fn write(&self, buffer: &mut [u8]) -> Result<usize, ShortBuffer>
        ensures answer { result ≡ (written (payload_of layout (numbers self.now)) buffer.old).0 }
        ensures bytes { buffer.new ≡ (written (payload_of layout (numbers self.now)) buffer.old).1 }
        ensures reads { reads_as layout (payload_of layout (numbers self.now)) ≡ Ok (numbers self.now) }
    {
        let len = self.payload_len();
        if len > buffer.len() {
            return Err(ShortBuffer {});
        }
        let mut writer = Writer::new(buffer);
        self.encode(&mut writer);
        Ok(len)
    }

    // No two records have the same numbers.
    ghost apart: { (r q : Self) → numbers r ≡ numbers q → r ≡ q };

    ghost short: { (vs : List ℕ) → Holds layout vs → size layout vs ≤ greatest };

    ghost limited: { greatest ≤ 65535 };
}

// Refuses a payload of more than 65,535 bytes.
pub fn check_length(payload: &[u8]) -> Result<(), PayloadFault>
    ensures { MatchResult result (λ _. length payload.now ≤ 65535) (λ e. (65535 < length payload.now) × (e ≡ TooLong)) }
{
    if payload.len() > LONGEST {
        return Err(PayloadFault::TooLong);
    }
    Ok(())
}

// The bytes that so many bits fill.
fn whole_bytes(bits: usize) -> usize
    ensures { result ≡ bits / 8 }
{
    bits / 8
}
