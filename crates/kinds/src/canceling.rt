// What the messages bring into force that begin with a cancel bit: each replaces the thing in force, and a cancel ends it.
ghost use Rattle.std.specs.Prelude.{◌≡◌, ℕ, ◌+◌, ◌/◌, ◌≤◌, List, refl};
ghost use Rattle.layouts.specs.Layout.{Holds};
ghost use Rattle.kinds.specs.Contents.{canceling};
ghost use Rattle.kinds.specs.Rulings.{canceling_of};
ghost use Rattle.kinds.specs.declared.in_force.Stay.{Stay as StayOf};

use crate::content::Content;
use crate::in_force::Stay;
use layouts::fault::ShortBuffer;
use records::cancelable::Body;
use records::fault::PayloadFault;
use records::record::Record;

// The content of such a message, and how long it stays. Its type and its greatest length stand here as in `Content` and in
// `Kind`: a trait of the two alone would want an impl of its own for each message, longer than what it would say once. The
// impls of the messages differ in all that they say.
pub trait Canceling: Body {
    ghost TYPE: { ℕ };

    const TYPE: u32;

    ghost GREATEST: { ℕ };

    const GREATEST: usize;

    ghost stays: { List ℕ → StayOf };

    // How long it stays.
    fn stay(&self) -> Stay
        ensures { result ≡ stays (Self.content_numbers self.now) };

    // Every content is one that a payload can say.
    ghost proper: { (c : Self) → Holds Self.content (Self.content_numbers c) };

    // The longest payload, framed, fits the greatest length.
    ghost framed: { TYPE / 255 + 1 + ((Self.most + 8) / 8 / 255 + 1 + (Self.most + 8) / 8) ≤ GREATEST };
}

impl<C: Canceling> Content for C {
    ghost TYPE = { C.Canceling.TYPE };

    const TYPE: u32 = <C as Canceling>::TYPE;

    ghost GREATEST = { C.Canceling.GREATEST };

    const GREATEST: usize = <C as Canceling>::GREATEST;

    ghost rules = { canceling C.Canceling.TYPE C.Canceling.GREATEST C.Body.content C.Canceling.stays };

    ghost ruled = { canceling_of C.Canceling.TYPE C.Canceling.GREATEST C.Body.most C.Body.content C.Body.short C.Body.limited C.Canceling.stays C.Canceling.framed };

    ghost numbers = { C.Body.content_numbers };

    ghost proper = { C.Canceling.proper };

    fn read(payload: &[u8]) -> Result<Option<C>, PayloadFault> {
        Option::<C>::read(payload)
    }

    fn payload_len(&self) -> usize {
        Some(*self).payload_len()
    }

    fn write(&self, buffer: &mut [u8]) -> Result<usize, ShortBuffer> {
        Some(*self).write(buffer)
    }

    fn stay(&self) -> Stay {
        <C as Canceling>::stay(self)
    }

    fn agrees(&self, _held: &C) -> bool {
        true
    }

    ghost typed = { refl };

    ghost limited = { refl };
}
