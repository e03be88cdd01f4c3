// What the messages of a kind bring into force that holds one thing.
ghost use Rattle.std.specs.Prelude.{◌≡◌, ℕ, List, length};
ghost use Rattle.records.specs.Record.{written};
ghost use Rattle.kinds.specs.Single.{Rules, Ruled, said_of};

use crate::in_force::Stay;
use layouts::fault::ShortBuffer;
use records::fault::PayloadFault;

// The content of a thing in force, by its numbers, under the rules of its kind.
pub trait Content: Copy {
    ghost TYPE: { ℕ };

    const TYPE: u32;

    // the greatest length of its part, framed
    ghost GREATEST: { ℕ };

    const GREATEST: usize;

    ghost rules: { Rules };

    ghost numbers: { Self → List ℕ };

    // What a payload says: a content, or none where it cancels.
    fn read(payload: &[u8]) -> Result<Option<Self>, PayloadFault>
        ensures { said_of numbers result ≡ rules.reads payload.now };

    // The length of the payload that says this content.
    fn payload_len(&self) -> usize
        ensures { result ≡ length (rules.payload (numbers self.now)) };

    // Writes that payload to the buffer's front and answers its length.
    fn write(&self, buffer: &mut [u8]) -> Result<usize, ShortBuffer>
        ensures answer { result ≡ (written (rules.payload (numbers self.now)) buffer.old).0 }
        ensures bytes { buffer.new ≡ (written (rules.payload (numbers self.now)) buffer.old).1 };

    // How long it stays.
    fn stay(&self) -> Stay
        ensures { result ≡ rules.stay (numbers self.now) };

    // Whether it may come while `held` is in force.
    fn agrees(&self, held: &Self) -> bool
        ensures { result ≡ rules.agrees (numbers held.now) (numbers self.now) };

    // The rules have what rules must have, and every content is one that a payload can say.
    ghost ruled: { Ruled rules };

    ghost proper: { (c : Self) → rules.Proper (numbers c) };

    // The constants are those of the rules.
    ghost typed: { TYPE ≡ rules.number };

    ghost limited: { GREATEST ≡ rules.greatest };
}
