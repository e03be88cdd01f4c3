// The interface of a kind: what it promises to whoever holds it.
ghost use Rattle.std.specs.Prelude.{◌≡◌, ℕ, length};
ghost use Rattle.kinds.specs.Model.{Model, Lawful};
ghost use Rattle.kinds.specs.Outcome.{after, told, length_of, looked};

use crate::fault::{LookFault, OfferFault, Offered};

// A kind of message, by what is in force of it.
pub trait Kind: Sized + Drop {
    ghost TYPE: { ℕ };

    const TYPE: u32;

    // the greatest length of its part, framed
    ghost GREATEST: { ℕ };

    const GREATEST: usize;

    ghost model: { Model };

    ghost meaning: { Self → model.Meaning };

    // Nothing in force.
    fn empty() -> Self
        ensures { meaning result ≡ model.none };

    // The next picture, marked as a new sequence or not.
    fn picture(&mut self, mark: bool)
        ensures { meaning self.new ≡ model.turned (meaning self.old) mark };

    // Offers a payload: only a granted one changes what is in force.
    fn offer(&mut self, payload: &[u8]) -> Result<Offered, OfferFault>
        ensures answer { result ≡ told (model.offered (meaning self.old) payload.now) }
        ensures after { meaning self.new ≡ after (meaning self.old) (model.offered (meaning self.old) payload.now) };

    // How many payloads its part has.
    fn count(&self) -> usize
        ensures { result ≡ length (model.part (meaning self.now)) };

    // The length of payload n of its part.
    fn payload_len(&self, n: usize) -> Option<usize>
        ensures { result ≡ length_of (model.part (meaning self.now)) n };

    // Copies payload n of its part to the buffer's front, and answers its length.
    fn payload(&self, n: usize, buffer: &mut [u8]) -> Result<usize, LookFault>
        ensures answer { result ≡ (looked (model.part (meaning self.now)) n buffer.old).0 }
        ensures bytes { buffer.new ≡ (looked (model.part (meaning self.now)) n buffer.old).1 };

    // It shows what every kind shows, and comes to sound meanings alone.
    ghost lawful: { Lawful model };

    ghost sound: { (s : Self) → model.Sound (meaning s) };

    // The constants are those of the model.
    ghost typed: { TYPE ≡ model.number };

    ghost limited: { GREATEST ≡ model.greatest };
}
