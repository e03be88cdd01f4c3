// The kinds that hold one thing, as one implementation: a message replaces the thing, a cancel ends it.
ghost use Rattle.std.specs.Prelude.{◌≡◌};
ghost use Rattle.kinds.specs.Single.{single, held_of, in_force_of, stay_of};
ghost use Rattle.kinds.specs.Singles.{single_lawful, single_sound};

use crate::content::Content;
use crate::fault::{LookFault, OfferFault, Offered};
use crate::in_force::{InForce, Stay};
use crate::kind::Kind;

// The content in force, if any is. Its stay follows from it, so no other can be held with it.
#[derive(Drop)]
pub struct Single<C> {
    content: Option<C>,
}

impl<C: Content> Single<C> {
    // The thing in force, if any is.
    pub fn in_force(&self) -> Option<InForce<C>>
        ensures { result ≡ in_force_of C.Content.rules C.Content.numbers self.now.content }
    {
        self.content.map(|content| InForce {
            content,
            stay: content.stay(),
        })
    }

    fn stay(&self) -> Option<Stay>
        ensures { result ≡ stay_of C.Content.rules C.Content.numbers self.now.content }
    {
        self.content.map(|content| content.stay())
    }
}

impl<C: Content> Kind for Single<C> {
    ghost TYPE = { C.Content.TYPE };

    const TYPE: u32 = C::TYPE;

    ghost GREATEST = { C.Content.GREATEST };

    const GREATEST: usize = C::GREATEST;

    ghost model = { single C.Content.rules };

    ghost meaning = { λ s. held_of C.Content.rules C.Content.numbers s.content };

    ghost lawful = { single_lawful C.Content.rules C.Content.ruled };

    ghost sound = { λ s. single_sound C.Content.rules C.Content.numbers C.Content.proper s.content };

    ghost typed = { C.Content.typed };

    ghost limited = { C.Content.limited };

    fn empty() -> Single<C> {
        Single { content: None }
    }

    fn picture(&mut self, mark: bool) {
        match self.stay() {
            Some(Stay::Stays) if !mark => {}
            _ => self.content = None,
        }
    }

    fn offer(&mut self, payload: &[u8]) -> Result<Offered, OfferFault> {
        let said = C::read(payload)?;
        if let (Some(content), Some(held)) = (&said, &self.content) {
            if !content.agrees(held) {
                return Err(OfferFault::Disagrees);
            }
        }
        self.content = said;
        Ok(Offered::Granted)
    }

    fn count(&self) -> usize {
        usize::from(self.content.is_some())
    }

    // Payload 0 alone, here and in `payload`: a function for both would want a contract, longer than the two guards.
    fn payload_len(&self, n: usize) -> Option<usize> {
        match &self.content {
            Some(content) if n == 0 => Some(content.payload_len()),
            _ => None,
        }
    }

    fn payload(&self, n: usize, buffer: &mut [u8]) -> Result<usize, LookFault> {
        match &self.content {
            Some(content) if n == 0 => Ok(content.write(buffer)?),
            _ => Err(LookFault::Missing),
        }
    }
}
