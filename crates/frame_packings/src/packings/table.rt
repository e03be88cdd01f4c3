// The packings in force: which of them are kept, one more among them, and a payload that brings one back.
ghost use Rattle.std.specs.Prelude.{◌≡◌, Bool, false, filter, nat_lt};
ghost use Rattle.std.specs.Fn.{CalledAt};
ghost use Rattle.std.specs.List.{slice_get};
ghost use Rattle.std.specs.List.Retain.{IsFiltered};
ghost use Rattle.bounded.specs.Bounded.{items};
ghost use Rattle.kinds.specs.Outcome.{looked};
ghost use Rattle.frame_packings.specs.Packings.{outlasts, full, joined};
ghost use Rattle.frame_packings.specs.Tables.{packed_of, meaning_of, handed_out, part_of};
ghost use Rattle.frame_packings.specs.Tests.{Tests};
ghost use Rattle.frame_packings.specs.Meaning.{meaning};

use crate::packing::Packing;
use crate::packings::FramePackings;
use bounded::Bounded;
use kinds::fault::LookFault;
use kinds::in_force::{InForce, Stay};
use records::record::Record;

impl FramePackings {
    // The packing at place n, upward by id.
    pub fn in_force(&self, n: usize) -> Option<InForce<Packing>>
        ensures { result ≡ handed_out (slice_get (items self.now.table) n) }
    {
        self.table.get(n).map(|packing| InForce {
            content: packing,
            stay: packing.stay(),
        })
    }

    // Ends those that are once.
    #[tactic(auto, using(crate::proofs::Rows::staying))]
    pub(super) fn end_once(&mut self)
        ensures { meaning self.new ≡ filter outlasts (meaning self.old) }
    {
        self.table = kept(&self.table, |packing| packing.stay() == Stay::Stays);
    }

    // Whether four packings of other ids are in force.
    #[tactic(auto, using(crate::proofs::Rows::many))]
    pub(super) fn is_full(&self, id: u32) -> bool
        ensures { result ≡ full id (meaning self.now) }
    {
        let (lower, higher) = self.around(id);
        lower.len() + higher.len() >= 4
    }

    // Brings a packing into force, in place of one of its id.
    #[tactic(auto, using(crate::proofs::Rows::joining))]
    pub(super) fn put(&mut self, packing: Packing)
        requires { full packing.id.number (meaning self.old) ≡ false }
        ensures { meaning self.new ≡ joined (packed_of packing) (meaning self.old) }
    {
        let (mut table, higher) = self.around(packing.id.number);
        let _ = table.push(packing);
        table.append(&higher);
        self.table = table;
    }

    // Those of lower and those of higher ids.
    #[inline(always)]
    fn around(&self, id: u32) -> (Bounded<Packing, 4>, Bounded<Packing, 4>)
        ensures lower { items result.0 ≡ filter (λ p. nat_lt p.id.number id) (items self.now.table) }
        ensures higher { items result.1 ≡ filter (λ p. nat_lt id p.id.number) (items self.now.table) }
    {
        let lower = kept(&self.table, |packing| packing.id.number < id);
        let higher = kept(&self.table, |packing| packing.id.number > id);
        (lower, higher)
    }

    // Writes the payload for the packing at place n to the buffer's front and answers its length. Apart from `payload` of the
    // kind: one clause is answered by hand, and an edit of a function with an answer is refused at the answer, not for a fact.
    #[tactic(auto, using(crate::proofs::Parts::looking))]
    pub(super) fn write_at(&self, n: usize, buffer: &mut [u8]) -> Result<usize, LookFault>
        ensures answer { result ≡ (looked (part_of (items self.now.table)) n buffer.old).0 }
        ensures bytes { buffer.new ≡ (looked (part_of (items self.now.table)) n buffer.old).1 }
    {
        let packing = self.table.get(n).ok_or(LookFault::Missing)?;
        Ok(packing.message().write(buffer)?)
    }
}

// Those of a table at which `keep` answers `true`, in their order; `tested` says it of a closure that is a test.
// `IsAlwaysCallable` is what the language asks of each function that calls a closure. By `Bounded::kept`, which goes over
// free places too, a picture with nothing in force takes a quarter more time.
#[inline(always)]
fn kept<F: FnMut(&Packing) -> bool>(table: &Bounded<Packing, 4>, mut keep: F) -> Bounded<Packing, 4>
    requires { F.IsAlwaysCallable keep }
    ensures filtered { IsFiltered (CalledAt F.FnMut) keep (items table.now) (items result) }
    ensures tested { (test : Packing → Bool) → Tests (CalledAt F.FnMut) keep test → items result ≡ filter test (items table.now) }
{
    let mut kept = Bounded::new();
    for packing in *table {
        if keep(&packing) {
            let _ = kept.push(packing);
        }
    }
    kept
}
