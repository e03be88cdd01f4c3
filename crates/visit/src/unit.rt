// The messages of a unit, offered in turn.
ghost use Rattle.std.specs.Prelude.{◌≡◌, ◌+◌, ◌<◌, ◌≤◌, length};
ghost use Rattle.std.specs.Result.{result_map_both};
ghost use Rattle.units.specs.Fills.{filled, unfilled};
ghost use Rattle.units.specs.Readings.{coming};
ghost use Rattle.units.specs.Units.{judged as framing};
ghost use Rattle.book.specs.Units.{brought, offered_all, offered_from, untold, noted, tallied};

use book::answer::Tally;
use book::fault::MessageFault;
use kinds::fault::{OfferFault, Offered};
use sets::list::{Kinds, offer_message};
use units::fault::UnitFault;
use units::fill::fill;
use units::frame::Messages;
use units::source::Source;

// The tally with what a message at a place was told.
fn note(tally: Tally, place: usize, told: Result<Offered, OfferFault>) -> Tally
    requires { tally.granted + tally.refused + tally.passed < 18446744073709551615 }
    ensures { result ≡ noted tally place told }
{
    match told {
        Ok(Offered::Granted) => Tally {
            granted: tally.granted + 1,
            ..tally
        },
        Ok(Offered::Passed) => Tally {
            passed: tally.passed + 1,
            ..tally
        },
        Err(fault) => Tally {
            refused: tally.refused + 1,
            refusal: tally.refusal.or(Some(MessageFault { place, fault })),
            ..tally
        },
    }
}

// Offers messages in turn, and goes on after a refused or passed one.
fn offer_all<R: Kinds>(kinds: &mut R, messages: Messages) -> Tally
    requires { length (coming messages) < 18446744073709551616 }
    ensures answer { result ≡ tallied R.Kinds.models (R.Kinds.meanings kinds.old) untold (coming messages.entry) }
    ensures after { R.Kinds.meanings kinds.new ≡ offered_all R.Kinds.models (R.Kinds.meanings kinds.old) (coming messages.entry) }
{
    let mut tally = Tally::default();
    for message in messages {
        let told = offer_message(kinds, message.kind, message.payload);
        tally = note(tally, message.place, told);
    }
    tally
}

// Judges the frame of a unit's bytes, and offers every message in turn.
#[tactic(auto, using(crate::proofs::Brought::countable))]
fn offer_bytes<R: Kinds>(kinds: &mut R, bytes: &[u8]) -> Result<Tally, UnitFault>
    ensures answer { result ≡ result_map_both (tallied R.Kinds.models (R.Kinds.meanings kinds.old) untold) (λ f. f) (framing bytes.now) }
    ensures after { R.Kinds.meanings kinds.new ≡ offered_from R.Kinds.models (R.Kinds.meanings kinds.old) (framing bytes.now) }
{
    let messages = Messages::new(bytes)?;
    Ok(offer_all(kinds, messages))
}

// Fills the scratch from the source, judges the frame, and offers every message in turn. Whether a fault follows stands
// apart, as in `fill`: a source may be of any type, so that no field of one can hold it.
#[tactic(auto, using(crate::proofs::Brought::filling_brought))]
pub fn offer_unit<R: Kinds, X: Source>(
    kinds: &mut R,
    source: &mut X,
    scratch: &mut [u8],
) -> Result<Tally, UnitFault>
    ensures answer { result ≡ result_map_both (tallied R.Kinds.models (R.Kinds.meanings kinds.old) untold) (λ f. f) (brought (X.Source.coming source.old) (X.Source.faulty source.old) scratch.old) }
    ensures after { R.Kinds.meanings kinds.new ≡ offered_from R.Kinds.models (R.Kinds.meanings kinds.old) (brought (X.Source.coming source.old) (X.Source.faulty source.old) scratch.old) }
    ensures bytes { scratch.new ≡ filled (X.Source.coming source.old) scratch.old }
    ensures coming { X.Source.coming source.new ≡ unfilled (X.Source.coming source.old) scratch.old }
    ensures faulty { X.Source.faulty source.new ≡ X.Source.faulty source.old }
{
    let len = fill(source, scratch)?;
    offer_bytes(kinds, &scratch[0..len])
}
