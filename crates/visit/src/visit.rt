// A visit: what is in force of every kind of a set, from call to call.
ghost use Rattle.std.specs.Prelude.{◌≡◌, false, if◌then◌else◌};
ghost use Rattle.kinds.specs.Model.{Bytes};
ghost use Rattle.units.specs.Fills.{filled, unfilled};
ghost use Rattle.book.specs.Book.{fresh, step, picture, clear, message, unit, look, told_message, told_unit, told_look, told_catch_up};
ghost use Rattle.std.specs.Result.{result_map_both};
ghost use Rattle.visit.specs.Resumes.{if_loaded, resumed, Resumes};
ghost use Rattle.visit.specs.Visits.{book};

use crate::save::save;
use crate::unit::offer_unit;
use book::answer::{Saved, Tally};
use book::fault::Refusal;
use kinds::fault::Offered;
use sets::list::{Kinds, offer_message};
use sets::set::Set;
use units::source::{Clean, Source};

// What is in force, once a picture has begun. What it means, its book, is a definition and no model: the value of a model
// cannot cite what the kinds of a set say.
#[derive(Drop)]
pub struct Visit<S: Set> {
    kinds: Option<S::List>,
}

impl<S: Set> Visit<S> {
    // A visit in which no picture has begun and nothing is in force.
    pub fn new() -> Visit<S>
        ensures { book S.List.Kinds result ≡ fresh S.List.Kinds.models }
    {
        Visit { kinds: None }
    }

    // Begins a picture, marked as a new sequence or not. The first one finds nothing in force.
    #[tactic(auto, using(crate::proofs::Begun::idle))]
    pub fn picture(&mut self, new_sequence: bool)
        ensures { book S.List.Kinds self.new ≡ step S.List.Kinds.models (book S.List.Kinds self.old) (picture new_sequence) }
    {
        match &mut self.kinds {
            Some(kinds) => kinds.picture(new_sequence),
            None => self.kinds = Some(S::List::none()),
        }
    }

    // Makes the visit new.
    pub fn clear(&mut self)
        ensures { book S.List.Kinds self.new ≡ step S.List.Kinds.models (book S.List.Kinds self.old) clear }
    {
        *self = Visit::new();
    }

    // Offers one message to the kind of its type; two parameters, as in `offer` of `Kinds`.
    #[tactic(auto, using(crate::proofs::Served::carried))]
    pub fn message(&mut self, kind: u32, payload: &[u8]) -> Result<Offered, Refusal>
        ensures answer { result ≡ told_message S.List.Kinds.models (book S.List.Kinds self.old) kind payload.now }
        ensures after { book S.List.Kinds self.new ≡ step S.List.Kinds.models (book S.List.Kinds self.old) (message kind payload.now) }
        ensures fit { Bytes payload.now }
    {
        let kinds = self.kinds.as_mut().ok_or(Refusal::NoPicture)?;
        Ok(offer_message(kinds, kind, payload)?)
    }

    // Copies payload n of the kind of a type to the buffer's front, and answers its length.
    pub fn look(&self, kind: u32, n: usize, buffer: &mut [u8]) -> Result<usize, Refusal>
        ensures answer { result ≡ (told_look S.List.Kinds.models (book S.List.Kinds self.now) kind n buffer.old).0 }
        ensures bytes { buffer.new ≡ (told_look S.List.Kinds.models (book S.List.Kinds self.now) kind n buffer.old).1 }
    {
        let kinds = self.kinds.as_ref().ok_or(Refusal::NoPicture)?;
        Ok(kinds.look(kind, n, buffer)?)
    }

    // Takes a unit from a source through the scratch, and offers its messages in turn: how many were granted, refused
    // and passed, and the first refusal. Before a picture it takes no byte. Whether a fault follows stands apart, as in
    // `fill`: a source may be of any type, so that no field of one can hold it.
    pub fn unit<X: Source>(&mut self, source: &mut X, scratch: &mut [u8]) -> Result<Tally, Refusal>
        ensures answer { result ≡ told_unit S.List.Kinds.models (book S.List.Kinds self.old) (X.Source.coming source.old) (X.Source.faulty source.old) scratch.old }
        ensures after { book S.List.Kinds self.new ≡ step S.List.Kinds.models (book S.List.Kinds self.old) (unit (X.Source.coming source.old) (X.Source.faulty source.old) scratch.old) }
        ensures bytes { scratch.new ≡ (if (book S.List.Kinds self.old).0 then filled (X.Source.coming source.old) scratch.old else scratch.old) }
        ensures coming { X.Source.coming source.new ≡ (if (book S.List.Kinds self.old).0 then unfilled (X.Source.coming source.old) scratch.old else X.Source.coming source.old) }
        ensures faulty { X.Source.faulty source.new ≡ X.Source.faulty source.old }
    {
        Ok(offer_unit(
            self.kinds.as_mut().ok_or(Refusal::NoPicture)?,
            source,
            scratch,
        )?)
    }

    // Saves what is in force to the buffer's front, as a unit that brings it back: its length, and the number of its
    // messages.
    #[tactic(auto, using(crate::proofs::Saved::savable))]
    pub fn catch_up(&self, buffer: &mut [u8]) -> Result<Saved, Refusal>
        ensures answer { result ≡ (told_catch_up S.List.Kinds.models (book S.List.Kinds self.now) buffer.old).0 }
        ensures bytes { buffer.new ≡ (told_catch_up S.List.Kinds.models (book S.List.Kinds self.now) buffer.old).1 }
    {
        save(self.kinds.as_ref().ok_or(Refusal::NoPicture)?, buffer)
    }

    // Loads saved bytes through the scratch; a message of them that is refused is the refusal.
    fn load(&mut self, saved: &[u8], scratch: &mut [u8]) -> Result<(), Refusal>
        ensures answer { result ≡ if_loaded tt (told_unit S.List.Kinds.models (book S.List.Kinds self.old) saved.now false scratch.old) }
        ensures after { book S.List.Kinds self.new ≡ step S.List.Kinds.models (book S.List.Kinds self.old) (unit saved.now false scratch.old) }
        ensures bytes { scratch.new ≡ (if (book S.List.Kinds self.old).0 then filled saved.now scratch.old else scratch.old) }
    {
        let tally = self.unit(&mut Clean::new(saved), scratch)?;
        if let Some(message) = tally.refusal {
            return Err(Refusal::Offer(message.fault));
        }
        Ok(())
    }

    // Begins one picture in a new visit, and loads saved bytes. Apart from `resume`, since `back` is of any list of calls
    // and takes the theorem, which the search does not find. It is a rule of the project that a public function has an edit
    // that is refused for a fact in the code; where an answer by hand stands before it the edit is refused at the answer.
    // So the answer stands here.
    fn begin(saved: &[u8], new_sequence: bool, scratch: &mut [u8]) -> Result<Visit<S>, Refusal>
        ensures visit { result_map_both (book S.List.Kinds) (λ f. f) result ≡ resumed S.List.Kinds.models saved.now new_sequence scratch.old }
        ensures bytes { scratch.new ≡ filled saved.now scratch.old }
        ensures back { Resumes S.List.Kinds.models saved.now scratch.old (result_map_both (book S.List.Kinds) (λ f. f) result) }
    {
        let mut visit = Visit::new();
        visit.picture(new_sequence);
        visit.load(saved, scratch)?;
        Ok(visit)
    }

    // A new visit from a saved catch-up: one picture, marked or not, and the bytes loaded through the scratch. It is
    // refused where the unit is, or a message of it.
    pub fn resume(saved: &[u8], new_sequence: bool, scratch: &mut [u8]) -> Result<Visit<S>, Refusal>
        ensures visit { result_map_both (book S.List.Kinds) (λ f. f) result ≡ resumed S.List.Kinds.models saved.now new_sequence scratch.old }
        ensures bytes { scratch.new ≡ filled saved.now scratch.old }
        ensures back { Resumes S.List.Kinds.models saved.now scratch.old (result_map_both (book S.List.Kinds) (λ f. f) result) }
    {
        Visit::begin(saved, new_sequence, scratch)
    }
}
