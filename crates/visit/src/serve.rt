// Any list of calls, served one after the other.
ghost use Rattle.std.specs.Prelude.{◌≡◌, map};
ghost use Rattle.book.specs.Book.{step, reply};
ghost use Rattle.book.specs.Trust.{Fit};
ghost use Rattle.visit.specs.Calls.{asked, asks, holds, answered, Served};
ghost use Rattle.visit.specs.Visits.{book};

use crate::visit::Visit;
use book::answer::Answer;
use sets::list::Kinds;
use sets::set::Set;
use units::source::Source;

// A call with its arguments; a scratch and a buffer are lent to it whole.
#[derive(Drop)]
pub enum Call<X> {
    Picture {
        new_sequence: bool,
    },
    Clear,
    Message {
        kind: u32,
        payload: Vec<u8>,
    },
    Unit {
        source: X,
        scratch: Vec<u8>,
    },
    Look {
        kind: u32,
        n: usize,
        buffer: Vec<u8>,
    },
    CatchUp {
        buffer: Vec<u8>,
    },
}

// A call, and the place for its answer. Any answer stands beside any call: a place in each case of `Call` would tell them
// apart, and change what callers of `serve` hold.
#[derive(Drop)]
pub struct Request<X> {
    pub call: Call<X>,
    pub answer: Option<Answer>,
}

impl<S: Set> Visit<S> {
    // Makes one call. Calls are data, since the law of whole runs stands on `serve`, and is of lists of calls.
    #[tactic(auto, using(crate::proofs::Served::carried))]
    fn make<X: Source>(&mut self, call: &mut Call<X>) -> Answer
        ensures after { book S.List.Kinds self.new ≡ step S.List.Kinds.models (book S.List.Kinds self.old) (asked X.Source call.old) }
        ensures reply { (result, asked X.Source call.new) ≡ reply S.List.Kinds.models (book S.List.Kinds self.old) (asked X.Source call.old) }
        ensures fit { Fit (asked X.Source call.old) }
    {
        match call {
            Call::Picture { new_sequence } => {
                self.picture(*new_sequence);
                Answer::Done
            }
            Call::Clear => {
                self.clear();
                Answer::Done
            }
            Call::Message { kind, payload } => {
                Answer::Message(self.message(*kind, payload.as_slice()))
            }
            Call::Unit { source, scratch } => Answer::Unit(self.unit(
                source,
                scratch.as_mut_slice(),
            )),
            Call::Look { kind, n, buffer } => Answer::Look(self.look(
                *kind,
                *n,
                buffer.as_mut_slice(),
            )),
            Call::CatchUp { buffer } => Answer::CatchUp(self.catch_up(buffer.as_mut_slice())),
        }
    }

    // Serves one request.
    fn answer_to<X: Source>(&mut self, request: &mut Request<X>)
        ensures after { book S.List.Kinds self.new ≡ step S.List.Kinds.models (book S.List.Kinds self.old) (asks X.Source request.old) }
        ensures reply { holds X.Source request.new ≡ answered (reply S.List.Kinds.models (book S.List.Kinds self.old) (asks X.Source request.old)) }
        ensures fit { Fit (asks X.Source request.old) }
    {
        let answer = self.make(&mut request.call);
        request.answer = Some(answer);
    }

    // Serves requests in turn: each holds its answer then. To serve one list and then another is to serve the one list.
    #[tactic(auto, using(crate::proofs::Served::turns))]
    pub fn serve<X: Source>(&mut self, requests: &mut [Request<X>])
        ensures { Served S.List.Kinds.models (book S.List.Kinds self.old) (book S.List.Kinds self.new) (map (asks X.Source) requests.old) (map (holds X.Source) requests.new) }
    {
        for request in requests {
            self.answer_to(request);
        }
    }
}
