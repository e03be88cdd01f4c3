// Lists of kinds, made of types: each list knows its kinds, and hands each call to the kind of its type.
ghost use Rattle.std.specs.Prelude.{◌≡◌};
ghost use Rattle.kinds.specs.Outcome.{after, told, looked};
ghost use Rattle.book.specs.Models.{Models, empty, first, both, Meanings, Sounds, Lawfuls, nothing, turns, has, offers, part_of};
ghost use Rattle.book.specs.Units.{judged};
ghost use Rattle.sets.specs.Parts.{sizes, writes};

use crate::parts::{Size, put_part, with_part};
use kinds::fault::{LookFault, OfferFault, Offered};
use kinds::kind::Kind;
use records::record::check_length;

// A list of kinds, with what is in force of each.
pub trait Kinds: Sized + Drop {
    // the kinds, without their code
    ghost models: { Models };

    // what is in force of each
    ghost meanings: { Self → Meanings models };

    // Nothing in force.
    fn none() -> Self
        ensures { meanings result ≡ nothing models };

    // The next picture, marked as a new sequence or not.
    fn picture(&mut self, mark: bool)
        ensures { meanings self.new ≡ turns models (meanings self.old) mark };

    // Whether a kind has the type.
    fn has(kind: u32) -> bool
        ensures { result ≡ has models kind };

    // Offers a payload to the kind of its type. They stay two parameters: the type picks the kind, which is handed the
    // payload alone, so that a struct of both would be made and taken apart for one call.
    fn offer(&mut self, kind: u32, payload: &[u8]) -> Result<Offered, OfferFault>
        ensures answer { result ≡ told (offers models (meanings self.old) kind payload.now) }
        ensures after { meanings self.new ≡ after (meanings self.old) (offers models (meanings self.old) kind payload.now) };

    // Copies payload n of the kind of a type to the buffer's front, and answers its length. Parameters as in `offer`: the
    // type picks the kind, which is asked for the rest.
    fn look(&self, kind: u32, n: usize, buffer: &mut [u8]) -> Result<usize, LookFault>
        ensures answer { result ≡ (looked (part_of models (meanings self.now) kind) n buffer.old).0 }
        ensures bytes { buffer.new ≡ (looked (part_of models (meanings self.now) kind) n buffer.old).1 };

    // The size with all kinds' parts more.
    fn with_parts(&self, size: Size) -> Option<Size>
        ensures { result ≡ sizes models (meanings self.now) size };

    // Writes all kinds' parts, framed, from a place on, and answers the place behind them. Buffer and place stay two
    // parameters, here and in `parts`: a message that finds no room is answered by `None`, and there is no place then. A
    // struct of both would still hold one, which each contract would have to tell.
    fn put_parts(&self, buffer: &mut [u8], at: usize) -> Option<usize>
        ensures answer { result ≡ (writes models (meanings self.now) at buffer.old).0 }
        ensures bytes { buffer.new ≡ (writes models (meanings self.now) at buffer.old).1 };

    // Each shows what every kind shows.
    ghost lawful: { Lawfuls models };

    // Each has come to what it can come to.
    ghost sound: { (s : Self) → Sounds models (meanings s) };
}

// The list of no kind.
#[derive(Drop)]
pub struct End {}

impl Kinds for End {
    ghost models = { empty };

    ghost meanings = { λ s. tt };

    fn none() -> End {
        End {}
    }

    fn picture(&mut self, mark: bool) {}

    fn has(kind: u32) -> bool {
        false
    }

    fn offer(&mut self, kind: u32, payload: &[u8]) -> Result<Offered, OfferFault> {
        Ok(Offered::Passed)
    }

    fn look(&self, kind: u32, n: usize, buffer: &mut [u8]) -> Result<usize, LookFault> {
        Err(LookFault::Missing)
    }

    fn with_parts(&self, size: Size) -> Option<Size> {
        Some(size)
    }

    fn put_parts(&self, buffer: &mut [u8], at: usize) -> Option<usize> {
        Some(at)
    }

    ghost lawful = { tt };

    ghost sound = { λ s. tt };
}

// One kind, and a list of others after it. `With` and `End` are public, and sets are written with them: a list of one kind
// in their place, to stand on the left of `Both`, would be shorter, and take them from whoever wrote a set.
#[derive(Drop)]
pub struct With<K, R> {
    first: K,
    rest: R,
}

impl<K: Kind, R: Kinds> Kinds for With<K, R> {
    ghost models = { first K.Kind.model R.Kinds.models };

    ghost meanings = { λ s. (K.Kind.meaning s.first, R.Kinds.meanings s.rest) };

    fn none() -> With<K, R> {
        With {
            first: K::empty(),
            rest: R::none(),
        }
    }

    fn picture(&mut self, mark: bool) {
        self.first.picture(mark);
        self.rest.picture(mark);
    }

    fn has(kind: u32) -> bool {
        kind == K::TYPE || R::has(kind)
    }

    fn offer(&mut self, kind: u32, payload: &[u8]) -> Result<Offered, OfferFault> {
        if kind == K::TYPE {
            return self.first.offer(payload);
        }
        self.rest.offer(kind, payload)
    }

    fn look(&self, kind: u32, n: usize, buffer: &mut [u8]) -> Result<usize, LookFault> {
        if kind == K::TYPE {
            return self.first.payload(n, buffer);
        }
        self.rest.look(kind, n, buffer)
    }

    fn with_parts(&self, size: Size) -> Option<Size> {
        let first = with_part(&self.first, size)?;
        self.rest.with_parts(first)
    }

    fn put_parts(&self, buffer: &mut [u8], at: usize) -> Option<usize> {
        let next = put_part(&self.first, buffer, at)?;
        self.rest.put_parts(buffer, next)
    }

    ghost lawful = { (K.Kind.lawful, R.Kinds.lawful) };

    ghost sound = { λ s. (K.Kind.sound s.first, R.Kinds.sound s.rest) };
}

// One list, and another after it. Many kinds are best halved again and again: a long chain of `With` is slow to check.
#[derive(Drop)]
pub struct Both<P, Q> {
    left: P,
    right: Q,
}

impl<P: Kinds, Q: Kinds> Kinds for Both<P, Q> {
    ghost models = { both P.Kinds.models Q.Kinds.models };

    ghost meanings = { λ s. (P.Kinds.meanings s.left, Q.Kinds.meanings s.right) };

    fn none() -> Both<P, Q> {
        Both {
            left: P::none(),
            right: Q::none(),
        }
    }

    fn picture(&mut self, mark: bool) {
        self.left.picture(mark);
        self.right.picture(mark);
    }

    fn has(kind: u32) -> bool {
        P::has(kind) || Q::has(kind)
    }

    fn offer(&mut self, kind: u32, payload: &[u8]) -> Result<Offered, OfferFault> {
        if P::has(kind) {
            return self.left.offer(kind, payload);
        }
        self.right.offer(kind, payload)
    }

    fn look(&self, kind: u32, n: usize, buffer: &mut [u8]) -> Result<usize, LookFault> {
        if P::has(kind) {
            return self.left.look(kind, n, buffer);
        }
        self.right.look(kind, n, buffer)
    }

    fn with_parts(&self, size: Size) -> Option<Size> {
        let left = self.left.with_parts(size)?;
        self.right.with_parts(left)
    }

    fn put_parts(&self, buffer: &mut [u8], at: usize) -> Option<usize> {
        let next = self.left.put_parts(buffer, at)?;
        self.right.put_parts(buffer, next)
    }

    ghost lawful = { (P.Kinds.lawful, Q.Kinds.lawful) };

    ghost sound = { λ s. (P.Kinds.sound s.left, Q.Kinds.sound s.right) };
}

// Offers a message to the kind of its type; two parameters, as in `offer`. A type outside the list is passed, and
// then a payload of more than 65,535 bytes refused, before any kind is asked: a kind may read a part of a payload only.
pub fn offer_message<R: Kinds>(
    kinds: &mut R,
    kind: u32,
    payload: &[u8],
) -> Result<Offered, OfferFault>
    ensures answer { result ≡ told (judged R.Kinds.models (R.Kinds.meanings kinds.old) kind payload.now) }
    ensures after { R.Kinds.meanings kinds.new ≡ after (R.Kinds.meanings kinds.old) (judged R.Kinds.models (R.Kinds.meanings kinds.old) kind payload.now) }
{
    if !R::has(kind) {
        return Ok(Offered::Passed);
    }
    check_length(payload)?;
    kinds.offer(kind, payload)
}
