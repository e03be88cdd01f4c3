// A list of at most N values that takes no memory but its own.
#![tactic(auto)]

ghost use Rattle.std.specs.Prelude.{◌≡◌, true, length};
ghost use Rattle.bounded.specs.Places.{fills};

use std::alloc::AllocError;

mod edits;
mod methods;
mod reads;
#[cfg(test)]
mod tests;
pub mod values;

// The first `len` places hold a value each, and the others none. The library's `ArrayVec` is not `Copy`, and asks for
// a blank value in each free place, which a packing and a region have none of.
#[derive(Copy, PartialEq, Eq, Debug)]
pub struct Bounded<T, const N: usize> {
    places: [Option<T>; N],
    len: usize,
    ghost whole: { length places ≡ N },
    ghost filled: { fills len places ≡ true },
}

// By hand: over a ghost field, `Clone` is derived only for what is `Copy` at every `T`.
impl<T: Copy, const N: usize> Clone for Bounded<T, N> {
    ghost is_clone = { λ x y. y ≡ x };

    ghost is_infallible = { λ _. Unit {0} };

    fn clone(&self) -> Result<Bounded<T, N>, AllocError> {
        Ok(*self)
    }
}
