// What is left of a bounded list, and what comes behind it.
ghost use Rattle.std.specs.Prelude.{◌≡◌, Bool, ◌++◌, take, filter};
ghost use Rattle.std.specs.Fn.{CalledAt};
ghost use Rattle.std.specs.List.Retain.{IsFiltered};
ghost use Rattle.bounded.specs.Bounded.{items};
ghost use Rattle.bounded.specs.Tests.{Tests};

use crate::Bounded;

// Over the places and not `for value in *self`: where T and N are open, a call of a list's `into_iter` or of its
// iterator's `next` asks that the list and the iterator take less than 2^63 bytes, which is known at no call here.
impl<T: Copy, const N: usize> Bounded<T, N> {
    // Keeps the values at which `keep` answers `true`, in their order; `tested` says it of a closure that is a test.
    // `IsAlwaysCallable` is what the language asks of each function that calls a closure or hands one on.
    pub fn retain<F: FnMut(&T) -> bool>(&mut self, keep: F)
        requires { F.IsAlwaysCallable keep }
        ensures filtered { IsFiltered (CalledAt F.FnMut) keep (items self.old) (items self.new) }
        ensures tested { (test : T → Bool) → Tests (CalledAt F.FnMut) keep test → items self.new ≡ filter test (items self.old) }
    {
        *self = self.kept(keep);
    }

    // Those at which `keep` answers `true`, in their order; `tested` and `IsAlwaysCallable` as at `retain`.
    pub fn kept<F: FnMut(&T) -> bool>(&self, mut keep: F) -> Bounded<T, N>
        requires { F.IsAlwaysCallable keep }
        ensures filtered { IsFiltered (CalledAt F.FnMut) keep (items self.now) (items result) }
        ensures tested { (test : T → Bool) → Tests (CalledAt F.FnMut) keep test → items result ≡ filter test (items self.now) }
    {
        let mut kept = Bounded::new();
        for value in self.places.iter().flatten() {
            if keep(value) {
                let _ = kept.push(*value);
            }
        }
        kept
    }

    // Adds the values of another list behind the others, as far as there is room.
    #[tactic(auto, using(crate::proofs::Appending::appends))]
    pub fn append(&mut self, other: &Bounded<T, N>)
        ensures { items self.new ≡ take N (items self.old ++ items other.now) }
    {
        for value in other.places.iter().flatten() {
            let _ = self.push(*value);
        }
    }
}
