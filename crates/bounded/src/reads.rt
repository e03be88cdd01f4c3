// What a bounded list holds.
ghost use Rattle.std.specs.Prelude.{◌≡◌, ◌≤◌, length};
ghost use Rattle.std.specs.List.{slice_get};
ghost use Rattle.bounded.specs.Bounded.{items};

use crate::Bounded;

impl<T: Copy, const N: usize> Bounded<T, N> {
    // How many values it holds.
    #[tactic(auto, using(crate::proofs::Cells::counted))]
    pub fn len(&self) -> usize
        ensures value { result ≡ length (items self.now) }
        ensures few { result ≤ N }
    {
        self.len
    }

    // The value at a place, where there is one.
    #[tactic(auto, using(crate::proofs::Cells::placed))]
    pub fn get(&self, index: usize) -> Option<T>
        ensures { result ≡ slice_get (items self.now) index }
    {
        self.places.get(index).copied().flatten()
    }
}
