// Making a bounded list, and adding to it.
ghost use Rattle.std.specs.Prelude.{◌≡◌, ◌<◌, [], ◌∷◌, ◌++◌, length, is_ok, IfErr, if◌then◌else◌, nat_lt};
ghost use Rattle.bounded.specs.Bounded.{items};

use crate::Bounded;

impl<T: Copy, const N: usize> Bounded<T, N> {
    // No values.
    #[tactic(auto, using(crate::proofs::Cells::free))]
    pub fn new() -> Bounded<T, N>
        ensures { items result ≡ [] }
    {
        Bounded {
            places: [None; N],
            len: 0,
        }
    }

    // Adds a value behind the others; where N are held, it is handed back.
    #[tactic(auto, using(crate::proofs::Cells::added))]
    pub fn push(&mut self, value: T) -> Result<(), T>
        ensures answer { is_ok result ≡ nat_lt (length (items self.old)) N }
        ensures items { items self.new ≡ (if is_ok result then items self.old ++ value ∷ [] else items self.old) }
        ensures refused { IfErr result (λ x. x ≡ value) }
    {
        let len = self.len;
        if len < N {
            self.places[len] = Some(value);
            self.len = len + 1;
            Ok(())
        } else {
            Err(value)
        }
    }
}
