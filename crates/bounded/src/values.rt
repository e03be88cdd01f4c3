// The values of a bounded list, one after the other.
ghost use Rattle.std.specs.Prelude.{◌≡◌};
ghost use Rattle.std.specs.Iterator.{YieldsFirst, item_count};
ghost use Rattle.bounded.specs.Bounded.{items};
ghost use Rattle.bounded.specs.Values.{coming};

use crate::Bounded;

// Those from a place on: by place and no chain over the array. A loop over them needs no answer for the going over,
// since what is still to come is a part of the list; a loop over `iter().flatten()`, as in edits.rt, does.
#[derive(Clone, Copy)]
pub struct Values<T: Copy, const N: usize> {
    list: Bounded<T, N>,
    at: usize,
}

impl<T: Copy, const N: usize> Iterator for Values<T, N> {
    type Item = T;

    ghost next_gives = { YieldsFirst coming };

    ghost remaining = { item_count coming };

    #[tactic(auto, using(crate::proofs::Cells::coming_next))]
    fn next(&mut self) -> Option<T> {
        let value = self.list.get(self.at)?;
        self.at += 1;
        Some(value)
    }
}

impl<T: Copy, const N: usize> IntoIterator for Bounded<T, N> {
    type Item = T;

    type IntoIter = Values<T, N>;

    ghost into_iter_gives = { λ b it. coming it ≡ items b };

    fn into_iter(self) -> Values<T, N> {
        Values { list: self, at: 0 }
    }
}
