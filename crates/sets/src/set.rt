// A set of kinds: a list of 1 to 16 kinds of different types, whose parts together fit one unit.
ghost use Rattle.book.specs.Models.{Proper, listed};

use crate::list::Kinds;

pub trait Set {
    type List: Kinds;

    ghost proper: { Proper (listed Self.List.Kinds.models) };
}
