// How long a message stays in force, as it says itself: 0 for its own picture alone, else beyond it.
ghost use Rattle.std.specs.Prelude.{◌≤◌};

mod methods;

// A repetition period, of at most 16,384 pictures.
#[derive(Clone, Copy, PartialEq, Eq, Debug)]
pub struct Period {
    pub pictures: u16,
    ghost bounded: { pictures ≤ 16384 },
}
