// Sources of bytes, and the one over clean bytes.
ghost use Rattle.std.specs.Prelude.{◌≡◌, ℕ, Bool, true, false, List};
ghost use Rattle.std.proofs.Math.Pow.{are_bytes};
ghost use Rattle.units.specs.Sources.{Pulled, clean_bytes, clean_are_bytes};

// A source faults.
#[derive(Clone, Copy, PartialEq, Eq, Debug)]
pub struct SourceFault {}

// Bytes that come one at a time, and then an end or a fault.
pub trait Source {
    // the bytes still to come
    ghost coming: { Self → List ℕ };

    // whether a fault follows them
    ghost faulty: { Self → Bool };

    ghost bytes: { (s : Self) → are_bytes (coming s) ≡ true };

    // Takes the first byte; with none to come it answers the end, which is no byte, or the fault, every time.
    fn next(&mut self) -> Result<Option<u8>, SourceFault>
        ensures { Pulled result (coming self.old) (faulty self.old) (coming self.new) (faulty self.new) };
}

// Clean bytes, which never fault.
#[derive(Clone, Copy)]
pub struct Clean<'a> {
    rest: &'a [u8],
}

impl<'a> Clean<'a> {
    #[tactic(auto, using(crate::proofs::Cleans::as_bytes_same))]
    pub fn new(bytes: &'a [u8]) -> Clean<'a>
        ensures { clean_bytes result ≡ bytes.now }
    {
        Clean::over(bytes)
    }

    // Apart from `new`, since a slice is known to hold bytes only where it is passed on.
    fn over(rest: &'a [u8]) -> Clean<'a>
        ensures { result.rest ≡ rest.entry }
    {
        Clean { rest }
    }
}

impl<'a> Source for Clean<'a> {
    ghost coming = { clean_bytes };

    ghost faulty = { λ s. false };

    ghost bytes = { clean_are_bytes };

    fn next(&mut self) -> Result<Option<u8>, SourceFault> {
        Ok(self.rest.split_off_first().copied())
    }
}
