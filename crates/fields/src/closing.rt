// How a payload ends: with a one and zeros up to the end of the byte, or where a byte ends.
ghost use Rattle.std.specs.Prelude.{◌≡◌, ◌<◌, length};
ghost use Rattle.layouts.specs.Bits.{number};
ghost use Rattle.layouts.specs.Layout.{closing};

// How many bits close a payload that ends at the bit `at`, and the number that they are.
#[tactic(auto, using(crate::proofs::Sheets::closings))]
pub(crate) fn closing_bits(at: usize) -> (u32, u32)
    ensures width { result.0 ≡ length (closing at) }
    ensures value { result.1 ≡ number (closing at) }
    ensures few { result.0 < 8 }
{
    let width = ((8 - at % 8) % 8) as u32;
    (width, (1 << width) >> 1)
}
