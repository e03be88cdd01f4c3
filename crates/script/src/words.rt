// Words of a text: what stands between blanks.
ghost use Rattle.std.specs.Prelude.{◌≡◌, ℕ, ◌<◌, ◌≤◌, true, false, length, slice_index};
ghost use Rattle.std.specs.Char.{is_ascii_whitespace};
ghost use Rattle.script.specs.Words.{word, behind};

// How many bytes stand before the first blank.
fn front_len(text: &[u8]) -> usize
    ensures within { result ≤ length text.now }
    ensures before { (k : ℕ) → k < result → is_ascii_whitespace (slice_index text.now k) ≡ false }
    ensures blank { result < length text.now → is_ascii_whitespace (slice_index text.now result) ≡ true }
{
    text.iter()
        .position(|c| c.is_ascii_whitespace())
        .unwrap_or(text.len())
}

// The first word, empty where there is none, and what stands behind it.
#[tactic(auto, using(crate::proofs::Cuts::CUTS))]
pub fn first_word(text: &str) -> (&str, &str)
    ensures first { result.0.now ≡ word text.now }
    ensures second { result.1.now ≡ behind text.now }
{
    let text = text.trim_ascii_start();
    text.split_at(front_len(text.as_bytes()))
}
