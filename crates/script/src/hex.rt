// Bytes as hex text: two digits to a byte, with or without blanks between, read in either case and written in upper case.
ghost use Rattle.std.specs.Prelude.{◌≡◌, ◌<◌, ◌++◌, IfOk, string_bytes, OnOk};
ghost use Rattle.script.specs.Hex.{digit, numeral, pair, written, Decodes, ReadsBack};
ghost use Rattle.script.specs.declared.hex.HexFault.TheVariants.{Memory};

use std::alloc::{AllocError, AllocFailed, Global};

// Why a text is not hex. A word is given by the place at which it begins in the text.
#[derive(Clone, Copy, PartialEq, Eq, Debug)]
pub enum HexFault {
    // the word has a character that is no hex digit
    NotHex(usize),
    // the word has an odd number of digits
    Odd(usize),
    // there is no memory for the bytes
    Memory,
}

impl<T: Drop> From<AllocFailed<T>> for HexFault {
    ghost from_gives = { λ _ r. r ≡ Memory };

    fn from(_e: AllocFailed<T>) -> HexFault {
        HexFault::Memory
    }
}

// The value of a hex digit, in either case.
fn digit_value(c: u8) -> Option<u8>
    ensures { result ≡ digit c }
{
    let value = char::from(c).to_digit(16)?;
    u8::try_from(value).ok()
}

// The bytes that a text of hex pairs stands for. The library's `hex` takes no blanks, and asks for the length before the digits.
pub fn decode(heap: Global, text: &str) -> Result<Vec<u8>, HexFault>
    ensures { Decodes text.now result }
{
    let mut bytes = Vec::new(heap);
    let mut word = 0;
    let mut high = None;
    for (i, c) in text.as_bytes().iter().enumerate() {
        if c.is_ascii_whitespace() {
            if high.is_some() {
                return Err(HexFault::Odd(word));
            }
            word = i + 1;
        } else {
            let low = digit_value(*c).ok_or(HexFault::NotHex(word))?;
            high = match high {
                None => Some(low),
                Some(first) => {
                    bytes.push(first * 16 + low)?;
                    None
                }
            };
        }
    }
    if high.is_some() {
        return Err(HexFault::Odd(word));
    }
    Ok(bytes)
}

// The digit of a value below 16.
fn digit_of(value: u8) -> char
    requires { value < 16 }
    ensures { result ≡ numeral value }
{
    if value < 10 {
        (b'0' + value) as char
    } else {
        (b'A' + (value - 10)) as char
    }
}

// Adds the two digits of a byte: by `write!` as `{byte:02X}` it takes about eight times as long.
fn push_byte(text: &mut String, byte: u8) -> Result<(), AllocError>
    ensures { OnOk result (string_bytes text.new ≡ string_bytes text.old ++ pair byte) }
{
    text.push(digit_of(byte / 16))?;
    text.push(digit_of(byte % 16))
}

// Bytes as hex: two digits to a byte, in upper case, with a blank between bytes.
#[tactic(auto, using(crate::proofs::Reading::LAW))]
pub fn encode(heap: Global, bytes: &[u8]) -> Result<String, AllocError>
    ensures value { IfOk result (λ t. string_bytes t ≡ written bytes.now) }
    ensures law { ReadsBack }
{
    let mut text = String::new(heap);
    for (i, byte) in bytes.iter().enumerate() {
        if i > 0 {
            text.push(' ')?;
        }
        push_byte(&mut text, *byte)?;
    }
    Ok(text)
}
