// Lines of a script: each is a call, or is skipped, or is refused in words that an operator understands.
ghost use Rattle.std.specs.Prelude.{◌≡◌, ℕ, List, drop, Ok, Err, MatchResult};
ghost use Rattle.std.specs.Option.{ok_or};
ghost use Rattle.std.specs.Str.{IsCharBoundary};
ghost use Rattle.script.specs.Words.{word as word_of};
ghost use Rattle.script.specs.Hex.{read, bytes as bytes_of};
ghost use Rattle.script.specs.Lines.{Saying, Says, named, number, type_number, on_reading, closed, picture_of, message_of, look_of, unit_of, TellsNumber, TellsUnit, numbered, call_of, saying, NoCallSkipped, MessagesWritten};
ghost use Rattle.script.specs.declared.line.LineFault.TheVariants.{UnknownCall};

use crate::hex::{HexFault, decode};
use crate::words::first_word;
use std::alloc::Global;
use std::fmt;

// The bytes of a unit, clean or still escaped.
#[derive(Debug, Drop)]
pub enum UnitBytes {
    Clean(Vec<u8>),
    Escaped(Vec<u8>),
}

// A line of a script.
#[derive(Debug, Drop)]
pub enum Line {
    // a blank line, or one that begins with #
    Skipped,
    // a picture begins, and with it a new sequence or none
    Picture { new_sequence: bool },
    // all that is in force is cleared
    Clear,
    // a message of a type
    Message { kind: u32, payload: Vec<u8> },
    // a unit, whose messages are offered in turn
    Unit(UnitBytes),
    // what is in force of a type, by its number
    Look { kind: u32, n: usize },
    // all that is in force is saved
    CatchUp,
    // the length of the scratch from here on
    Scratch(usize),
    // the length of the buffer from here on
    Buffer(usize),
    // a unit, whose messages are listed
    Frame(UnitBytes),
    // all that is in force
    Show,
}

// The names of the calls.
#[derive(Clone, Copy, PartialEq, Eq, Debug)]
pub enum Name {
    Picture,
    Clear,
    Message,
    Unit,
    Look,
    CatchUp,
    Scratch,
    Buffer,
    Frame,
    Show,
}

// Why a line is refused, with the word at fault.
#[derive(Clone, Copy, Debug)]
pub enum LineFault<'a> {
    // the first word names no call
    UnknownCall(&'a str),
    // the call wants the type of a message
    TypeWanted(Name),
    // the call wants a number
    NumberWanted(Name),
    // the word has a character that is no hex digit
    NotHex(&'a str),
    // the word of hex has an odd number of digits
    OddDigits(&'a str),
    // the call takes no more words
    TooManyWords(&'a str),
    // there is no memory for the bytes
    Memory,
}

// A call that is well written.
fn example(name: Name) -> &'static str {
    match name {
        Name::Picture => "picture new",
        Name::Clear => "clear",
        Name::Message => "message 151 60",
        Name::Unit => "unit 97 01 60 80",
        Name::Look => "look 151 0",
        Name::CatchUp => "catch-up",
        Name::Scratch => "scratch 65536",
        Name::Buffer => "buffer 8192",
        Name::Frame => "frame 97 01 60 80",
        Name::Show => "show",
    }
}

// By hand: a derive for errors is another crate's, and this one sees the library alone.
impl<'a> fmt::Display for LineFault<'a> {
    fn fmt<W: fmt::Write>(&self, f: &mut fmt::Formatter<W>) -> fmt::Result {
        match *self {
            LineFault::UnknownCall(word) => write!(f, "unknown call {word:?}"),
            LineFault::TypeWanted(name) => write!(f, "a type is wanted, as in: {}", example(name)),
            LineFault::NumberWanted(name) => write!(
                f,
                "a number is wanted, as in: {}",
                example(name)
            ),
            LineFault::NotHex(word) => write!(f, "{word:?} is not hex"),
            LineFault::OddDigits(word) => write!(
                f,
                "a word of hex has an odd number of digits: {word:?}"
            ),
            LineFault::TooManyWords(word) => write!(f, "too many words, from {word:?} on"),
            LineFault::Memory => write!(f, "there is no memory for the bytes"),
        }
    }
}

// The call of a name.
impl<'a> TryFrom<&'a str> for Name {
    type Error = LineFault<'a>;

    ghost try_from_gives = { λ word r. r ≡ ok_or (named word.now) (UnknownCall word) };

    fn try_from(word: &'a str) -> Result<Name, LineFault<'a>> {
        match word {
            "picture" => Ok(Name::Picture),
            "clear" => Ok(Name::Clear),
            "message" => Ok(Name::Message),
            "unit" => Ok(Name::Unit),
            "look" => Ok(Name::Look),
            "catch-up" => Ok(Name::CatchUp),
            "scratch" => Ok(Name::Scratch),
            "buffer" => Ok(Name::Buffer),
            "frame" => Ok(Name::Frame),
            "show" => Ok(Name::Show),
            _ => Err(LineFault::UnknownCall(word)),
        }
    }
}

// The number that a word of decimal digits stands for; `parse` alone would take a sign.
#[tactic(auto, using(crate::proofs::Told::NUMBERS))]
fn number_of(word: &str) -> Option<usize>
    ensures { result ≡ number word.now }
{
    if word.starts_with('+') {
        return None;
    }
    word.parse::<usize>().ok()
}

// The type that a word of decimal digits stands for.
fn type_of(word: &str) -> Option<u32>
    ensures { result ≡ type_number word.now }
{
    u32::try_from(number_of(word)?).ok()
}

// The word that begins at a place.
fn word_at(text: &str, place: usize) -> &str
    requires { IsCharBoundary text.now place }
    ensures { result.now ≡ word_of (drop place text.now) }
{
    let (_, rest) = text.split_at(place);
    let (word, _) = first_word(rest);
    word
}

// Nothing, where no word is left.
fn end_of<'a>(text: &'a str) -> Result<(), LineFault<'a>>
    ensures { MatchResult result (λ _. (s : Saying) → closed text.now s ≡ s) (λ e. (s : Saying) → Says (closed text.now s) (Err e)) }
{
    let (word, _) = first_word(text);
    if word.is_empty() {
        Ok(())
    } else {
        Err(LineFault::TooManyWords(word))
    }
}

// The bytes of the words of hex that follow.
fn bytes_of<'a>(heap: Global, text: &'a str) -> Result<Vec<u8>, LineFault<'a>>
    ensures { MatchResult result (λ v. read text.now ≡ bytes_of v.items) (λ e. (f : List ℕ → Saying) → Says (on_reading (read text.now) f) (Err e)) }
{
    decode(heap, text).map_err(|fault| match fault {
        HexFault::NotHex(place) => LineFault::NotHex(word_at(text, place)),
        HexFault::Odd(place) => LineFault::OddDigits(word_at(text, place)),
        HexFault::Memory => LineFault::Memory,
    })
}

// `picture` or `picture new`
fn picture<'a>(text: &'a str) -> Result<Line, LineFault<'a>>
    ensures { Says (picture_of text.now) result }
{
    let (word, rest) = first_word(text);
    if word == "new" {
        end_of(rest)?;
        Ok(Line::Picture { new_sequence: true })
    } else {
        end_of(text)?;
        Ok(Line::Picture {
            new_sequence: false,
        })
    }
}

// `message TYPE HEX`
fn message<'a>(heap: Global, text: &'a str) -> Result<Line, LineFault<'a>>
    ensures { Says (message_of text.now) result }
{
    let (word, rest) = first_word(text);
    let kind = type_of(word).ok_or(LineFault::TypeWanted(Name::Message))?;
    let payload = bytes_of(heap, rest)?;
    Ok(Line::Message { kind, payload })
}

// The number of a call that takes no more.
fn only_number<'a>(name: Name, text: &'a str) -> Result<usize, LineFault<'a>>
    ensures { TellsNumber (λ call. numbered name call text.now) result }
{
    let (word, rest) = first_word(text);
    let n = number_of(word).ok_or(LineFault::NumberWanted(name))?;
    end_of(rest)?;
    Ok(n)
}

// `look TYPE N`
#[tactic(auto, using(crate::proofs::Told::look_is))]
fn look<'a>(text: &'a str) -> Result<Line, LineFault<'a>>
    ensures { Says (look_of text.now) result }
{
    let (word, rest) = first_word(text);
    let kind = type_of(word).ok_or(LineFault::TypeWanted(Name::Look))?;
    let n = only_number(Name::Look, rest)?;
    Ok(Line::Look { kind, n })
}

// `HEX` or `escaped HEX`
fn unit_of<'a>(heap: Global, text: &'a str) -> Result<UnitBytes, LineFault<'a>>
    ensures { TellsUnit (unit_of text.now) result }
{
    let (word, rest) = first_word(text);
    if word == "escaped" {
        Ok(UnitBytes::Escaped(bytes_of(heap, rest)?))
    } else {
        Ok(UnitBytes::Clean(bytes_of(heap, text)?))
    }
}

// The call of a name with the words that follow it. Ten names take their words in six ways, and hand back a line of their
// own each: a `match`, and no table, which would hold boxed functions.
#[tactic(auto, using(crate::proofs::Told::UNITS))]
fn call<'a>(heap: Global, word: &'a str, rest: &'a str) -> Result<Line, LineFault<'a>>
    ensures { Says (call_of (named word.now) word.now rest.now) result }
{
    let name = Name::try_from(word)?;
    match name {
        Name::Picture => picture(rest),
        Name::Clear => {
            end_of(rest)?;
            Ok(Line::Clear)
        }
        Name::Message => message(heap, rest),
        Name::Unit => Ok(Line::Unit(unit_of(heap, rest)?)),
        Name::Look => look(rest),
        Name::CatchUp => {
            end_of(rest)?;
            Ok(Line::CatchUp)
        }
        Name::Scratch => Ok(Line::Scratch(only_number(name, rest)?)),
        Name::Buffer => Ok(Line::Buffer(only_number(name, rest)?)),
        Name::Frame => Ok(Line::Frame(unit_of(heap, rest)?)),
        Name::Show => {
            end_of(rest)?;
            Ok(Line::Show)
        }
    }
}

// What a line of a script says.
#[tactic(auto, using(crate::proofs::Laws::LAWS))]
pub fn parse<'a>(heap: Global, text: &'a str) -> Result<Line, LineFault<'a>>
    ensures value { Says (saying text.now) result }
    ensures skipped { NoCallSkipped }
    ensures messages { MessagesWritten }
{
    let (word, rest) = first_word(text);
    if word.is_empty() || word.starts_with('#') {
        return Ok(Line::Skipped);
    }
    call(heap, word, rest)
}
