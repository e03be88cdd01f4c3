// The messages of a unit, printed one after the other.
use crate::session::front;
use crate::tell::gap_before;
use layouts::fault::Told;
use script::hex::encode;
use script::line::UnitBytes;
use std::io;
use units::fault::UnitFault;
use units::fill::{LONGEST, fill};
use units::frame::Messages;
use units::source::{Clean, Source};
use units::unescaped::Unescaped;

// Prints the messages of a unit, or why it is refused.
pub fn show_frame(rt: &HostRuntime, unit: &UnitBytes) -> io::Result<()> {
    match unit {
        UnitBytes::Clean(bytes) => show_unit(rt, Clean::new(bytes.as_slice())),
        UnitBytes::Escaped(bytes) => show_unit(rt, Unescaped::new(Clean::new(bytes.as_slice()))),
    }
}

fn show_unit<X: Source + Drop>(rt: &HostRuntime, mut source: X) -> io::Result<()> {
    let mut scratch = vec![in rt.alloc(); 0; LONGEST]?;
    match fill(&mut source, scratch.as_mut_slice()) {
        Ok(taken) => show_messages(rt, front(scratch.as_slice(), taken)),
        Err(fault) => show_refusal(rt, fault),
    }
}

// Judges the frame, and prints each message with its type, its place and its payload. Nothing but a payload's text is kept:
// a unit has up to 32,767 messages.
fn show_messages(rt: &HostRuntime, bytes: &[u8]) -> io::Result<()> {
    let messages = match Messages::new(bytes) {
        Ok(messages) => messages,
        Err(fault) => return show_refusal(rt, fault),
    };
    let total = count(messages);
    print!(rt; "frame: {total} messages")?;
    for message in messages {
        let kind = message.kind;
        let place = message.place;
        let gap = gap_before(message.payload);
        let payload = encode(rt.alloc(), message.payload)?;
        print!(rt; "; {kind} at {place}:{gap}{payload}")?;
    }
    println!(rt; "")
}

// How many messages are to come. The iterator's own `count` asks that they are known to fit 64 bits.
fn count(messages: Messages) -> usize {
    let mut count: usize = 0;
    for _ in messages {
        count = count.saturating_add(1);
    }
    count
}

fn show_refusal(rt: &HostRuntime, fault: UnitFault) -> io::Result<()> {
    println!(rt; "frame: refused {}", Told(fault))
}
