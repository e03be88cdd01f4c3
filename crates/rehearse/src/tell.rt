// The answer to a call, printed as a line.
use crate::session::front;
use book::answer::{Answer, Saved, Tally};
use kinds::fault::Offered;
use layouts::fault::Told;
use script::hex::encode;
use std::io;
use visit::serve::{Call, Request};

// Prints what a call answered that was served.
pub fn tell<X>(rt: &HostRuntime, request: &Request<X>) -> io::Result<()> {
    let answer = request.answer;
    match &request.call {
        Call::Picture { new_sequence } => {
            let mark = if *new_sequence { " new" } else { "" };
            println!(rt; "picture{mark}: begun")
        }
        Call::Clear => println!(rt; "clear: cleared"),
        Call::Message { kind, .. } => tell_message(rt, *kind, answer),
        Call::Unit { .. } => tell_unit(rt, answer),
        Call::Look { kind, n, buffer } => tell_look(rt, *kind, *n, buffer.as_slice(), answer),
        Call::CatchUp { buffer } => tell_catch_up(rt, buffer.as_slice(), answer),
    }
}

fn tell_message(rt: &HostRuntime, kind: u32, answer: Option<Answer>) -> io::Result<()> {
    match answer {
        Some(Answer::Message(Ok(Offered::Granted))) => println!(rt; "message {kind}: granted"),
        Some(Answer::Message(Ok(Offered::Passed))) => println!(rt; "message {kind}: passed"),
        Some(Answer::Message(Err(refusal))) => println!(rt; "message {kind}: {refusal}"),
        _ => Ok(()),
    }
}

fn tell_unit(rt: &HostRuntime, answer: Option<Answer>) -> io::Result<()> {
    match answer {
        Some(Answer::Unit(Ok(tally))) => tell_tally(rt, tally),
        Some(Answer::Unit(Err(refusal))) => println!(rt; "unit: {refusal}"),
        _ => Ok(()),
    }
}

fn tell_tally(rt: &HostRuntime, tally: Tally) -> io::Result<()> {
    let Tally {
        granted,
        refused,
        passed,
        refusal,
    } = tally;
    print!(rt; "unit: {granted} granted, {refused} refused, {passed} passed")?;
    if let Some(message) = refusal {
        let refusal = Told(message.fault);
        let first = message.place;
        print!(rt; "; first refusal {refusal} in message at {first}")?;
    }
    println!(rt; "")
}

fn tell_look(
    rt: &HostRuntime,
    kind: u32,
    n: usize,
    buffer: &[u8],
    answer: Option<Answer>,
) -> io::Result<()> {
    match answer {
        Some(Answer::Look(Ok(len))) => {
            let front = front(buffer, len);
            let gap = gap_before(front);
            let bytes = encode(rt.alloc(), front)?;
            println!(rt; "look {kind} {n}: {len} bytes{gap}{bytes}")
        }
        Some(Answer::Look(Err(refusal))) => println!(rt; "look {kind} {n}: {refusal}"),
        _ => Ok(()),
    }
}

fn tell_catch_up(rt: &HostRuntime, buffer: &[u8], answer: Option<Answer>) -> io::Result<()> {
    match answer {
        Some(Answer::CatchUp(Ok(Saved { len, messages }))) => {
            let front = front(buffer, len);
            let gap = gap_before(front);
            let bytes = encode(rt.alloc(), front)?;
            println!(rt; "catch-up: {len} bytes, {messages} messages{gap}{bytes}")
        }
        Some(Answer::CatchUp(Err(refusal))) => println!(rt; "catch-up: {refusal}"),
        _ => Ok(()),
    }
}

// What stands before bytes that are printed as hex: a blank, and nothing where there are none.
pub fn gap_before(bytes: &[u8]) -> &'static str {
    if bytes.is_empty() { "" } else { " " }
}
