// A rehearsal: a visit of a set of kinds, the scratch and the buffer that its calls use, and what each line answers.
use crate::frame::show_frame;
use crate::show::show;
use crate::tell::tell;
use script::line::{Line, UnitBytes, parse};
use sets::set::Set;
use std::alloc::{AllocError, Global};
use std::str::from_utf8;
use std::{io, mem};
use units::source::Source;
use units::stored::Stored;
use units::unescaped::Unescaped;
use visit::serve::{Call, Request};
use visit::visit::Visit;

#[derive(Drop)]
pub struct Session<S: Set> {
    visit: Visit<S>,
    scratch: Vec<u8>,
    buffer: Vec<u8>,
}

impl<S: Set> Session<S> {
    // A new visit, a scratch of 65,536 bytes and a buffer of 8,192.
    pub fn new(heap: Global) -> Result<Session<S>, AllocError> {
        Ok(Session {
            visit: Visit::new(),
            scratch: vec![in heap; 0; 65536]?,
            buffer: vec![in heap; 0; 8192]?,
        })
    }

    // Answers line `number` of a script; a line that is no call is an error, and the run goes on.
    pub fn line(&mut self, rt: &HostRuntime, number: u64, text: &[u8]) -> io::Result<()> {
        let Ok(text) = from_utf8(text) else {
            return println!(rt; "error: line {number}: the line is not UTF-8 text");
        };
        match parse(rt.alloc(), text) {
            Ok(line) => self.answer(rt, number, line),
            Err(fault) => println!(rt; "error: line {number}: {fault}"),
        }
    }

    fn answer(&mut self, rt: &HostRuntime, number: u64, line: Line) -> io::Result<()> {
        match line {
            Line::Skipped => Ok(()),
            Line::Picture { new_sequence } => self.call(rt, Call::Picture { new_sequence }),
            Line::Clear => self.call(rt, Call::Clear),
            Line::Message { kind, payload } => self.call(rt, Call::Message { kind, payload }),
            Line::Unit(unit) => self.unit(rt, unit),
            Line::Look { kind, n } => {
                let buffer = taken(rt, &mut self.buffer);
                self.call(rt, Call::Look { kind, n, buffer })
            }
            Line::CatchUp => {
                let buffer = taken(rt, &mut self.buffer);
                self.call(rt, Call::CatchUp { buffer })
            }
            Line::Scratch(len) => set(rt, number, "scratch", &mut self.scratch, len),
            Line::Buffer(len) => set(rt, number, "buffer", &mut self.buffer, len),
            Line::Frame(unit) => show_frame(rt, &unit),
            Line::Show => show(rt, &self.visit),
        }
    }

    // Serves a call that has no source.
    fn call(&mut self, rt: &HostRuntime, call: Call<Stored>) -> io::Result<()> {
        self.serve(rt, call)
    }

    // Serves one call, in a `Vec`: an array of one over any type of source did not prove as a slice.
    fn serve<X: Source + Drop>(&mut self, rt: &HostRuntime, call: Call<X>) -> io::Result<()> {
        let mut requests = Vec::new(rt.alloc());
        requests.push(Request { call, answer: None })?;
        self.visit.serve(requests.as_mut_slice());
        for request in requests {
            self.finish(rt, request)?;
        }
        Ok(())
    }

    // Prints the answer to a request, and takes the scratch and the buffer back: by `swap`, since a match moves nothing out
    // of one arm beside others.
    fn finish<X: Drop>(&mut self, rt: &HostRuntime, mut request: Request<X>) -> io::Result<()> {
        let told = tell(rt, &request);
        match &mut request.call {
            Call::Unit { scratch, .. } => mem::swap(scratch, &mut self.scratch),
            Call::Look { buffer, .. } | Call::CatchUp { buffer } => {
                mem::swap(buffer, &mut self.buffer)
            }
            _ => {}
        }
        told
    }

    fn unit(&mut self, rt: &HostRuntime, unit: UnitBytes) -> io::Result<()> {
        let scratch = taken(rt, &mut self.scratch);
        match unit {
            UnitBytes::Clean(bytes) => {
                let source = Stored::new(bytes);
                self.serve(rt, Call::Unit { source, scratch })
            }
            UnitBytes::Escaped(bytes) => {
                let source = Unescaped::new(Stored::new(bytes));
                self.serve(rt, Call::Unit { source, scratch })
            }
        }
    }
}

// A scratch or a buffer, out of its place.
fn taken(rt: &HostRuntime, place: &mut Vec<u8>) -> Vec<u8> {
    mem::replace(place, Vec::new(rt.alloc()))
}

// Puts a scratch or a buffer of a length in its place.
fn set(
    rt: &HostRuntime,
    number: u64,
    what: &str,
    place: &mut Vec<u8>,
    len: usize,
) -> io::Result<()> {
    let Ok(bytes) = vec![in rt.alloc(); 0; len] else {
        return println!(rt; "error: line {number}: there is no memory for a {what} of {len} bytes");
    };
    *place = bytes;
    println!(rt; "{what} {len}: set")
}

// The first `len` bytes.
pub fn front(bytes: &[u8], len: usize) -> &[u8] {
    bytes.get(..len).unwrap_or(bytes)
}
