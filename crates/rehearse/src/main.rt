// Rehearses a script: reads a call to a line, from a file or from standard input, and prints an answer to each.
#![tactic(auto)]

use session::Session;
use sets::set::Set;
use shipped::Shipped;
use std::env;
use std::fs::File;
use std::io::{BufRead, BufReader};

mod frame;
mod session;
mod show;
mod tell;

fn main(rt: HostRuntime) -> anyhow::Result<()> {
    run(&rt)
}

// The script is the file that the first argument names; with no argument it is standard input.
fn run(rt: &HostRuntime) -> anyhow::Result<()> {
    let session: Session<Shipped> = Session::new(rt.alloc())?;
    let mut args = env::args(rt)?.skip(1);
    match args.next() {
        Some(path) => rehearse(
            rt,
            session,
            BufReader::new(rt.alloc(), File::open(rt, path.as_str())?)?,
        ),
        None => rehearse(rt, session, BufReader::new(rt.alloc(), rt.stdin())?),
    }
}

// Answers every line of the input in turn, each as soon as it is read.
fn rehearse<S: Set, R: BufRead + Drop>(
    rt: &HostRuntime,
    mut session: Session<S>,
    mut input: R,
) -> anyhow::Result<()> {
    // one buffer for all lines: `input.split(..)` takes memory for each, and 1.4 times as long or more
    let mut text = Vec::new(rt.alloc());
    for number in 1..u64::MAX {
        text.clear();
        if input.read_until(b'\n', &mut text)? == 0 {
            break;
        }
        session.line(rt, number, text.as_slice())?;
    }
    Ok(())
}
