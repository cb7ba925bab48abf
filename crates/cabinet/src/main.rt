// Reads a scenario from standard input, does it call by call, and prints a reply for each.
#![tactic(auto)]

mod stop;

use calls::refusal::Refusal;
use calls::session::Session;
use scenario::call::{Call, Problem};
use scenario::line::parse_line;
use std::io::{BufRead, BufReader};
use std::process::ExitCode;
use stop::Stop;

// A refusal is a reply like any other; only want of memory ends the scenario.
fn answer_call(rt: &HostRuntime, session: &mut Session, call: Call) -> Result<(), Stop> {
    match session.perform(rt.alloc(), call) {
        Ok(reply) => rt.println(&reply)?,
        Err(Refusal::OutOfMemory) => return Err(Stop::OutOfMemory),
        Err(refusal) => rt.println(refusal)?,
    }
    Ok(())
}

fn answer(rt: &HostRuntime, session: &mut Session, line: usize, text: &str) -> Result<(), Stop> {
    match parse_line(rt.alloc(), text) {
        Ok(None) => Ok(()),
        Ok(Some(call)) => answer_call(rt, session, call),
        Err(Problem::OutOfMemory) => Err(Stop::OutOfMemory),
        Err(problem) => Err(Stop::NoCall { line, problem }),
    }
}

fn answer_all(rt: &HostRuntime) -> Result<(), Stop> {
    let mut session = Session::new();
    let lines = BufReader::new(rt.alloc(), rt.stdin())?.lines(rt.alloc());
    for (before, line) in lines.enumerate() {
        answer(rt, &mut session, before.saturating_add(1), line?.as_str())?;
    }
    Ok(())
}

fn main(rt: HostRuntime) -> ExitCode {
    match answer_all(&rt) {
        Ok(()) => ExitCode::SUCCESS,
        Err(stop) => {
            let _ = eprintln!(rt; "error: {stop}");
            ExitCode::FAILURE
        }
    }
}
