//! The program: it makes the real objects of the environment, hands them to the top call, and ends with its status.
#![tactic(auto)]

mod answers;
mod faults;
mod help;
mod own_word;
mod std_sink;
mod std_source;
mod system_clock;
mod system_random;
#[cfg(test)]
mod tests;
mod words;

use answers::answer;
use fdo_commands::Status;
use std::process::ExitCode;
use std_sink::StdSink;
use std_source::StdSource;
use suite_port::LabSuite;
use system_clock::SystemClock;
use system_random::SystemRandom;
use words::read_words;

fn main(rt: HostRuntime) -> ExitCode {
    ExitCode::from(run(&rt).number())
}

/// Runs the words of the command line over the real objects.
fn run(rt: &HostRuntime) -> Status {
    let Ok(words) = read_words(rt) else {
        return Status::NoMemory;
    };
    let mut input = StdSource::new(rt.stdin());
    let mut output = StdSink::new(rt.stdout());
    let mut suite = LabSuite::new(Vec::new(rt.alloc()));
    let mut random = SystemRandom::new(rt);
    let mut clock = SystemClock::new(rt);
    answer(
        rt.alloc(),
        words.as_slice(),
        &mut input,
        &mut output,
        &mut suite,
        &mut random,
        &mut clock,
    )
}
