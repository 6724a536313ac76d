//! `step rendezvous` over the messages of TO0 and TO1, at second 0.
use crate::rv_rows;
use cbor_core::Text;
use fdo_commands::fdo;
use fdo_ports::{ListClock, ListRandom, MemorySink, MemorySource};
use std::alloc::Global;
use std::test::Fail;
use suite_port::LabSuite;

/// One run: the messages, the draws in hexadecimal, the answers, and the status.
#[derive(Clone, Copy)]
struct Row {
    messages: &'static str,
    draws: &'static str,
    answers: &'static str,
    status: u8,
}

/// How often the clock is asked at most.
const MOST_SECONDS: usize = 12;

fn draws_of(alloc: Global, text: &str) -> Result<Vec<[u8; 16]>, Fail> {
    let bytes = hex::decode(alloc, text)?;
    let mut draws = Vec::new(alloc);
    for chunk in bytes.as_slice().chunks_exact(16) {
        let mut draw = [0; 16];
        draw.copy_from_slice(chunk);
        draws.push(draw)?;
    }
    Ok(draws)
}

/// What is written in the run of a row, and its status; of the clock's calls one may fail, by its number from 1.
fn run(alloc: Global, row: &Row, fails: Option<u64>) -> Result<(Vec<u8>, u8), Fail> {
    let mut words = Vec::new(alloc);
    words.push(Text::from_str(alloc, "step")?)?;
    words.push(Text::from_str(alloc, "rendezvous")?)?;
    let mut pieces = Vec::new(alloc);
    pieces.push(Vec::from_slice(alloc, row.messages.as_bytes())?)?;
    let mut fail = Vec::new(alloc);
    if let Some(number) = fails {
        fail.push(number)?;
    }
    let mut input = MemorySource::new(pieces, Vec::new(alloc));
    let mut output = MemorySink::new(Vec::new(alloc), Vec::new(alloc));
    let mut suite = LabSuite::new(Vec::new(alloc));
    let mut random = ListRandom::new(draws_of(alloc, row.draws)?, Vec::new(alloc));
    let mut clock = ListClock::new(vec![in alloc; 0; MOST_SECONDS]?, fail);
    let status = fdo(
        alloc,
        words.as_slice(),
        &mut input,
        &mut output,
        &mut suite,
        &mut random,
        &mut clock,
    );
    Ok((Vec::from_slice(alloc, output.written())?, status.number()))
}

/// Whether a row's run writes its answers and ends with its status.
fn is_so(alloc: Global, row: Row) -> Result<bool, Fail> {
    let (written, status) = run(alloc, &row, None)?;
    Ok(written.as_slice() == row.answers.as_bytes() && status == row.status)
}

/// Two owners, one after the other, and a device.
fn replaced() -> Row {
    Row {
        messages: rv_rows::REPLACED,
        draws: rv_rows::REPLACED_DRAWS,
        answers: rv_rows::REPLACED_ANSWERS,
        status: 0,
    }
}

#[test]
fn owners_register_and_devices_find_them(rt: HostRuntime) -> Result<(), Fail> {
    assert!(rt; is_so(rt.alloc(), replaced())?);
    Ok(())
}

#[test]
fn sessions_begin_anew(rt: HostRuntime) -> Result<(), Fail> {
    let row = Row {
        messages: rv_rows::BEGUN_AGAIN,
        draws: rv_rows::BEGUN_AGAIN_DRAWS,
        answers: rv_rows::BEGUN_AGAIN_ANSWERS,
        status: 0,
    };
    assert!(rt; is_so(rt.alloc(), row)?);
    Ok(())
}

#[test]
fn sessions_that_ended_are_not_named(rt: HostRuntime) -> Result<(), Fail> {
    let row = Row {
        messages: rv_rows::UNNAMED,
        draws: rv_rows::UNNAMED_DRAWS,
        answers: rv_rows::UNNAMED_ANSWERS,
        status: 0,
    };
    assert!(rt; is_so(rt.alloc(), row)?);
    Ok(())
}

#[test]
fn errors_end_sessions_and_draws_run_out(rt: HostRuntime) -> Result<(), Fail> {
    let row = Row {
        messages: rv_rows::ENDED,
        draws: rv_rows::ENDED_DRAWS,
        answers: rv_rows::ENDED_ANSWERS,
        status: 11,
    };
    assert!(rt; is_so(rt.alloc(), row)?);
    Ok(())
}

#[test]
fn a_clock_that_fails_is_named(rt: HostRuntime) -> Result<(), Fail> {
    let (written, status) = run(rt.alloc(), &replaced(), Some(1))?;
    assert!(rt; written.as_slice().ends_with(b"fault clock\n"));
    assert_eq!(rt; status, 11);
    Ok(())
}
