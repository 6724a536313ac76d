//! `step rendezvous` over objects in memory.
use cbor_core::Text;
use fdo_commands::{Status, fdo};
use fdo_ports::{ListClock, ListRandom, MemorySink, MemorySource, PlainSink, PlainSource, Source};
use std::alloc::{AllocError, Global};
use suite_port::LabSuite;

/// The draws 00 01 .. 0f and 10 11 .. 1f.
const NONCE: [u8; 16] = [0, 1, 2, 3, 4, 5, 6, 7, 8, 9, 10, 11, 12, 13, 14, 15];

const TOKEN: [u8; 16] = [
    16, 17, 18, 19, 20, 21, 22, 23, 24, 25, 26, 27, 28, 29, 30, 31,
];

/// Which call fails.
#[derive(Clone, Copy)]
enum Fails {
    Nothing,
    FirstRead,
    FirstWrite,
    SecondWrite,
    FirstDraw,
}

impl Fails {
    fn read(self) -> u64 {
        match self {
            Fails::FirstRead => 1,
            _ => 0,
        }
    }

    fn write(self) -> u64 {
        match self {
            Fails::FirstWrite => 1,
            Fails::SecondWrite => 2,
            _ => 0,
        }
    }

    fn draw(self) -> u64 {
        match self {
            Fails::FirstDraw => 1,
            _ => 0,
        }
    }
}

/// One run, with what has to be written and answered.
#[derive(Clone, Copy)]
struct Case {
    words: &'static str,
    input: &'static [u8],
    /// How many of the two draws the source has.
    draws: usize,
    fails: Fails,
    written: &'static [u8],
    status: u8,
}

const STEP: &str = "step rendezvous";

const ACK: &[u8] = b"21 EBESExQVFhcYGRobHB0eHw 8150000102030405060708090a0b0c0d0e0f\n";

const BODY: &[u8] = b"255 - 851864146c6d65737361676520626f6479f600\n";

const TWICE: &[u8] =
    b"255 - 851864146c6d65737361676520626f6479f600\n255 - 851864146c6d65737361676520626f6479f600\n";

const TURN: &[u8] = b"255 - 851865156f696e76616c6964206d657373616765f600\n";

const TURN_OF_0: &[u8] = b"255 - 851865006f696e76616c6964206d657373616765f600\n";

const TURN_OF_254: &[u8] = b"255 - 85186518fe6f696e76616c6964206d657373616765f600\n";

const NO_DRAW: &[u8] = b"255 - 851901f41468696e7465726e616cf600\nfault random\n";

const NO_FIRST_DRAW: &[u8] =
    b"255 - 851901f41468696e7465726e616cf600\n21 EBESExQVFhcYGRobHB0eHw 8150000102030405060708090a0b0c0d0e0f\nfault random\n";

const WORDS: &[u8] = b"fault words\n";

const WRONG: &[u8] = b"fault input 0\n";

const WRONG_AT_10: &[u8] = b"fault input 10\n";

/// Inputs of `step rendezvous`, with what is written where nothing fails, and the status.
static INPUTS: [(&'static [u8], &'static [u8], u8); 27] = [
    (b"20 - 80\n", ACK, 0),
    (b"20 - 9fff\n", ACK, 0),
    (b"20 - 9800\n", ACK, 0),
    (b"20 - 9b0000000000000000\n", ACK, 0),
    (b"20 token 80\n", ACK, 0),
    (b"20 - 8100\n", BODY, 0),
    (b"20 - 8080\n", BODY, 0),
    (b"20 - 81\n", BODY, 0),
    (b"20 - a0\n", BODY, 0),
    (b"20 - ff\n", BODY, 0),
    (b"20 - 8100\n20 - 8080\n", TWICE, 0),
    (b"21 - 80\n", TURN, 0),
    (b"0 a 00\n", TURN_OF_0, 0),
    (b"254 - 00\n", TURN_OF_254, 0),
    (b"255 - 80\n", b"ended\n", 0),
    (b"", b"", 0),
    (b"20 - 80", WRONG, 3),
    (b"20 - 8100\n20 - 80", WRONG_AT_10, 3),
    (b"20 - 8100\n\n", WRONG_AT_10, 3),
    (b"020 - 80\n", WRONG, 3),
    (b"256 - 80\n", WRONG, 3),
    (b"20 - 8A\n", WRONG, 3),
    (b"20 - \n", WRONG, 3),
    (b"20 - 8\n", WRONG, 3),
    (b"20  80\n", WRONG, 3),
    (b"20 - 80 \n", WRONG, 3),
    (b"20 - 80\r\n", WRONG, 3),
];

static CASES: [Case; 8] = [
    Case {
        words: "frob",
        input: b"20 - 80\n",
        draws: 2,
        fails: Fails::Nothing,
        written: WORDS,
        status: 2,
    },
    Case {
        words: "step rendezvous x",
        input: b"",
        draws: 2,
        fails: Fails::Nothing,
        written: WORDS,
        status: 2,
    },
    Case {
        words: STEP,
        input: b"20 - 80\n",
        draws: 0,
        fails: Fails::Nothing,
        written: NO_DRAW,
        status: 11,
    },
    Case {
        words: STEP,
        input: b"20 - 80\n",
        draws: 1,
        fails: Fails::Nothing,
        written: NO_DRAW,
        status: 11,
    },
    Case {
        words: STEP,
        input: b"20 - 80\n20 - 80\n",
        draws: 2,
        fails: Fails::FirstDraw,
        written: NO_FIRST_DRAW,
        status: 11,
    },
    Case {
        words: STEP,
        input: b"20 - 80\n",
        draws: 2,
        fails: Fails::FirstRead,
        written: b"fault read\n",
        status: 4,
    },
    Case {
        words: STEP,
        input: b"20 - 80\n",
        draws: 2,
        fails: Fails::FirstWrite,
        written: b"",
        status: 5,
    },
    Case {
        words: STEP,
        input: b"20 - 8100\n20 - 8100\n",
        draws: 2,
        fails: Fails::SecondWrite,
        written: BODY,
        status: 5,
    },
];

fn words(alloc: Global, text: &str) -> Result<Vec<Text>, AllocError> {
    let mut words = Vec::new(alloc);
    for word in text.split(' ') {
        words.push(Text::new(String::from_str(alloc, word)?))?;
    }
    Ok(words)
}

fn numbers(alloc: Global, number: u64) -> Result<Vec<u64>, AllocError> {
    let mut numbers = Vec::new(alloc);
    if number > 0 {
        numbers.push(number)?;
    }
    Ok(numbers)
}

fn draws(alloc: Global, count: usize) -> Result<Vec<[u8; 16]>, AllocError> {
    let mut draws = Vec::new(alloc);
    if count > 0 {
        draws.push(NONCE)?;
    }
    if count > 1 {
        draws.push(TOKEN)?;
    }
    Ok(draws)
}

/// The input as one piece, or as one piece for each byte.
fn pieces(alloc: Global, input: &[u8], cut: bool) -> Result<Vec<Vec<u8>>, AllocError> {
    let mut pieces = Vec::new(alloc);
    if !cut {
        pieces.push(Vec::from_slice(alloc, input)?)?;
        return Ok(pieces);
    }
    for byte in input {
        let mut piece = Vec::new(alloc);
        piece.push(*byte)?;
        pieces.push(piece)?;
        pieces.push(Vec::new(alloc))?;
    }
    Ok(pieces)
}

/// What a run writes, and how it ends.
fn run(alloc: Global, case: &Case, cut: bool) -> Result<(Vec<u8>, u8), AllocError> {
    let fails = case.fails;
    let words = words(alloc, case.words)?;
    let mut input = MemorySource::new(
        pieces(alloc, case.input, cut)?,
        numbers(alloc, fails.read())?,
    );
    let mut output = MemorySink::new(Vec::new(alloc), numbers(alloc, fails.write())?);
    let mut suite = LabSuite::new(Vec::new(alloc));
    let mut random = ListRandom::new(draws(alloc, case.draws)?, numbers(alloc, fails.draw())?);
    let mut clock = ListClock::new(Vec::new(alloc), Vec::new(alloc));
    let status = fdo(
        alloc,
        words.as_slice(),
        &mut input,
        &mut output,
        &mut suite,
        &mut random,
        &mut clock,
    );
    Ok((Vec::from_slice(alloc, output.written())?, status.number()))
}

#[test]
fn answers_are_those_of_the_standard(rt: HostRuntime) -> Result<(), AllocError> {
    for (input, written, status) in &INPUTS {
        let case = Case {
            words: STEP,
            input: *input,
            draws: 2,
            fails: Fails::Nothing,
            written: *written,
            status: *status,
        };
        for cut in [false, true] {
            let (output, status) = run(rt.alloc(), &case, cut)?;
            assert_eq!(rt; output.as_slice(), case.written);
            assert_eq!(rt; status, case.status);
        }
    }
    Ok(())
}

#[test]
fn other_words_and_failed_calls_end_so(rt: HostRuntime) -> Result<(), AllocError> {
    for case in &CASES {
        for cut in [false, true] {
            let (output, status) = run(rt.alloc(), case, cut)?;
            assert_eq!(rt; output.as_slice(), case.written);
            assert_eq!(rt; status, case.status);
        }
    }
    Ok(())
}

#[test]
fn a_longer_input_is_refused(rt: HostRuntime) -> Result<(), AllocError> {
    let alloc = rt.alloc();
    let words = words(alloc, "step rendezvous")?;
    for (length, status) in [(16_777_216, Status::Input), (16_777_217, Status::Limit)] {
        let mut input = PlainSource::new(vec![in alloc; 0; length]?);
        let mut suite = LabSuite::new(Vec::new(alloc));
        let mut random = ListRandom::new(Vec::new(alloc), Vec::new(alloc));
        let mut clock = ListClock::new(Vec::new(alloc), Vec::new(alloc));
        let ended = fdo(
            alloc,
            words.as_slice(),
            &mut input,
            &mut PlainSink::new(),
            &mut suite,
            &mut random,
            &mut clock,
        );
        assert_eq!(rt; ended, status);
    }
    Ok(())
}

/// An input whose first two reads fail.
fn failing_twice(alloc: Global) -> Result<MemorySource, AllocError> {
    let mut fail = numbers(alloc, 1)?;
    fail.push(2)?;
    Ok(MemorySource::new(pieces(alloc, b"20 - 80\n", false)?, fail))
}

/// Whether a run over such an input ends at its first read: the second one is still to come.
fn ends_at_once(alloc: Global, text: &str) -> Result<bool, AllocError> {
    let words = words(alloc, text)?;
    let mut input = failing_twice(alloc)?;
    let mut suite = LabSuite::new(Vec::new(alloc));
    let mut random = ListRandom::new(Vec::new(alloc), Vec::new(alloc));
    let mut clock = ListClock::new(Vec::new(alloc), Vec::new(alloc));
    let ended = fdo(
        alloc,
        words.as_slice(),
        &mut input,
        &mut PlainSink::new(),
        &mut suite,
        &mut random,
        &mut clock,
    );
    let mut bytes = [0; 8];
    let second = input.read(&mut bytes);
    let third = input.read(&mut bytes);
    Ok(ended == Status::Read && second.is_err() && matches!(third, Ok(8)))
}

static READERS: [&'static str; 3] = ["step rendezvous", "voucher show", "voucher check"];

#[test]
fn nothing_is_read_after_a_failed_read(rt: HostRuntime) -> Result<(), AllocError> {
    for text in &READERS {
        assert!(rt; ends_at_once(rt.alloc(), text)?, "{text}");
    }
    Ok(())
}
