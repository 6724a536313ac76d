//! What no clause says of the objects over std: which bytes they pass on, and what a failed call answers.
use crate::answers::answer;
use crate::help::HELP;
use crate::own_word::OwnWord;
use crate::std_sink::StdSink;
use crate::std_source::StdSource;
use crate::system_clock::SystemClock;
use crate::system_random::SystemRandom;
use cbor_core::Text;
use fdo_commands::Status;
use fdo_ports::{
    Clock, Failed, ListClock, ListRandom, MemorySink, PlainSource, Random, Sink, Source, write_all,
};
use std::io;
use std::io::{Read, Write};
use std::random::RandomSource;
use std::test::Fail;
use std::time::{Clock as TimeSource, Duration};
use suite_port::LabSuite;

/// An object on which each call fails.
#[derive(Debug, Drop)]
struct Broken;

impl Read for Broken {
    fn read(&mut self, _into: &mut [u8]) -> io::Result<usize> {
        Err(io::Error::from(io::ErrorKind::Other))
    }
}

impl Write for Broken {
    fn write(&mut self, _piece: &[u8]) -> io::Result<usize> {
        Err(io::Error::from(io::ErrorKind::Other))
    }

    fn flush(&mut self) -> io::Result<()> {
        Ok(())
    }
}

impl RandomSource for Broken {
    fn fill_bytes(&self, _into: &mut [u8]) -> io::Result<()> {
        Err(io::Error::from(io::ErrorKind::Other))
    }
}

/// A reader at its end, and a writer that takes all, but for the first call, which fails.
#[derive(Debug, Drop)]
struct Late {
    failed: bool,
}

impl Late {
    fn call(&mut self) -> io::Result<()> {
        if self.failed {
            return Ok(());
        }
        self.failed = true;
        Err(io::Error::from(io::ErrorKind::Interrupted))
    }
}

impl Read for Late {
    fn read(&mut self, _into: &mut [u8]) -> io::Result<usize> {
        match self.call() {
            Ok(()) => Ok(0),
            Err(fault) => Err(fault),
        }
    }
}

impl Write for Late {
    fn write(&mut self, piece: &[u8]) -> io::Result<usize> {
        match self.call() {
            Ok(()) => Ok(piece.len()),
            Err(fault) => Err(fault),
        }
    }

    fn flush(&mut self) -> io::Result<()> {
        Ok(())
    }
}

/// A random source that is not one: all its bytes are 7.
#[derive(Debug, Drop)]
struct Sevens;

impl RandomSource for Sevens {
    fn fill_bytes(&self, into: &mut [u8]) -> io::Result<()> {
        into.fill(7);
        Ok(())
    }
}

impl TimeSource for Broken {
    fn monotonic(&self) -> io::Result<Duration> {
        Err(io::Error::from(io::ErrorKind::Other))
    }

    fn since_1970(&self) -> io::Result<Duration> {
        Err(io::Error::from(io::ErrorKind::Other))
    }
}

/// A writer that takes nothing more.
#[derive(Debug, Drop)]
struct Full;

impl Write for Full {
    fn write(&mut self, _piece: &[u8]) -> io::Result<usize> {
        Ok(0)
    }

    fn flush(&mut self) -> io::Result<()> {
        Ok(())
    }
}

#[test]
fn reads_pass_bytes_on(rt: HostRuntime) {
    let mut source = StdSource::new(b"20 - 80\n".as_slice());
    let mut into = [0; 6];
    assert_eq!(rt; source.read(&mut into), Ok(6));
    assert_eq!(rt; &into, b"20 - 8");
    assert_eq!(rt; source.read(&mut into), Ok(2));
    assert_eq!(rt; &into, b"0\n - 8");
    assert_eq!(rt; source.read(&mut into), Ok(0));
    let mut broken = StdSource::new(Broken);
    assert_eq!(rt; broken.read(&mut into), Err(Failed));
}

#[test]
fn writes_pass_bytes_on(rt: HostRuntime) {
    let mut written = Vec::new(rt.alloc());
    let mut sink = StdSink::new(&mut written);
    assert_eq!(rt; write_all(&mut sink, b"ended\n"), Ok(()));
    assert_eq!(rt; written.as_slice(), b"ended\n".as_slice());
    let mut broken = StdSink::new(Broken);
    assert_eq!(rt; broken.write_some(b"x"), Err(Failed));
    let mut full = StdSink::new(Full);
    assert_eq!(rt; full.write_some(b"x"), Err(Failed));
}

#[test]
fn draws_differ(rt: HostRuntime) {
    let mut random = SystemRandom::new(&rt);
    let first = random.draw16();
    let second = random.draw16();
    assert!(rt; first.is_ok() && second.is_ok() && first != second);
    let mut broken = SystemRandom::new(Broken);
    assert_eq!(rt; broken.draw16(), Err(Failed));
    let mut sevens = SystemRandom::new(Sevens);
    assert_eq!(rt; sevens.draw16(), Ok([7; 16]));
}

/// The first second of 2020, which every clock that is set has passed.
const PASSED: u64 = 1_577_836_800;

#[test]
fn seconds_pass(rt: HostRuntime) {
    let mut clock = SystemClock::new(&rt);
    let seconds = (clock.now(), clock.now());
    assert!(rt; matches!(seconds, (Ok(first), Ok(second)) if first > PASSED && second >= first));
    let mut broken = SystemClock::new(Broken);
    assert_eq!(rt; broken.now(), Err(Failed));
}

/// A call that fails is a failure, and is not made again.
#[test]
fn failures_are_told_at_once(rt: HostRuntime) {
    let mut into = [0; 6];
    let mut source = StdSource::new(Late { failed: false });
    assert_eq!(rt; source.read(&mut into), Err(Failed));
    assert_eq!(rt; source.read(&mut into), Ok(0));
    let mut sink = StdSink::new(Late { failed: false });
    assert_eq!(rt; sink.write_some(b"xy"), Err(Failed));
    assert_eq!(rt; sink.write_some(b"xy"), Ok(2));
}

/// Words that one space each parts.
fn words_of(rt: &HostRuntime, text: &str) -> Result<Vec<Text>, Fail> {
    let mut words = Vec::new(rt.alloc());
    for word in text.split(' ') {
        words.push(Text::from_str(rt.alloc(), word)?)?;
    }
    Ok(words)
}

static OWN_WORDS: [(&str, Option<OwnWord>); 10] = [
    ("--help", Some(OwnWord::Help)),
    ("--version", Some(OwnWord::Version)),
    ("", None),
    ("--help x", None),
    ("x --help", None),
    ("--version --version", None),
    ("--help ", None),
    ("--HELP", None),
    ("-h", None),
    ("voucher --help", None),
];

#[test]
fn own_words_stand_alone(rt: HostRuntime) -> Result<(), Fail> {
    let none = Vec::new(rt.alloc());
    assert_eq!(rt; OwnWord::of(none.as_slice()), None);
    for (text, own) in &OWN_WORDS {
        let words = words_of(&rt, text)?;
        assert_eq!(rt; OwnWord::of(words.as_slice()), *own, "{text}");
    }
    Ok(())
}

static OWN_TEXTS: [(&str, u64, Status, &str); 5] = [
    ("--version", 0, Status::Done, "fdo 0.1.0\n"),
    ("--version", 1, Status::Write, ""),
    ("--help", 0, Status::Done, HELP),
    ("--help", 1, Status::Write, ""),
    ("--help x", 0, Status::Words, "fault words\n"),
];

#[test]
fn own_texts_are_written(rt: HostRuntime) -> Result<(), Fail> {
    for (word, fail, status, written) in &OWN_TEXTS {
        let words = words_of(&rt, word)?;
        let mut fails = Vec::new(rt.alloc());
        fails.push(*fail)?;
        let mut input = PlainSource::new(Vec::new(rt.alloc()));
        let mut output = MemorySink::new(Vec::new(rt.alloc()), fails);
        let mut suite = LabSuite::new(Vec::new(rt.alloc()));
        let mut random = ListRandom::new(Vec::new(rt.alloc()), Vec::new(rt.alloc()));
        let mut clock = ListClock::new(Vec::new(rt.alloc()), Vec::new(rt.alloc()));
        let ending = answer(
            rt.alloc(),
            words.as_slice(),
            &mut input,
            &mut output,
            &mut suite,
            &mut random,
            &mut clock,
        );
        assert_eq!(rt; ending, *status);
        assert_eq!(rt; output.written(), written.as_bytes());
    }
    Ok(())
}

/// The lines of the help that say how each command is called, and what it is.
static COMMANDS: [&str; 8] = [
    "usage: fdo step rendezvous",
    "       fdo voucher show",
    "       fdo voucher check",
    "       fdo voucher extend KEY PRIVATE",
    "  step rendezvous   the rendezvous server, message by message",
    "  voucher show      what an ownership voucher says; its bytes are the input",
    "  voucher check     whether its chain of owners holds, with the signatures of",
    "  voucher extend    a voucher with one more entry, for the next owner; it",
];

/// What `--help` writes begins with how the first command is called, and has all four.
#[test]
fn the_help_has_each_command(rt: HostRuntime) {
    let help: &str = HELP;
    assert_eq!(rt; help.lines().next(), Some("usage: fdo step rendezvous"));
    for command in &COMMANDS {
        assert!(rt; help.lines().any(|line| line == *command), "{command}");
    }
}
