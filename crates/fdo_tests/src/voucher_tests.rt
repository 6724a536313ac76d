//! `voucher show`, `voucher check` and `voucher extend` over objects in memory.
use crate::voucher_rows::{EMPTY, P256, P256_SHOWN, WIDE_TAG, WIDE_TAG_OVERLOOKED};
use cbor_core::Text;
use fdo_commands::{Status, fdo};
use fdo_ports::{ListClock, ListRandom, MemorySink, MemorySource};
use std::alloc::Global;
use std::test::Fail;
use suite_port::LabSuite;

/// A voucher of the laboratory suite with one entry, of a case in `model/lines/cases.txt`.
const VOUCHER: &str =
    "851865584386186550000102030405060708090a0b0c0d0e0f80636c61628318c8004101822f58202b9cc1fe9432c948fc0d35cded0df39155763f92cd6b0ffb7ca024a29c7b63bb820558201986797edeeb5e81d69e4ce48ea5c4f43ad4be5bd6b8dad49f001fa6cfbb2833815246444f2d4c41422d434552548318c800410381d28447a1013a00010000a0585084822f5820113ecaf0a7332cf35eac3eec1639383563fd6047151a0b6398010371cfb3cf40822f5820ab280928afbd5b1d26551589aca8c572262397cda2e611791d092ef9d8520dfef68318c80041025820b55e4ee96aa60319fb28292ceb3d94bd4f5203545ea14774079ff053a5cb890f";

const SHOWN: &[u8] = b"version 101
guid 00010203-0405-0607-0809-0a0b0c0d0e0f
device lab
key 200 0 dc9f31d8cb902bb8ccf36cbee60fff0a0fff00fb43b623cac2fe31e53d34d455
hmac sha256 1986797edeeb5e81d69e4ce48ea5c4f43ad4be5bd6b8dad49f001fa6cfbb2833
chain 1
entries 1
entry 0 key 200 0 5d6f1822ccc972c06780a3a6bf6d6955d499b0fb9058c24ae76e3769eb573e4b
";

const CHECKED: &[u8] =
    b"ok 1 owner 5d6f1822ccc972c06780a3a6bf6d6955d499b0fb9058c24ae76e3769eb573e4b\n";

/// The laboratory key of the next owner.
const NEXT: &str = "8318C8004106";

/// More bytes than a laboratory key has.
const LONG: &str = "020202020202020202020202020202020202020202020202020202020202020202";

/// The entry for that owner, which the owner with the private byte 2 signed, as Python's hashlib has it.
const ENTRY: &str =
    "d28447a1013a00010000a0585084822f5820ed45a4d121dd3a418cb8ed996176402b892c5e3d605a91d5806dbd81d730b55a822f5820ab280928afbd5b1d26551589aca8c572262397cda2e611791d092ef9d8520dfef68318c8004106582022f475f869185ddcd576ada196f435d921d18b7f946b9d8f42cbfcf7489eaa54";

/// Which calls fail: the first read, the first write, or the signer's first or second one.
#[derive(Clone, Copy)]
enum Fails {
    Nothing,
    Read,
    Write,
    Load,
    Sign,
    ReadAndLoad,
}

impl Fails {
    fn read(self) -> u64 {
        match self {
            Fails::Read | Fails::ReadAndLoad => 1,
            _ => 0,
        }
    }

    fn write(self) -> u64 {
        match self {
            Fails::Write => 1,
            _ => 0,
        }
    }

    fn signer(self) -> u64 {
        match self {
            Fails::Load | Fails::ReadAndLoad => 1,
            Fails::Sign => 2,
            _ => 0,
        }
    }
}

/// One run.
struct Case {
    command: &'static str,
    /// KEY and PRIVATE.
    keys: Option<[&'static str; 2]>,
    /// The place of a byte whose last bit is changed.
    changed: Option<usize>,
    /// How many of the voucher's bytes are the input.
    count: usize,
    fails: Fails,
    written: &'static [u8],
    status: Status,
}

static CASES: [Case; 31] = [
    Case {
        command: "show",
        keys: None,
        changed: None,
        count: 256,
        fails: Fails::Nothing,
        written: SHOWN,
        status: Status::Done,
    },
    Case {
        command: "check",
        keys: None,
        changed: None,
        count: 256,
        fails: Fails::Nothing,
        written: CHECKED,
        status: Status::Done,
    },
    Case {
        command: "show",
        keys: None,
        changed: Some(240),
        count: 256,
        fails: Fails::Nothing,
        written: SHOWN,
        status: Status::Done,
    },
    Case {
        command: "check",
        keys: None,
        changed: Some(9),
        count: 256,
        fails: Fails::Nothing,
        written: b"refused badprevhash 0\n",
        status: Status::Refused,
    },
    Case {
        command: "check",
        keys: None,
        changed: Some(240),
        count: 256,
        fails: Fails::Nothing,
        written: b"refused badsignature 0\n",
        status: Status::Refused,
    },
    Case {
        command: "check",
        keys: None,
        changed: Some(9),
        count: 256,
        fails: Fails::Write,
        written: b"",
        status: Status::Refused,
    },
    Case {
        command: "show",
        keys: None,
        changed: None,
        count: 4,
        fails: Fails::Nothing,
        written: b"fault input 3\n",
        status: Status::Input,
    },
    Case {
        command: "check",
        keys: None,
        changed: None,
        count: 4,
        fails: Fails::Nothing,
        written: b"fault input 3\n",
        status: Status::Input,
    },
    Case {
        command: "show",
        keys: None,
        changed: None,
        count: 0,
        fails: Fails::Nothing,
        written: b"fault input 0\n",
        status: Status::Input,
    },
    Case {
        command: "check",
        keys: None,
        changed: None,
        count: 0,
        fails: Fails::Nothing,
        written: b"fault input 0\n",
        status: Status::Input,
    },
    Case {
        command: "show",
        keys: None,
        changed: None,
        count: 256,
        fails: Fails::Write,
        written: b"",
        status: Status::Write,
    },
    Case {
        command: "check",
        keys: None,
        changed: None,
        count: 256,
        fails: Fails::Write,
        written: b"",
        status: Status::Write,
    },
    Case {
        command: "show",
        keys: None,
        changed: None,
        count: 256,
        fails: Fails::Read,
        written: b"fault read\n",
        status: Status::Read,
    },
    Case {
        command: "check",
        keys: None,
        changed: None,
        count: 256,
        fails: Fails::Read,
        written: b"fault read\n",
        status: Status::Read,
    },
    Case {
        command: "shown",
        keys: None,
        changed: None,
        count: 256,
        fails: Fails::Nothing,
        written: b"fault words\n",
        status: Status::Words,
    },
    Case {
        command: "extend",
        keys: Some([NEXT, "04"]),
        changed: None,
        count: 256,
        fails: Fails::Nothing,
        written: b"refused badsignature 1\n",
        status: Status::Refused,
    },
    Case {
        command: "extend",
        keys: Some([NEXT, "0202"]),
        changed: None,
        count: 256,
        fails: Fails::Nothing,
        written: b"refused badsignature 1\n",
        status: Status::Refused,
    },
    Case {
        command: "extend",
        keys: Some([NEXT, "02"]),
        changed: None,
        count: 256,
        fails: Fails::Load,
        written: b"fault signer\n",
        status: Status::Outside,
    },
    Case {
        command: "extend",
        keys: Some([NEXT, "02"]),
        changed: None,
        count: 256,
        fails: Fails::Sign,
        written: b"refused failed\n",
        status: Status::Refused,
    },
    Case {
        command: "extend",
        keys: Some([NEXT, "02"]),
        changed: None,
        count: 256,
        fails: Fails::Write,
        written: b"",
        status: Status::Write,
    },
    Case {
        command: "extend",
        keys: Some([NEXT, "02"]),
        changed: None,
        count: 256,
        fails: Fails::Read,
        written: b"fault read\n",
        status: Status::Read,
    },
    Case {
        command: "extend",
        keys: Some([NEXT, "02"]),
        changed: None,
        count: 4,
        fails: Fails::Nothing,
        written: b"fault input 3\n",
        status: Status::Input,
    },
    Case {
        command: "extend",
        keys: Some([NEXT, "02"]),
        changed: None,
        count: 0,
        fails: Fails::Nothing,
        written: b"fault input 0\n",
        status: Status::Input,
    },
    Case {
        command: "extend",
        keys: Some([NEXT, ""]),
        changed: None,
        count: 256,
        fails: Fails::ReadAndLoad,
        written: b"fault words\n",
        status: Status::Words,
    },
    Case {
        command: "extend",
        keys: Some([NEXT, "2"]),
        changed: None,
        count: 256,
        fails: Fails::ReadAndLoad,
        written: b"fault words\n",
        status: Status::Words,
    },
    Case {
        command: "extend",
        keys: Some([NEXT, LONG]),
        changed: None,
        count: 256,
        fails: Fails::Read,
        written: b"fault words\n",
        status: Status::Words,
    },
    Case {
        command: "extend",
        keys: Some(["", "02"]),
        changed: None,
        count: 256,
        fails: Fails::ReadAndLoad,
        written: b"fault words\n",
        status: Status::Words,
    },
    Case {
        command: "extend",
        keys: Some(["8318c800410600", "02"]),
        changed: None,
        count: 256,
        fails: Fails::ReadAndLoad,
        written: b"fault words\n",
        status: Status::Words,
    },
    Case {
        command: "extend",
        keys: Some(["8309004106", "02"]),
        changed: None,
        count: 256,
        fails: Fails::ReadAndLoad,
        written: b"fault words\n",
        status: Status::Words,
    },
    Case {
        command: "extend",
        keys: None,
        changed: None,
        count: 256,
        fails: Fails::ReadAndLoad,
        written: b"fault words\n",
        status: Status::Words,
    },
    Case {
        command: "check",
        keys: Some([NEXT, "02"]),
        changed: None,
        count: 256,
        fails: Fails::ReadAndLoad,
        written: b"fault words\n",
        status: Status::Words,
    },
];

fn numbers(alloc: Global, number: u64) -> Result<Vec<u64>, Fail> {
    let mut numbers = Vec::new(alloc);
    if number > 0 {
        numbers.push(number)?;
    }
    Ok(numbers)
}

/// The bytes of the input.
fn input_of(alloc: Global, changed: Option<usize>, count: usize) -> Result<Vec<u8>, Fail> {
    let mut bytes = hex::decode(alloc, VOUCHER)?;
    if let Some(place) = changed {
        for (number, byte) in bytes.as_mut_slice().iter_mut().enumerate() {
            if number == place {
                *byte ^= 1;
            }
        }
    }
    bytes.truncate(count);
    Ok(bytes)
}

fn words_of(
    alloc: Global,
    command: &str,
    more: &Option<[&'static str; 2]>,
) -> Result<Vec<Text>, Fail> {
    let mut words = Vec::new(alloc);
    words.push(Text::from_str(alloc, "voucher")?)?;
    words.push(Text::from_str(alloc, command)?)?;
    if let Some([key, private]) = more {
        words.push(Text::from_str(alloc, key)?)?;
        words.push(Text::from_str(alloc, private)?)?;
    }
    Ok(words)
}

/// What a run writes, and how it ends.
fn run(
    alloc: Global,
    words: &[Text],
    input: Vec<u8>,
    fails: Fails,
) -> Result<(Vec<u8>, Status), Fail> {
    let mut pieces = Vec::new(alloc);
    pieces.push(input)?;
    let mut input = MemorySource::new(pieces, numbers(alloc, fails.read())?);
    let mut output = MemorySink::new(Vec::new(alloc), numbers(alloc, fails.write())?);
    let mut suite = LabSuite::new(numbers(alloc, fails.signer())?);
    let mut random = ListRandom::new(Vec::new(alloc), Vec::new(alloc));
    let mut clock = ListClock::new(Vec::new(alloc), Vec::new(alloc));
    let status = fdo(
        alloc,
        words,
        &mut input,
        &mut output,
        &mut suite,
        &mut random,
        &mut clock,
    );
    Ok((Vec::from_slice(alloc, output.written())?, status))
}

#[test]
fn vouchers_are_shown_checked_and_refused(rt: HostRuntime) -> Result<(), Fail> {
    for case in &CASES {
        let words = words_of(rt.alloc(), case.command, &case.keys)?;
        let input = input_of(rt.alloc(), case.changed, case.count)?;
        let (output, ended) = run(rt.alloc(), words.as_slice(), input, case.fails)?;
        assert_eq!(rt; output.as_slice(), case.written);
        assert_eq!(rt; ended, case.status);
    }
    Ok(())
}

/// The voucher with two entries in place of one, and the new one behind the first.
fn longer(alloc: Global) -> Result<Vec<u8>, Fail> {
    let mut bytes = hex::decode(alloc, VOUCHER)?;
    for (number, byte) in bytes.as_mut_slice().iter_mut().enumerate() {
        if number == 128 {
            *byte ^= 3;
        }
    }
    bytes.extend_from_slice(hex::decode(alloc, ENTRY)?.as_slice())?;
    Ok(bytes)
}

/// The next owner and the last one.
static OWNERS: Option<[&'static str; 2]> = Some([NEXT, "02"]);

#[test]
fn a_voucher_is_extended(rt: HostRuntime) -> Result<(), Fail> {
    let words = words_of(rt.alloc(), "extend", &OWNERS)?;
    let input = input_of(rt.alloc(), None, 256)?;
    let (output, ended) = run(rt.alloc(), words.as_slice(), input, Fails::Nothing)?;
    assert_eq!(rt; output.as_slice(), longer(rt.alloc())?.as_slice());
    assert_eq!(rt; ended, Status::Done);
    Ok(())
}

/// A run over another voucher, which is given by its digits.
struct Other {
    command: &'static str,
    digits: &'static str,
    written: &'static [u8],
    status: Status,
}

static OTHERS: [Other; 5] = [
    Other {
        command: "check",
        digits: EMPTY,
        written: b"ok 0 owner dc9f31d8cb902bb8ccf36cbee60fff0a0fff00fb43b623cac2fe31e53d34d455\n",
        status: Status::Done,
    },
    Other {
        command: "check",
        digits: WIDE_TAG,
        written: b"ok 3 owner b01f26c57aad37bfef506113a8f87d8d8c354dfcbacf476763d81fc22413d79c\n",
        status: Status::Done,
    },
    Other {
        command: "check",
        digits: WIDE_TAG_OVERLOOKED,
        written: b"refused badprevhash 1\n",
        status: Status::Refused,
    },
    Other {
        command: "check",
        digits: P256,
        written: b"refused noalgorithm 0\n",
        status: Status::Refused,
    },
    Other {
        command: "show",
        digits: P256,
        written: P256_SHOWN,
        status: Status::Done,
    },
];

/// No entries; a hash is that of the bytes as they stand; and keys of which the suite has no algorithm.
#[test]
fn other_vouchers_are_shown_and_checked(rt: HostRuntime) -> Result<(), Fail> {
    for other in &OTHERS {
        let words = words_of(rt.alloc(), other.command, &None)?;
        let input = hex::decode(rt.alloc(), other.digits)?;
        let (output, ended) = run(rt.alloc(), words.as_slice(), input, Fails::Nothing)?;
        assert_eq!(rt; output.as_slice(), other.written);
        assert_eq!(rt; ended, other.status);
    }
    Ok(())
}

/// For a voucher of 255 entries: the command, its KEY and PRIVATE, and what is refused.
static FULL: [(&'static str, Option<[&'static str; 2]>, &'static [u8]); 3] = [
    ("extend", Some([NEXT, "02"]), b"refused toolong\n"),
    ("extend", Some([NEXT, "04"]), b"refused badsignature 255\n"),
    ("check", None, b"refused badprevhash 1\n"),
];

/// A voucher of 255 entries, each of them the first one of another.
fn full(alloc: Global) -> Result<Vec<u8>, Fail> {
    let mut bytes = hex::decode(alloc, EMPTY)?;
    let one = hex::decode(alloc, VOUCHER)?;
    bytes.truncate(128);
    bytes.extend_from_slice(b"\x98\xff")?;
    if let Some(entry) = one.as_slice().get(129..) {
        for _entry in 0..255 {
            bytes.extend_from_slice(entry)?;
        }
    }
    Ok(bytes)
}

/// A voucher of 255 entries gets no more, and the wrong private key is told first.
#[test]
fn a_full_voucher_is_refused(rt: HostRuntime) -> Result<(), Fail> {
    for (command, more, wanted) in &FULL {
        let words = words_of(rt.alloc(), command, more)?;
        let input = full(rt.alloc())?;
        assert_eq!(rt; input.len(), 32515);
        let (output, ended) = run(rt.alloc(), words.as_slice(), input, Fails::Nothing)?;
        assert_eq!(rt; output.as_slice(), *wanted);
        assert_eq!(rt; ended, Status::Refused);
    }
    Ok(())
}
