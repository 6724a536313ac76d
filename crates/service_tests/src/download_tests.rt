use crate::tools::{file, gives, pair, pairs};
use cbor_core::Text;
use download_module::{DeviceModule, DownFault, File, Receiver, SendFault, send_pairs};
use service_info::{ListModule, Module, Pair};
use std::test::Fail;

/// A module takes all of the pairs.
fn take_all<M: Module>(rt: &HostRuntime, module: &mut M, list: &[Pair]) -> Result<(), Fail> {
    for pair in list {
        module.take(rt.alloc(), pair)?;
    }
    Ok(())
}

fn received(
    rt: &HostRuntime,
    limit: u64,
    list: &[Pair],
) -> Result<Result<Option<File>, DownFault>, Fail> {
    let mut receiver = Receiver::new(limit);
    take_all(rt, &mut receiver, list)?;
    Ok(receiver.finish())
}

/// The length of a file, and how many pairs it is sent in.
static LENGTHS: [(usize, usize); 6] = [(0, 4), (1, 5), (2, 5), (1014, 5), (1015, 6), (2029, 7)];

#[test]
fn files_are_received(rt: HostRuntime) -> Result<(), Fail> {
    let name = Text::from_str(rt.alloc(), "a.txt")?;
    for (length, count) in &LENGTHS {
        let bytes = file(&rt, *length)?;
        let list = send_pairs(rt.alloc(), &name, bytes.as_slice())?;
        assert_eq!(rt; list.len(), *count);
        match received(&rt, 2029, list.as_slice())? {
            Ok(Some(file)) => {
                assert_eq!(rt; file.name.as_list(), "a.txt");
                assert!(rt; file.bytes.as_list() == bytes.as_slice());
            }
            _ => assert!(rt; false, "{length}"),
        }
    }
    Ok(())
}

#[test]
fn files_that_are_not_sent(rt: HostRuntime) -> Result<(), Fail> {
    let name = Text::from_str(rt.alloc(), "a b")?;
    let sent = send_pairs(rt.alloc(), &name, &[]);
    assert!(rt; matches!(sent, Err(SendFault::BadName)));
    let name = Text::from_str(rt.alloc(), "a.txt")?;
    let sent = send_pairs(rt.alloc(), &name, file(&rt, 1_048_577)?.as_slice());
    assert!(rt; matches!(sent, Err(SendFault::TooLarge(1_048_577))));
    Ok(())
}

/// Pairs of the module, the first four of which are right or not there, and why they are refused.
struct Refused {
    rows: &'static [(&'static str, &'static str)],
    fault: DownFault,
}

static REFUSED: [Refused; 8] = [
    Refused {
        rows: &[("fdo.download:data", "4101")],
        fault: DownFault::Order(0),
    },
    Refused {
        rows: &[("fdo.download:active", "f4")],
        fault: DownFault::BadValue(0),
    },
    Refused {
        rows: &[("fdo.download:active", "f5")],
        fault: DownFault::Order(1),
    },
    Refused {
        rows: &[("fdo.download:active", "f5"), ("fdo.download:foo", "6161")],
        fault: DownFault::Order(1),
    },
    // pairs of other modules are read over and have no place
    Refused {
        rows: &[
            ("fdo.download:active", "f5"),
            ("Fdo.download:name", "6161"),
            ("fdo.download:name", "63612062"),
        ],
        fault: DownFault::BadValue(1),
    },
    Refused {
        rows: &[
            ("fdo.download:active", "f5"),
            ("fdo.download:name", "6161"),
            ("fdo.download:length", "190bb9"),
        ],
        fault: DownFault::TooLarge(3001),
    },
    Refused {
        rows: &[
            ("fdo.download:active", "f5"),
            ("fdo.download:name", "6161"),
            ("fdo.download:length", "03"),
        ],
        fault: DownFault::Order(3),
    },
    Refused {
        rows: &[
            ("fdo.download:active", "f5"),
            ("fdo.download:name", "6161"),
            ("fdo.download:length", "03"),
            ("fdo.download:sha-384", "4101"),
            ("fdo.download:data", "4101"),
        ],
        fault: DownFault::BadValue(3),
    },
];

/// The first pairs of a file of two bytes, "hi".
static HI: [(&str, &str); 4] = [
    ("fdo.download:active", "f5"),
    ("fdo.download:name", "6161"),
    ("fdo.download:length", "02"),
    (
        "fdo.download:sha-384",
        "58300791006df8128477244f53d0fdce210db81f55757510e26acee35c18a6bceaa28dcdbbfd6dc041b9b4dc7b1b54e37f52",
    ),
];

/// The values of the pieces, and why the file is refused, if it is.
static PIECES: [(&[&str], Option<DownFault>); 6] = [
    (&["426869"], None),
    (&["4168", "40", "5f4169ff"], None),
    (&["4168"], Some(DownFault::Cut { said: 2, got: 1 })),
    (&["4168", "426969"], Some(DownFault::TooLong(3))),
    (&["4168", "6169"], Some(DownFault::BadValue(5))),
    (&["4168", "4169", "f5"], Some(DownFault::BadValue(6))),
];

#[test]
fn files_that_are_refused(rt: HostRuntime) -> Result<(), Fail> {
    for refused in &REFUSED {
        let list = pairs(&rt, refused.rows)?;
        let found = received(&rt, 3000, list.as_slice())?;
        assert!(rt; matches!(found, Err(fault) if fault == refused.fault));
    }
    for (pieces, refusal) in &PIECES {
        let mut list = pairs(&rt, &HI)?;
        for piece in *pieces {
            list.push(pair(&rt, "fdo.download:data", piece)?)?;
        }
        let fault = match received(&rt, 3000, list.as_slice())? {
            Ok(_) => None,
            Err(fault) => Some(fault),
        };
        assert!(rt; fault == *refusal);
    }
    Ok(())
}

/// The hashes of "hi" and of "hh".
const ANOTHER_HASH: DownFault = DownFault::HashDiffers {
    said: [
        0x07, 0x91, 0x00, 0x6d, 0xf8, 0x12, 0x84, 0x77, 0x24, 0x4f, 0x53, 0xd0, 0xfd, 0xce, 0x21,
        0x0d, 0xb8, 0x1f, 0x55, 0x75, 0x75, 0x10, 0xe2, 0x6a, 0xce, 0xe3, 0x5c, 0x18, 0xa6, 0xbc,
        0xea, 0xa2, 0x8d, 0xcd, 0xbb, 0xfd, 0x6d, 0xc0, 0x41, 0xb9, 0xb4, 0xdc, 0x7b, 0x1b, 0x54,
        0xe3, 0x7f, 0x52,
    ],
    got: [
        0x15, 0x38, 0xf0, 0x3d, 0x26, 0xbd, 0x91, 0x22, 0x6e, 0xa7, 0xde, 0x5b, 0xae, 0x38, 0x5c,
        0x2f, 0x96, 0xeb, 0xcf, 0x9b, 0xd9, 0xe0, 0x53, 0x8f, 0x8a, 0x88, 0x6a, 0xf3, 0x2b, 0xbc,
        0x32, 0xce, 0xd3, 0xae, 0x55, 0x99, 0x17, 0xbc, 0xc3, 0xec, 0xcb, 0xf5, 0x9f, 0x8d, 0x96,
        0x58, 0x37, 0x0b,
    ],
};

#[test]
fn another_hash_and_no_pair(rt: HostRuntime) -> Result<(), Fail> {
    let mut list = pairs(&rt, &HI)?;
    list.push(pair(&rt, "fdo.download:data", "426868")?)?;
    let found = received(&rt, 3000, list.as_slice())?;
    assert!(rt; matches!(found, Err(fault) if fault == ANOTHER_HASH));
    assert!(rt; matches!(received(&rt, 3000, &[])?, Ok(None)));
    Ok(())
}

#[test]
fn a_device_has_one_module(rt: HostRuntime) -> Result<(), Fail> {
    let mut module = DeviceModule {
        list: ListModule::new(pairs(&rt, &[("devmod:active", "f5")])?),
        receiver: Receiver::new(3000),
    };
    let mut list = pairs(&rt, &HI)?;
    list.push(pair(&rt, "fdo.download:data", "426869")?)?;
    take_all(&rt, &mut module, list.as_slice())?;
    assert!(rt; gives(&rt, &mut module, "devmod:active")?);
    assert!(rt; !gives(&rt, &mut module, "devmod:active")?);
    let DeviceModule { list, receiver } = module;
    assert_eq!(rt; list.taken().len(), 5);
    match receiver.finish() {
        Ok(Some(file)) => assert!(rt; file.bytes.as_list() == b"hi".as_slice()),
        _ => assert!(rt; false),
    }
    Ok(())
}
