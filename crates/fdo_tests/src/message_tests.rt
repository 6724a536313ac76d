//! Packets, tokens and bodies.
use cbor_core::{Blob, Item, NoMemory, Text};
use fdo_msgs::{
    BodyFault, Cause, HttpFault, Msg, Object, Packet, Token, error_packet, read_body, read_number,
    token_text, write_body,
};
use fdo_ports::{ListClock, ListRandom};
use rendezvous::Server;
use std::alloc::Global;
use std::test::Fail;
use suite_port::LabSuite;

/// Five times three bytes and one more.
fn threes(one: [u8; 3], last: u8) -> [u8; 16] {
    let [a, b, c] = one;
    [a, b, c, a, b, c, a, b, c, a, b, c, a, b, c, last]
}

#[test]
fn tokens_have_the_url_safe_alphabet(rt: HostRuntime) -> Result<(), NoMemory> {
    let underscores = token_text(rt.alloc(), &[255; 16])?;
    assert_eq!(rt;
        underscores.as_list(),
        b"Bearer _____________________w".as_slice()
    );
    let dashes = token_text(rt.alloc(), &threes([0xfb, 0xef, 0xbe], 0xfb))?;
    assert_eq!(rt;
        dashes.as_list(),
        b"Bearer ---------------------w".as_slice()
    );
    let copy = dashes.copy()?;
    assert_eq!(rt; copy.as_list(), dashes.as_list());
    let rows: [(&[u8; 16], &[u8]); 3] = [
        (&[0; 16], b"Bearer AAAAAAAAAAAAAAAAAAAAAA"),
        (b">>>>>>>>>>>>>>>>", b"Bearer Pj4-Pj4-Pj4-Pj4-Pj4-Pg"),
        (
            b"\x00\x10\x83\x10Q\x87 \x92\x8b0\xd3\x8fA\x14\x93Q",
            b"Bearer ABCDEFGHIJKLMNOPQRSTUQ",
        ),
    ];
    for (draw, wanted) in rows {
        let token = token_text(rt.alloc(), draw)?;
        assert_eq!(rt; token.as_list(), wanted);
    }
    Ok(())
}

#[test]
fn tokens_have_bounds(rt: HostRuntime) -> Result<(), NoMemory> {
    let alloc = rt.alloc();
    for (length, fits) in [(0, false), (1, true), (1024, true), (1025, false)] {
        let found = Token::new(vec![in alloc; 65; length]?);
        assert_eq!(rt; found.is_some(), fits);
    }
    Ok(())
}

#[test]
fn a_token_is_printed_by_its_length(rt: HostRuntime) -> Result<(), Fail> {
    let alloc = rt.alloc();
    match Token::new(Vec::from_slice(alloc, b"Bearer x")?) {
        Some(token) => {
            let text = format!(in alloc; "{token:?}")?;
            assert_eq!(rt; text.as_str(), "Token { bytes: 8, .. }");
            let bytes = token.into_vec();
            assert_eq!(rt; bytes.as_slice(), b"Bearer x".as_slice());
        }
        None => assert!(rt; false, "eight bytes are a token"),
    }
    Ok(())
}

static HELLOS: [(&[u8], Option<usize>); 9] = [
    (b"\x80", None),
    (b"\x9f\xff", None),
    (b"\x98\x00", None),
    (b"", Some(0)),
    (b"\x81\x00", Some(0)),
    (b"\x81\x00\x00", Some(0)),
    (b"\x80\x00", Some(1)),
    (b"\x82\x1c", Some(1)),
    (b"\xc1\x80", Some(0)),
];

#[test]
fn bodies_are_read_to_their_end(rt: HostRuntime) -> Result<(), NoMemory> {
    for (bytes, fault) in &HELLOS {
        match read_body(rt.alloc(), 20, bytes) {
            Ok(said) => {
                assert!(rt; matches!(&said, Msg::Hello));
                drop(said);
                assert_eq!(rt; *fault, None);
            }
            Err(BodyFault::Body(place)) => assert_eq!(rt; *fault, Some(place)),
            Err(BodyFault::NoMemory) => assert!(rt; false, "memory ran out"),
        }
    }
    Ok(())
}

/// A type, a body of it, where its first fault stands, and else how the message is written.
type BodyCase = (u8, &'static [u8], Option<usize>, &'static [u8]);

static BODIES: [BodyCase; 38] = [
    (
        10,
        b"\x81\x85\x0a\x01\x61s\x61i\x41k",
        None,
        b"\x81\x85\x0a\x01\x61s\x61i\x41k",
    ),
    (
        10,
        b"\x81\x85\x05\x02\x60\x60\x41k",
        None,
        b"\x81\x85\x05\x02\x60\x60\x81\x41k",
    ),
    (10, b"\x81\x85\x02\x04\x00\x00\x00", Some(2), b""),
    (10, b"\x81\x85\x0a\x04\x00\x00\x00", Some(3), b""),
    (10, b"\x81\x84\x0a\x00\x60\x60", Some(1), b""),
    (11, b"\x81\x41h", Some(1), b""),
    (11, b"\x81\x61h", Some(1), b""),
    (
        12,
        b"\x81\x82\x05\x58\x200123456789abcdef0123456789abcdef",
        None,
        b"\x81\x82\x05\x58\x200123456789abcdef0123456789abcdef",
    ),
    (
        12,
        b"\x81\x82\x05\x58\x1f0123456789abcdef0123456789abcde",
        Some(3),
        b"",
    ),
    (
        12,
        b"\x81\x82\x07\x58\x200123456789abcdef0123456789abcdef",
        Some(2),
        b"",
    ),
    (13, b"\x80", None, b"\x80"),
    (20, b"\x81\x00\x00", Some(0), b""),
    (20, b"\x80\x00", Some(1), b""),
    (
        21,
        b"\x81\x500123456789abcdef",
        None,
        b"\x81\x500123456789abcdef",
    ),
    (21, b"\x81\x5f\x480123456789abcdef\xff", Some(11), b""),
    (
        21,
        b"\x81\x5f\x4801234567\x4889abcdef\xff",
        None,
        b"\x81\x500123456789abcdef",
    ),
    (21, b"\x81\x4f\x00", Some(1), b""),
    (22, b"\x80", Some(0), b""),
    (
        23,
        b"\x81\x1a\xff\xff\xff\xff",
        None,
        b"\x81\x1a\xff\xff\xff\xff",
    ),
    (
        23,
        b"\x81\x1b\x00\x00\x00\x01\x00\x00\x00\x00",
        Some(1),
        b"",
    ),
    (
        30,
        b"\x82\x500123456789abcdef\x82\x26\x40",
        None,
        b"\x82\x500123456789abcdef\x82\x26\x40",
    ),
    (30, b"\x82\x500123456789abcdef\x82\x26\x60", Some(20), b""),
    (
        31,
        b"\x9f\x500123456789abcdef\x82\x38\x06\x40\xff",
        None,
        b"\x82\x500123456789abcdef\x82\x26\x40",
    ),
    (
        60,
        b"\x86\x00\x500123456789abcdef\x50fedcba9876543210\x61k\x20\x82\x26\x40",
        None,
        b"\x86\x00\x500123456789abcdef\x50fedcba9876543210\x61k\x20\x82\x26\x40",
    ),
    (
        60,
        b"\x86\x1a\x00\x01\x00\x00\x500123456789abcdef\x50fedcba9876543210\x61k\x20\x82\x26\x40",
        Some(1),
        b"",
    ),
    (62, b"\x81\x18\xff", None, b"\x81\x18\xff"),
    (62, b"\x81\x19\x01\x00", Some(1), b""),
    (66, b"\x82\xf6\xf6", None, b"\x82\xf6\xf6"),
    (66, b"\x82\xf6\xf7", Some(2), b""),
    (
        66,
        b"\x82\x82\x05\x58\x200123456789abcdef0123456789abcdef\x19\xff\xff",
        None,
        b"\x82\x82\x05\x58\x200123456789abcdef0123456789abcdef\x19\xff\xff",
    ),
    (67, b"\x81\xf6", None, b"\x81\xf6"),
    (67, b"\x81\x1a\x00\x01\x00\x00", Some(1), b""),
    (67, b"\x82\xf6\xf6", Some(0), b""),
    (
        70,
        b"\x81\x500123456789abcdef",
        None,
        b"\x81\x500123456789abcdef",
    ),
    (71, b"\x81\x500123456789abcdef\x00", Some(18), b""),
    (
        71,
        b"\x81\x500123456789abcdef",
        None,
        b"\x81\x500123456789abcdef",
    ),
    (
        255,
        b"\x85\x06\x18\x1e\x69not found\xf6\x00",
        None,
        b"\x85\x06\x18\x1e\x69not found\xf6\x00",
    ),
    (255, b"\x85\x06\x18\x1e\x49not found\xf6\x00", Some(4), b""),
];

#[test]
fn bodies_of_each_type_are_read_and_written(rt: HostRuntime) -> Result<(), NoMemory> {
    for case in &BODIES {
        match read_body(rt.alloc(), case.0, case.1) {
            Ok(said) => {
                let written = write_body(rt.alloc(), &said);
                drop(said);
                assert_eq!(rt; written?.as_list(), case.3);
                assert_eq!(rt; case.2, None);
            }
            Err(BodyFault::Body(place)) => assert_eq!(rt; case.2, Some(place)),
            Err(BodyFault::NoMemory) => assert!(rt; false, "memory ran out"),
        }
    }
    Ok(())
}

/// A cause, its word, and its codes at a message of type 22 and of type 64, 0 for none.
type CauseCase = (Cause, &'static str, u16, u16);

static CAUSES: [CauseCase; 27] = [
    (Cause::Token, "token", 1, 1),
    (Cause::Turn(64), "turn", 101, 101),
    (Cause::Body(1), "body", 100, 100),
    (Cause::NoAlgorithm(-7), "noalgorithm", 101, 101),
    (Cause::NotVerified, "notverified", 3, 101),
    (Cause::NotOpened, "notopened", 101, 101),
    (Cause::SeenIv, "seeniv", 101, 101),
    (Cause::Nonce, "nonce", 3, 101),
    (Cause::HashDiffers, "hash", 3, 101),
    (Cause::GuidDiffers, "guid", 5, 5),
    (Cause::OwnerKey, "ownerkey", 2, 2),
    (Cause::Address(1), "address", 4, 4),
    (Cause::Missing([7; 16]), "missing", 6, 6),
    (Cause::EntryNumber(3), "entry", 101, 101),
    (Cause::Changed(None), "changed", 101, 101),
    (Cause::Clash([7; 16]), "clash", 101, 101),
    (Cause::Size(65535), "size", 101, 101),
    (Cause::Reuse, "reuse", 102, 102),
    (Cause::Full(4096), "full", 500, 500),
    (Cause::Outside(Object::Disk), "outside", 500, 500),
    (Cause::Outside(Object::Shut), "outside", 500, 500),
    (Cause::Outside(Object::Signer), "outside", 500, 500),
    (Cause::Outside(Object::Random), "outside", 500, 500),
    (Cause::Outside(Object::Clock), "outside", 500, 500),
    (Cause::Peer(100), "peer", 0, 0),
    (Cause::Http(HttpFault::BadHead), "http", 0, 0),
    (Cause::Http(HttpFault::Status(404)), "http", 0, 0),
];

#[test]
fn causes_have_codes_and_words(rt: HostRuntime) {
    for case in &CAUSES {
        assert_eq!(rt; case.0.word(), case.1);
        assert_eq!(rt; case.0.code(22).unwrap_or(0), case.2);
        assert_eq!(rt; case.0.code(64).unwrap_or(0), case.3);
    }
}

/// A cause, the type of the message that is refused, and the body of the error message.
type ErrorCase = (Cause, u8, &'static [u8]);

static ERRORS: [ErrorCase; 10] = [
    (
        Cause::Token,
        62,
        b"\x85\x01\x18\x3e\x6dinvalid token\xf6\x00",
    ),
    (
        Cause::OwnerKey,
        63,
        b"\x85\x02\x18\x3f\x6finvalid voucher\xf6\x00",
    ),
    (
        Cause::Nonce,
        22,
        b"\x85\x03\x16\x77invalid owner sign body\xf6\x00",
    ),
    (
        Cause::Address(1),
        22,
        b"\x85\x04\x16\x6finvalid address\xf6\x00",
    ),
    (
        Cause::GuidDiffers,
        32,
        b"\x85\x05\x18\x20\x6cinvalid guid\xf6\x00",
    ),
    (
        Cause::Missing([7; 16]),
        30,
        b"\x85\x06\x18\x1e\x69not found\xf6\x00",
    ),
    (
        Cause::Body(3),
        23,
        b"\x85\x18\x64\x17\x6cmessage body\xf6\x00",
    ),
    (
        Cause::Nonce,
        24,
        b"\x85\x18\x65\x18\x18\x6finvalid message\xf6\x00",
    ),
    (
        Cause::Reuse,
        65,
        b"\x85\x18\x66\x18\x41\x70credential reuse\xf6\x00",
    ),
    (
        Cause::Full(4096),
        255,
        b"\x85\x19\x01\xf4\x18\xff\x68internal\xf6\x00",
    ),
];

#[test]
fn errors_are_written(rt: HostRuntime) -> Result<(), NoMemory> {
    for (cause, kind, body) in &ERRORS {
        // the prover reads no table
        if cause.code(*kind).is_some() {
            let error = error_packet(rt.alloc(), cause, *kind, None)?;
            assert_eq!(rt; error.kind, 255);
            assert_eq!(rt; error.body.as_list(), *body);
        } else {
            assert!(rt; false, "no code");
        }
    }
    Ok(())
}

#[test]
fn bodies_are_written(rt: HostRuntime) -> Result<(), NoMemory> {
    let alloc = rt.alloc();
    let said = Msg::Hello;
    let written = write_body(alloc, &said);
    drop(said);
    assert_eq!(rt; written?.as_list(), b"\x80".as_slice());
    let error = error_packet(alloc, &Cause::Outside(Object::Random), 20, None)?;
    assert_eq!(rt; error.kind, 255);
    assert_eq!(rt;
        error.body.as_list(),
        b"\x85\x19\x01\xf4\x14\x68internal\xf6\x00".as_slice()
    );
    let said = Msg::Error {
        code: 6,
        kind: 300,
        text: Text::from_str(alloc, "not found")?,
        stamp: Item::Nint(0),
        id: Item::Bytes(Blob::from_slice(alloc, b"ab")?),
    };
    let written = write_body(alloc, &said);
    drop(said);
    assert_eq!(rt;
        written?.as_list(),
        b"\x85\x06\x19\x01\x2c\x69not found\x20\x42ab".as_slice()
    );
    Ok(())
}

static NUMBERS: [(&[u8], Option<u64>); 12] = [
    (b"0", Some(0)),
    (b"7", Some(7)),
    (b"20", Some(20)),
    (b"100", Some(100)),
    (b"255", Some(255)),
    (b"256", None),
    (b"00", None),
    (b"01", None),
    (b"+1", None),
    (b"-1", None),
    (b"", None),
    (b"1a", None),
];

#[test]
fn numbers_have_one_spelling(rt: HostRuntime) {
    for (word, number) in &NUMBERS {
        assert_eq!(rt; read_number(word, 255), *number);
    }
}

#[test]
fn the_server_answers(rt: HostRuntime) -> Result<(), NoMemory> {
    let alloc = rt.alloc();
    let mut server = Server::new(alloc)?;
    let mut random = ListRandom::new(Vec::new(alloc), Vec::new(alloc));
    let mut suite = LabSuite::new(Vec::new(alloc));
    let mut clock = ListClock::new(Vec::new(alloc), Vec::new(alloc));
    let packet = hello(alloc)?;
    let answer = server.on(alloc, &mut suite, &mut random, &mut clock, &packet)?;
    assert!(rt;
        matches!(
            answer,
            fdo_msgs::Answer::Refused {
                reply: _,
                cause: Cause::Outside(Object::Random)
            }
        )
    );
    Ok(())
}

fn hello(alloc: Global) -> Result<Packet, NoMemory> {
    Ok(Packet {
        token: None,
        kind: 20,
        body: Blob::from_slice(alloc, b"\x80")?,
    })
}
