//! Tests of `cbor_core`, against inputs and answers from outside.
#![tactic(auto)]

#[cfg(test)]
mod tests {
    use cbor_core::{CborFault, Cursor, Item, Part, read_wire, write_det};
    use std::test::Fail;

    /// What a cursor shows of an item, in one line: its place, major type, number, count, content, chunks and bytes.
    fn shown(rt: &HostRuntime, cursor: &Cursor) -> Result<String, Fail> {
        let alloc = rt.alloc();
        let raw = hex::encode(alloc, cursor.raw())?;
        let number = match cursor.number() {
            Some(n) => n.to_string(alloc)?,
            None => String::from_str(alloc, "-")?,
        };
        let count = match cursor.count() {
            Some(n) => n.to_string(alloc)?,
            None => String::from_str(alloc, "-")?,
        };
        let content = text_of(rt, cursor.content())?;
        let first = text_of(rt, cursor.chunk(0))?;
        let second = text_of(rt, cursor.chunk(1))?;
        let third = text_of(rt, cursor.chunk(2))?;
        Ok(format!(in alloc;
            "{} {} {number} {count} {content} {first} {second} {third} {raw}",
            cursor.at(),
            cursor.major()
        )?)
    }

    fn text_of(rt: &HostRuntime, bytes: Option<&[u8]>) -> Result<String, Fail> {
        match bytes {
            Some(bytes) => Ok(hex::encode(rt.alloc(), bytes)?),
            None => Ok(String::from_str(rt.alloc(), "-")?),
        }
    }

    /// The lines of an item, of the first item inside it, and of the item after that.
    fn lines(rt: &HostRuntime, input: &str) -> Result<String, Fail> {
        let bytes = hex::decode(rt.alloc(), input)?;
        let Ok((cursor, taken)) = Cursor::open(rt.alloc(), bytes.as_slice()) else {
            return Ok(String::from_str(rt.alloc(), "refused")?);
        };
        let whole = shown(rt, &cursor)?;
        let (first, second) = match cursor.inside() {
            Some(first) => match first.after() {
                Some(second) => (shown(rt, &first)?, shown(rt, &second)?),
                None => (shown(rt, &first)?, String::from_str(rt.alloc(), "-")?),
            },
            None => (
                String::from_str(rt.alloc(), "-")?,
                String::from_str(rt.alloc(), "-")?,
            ),
        };
        Ok(format!(in rt.alloc(); "{taken}: {whole}: {first}: {second}")?)
    }

    static CURSORS: [(&str, &str); 15] = [
        (
            "82021a00000001",
            "7: 0 4 - 2 - - - - 82021a00000001: 1 0 2 - - - - - 02: 2 0 1 - - - - - 1a00000001",
        ),
        ("5f41014102ff", "6: 0 2 - - - 01 02 - 5f41014102ff: -: -"),
        ("81", "refused"),
        ("420102ff", "3: 0 2 - - 0102 0102 - - 420102: -: -"),
        (
            "bf0102ff",
            "4: 0 5 - 1 - - - - bf0102ff: 1 0 1 - - - - - 01: 2 0 2 - - - - - 02",
        ),
        (
            "c243010000",
            "5: 0 6 2 - - - - - c243010000: 1 2 - - 010000 010000 - - 43010000: -",
        ),
        ("9fff", "2: 0 4 - 0 - - - - 9fff: -: -"),
        ("f820", "2: 0 7 32 - - - - - f820: -: -"),
        (
            "a202000100",
            "5: 0 5 - 2 - - - - a202000100: 1 0 2 - - - - - 02: 2 0 0 - - - - - 00",
        ),
        ("a20000180000", "refused"),
        ("a3010000000100", "refused"),
        ("bf810000810000ff", "refused"),
        ("", "refused"),
        ("1c", "refused"),
        ("f93c00", "refused"),
    ];

    #[test]
    fn a_cursor_hands_out_parts(rt: HostRuntime) -> Result<(), Fail> {
        for (input, answer) in &CURSORS {
            let line = lines(&rt, input)?;
            assert_eq!(rt; line.as_str(), *answer);
        }
        Ok(())
    }

    /// The content of a part: a byte string as hex, a text as it is.
    fn content_of(rt: &HostRuntime, part: &Part) -> Result<String, Fail> {
        match part.bytes(rt.alloc()) {
            Ok(Some(bytes)) => return Ok(hex::encode(rt.alloc(), bytes.as_list())?),
            Ok(None) => {}
            Err(_) => return Err(Fail::new("no memory")),
        }
        match part.text(rt.alloc()) {
            Ok(Some(text)) => Ok(String::from_str(rt.alloc(), text.as_list())?),
            Ok(None) => Ok(String::from_str(rt.alloc(), "-")?),
            Err(_) => Err(Fail::new("no memory")),
        }
    }

    /// The places and contents of the items inside an item: bytes as hex, text as it is.
    fn parts(rt: &HostRuntime, input: &str) -> Result<String, Fail> {
        let bytes = hex::decode(rt.alloc(), input)?;
        let Ok((whole, _taken)) = Part::open(rt.alloc(), bytes.as_slice()) else {
            return Ok(String::from_str(rt.alloc(), "refused")?);
        };
        let mut shown = String::new(rt.alloc());
        let mut next = whole.inside();
        for _part in 0..4 {
            let Some(part) = next else {
                break;
            };
            let content = content_of(rt, &part)?;
            shown.push_str(format!(in rt.alloc(); "{} {content};", part.at())?.as_str())?;
            next = part.after();
        }
        Ok(shown)
    }

    static PARTS: [(&str, &str); 10] = [
        ("8342010261610a", "1 0102;4 a;6 -;"),
        ("9f5f41014102ff7f61616162ffff", "1 0102;7 ab;"),
        ("a1416b6176", "1 6b;3 v;"),
        ("c24103", "1 03;"),
        ("80", ""),
        ("82", "refused"),
        ("", "refused"),
        ("4200", "refused"),
        ("a200000000", "refused"),
        ("9fc1ff", "refused"),
    ];

    #[test]
    fn a_part_hands_out_contents(rt: HostRuntime) -> Result<(), Fail> {
        for (input, answer) in &PARTS {
            let line = parts(&rt, input)?;
            assert_eq!(rt; line.as_str(), *answer);
        }
        Ok(())
    }

    static SIMPLE_VALUES: [(u8, bool); 10] = [
        (0, true),
        (20, true),
        (23, true),
        (24, false),
        (25, false),
        (27, false),
        (30, false),
        (31, false),
        (32, true),
        (255, true),
    ];

    /// Simple values 24 to 31 have no spelling: what is written of one is not read.
    #[test]
    fn simple_values_have_spellings(rt: HostRuntime) -> Result<(), Fail> {
        for (number, has_one) in &SIMPLE_VALUES {
            let Ok(blob) = write_det(rt.alloc(), &Item::Simple(*number)) else {
                return Err(Fail::new("no answer"));
            };
            match read_wire(rt.alloc(), blob.as_list()) {
                Ok((Item::Simple(read), _taken)) => assert!(rt; *has_one && read == *number),
                Err(CborFault::Malformed(0)) => assert!(rt; !*has_one),
                _ => return Err(Fail::new("another answer")),
            }
        }
        Ok(())
    }

    #[test]
    fn a_copy_is_written_as_the_item(rt: HostRuntime) -> Result<(), Fail> {
        let bytes = hex::decode(rt.alloc(), "a2018202c1f6006161")?;
        let Ok((item, taken)) = read_wire(rt.alloc(), bytes.as_slice()) else {
            return Err(Fail::new("no answer"));
        };
        assert_eq!(rt; taken, 9);
        let Ok(copy) = item.copy(rt.alloc()) else {
            return Err(Fail::new("no answer"));
        };
        let Ok(blob) = write_det(rt.alloc(), &copy) else {
            return Err(Fail::new("no answer"));
        };
        let text = hex::encode(rt.alloc(), blob.as_list())?;
        assert_eq!(rt; text.as_str(), "a2006161018202c1f6");
        Ok(())
    }
}
