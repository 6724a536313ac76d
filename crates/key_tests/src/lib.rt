//! Tests of `key_codec`, against inputs and answers from outside.
#![tactic(auto)]

#[cfg(test)]
mod tests {
    use cbor_core::{Blob, Item, read_wire, write_det};
    use key_codec::{
        KeyFault, PublicKey, X5Chain, hash_item, key_body_item, key_bytes, read_hash, read_key,
        read_key_body, read_sig_info, sig_info_item,
    };
    use std::test::Fail;

    fn item(rt: &HostRuntime, input: &str) -> Result<Item, Fail> {
        let bytes = hex::decode(rt.alloc(), input)?;
        let (item, _taken) = read_wire(rt.alloc(), bytes.as_slice())?;
        Ok(item)
    }

    fn spelling(rt: &HostRuntime, item: &Item) -> Result<String, Fail> {
        let bytes = write_det(rt.alloc(), item)?;
        Ok(hex::encode(rt.alloc(), bytes.as_list())?)
    }

    fn key_text(rt: &HostRuntime, key: &PublicKey) -> Result<String, Fail> {
        let copy = key.copy(rt.alloc())?;
        let bytes = key_bytes(rt.alloc(), &copy)?;
        Ok(hex::encode(rt.alloc(), bytes.as_list())?)
    }

    fn reads_its_body(rt: &HostRuntime, key: &PublicKey) -> Result<bool, Fail> {
        let item = key_body_item(rt.alloc(), &key.body)?;
        let body = read_key_body(rt.alloc(), key.enc, &item)?;
        Ok(body.same(&key.body))
    }

    fn sig_text(rt: &HostRuntime, input: &str) -> Result<String, Fail> {
        let sig = read_sig_info(rt.alloc(), &item(rt, input)?)?;
        let copy = sig.copy(rt.alloc())?;
        spelling(rt, &sig_info_item(rt.alloc(), &copy)?)
    }

    static KEYS: [(&str, &str); 4] = [
        ("8318c8004101", "8318c8004101"),
        ("830a024105", "830a02814105"),
        ("8305028241014102", "8305028241014102"),
        (
            "830b03a5224103214102046020010102",
            "830b03a401022001214102224103",
        ),
    ];

    #[test]
    fn keys_are_read_copied_and_written(rt: HostRuntime) -> Result<(), Fail> {
        for (input, answer) in &KEYS {
            let key = read_key(rt.alloc(), &item(&rt, input)?)?;
            let text = key_text(&rt, &key)?;
            assert_eq!(rt; text.as_str(), *answer);
            assert!(rt; reads_its_body(&rt, &key)?);
        }
        Ok(())
    }

    static NO_KEYS: [(&str, KeyFault); 5] = [
        ("83090040", KeyFault::BadType(9)),
        ("830a0740", KeyFault::BadEncoding(7)),
        ("80", KeyFault::BadShape),
        ("8309617840", KeyFault::BadShape),
        ("830a0280", KeyFault::BadShape),
    ];

    #[test]
    fn what_is_no_key_is_refused(rt: HostRuntime) -> Result<(), Fail> {
        for (input, fault) in &NO_KEYS {
            let found = read_key(rt.alloc(), &item(&rt, input)?);
            assert!(rt; matches!(found, Err(other) if other == *fault), "{input}");
        }
        let none = X5Chain::new(Vec::new(rt.alloc()));
        assert!(rt; none.is_none());
        Ok(())
    }

    #[test]
    fn certificates_are_given_back(rt: HostRuntime) -> Result<(), Fail> {
        let mut all = Vec::new(rt.alloc());
        all.push(Blob::from_slice(rt.alloc(), b"leaf")?)?;
        all.push(Blob::from_slice(rt.alloc(), b"root")?)?;
        match X5Chain::new(all) {
            Some(chain) => {
                let mut all = chain.into_vec();
                assert_eq!(rt; all.len(), 2);
                let last = all.pop();
                assert!(rt; matches!(&last, Some(root) if root.as_list() == b"root".as_slice()));
            }
            None => assert!(rt; false, "two certificates are a chain"),
        }
        Ok(())
    }

    #[test]
    fn hashes_and_signature_information(rt: HostRuntime) -> Result<(), Fail> {
        let short = "822f581f00000000000000000000000000000000000000000000000000000000000000";
        let refused = read_hash(&item(&rt, short)?);
        assert_eq!(rt; refused, Err(KeyFault::BadLength(31)));
        let input = "82055820a1a2a3a4a5a6a7a8a9aaabacadaeafb0b1b2b3b4b5b6b7b8b9babbbcbdbebfc0";
        let hash = read_hash(&item(&rt, input)?)?;
        let text = spelling(&rt, &hash_item(rt.alloc(), &hash)?)?;
        assert_eq!(rt; text.as_str(), input);
        let text = sig_text(&rt, "823a000100004101")?;
        assert_eq!(rt; text.as_str(), "823a000100004101");
        Ok(())
    }
}
