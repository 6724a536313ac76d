//! Tests of `hash_hmac`, against values that Python's `hashlib` and `hmac` computed.
#![tactic(auto)]

#[cfg(test)]
mod vectors;

#[cfg(test)]
mod tests {
    use crate::vectors::{HASHES, HMACS, KINDS, LENGTHS, SESSIONS};
    use hash_hmac::{
        HMAC_SHA256, HMAC_SHA384, Hash, SHA256, SHA384, hash_of, hmac_of, length_of, session_key,
    };
    use std::test::Fail;

    /// Whether a hash is of the kind, has the bytes that a hex text spells, and zeros past them up to 48 bytes.
    fn holds(rt: &HostRuntime, hash: Option<Hash>, kind: i64, value: &str) -> Result<bool, Fail> {
        let Some(hash) = hash else {
            return Ok(false);
        };
        let bytes = hex::encode(rt.alloc(), hash.bytes.as_slice())?;
        let wanted = format!(in rt.alloc(); "{value:0<96}")?;
        Ok(
            hash.kind == kind
                && hash.len as usize == value.len() / 2
                && bytes.as_str() == wanted.as_str(),
        )
    }

    #[test]
    fn hashes_of_texts(rt: HostRuntime) -> Result<(), Fail> {
        for (first, second, short, long) in &HASHES {
            let (first, second) = (first.as_bytes(), second.as_bytes());
            let hash = hash_of(SHA256, first, second);
            assert!(rt; holds(&rt, hash, SHA256, short)?, "{short}");
            let hash = hash_of(SHA384, first, second);
            assert!(rt; holds(&rt, hash, SHA384, long)?, "{long}");
        }
        Ok(())
    }

    #[test]
    fn hmacs_of_rfc_4231(rt: HostRuntime) -> Result<(), Fail> {
        for (secret, text, short, long) in &HMACS {
            let secret = hex::decode(rt.alloc(), secret)?;
            let text = hex::decode(rt.alloc(), text)?;
            let mac = hmac_of(HMAC_SHA256, secret.as_slice(), text.as_slice());
            assert!(rt; holds(&rt, mac, HMAC_SHA256, short)?, "{short}");
            let mac = hmac_of(HMAC_SHA384, secret.as_slice(), text.as_slice());
            assert!(rt; holds(&rt, mac, HMAC_SHA384, long)?, "{long}");
        }
        Ok(())
    }

    #[test]
    fn lengths_around_a_block(rt: HostRuntime) -> Result<(), Fail> {
        let mut bytes = Vec::new(rt.alloc());
        for i in 0..257u32 {
            bytes.push((i % 251) as u8)?;
        }
        for (length, hash_256, hash_384, hmac_256, hmac_384) in &LENGTHS {
            let text = bytes.as_slice().split_at(bytes.len().min(*length)).0;
            let (first, second) = text.split_at(text.len() / 3);
            let hash = hash_of(SHA256, first, second);
            assert!(rt; holds(&rt, hash, SHA256, hash_256)?, "{length}");
            let hash = hash_of(SHA384, first, second);
            assert!(rt; holds(&rt, hash, SHA384, hash_384)?, "{length}");
            let mac = hmac_of(HMAC_SHA256, text, text);
            assert!(rt; holds(&rt, mac, HMAC_SHA256, hmac_256)?, "{length}");
            let mac = hmac_of(HMAC_SHA384, text, text);
            assert!(rt; holds(&rt, mac, HMAC_SHA384, hmac_384)?, "{length}");
        }
        Ok(())
    }

    #[test]
    fn session_keys(rt: HostRuntime) -> Result<(), Fail> {
        for (shared, bits, wanted) in &SESSIONS {
            let shared = hex::decode(rt.alloc(), shared)?;
            // the prover reads no table
            let bits = if *bits == 128 { 128 } else { 256 };
            let key = session_key(shared.as_slice(), bits);
            let key = hex::encode(rt.alloc(), key.as_slice())?;
            assert_eq!(rt; key.as_str(), *wanted);
        }
        Ok(())
    }

    #[test]
    fn kinds(rt: HostRuntime) -> Result<(), Fail> {
        for (kind, length, hashes, macs) in &KINDS {
            assert_eq!(rt; length_of(*kind), *length);
            assert_eq!(rt; hash_of(*kind, b"a", b"bc").is_some(), *hashes);
            assert_eq!(rt; hmac_of(*kind, b"a", b"bc").is_some(), *macs);
        }
        Ok(())
    }
}
