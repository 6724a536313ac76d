ghost use Rattle.std.specs.Prelude.{◌≡◌, Some, None, MatchOption};
ghost use Rattle.journal.specs.Records.{record_at};

use byteorder::{BigEndian, ByteOrder};

/// The body of the record at the front of some bytes, where it is open, and what stands from the next gate on. It takes no
/// memory.
#[tactic(auto, unfolding(crate::specs::Records::record_at))]
pub fn record_in(bytes: &[u8]) -> Option<(&[u8], &[u8])>
    ensures { MatchOption result (record_at bytes.now ≡ None) (λ r. record_at bytes.now ≡ Some (r.0.now, r.1.now)) }
{
    let [1, rest @ ..] = bytes else {
        return None;
    };
    if rest.len() < 4 {
        return None;
    }
    let length = BigEndian::read_u32(rest) as usize;
    if 4 + length >= rest.len() {
        return None;
    }
    Some(rest.split_at(4).1.split_at(length))
}
