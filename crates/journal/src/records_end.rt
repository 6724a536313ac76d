ghost use Rattle.std.specs.Prelude.{◌≡◌, ◌+◌, ◌<◌, ◌≤◌, ◌^◌, length};
ghost use Rattle.journal.specs.Records.{walk, is_one};

use crate::records::record_in;

/// Where the open records end.
#[derive(Clone, Copy, Debug)]
pub struct RecordsEnd {
    /// The offset of the first gate that is not that of an open record.
    pub place: u64,
    /// Whether that gate is 1.
    pub one: bool,
}

/// Where the open records of an area end, of which the first one's gate stands at an offset in the file. It takes no memory.
#[tactic(auto, using(crate::proofs::Surveying::walk_more, crate::proofs::Surveying::walk_end, crate::proofs::Surveying::walk_zero, crate::proofs::Surveying::record_shorter))]
pub fn survey(place: u64, records: &[u8]) -> RecordsEnd
    requires { place + length records.now < 2 ^ 64 }
    ensures place { result.place ≡ (walk (length records.now) place records.now).place }
    ensures one { result.one ≡ (walk (length records.now) place records.now).one }
    ensures within { result.place ≤ place + length records.now }
{
    let mut at = place;
    let mut rest = records;
    for turn in 0..records.len() {
        match record_in(rest) {
            Some((body, later)) => {
                at += 5 + body.len() as u64;
                rest = later;
            }
            None => {
                return RecordsEnd {
                    place: at,
                    one: is_one(rest),
                };
            }
        }
    }
    RecordsEnd {
        place: at,
        one: is_one(rest),
    }
}

/// Whether the byte at the front is 1.
fn is_one(bytes: &[u8]) -> bool
    ensures { result ≡ is_one bytes.now }
{
    match bytes {
        [] => false,
        [gate, ..] => *gate == 1,
    }
}
