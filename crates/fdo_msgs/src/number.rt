ghost use Rattle.std.specs.Prelude.{◌≡◌, ◌≢◌, ℕ, ◌≤◌, ◌↔◌, IsTrue, IfSome, IfNone};
ghost use Rattle.std.specs.Fmt.{decimal};
ghost use Rattle.fdo_msgs.specs.Words.{IsLed};

use std::str;

/// The number that a word spells in decimal digits without a sign or a leading zero, where it is at most `most`.
pub fn read_number(word: &[u8], most: u64) -> Option<u64>
    ensures some { IfSome result (λ n. (n ≤ most) × (word.now ≡ decimal n)) }
    ensures none { IfNone result ((n : ℕ) → n ≤ most → word.now ≢ decimal n) }
{
    if !is_led(word) {
        return None;
    }
    match str::from_utf8(word) {
        Ok(text) => match text.parse::<u64>() {
            Ok(number) if number <= most => Some(number),
            _ => None,
        },
        Err(_) => None,
    }
}

/// Neither a sign nor a needless zero stands in front.
fn is_led(word: &[u8]) -> bool
    ensures { IsTrue result ↔ IsLed word.now }
{
    match word {
        [] => false,
        [b'0'] => true,
        [first, ..] => *first != b'0' && *first != b'+',
    }
}
