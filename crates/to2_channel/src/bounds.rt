ghost use Rattle.std.specs.Prelude.{◌≡◌, ◌≤◌, length, OnOk};
ghost use Rattle.fdo_rules.specs.Checks.{fits_peer as peer_takes, fits_plain as is_in_bounds, most_of};
ghost use Rattle.fdo_rules.specs.Unfit.{Checks};

use fdo_msgs::Cause;
use fdo_rules::Unfit;

/// The most bytes of a plain text that is sealed.
pub const MOST_PLAIN_BYTES: usize = 16_777_216;

/// The most bytes of a message where an end states no bound of its own.
pub const USUAL_MESSAGE_BYTES: u16 = 65_535;

/// Refuses a plain text that has too many bytes to be sealed.
pub fn fits_plain(plain: &[u8]) -> Result<(), Unfit>
    ensures told { Checks (is_in_bounds plain.now) result }
    ensures within { OnOk result (length plain.now ≤ 16777216) }
{
    if plain.len() <= MOST_PLAIN_BYTES {
        Ok(())
    } else {
        Err(Unfit::For(Cause::Size(MOST_PLAIN_BYTES as u64)))
    }
}

/// Refuses a body that the other end does not take: it states the most bytes, or 0.
pub fn fits_peer(most: u16, body: &[u8]) -> Result<(), Unfit>
    ensures { Checks (peer_takes most body.now) result }
{
    let most = bound(most);
    if body.len() <= most as usize {
        Ok(())
    } else {
        Err(Unfit::For(Cause::Size(u64::from(most))))
    }
}

fn bound(most: u16) -> u16
    ensures { result ≡ most_of most }
{
    if most == 0 { USUAL_MESSAGE_BYTES } else { most }
}
