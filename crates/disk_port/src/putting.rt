ghost use Rattle.std.specs.Prelude.{◌≡◌, ◌+◌, ◌≤◌, length, OnOk, OnErr};
ghost use Rattle.disk_port.specs.Story.{widened, over, put};

use std::alloc::AllocError;

/// Lengthens a list by zeros to `end` bytes at least.
fn widen(list: &mut Vec<u8>, end: usize) -> Result<(), AllocError>
    ensures ok { OnOk result (list.new.items ≡ widened end list.old.items) }
    ensures err { OnErr result (list.new.items ≡ list.old.items) }
{
    if list.len() < end {
        list.resize(end, 0)?;
    }
    Ok(())
}

/// Copies a piece into a list.
fn copy_over(list: &mut [u8], at: usize, piece: &[u8])
    requires { at + length piece.now ≤ length list.old }
    ensures { list.new ≡ over at piece.now list.old }
{
    list[at..at + piece.len()].copy_from_slice(piece);
}

/// Writes a piece into a list, which gets longer where it has to.
#[tactic(auto, unfolding(crate::specs::Story::put))]
pub(crate) fn put_piece(list: &mut Vec<u8>, at: u64, piece: &[u8]) -> Result<(), AllocError>
    ensures ok { OnOk result (list.new.items ≡ put at piece.now list.old.items) }
    ensures err { OnErr result (list.new.items ≡ list.old.items) }
{
    let Some(end) = (at as usize).checked_add(piece.len()) else {
        return Err(AllocError);
    };
    widen(list, end)?;
    copy_over(list.as_mut_slice(), at as usize, piece);
    Ok(())
}
