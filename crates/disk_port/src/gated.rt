ghost use Rattle.std.specs.Prelude.{◌≡◌, ◌<◌, ◌^◌, length, IsTrue, OnOk};
ghost use Rattle.fdo_ports.specs.Count.{Counts};
ghost use Rattle.disk_port.specs.Told.{Told, rests};
ghost use Rattle.disk_port.specs.Gated.{PutsDown, Closes, Opens, Gates};

use crate::disk::Disk;
use fdo_ports::Failed;

/// Writes a piece and waits until it is on the disk.
#[tactic(auto, using(crate::proofs::Gates::put_down_failed, crate::proofs::Gates::put_down_rests))]
fn put_down<D: Disk>(disk: &mut D, at: u64, piece: &[u8]) -> Result<(), Failed>
    requires rests { IsTrue (rests (D.told disk.old)) }
    requires some { 0 < length piece.now }
    ensures told { Told (PutsDown at piece.now result) (D.told disk.old) (D.told disk.new) }
    ensures rests { OnOk result (IsTrue (rests (D.told disk.new))) }
    ensures faults { Counts (D.faults disk.old) (D.faults disk.new) result }
    ensures object { D.object disk.new ≡ D.object disk.old }
{
    match disk.write_at(at, piece) {
        Ok(()) => disk.sync(),
        Err(failed) => Err(failed),
    }
}

/// Closes the gate at a place, if it doesn't stand closed already.
#[tactic(auto, using(crate::proofs::Gates::closed_already, crate::proofs::Gates::closes_now, crate::proofs::Gates::closes_rests))]
fn close_gate<D: Disk>(disk: &mut D, at: u64, shut: bool) -> Result<(), Failed>
    requires rests { IsTrue (rests (D.told disk.old)) }
    ensures told { Told (Closes at shut result) (D.told disk.old) (D.told disk.new) }
    ensures rests { OnOk result (IsTrue (rests (D.told disk.new))) }
    ensures faults { Counts (D.faults disk.old) (D.faults disk.new) result }
    ensures object { D.object disk.new ≡ D.object disk.old }
{
    if shut {
        return Ok(());
    }
    put_down(disk, at, &[0])
}

/// Writes bytes behind the closed gate at a place, and then opens it.
#[tactic(auto, using(crate::proofs::Gates::fill_failed, crate::proofs::Gates::fill_opened))]
fn fill_and_open<D: Disk>(disk: &mut D, at: u64, bytes: &[u8]) -> Result<(), Failed>
    requires rests { IsTrue (rests (D.told disk.old)) }
    requires some { 0 < length bytes.now }
    requires place { at < 2 ^ 63 }
    ensures told { Told (Opens at bytes.now result) (D.told disk.old) (D.told disk.new) }
    ensures faults { Counts (D.faults disk.old) (D.faults disk.new) result }
    ensures object { D.object disk.new ≡ D.object disk.old }
{
    match put_down(disk, at + 1, bytes) {
        Ok(()) => put_down(disk, at, &[1]),
        Err(failed) => Err(failed),
    }
}

/// Puts bytes behind the gate at offset `at`, a byte that is 1 where it is open, so that what a crash leaves has them behind
/// the open gate or has no open gate there but the one from before. `shut` says that the gate stands on the disk
/// and is closed; it is not closed anew then, since a write that is cut short could open what stands behind it. It takes
/// no memory.
#[tactic(auto, using(crate::proofs::Gates::close_failed, crate::proofs::Gates::closed_opened, crate::proofs::Gates::gates_rest))]
pub fn put_gated<D: Disk>(disk: &mut D, at: u64, shut: bool, bytes: &[u8]) -> Result<(), Failed>
    requires rests { IsTrue (rests (D.told disk.old)) }
    requires some { 0 < length bytes.now }
    requires place { at < 2 ^ 63 }
    ensures told { Told (Gates at shut bytes.now result) (D.told disk.old) (D.told disk.new) }
    ensures rests { OnOk result (IsTrue (rests (D.told disk.new))) }
    ensures faults { Counts (D.faults disk.old) (D.faults disk.new) result }
    ensures object { D.object disk.new ≡ D.object disk.old }
{
    match close_gate(disk, at, shut) {
        Ok(()) => fill_and_open(disk, at, bytes),
        Err(failed) => Err(failed),
    }
}
