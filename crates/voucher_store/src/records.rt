ghost use Rattle.std.specs.Prelude.{◌≡◌, IfOk};
ghost use Rattle.voucher_store.specs.Writing.{IsSpelt};
ghost use Rattle.voucher_store.specs.Read.{Reads};
ghost use Rattle.voucher_store.specs.Records.{change_of_two, change_of_three, change_at};

use crate::change::Change;
use crate::fault::ImageFault;
use crate::parts::{fault_at, is_number, read_guid, read_voucher_part};
use cbor_core::Part;
use std::alloc::Global;

/// The change that a record says.
#[tactic(auto, unfolding(crate::specs::Records::change_at))]
pub(crate) fn read_change(alloc: Global, part: &Part) -> Result<Change, ImageFault>
    ensures read { Reads (change_at part.now.spot) result }
    ensures spelt { IfOk result IsSpelt }
{
    if let Some((number, only)) = part.two() {
        return read_two(alloc, &number, &only);
    }
    match part.three() {
        Some((number, guid, voucher)) => read_three(alloc, &number, &guid, &voucher),
        None => Err(fault_at(part)),
    }
}

fn read_two(alloc: Global, number: &Part, part: &Part) -> Result<Change, ImageFault>
    ensures read { Reads (change_of_two number.now.spot part.now.spot) result }
    ensures spelt { IfOk result IsSpelt }
{
    if is_number(number, 0) {
        return match read_voucher_part(alloc, part) {
            Ok(voucher) => Ok(Change::Import(voucher)),
            Err(fault) => Err(fault),
        };
    }
    if !is_number(number, 2) {
        return Err(fault_at(number));
    }
    match read_guid(alloc, part) {
        Ok(guid) => Ok(Change::Promotion(guid)),
        Err(fault) => Err(fault),
    }
}

fn read_three(
    alloc: Global,
    number: &Part,
    guid: &Part,
    voucher: &Part,
) -> Result<Change, ImageFault>
    ensures read { Reads (change_of_three number.now.spot guid.now.spot voucher.now.spot) result }
    ensures spelt { IfOk result IsSpelt }
{
    let candidate = is_number(number, 1);
    if !(candidate || is_number(number, 3)) {
        return Err(fault_at(number));
    }
    match read_guid(alloc, guid) {
        Ok(guid) => match read_voucher_part(alloc, voucher) {
            Ok(voucher) => {
                if candidate {
                    Ok(Change::Candidate(guid, voucher))
                } else {
                    Ok(Change::Export(guid, voucher))
                }
            }
            Err(fault) => Err(fault),
        },
        Err(fault) => Err(fault),
    }
}
