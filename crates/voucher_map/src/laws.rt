//! Laws of the changes.
ghost use Rattle.voucher_map.specs.Laws.{ChangesOneAlone, AddsOneLast};

/// A change of an entry leaves all others as they were, in their order.
pub fn one_changes()
    ensures { ChangesOneAlone }
{}

/// A voucher of a GUID that isn't kept is added behind the others.
pub fn one_is_added()
    ensures { AddsOneLast }
{}
