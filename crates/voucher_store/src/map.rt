ghost use Rattle.std.specs.Prelude.{◌≡◌};
ghost use Rattle.voucher_map.specs.Finding.{finding, find_in};

use std::marker::Model;
use voucher_chain::Guid;
use voucher_map::{Found, Kept, find};

/// The vouchers that a party keeps, in the order kept.
#[derive(Debug, Drop)]
pub struct VoucherMap {
    entries: Vec<Kept>,
}

impl Model for VoucherMap {
    ghost use Rattle.std.specs.Prelude.{List};
    ghost use Rattle.voucher_map.specs.declared.kept.Kept.{Kept};

    ghost Value = { List Kept };

    ghost view = { λ m. m.entries.items };

    ghost use Rattle.cbor_core.specs.contracts.item.Item as item;
    ghost use Rattle.std.specs.Coded.{codes};

    ghost coded = { Prim.hlevel (codes, item.the_row.coded) };
}

impl VoucherMap {
    /// These vouchers.
    pub fn new(entries: Vec<Kept>) -> VoucherMap
        ensures { result ≡ entries.items }
    {
        VoucherMap { entries }
    }

    /// The entries, lent.
    pub fn as_list(&self) -> &[Kept]
        ensures { result.now ≡ self.now }
    {
        self.entries.as_slice()
    }

    /// The entries.
    pub fn into_vec(self) -> Vec<Kept>
        ensures { result.items ≡ self }
    {
        let VoucherMap { entries } = self;
        entries
    }

    /// What is kept under a GUID. It takes no memory.
    pub fn find(&self, guid: &Guid) -> Found<'_>
        ensures { finding result ≡ find_in guid.now self.now }
    {
        find(self.entries.as_slice(), guid)
    }
}
