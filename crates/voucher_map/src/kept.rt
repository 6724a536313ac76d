use voucher_chain::Voucher;

/// What a party keeps of one device. The GUIDs of all bases, candidates and sent vouchers that it keeps differ.
#[derive(Debug, Drop)]
pub enum Kept {
    /// A voucher that the party owns, and the one that takes its place once the device has the new credential, if it may.
    Held {
        base: Voucher,
        candidate: Option<Voucher>,
    },
    /// A voucher that was extended to another owner and handed out.
    Sent(Voucher),
}
