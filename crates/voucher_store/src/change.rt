use voucher_chain::{Guid, Voucher};

/// One change of a party's vouchers, as a record says it.
#[derive(Debug, Drop)]
pub enum Change {
    /// A voucher takes the place of the entry that its GUID names, or stands last.
    Import(Voucher),
    /// The base that the GUID names has this candidate.
    Candidate(Guid, Voucher),
    /// The candidate of the base that the GUID names takes its place.
    Promotion(Guid),
    /// This longer voucher was sent, in the place of the entry that the GUID names.
    Export(Guid, Voucher),
}
