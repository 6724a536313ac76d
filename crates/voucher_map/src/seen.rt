use voucher_chain::Guid;

/// What a session saw of the entry that it is about: the GUID of its base, and that of its candidate then.
#[derive(Clone, Copy, Debug)]
pub struct Seen {
    pub base: Guid,
    pub candidate: Option<Guid>,
}
