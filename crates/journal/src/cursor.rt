use disk_port::NextChange;

/// What has to be known of a file for the next change of its journal.
#[derive(Clone, Copy, Debug)]
pub struct Cursor {
    /// The next snapshot.
    pub next: NextChange,
    /// The offset of the gate of the next record; None where no area is open.
    pub place: Option<u64>,
}
