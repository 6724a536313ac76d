/// An open area in the image of a file.
#[derive(Clone, Copy, Debug)]
pub struct OpenArea<'a> {
    pub side: disk_port::Side,
    pub generation: u64,
    pub snapshot: &'a [u8],
    /// What stands from the first record's gate on, within the area.
    pub records: &'a [u8],
}
