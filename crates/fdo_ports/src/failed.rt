/// A call on an object of the outside failed: its count of faults rose in that call, and what it holds or has
/// left is as before.
#[derive(Clone, Copy, Debug, PartialEq, Eq)]
pub struct Failed;
