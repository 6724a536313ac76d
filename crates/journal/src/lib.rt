//! A journal in a file: a snapshot and the records of what changed since, in one of two areas, so that a crash at any moment
//! leaves the bodies from before a change or those from after it. What a body means is not told here.
#![tactic(auto)]

pub mod areas;
pub mod cursor;
pub mod open_area;
pub mod records;
pub mod records_end;
pub mod writing;

pub use areas::Areas;
pub use cursor::Cursor;
pub use open_area::OpenArea;
pub use records::record_in;
pub use records_end::{RecordsEnd, survey};
pub use writing::{framed, snapshot};
