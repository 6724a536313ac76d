use crate::texts::Texts;

/// Names of modules, for the places from a start on (FIDO Device Onboard 1.1, section 3.8.3.1, "devmod:modules").
#[derive(Debug, Drop)]
pub struct Named {
    pub start: u64,
    pub names: Texts,
}
