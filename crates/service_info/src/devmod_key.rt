ghost use Rattle.std.specs.Prelude.{◌≡◌};
ghost use Rattle.service_info.specs.DevmodKey.{key_text};

/// What every device says of itself through the module devmod (FIDO Device Onboard 1.1, section 3.8.3.1), in the
/// order in which a missing one is named.
#[derive(Clone, Copy, Debug, PartialEq, Eq)]
pub enum DevmodKey {
    /// That the module is active.
    Active,
    /// The name of the operating system.
    Os,
    /// The name of its architecture.
    Arch,
    /// Its version.
    Version,
    /// The name of the device.
    Device,
    /// The format of programs that it runs.
    Bin,
    /// How many modules it has.
    NumModules,
    /// Their names.
    Modules,
}

impl DevmodKey {
    /// The key of its pair.
    pub fn text(&self) -> &'static str
        ensures { result.now ≡ key_text self.now }
    {
        match self {
            DevmodKey::Active => "devmod:active",
            DevmodKey::Os => "devmod:os",
            DevmodKey::Arch => "devmod:arch",
            DevmodKey::Version => "devmod:version",
            DevmodKey::Device => "devmod:device",
            DevmodKey::Bin => "devmod:bin",
            DevmodKey::NumModules => "devmod:nummodules",
            DevmodKey::Modules => "devmod:modules",
        }
    }
}
