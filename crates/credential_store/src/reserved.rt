ghost use Rattle.std.specs.Prelude.{◌≡◌, ◌+◌, ◌≤◌, Ok, length};
ghost use Rattle.disk_port.specs.Slots.{IsPayload, body_of};
ghost use Rattle.credential_store.specs.Body.{body_at, body_of_credential};

use voucher_chain::Credential;

/// A credential that is to be kept, and the bytes of its slot in a generation.
#[derive(Drop)]
pub struct Reserved {
    pub(crate) credential: Credential,
    pub(crate) generation: u64,
    pub(crate) bytes: Vec<u8>,
    ghost whole: { IsPayload generation bytes.items },
    ghost body: { body_of bytes.items ≡ body_of_credential credential },
    ghost short: { length bytes.items ≤ 12 + 8100 },
    ghost back: { body_at (body_of_credential credential) ≡ Ok credential },
}
