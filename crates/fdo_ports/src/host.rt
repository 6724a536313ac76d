ghost use Rattle.std.specs.Prelude.{◌≡◌, true, IfOk, IfSome, is_some};
ghost use Rattle.fdo_ports.specs.Host.{is_host_byte, are_host_bytes, is_host_name};

use std::alloc::{AllocError, Global};
use std::marker::Model;

/// The most bytes of a host's name (RFC 1035, section 2.3.4, without its dots at both ends).
pub const MOST_NAME_BYTES: usize = 253;

/// The name of a host: 1 to 253 ASCII letters, digits, `.`, `-` or `_`.
#[derive(Debug, Drop)]
pub struct HostName {
    value: Vec<u8>,
}

impl Model for HostName {
    ghost use Rattle.std.specs.Prelude.{List, ℕ, ◌≡◌, true};
    ghost use Rattle.fdo_ports.specs.Host.{is_host_name};

    ghost Value = { List ℕ };

    ghost view = { λ h. h.value.items };

    ghost invariant = { λ h. is_host_name h.value.items ≡ true };
}

/// Where another program is reached.
#[derive(Debug, Drop)]
pub enum Host {
    Ip4([u8; 4]),
    Ip6([u8; 16]),
    Name(HostName),
}

impl HostName {
    /// The name of these bytes, or None where they are none.
    pub fn new(value: Vec<u8>) -> Option<HostName>
        ensures valid { is_some result ≡ is_host_name value.items }
        ensures value { IfSome result (λ name. name ≡ value.items) }
    {
        if is_name(value.as_slice()) {
            Some(HostName { value })
        } else {
            None
        }
    }

    pub fn as_list(&self) -> &[u8]
        ensures bytes { result.now ≡ self.now }
        ensures valid { is_host_name self.now ≡ true }
    {
        self.value.as_slice()
    }

    pub fn copy(&self) -> Result<HostName, AllocError>
        ensures { IfOk result (λ name. name ≡ self.now) }
    {
        Ok(HostName {
            value: self.value.clone()?,
        })
    }
}

impl Host {
    pub fn copy(&self) -> Result<Host, AllocError>
        ensures { IfOk result (λ host. host ≡ self.now) }
    {
        match self {
            Host::Ip4(address) => Ok(Host::Ip4(*address)),
            Host::Ip6(address) => Ok(Host::Ip6(*address)),
            Host::Name(name) => Ok(Host::Name(name.copy()?)),
        }
    }
}

fn is_name(bytes: &[u8]) -> bool
    ensures { result ≡ is_host_name bytes.now }
{
    !bytes.is_empty() && bytes.len() <= MOST_NAME_BYTES && are_name_bytes(bytes)
}

fn are_name_bytes(bytes: &[u8]) -> bool
    ensures { result ≡ are_host_bytes bytes.now }
{
    for byte in bytes {
        if !is_name_byte(*byte) {
            return false;
        }
    }
    true
}

fn is_name_byte(byte: u8) -> bool
    ensures { result ≡ is_host_byte byte }
{
    byte.is_ascii_alphanumeric() || byte == b'.' || byte == b'-' || byte == b'_'
}
