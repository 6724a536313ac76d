ghost use Rattle.std.specs.Prelude.{◌≡◌, option_map, IfOk};
ghost use Rattle.cbor_core.specs.Spots.{spot_item};
ghost use Rattle.voucher_chain.specs.Fault.{all_in};
ghost use Rattle.fdo_msgs.specs.Addr.{maybe_bytes_in, maybe_text_in, addr_of, addr_in, addrs_in, item_of_maybe_bytes, item_of_maybe_text, item_of_addr, item_of_addrs};

use crate::value::u16_of;
use cbor_core::{Blob, Item, Items, NoMemory, Part, Text};
use std::alloc::Global;
use std::marker::Model;

/// Where an owner can be reached (FIDO Device Onboard 1.1, section 5.3.3, "RVTO2AddrEntry").
#[derive(Debug, Drop)]
pub struct AddrEntry {
    /// The bytes of an IP address, of any length.
    pub ip: Option<Blob>,
    /// A name for the DNS, any text.
    pub dns: Option<Text>,
    pub port: u16,
    /// The protocol by its number, as 3 for HTTP; any number of 16 bits is read.
    pub protocol: u16,
}

impl AddrEntry {
    /// An equal address.
    pub fn copy(&self) -> Result<AddrEntry, NoMemory>
        ensures { IfOk result (λ copy. copy ≡ self.now) }
    {
        let ip = match &self.ip {
            Some(ip) => Some(ip.copy()?),
            None => None,
        };
        let dns = match &self.dns {
            Some(dns) => Some(dns.copy()?),
            None => None,
        };
        Ok(AddrEntry {
            ip,
            dns,
            port: self.port,
            protocol: self.protocol,
        })
    }
}

/// Addresses in order. Contracts see the list of them.
#[derive(Debug, Drop)]
pub struct Addrs {
    addrs: Vec<AddrEntry>,
}

impl Model for Addrs {
    ghost use Rattle.std.specs.Prelude.{List};
    ghost use Rattle.fdo_msgs.specs.declared.addr.AddrEntry.{AddrEntry};

    ghost Value = { List AddrEntry };

    ghost view = { λ a. a.addrs.items };
}

impl Addrs {
    pub fn new(addrs: Vec<AddrEntry>) -> Addrs
        ensures { result ≡ addrs.items }
    {
        Addrs { addrs }
    }

    pub fn as_list(&self) -> &[AddrEntry]
        ensures { result.now ≡ self.now }
    {
        self.addrs.as_slice()
    }

    pub fn into_vec(self) -> Vec<AddrEntry>
        ensures { result.items ≡ self }
    {
        let Addrs { addrs } = self;
        addrs
    }

    /// Equal addresses.
    pub fn copy(&self, alloc: Global) -> Result<Addrs, NoMemory>
        ensures { IfOk result (λ copy. copy ≡ self.now) }
    {
        let mut addrs = Vec::with_capacity(alloc, self.addrs.len())?;
        let all = self.addrs.as_slice();
        for addr in all {
            addrs.push(addr.copy()?)?;
        }
        Ok(Addrs { addrs })
    }
}

// ---- reading

/// The addresses that a part is, or None where it is none.
pub(crate) fn addrs_part(alloc: Global, part: &Part) -> Result<Option<Addrs>, NoMemory>
    ensures { IfOk result (λ addrs. addrs ≡ addrs_in (spot_item part.now.spot)) }
{
    let item = part.item(alloc)?;
    read_addrs(alloc, &item)
}

fn read_addrs(alloc: Global, item: &Item) -> Result<Option<Addrs>, NoMemory>
    ensures { IfOk result (λ addrs. addrs ≡ addrs_in item.now) }
{
    match item {
        Item::Array(items) => match read_all(alloc, items.as_slice())? {
            Some(addrs) => Ok(Some(Addrs { addrs })),
            None => Ok(None),
        },
        _ => Ok(None),
    }
}

fn read_all(alloc: Global, items: &[Item]) -> Result<Option<Vec<AddrEntry>>, NoMemory>
    ensures { IfOk result (λ all. option_map (λ v. v.items) all ≡ all_in addr_in items.now) }
{
    let mut all = Vec::new(alloc);
    for item in items {
        match read_addr(item)? {
            Some(addr) => all.push(addr)?,
            None => return Ok(None),
        }
    }
    Ok(Some(all))
}

fn read_addr(item: &Item) -> Result<Option<AddrEntry>, NoMemory>
    ensures { IfOk result (λ addr. addr ≡ addr_in item.now) }
{
    match item {
        Item::Array(items) => match items.as_slice() {
            [ip, dns, port, protocol] => read_parts(ip, dns, port, protocol),
            _ => Ok(None),
        },
        _ => Ok(None),
    }
}

fn read_parts(
    ip: &Item,
    dns: &Item,
    port: &Item,
    protocol: &Item,
) -> Result<Option<AddrEntry>, NoMemory>
    ensures { IfOk result (λ addr. addr ≡ addr_of (ip.now, dns.now, port.now, protocol.now)) }
{
    let ip = read_ip(ip)?;
    let dns = read_dns(dns)?;
    match (ip, dns, u16_of(port), u16_of(protocol)) {
        (Some(ip), Some(dns), Some(port), Some(protocol)) => Ok(Some(AddrEntry {
            ip,
            dns,
            port,
            protocol,
        })),
        _ => Ok(None),
    }
}

fn read_ip(item: &Item) -> Result<Option<Option<Blob>>, NoMemory>
    ensures { IfOk result (λ ip. ip ≡ maybe_bytes_in item.now) }
{
    match item {
        Item::Simple(22) => Ok(Some(None)),
        Item::Bytes(bytes) => Ok(Some(Some(bytes.copy()?))),
        _ => Ok(None),
    }
}

fn read_dns(item: &Item) -> Result<Option<Option<Text>>, NoMemory>
    ensures { IfOk result (λ dns. dns ≡ maybe_text_in item.now) }
{
    match item {
        Item::Simple(22) => Ok(Some(None)),
        Item::Text(text) => Ok(Some(Some(text.copy()?))),
        _ => Ok(None),
    }
}

// ---- writing

/// The item that addresses are written as.
pub(crate) fn addrs_item(alloc: Global, addrs: &Addrs) -> Result<Item, NoMemory>
    ensures { IfOk result (λ item. item ≡ item_of_addrs addrs.now) }
{
    let mut parts = Items::new(alloc);
    let all = addrs.as_list();
    for addr in all {
        parts.push(addr_item(alloc, addr)?)?;
    }
    Ok(Item::Array(parts))
}

fn addr_item(alloc: Global, addr: &AddrEntry) -> Result<Item, NoMemory>
    ensures { IfOk result (λ item. item ≡ item_of_addr addr.now) }
{
    let mut parts = Items::new(alloc);
    parts.push(ip_item(&addr.ip)?)?;
    parts.push(dns_item(&addr.dns)?)?;
    parts.push(Item::Uint(u64::from(addr.port)))?;
    parts.push(Item::Uint(u64::from(addr.protocol)))?;
    Ok(Item::Array(parts))
}

fn ip_item(ip: &Option<Blob>) -> Result<Item, NoMemory>
    ensures { IfOk result (λ item. item ≡ item_of_maybe_bytes ip.now) }
{
    match ip {
        Some(ip) => Ok(Item::Bytes(ip.copy()?)),
        None => Ok(Item::Simple(22)),
    }
}

fn dns_item(dns: &Option<Text>) -> Result<Item, NoMemory>
    ensures { IfOk result (λ item. item ≡ item_of_maybe_text dns.now) }
{
    match dns {
        Some(dns) => Ok(Item::Text(dns.copy()?)),
        None => Ok(Item::Simple(22)),
    }
}
