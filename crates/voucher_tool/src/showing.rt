ghost use Rattle.std.specs.Prelude.{◌≡◌, ◌++◌, ◌∷◌, [], map, codes, length, Option, IfOk, OnOk};
ghost use Rattle.voucher_chain.specs.declared.voucher.Voucher.{Voucher};
ghost use Rattle.voucher_tool.specs.Show.{show_text, ended, shown_byte as shown};

use crate::received::received_key;
use cbor_core::{Blob, NoMemory};
use hash_hmac::{HMAC_SHA256, HMac};
use key_codec::{PublicKey, X5Chain};
use sha2::{Digest, Sha256};
use std::alloc::Global;
use uuid::Uuid;
use voucher_chain::{Entry, Guid, RvDirective, RvInstr, Voucher};

/// The text that shows a voucher, line by line: version, GUID, DeviceInfo, the manufacturer's key, the HMAC, the number of
/// certificates, the instructions of the rendezvous information, and the entries with their keys.
#[tactic(auto, using(crate::proofs::Lines::shown))]
pub fn show(alloc: Global, voucher: &Voucher) -> Result<Blob, NoMemory>
    ensures { IfOk result (λ text. text ≡ show_text voucher.now) }
{
    let mut out = Vec::new(alloc);
    put_first(alloc, &mut out, voucher)?;
    put_rv(alloc, &mut out, voucher.header.rv.as_list())?;
    put_entries(alloc, &mut out, voucher.entries.as_list())?;
    Ok(Blob::new(out))
}

/// A line with its line feed.
pub(crate) fn put_line(out: &mut Vec<u8>, line: &[u8]) -> Result<(), NoMemory>
    ensures { OnOk result (out.new.items ≡ out.old.items ++ ended line.now) }
{
    out.extend_from_slice(line)?;
    out.push(b'\n')?;
    Ok(())
}

// ---- the lines above the instructions

ghost use Rattle.voucher_tool.specs.Show.{first_lines, text_of};

fn put_first(alloc: Global, out: &mut Vec<u8>, voucher: &Voucher) -> Result<(), NoMemory>
    ensures { OnOk result (out.new.items ≡ out.old.items ++ text_of (first_lines voucher.now)) }
{
    put_line(out, b"version 101")?;
    put_guid(out, &voucher.header.guid)?;
    put_device(out, voucher.header.info.as_list().as_bytes())?;
    put_own_key(
        alloc,
        out,
        &voucher.header.key,
        voucher.header.key_raw.as_list(),
    )?;
    put_hmac(alloc, out, &voucher.hmac)?;
    put_chain(alloc, out, &voucher.chain)?;
    Ok(())
}

ghost use Rattle.uuid.specs.Text.{hyphenated_text, lower};

fn put_guid(out: &mut Vec<u8>, guid: &Guid) -> Result<(), NoMemory>
    ensures { OnOk result (out.new.items ≡ out.old.items ++ ended (codes "guid " ++ hyphenated_text lower guid.now)) }
{
    let mut buffer = [0; 36];
    let text = Uuid::from_bytes(*guid)
        .hyphenated()
        .encode_lower(&mut buffer);
    out.extend_from_slice(b"guid ")?;
    put_line(out, text.as_bytes())
}

/// A byte below 32 and the byte 127 are shown as `?`.
fn put_device(out: &mut Vec<u8>, info: &[u8]) -> Result<(), NoMemory>
    ensures { OnOk result (out.new.items ≡ out.old.items ++ ended (codes "device " ++ map shown info.now)) }
{
    out.extend_from_slice(b"device ")?;
    put_shown(out, info)?;
    put_line(out, b"")
}

fn put_shown(out: &mut Vec<u8>, info: &[u8]) -> Result<(), NoMemory>
    ensures { OnOk result (out.new.items ≡ out.old.items ++ map shown info.now) }
{
    for byte in info {
        out.push(shown_byte(*byte))?;
    }
    Ok(())
}

fn shown_byte(byte: u8) -> u8
    ensures { result ≡ shown byte }
{
    if byte < 32 || byte == 127 { b'?' } else { byte }
}

ghost use Rattle.voucher_tool.specs.Show.{hash_word, key_words};
ghost use Rattle.std.specs.Prelude.{string_bytes};

fn put_own_key(
    alloc: Global,
    out: &mut Vec<u8>,
    key: &PublicKey,
    raw: &[u8],
) -> Result<(), NoMemory>
    ensures { OnOk result (out.new.items ≡ out.old.items ++ ended (codes "key " ++ key_words key.now raw.now)) }
{
    let words = words_of_key(alloc, key, raw)?;
    out.extend_from_slice(b"key ")?;
    put_line(out, words.as_bytes())
}

/// A key's type, encoding, and the hash of its bytes as received.
fn words_of_key(alloc: Global, key: &PublicKey, raw: &[u8]) -> Result<String, NoMemory>
    ensures { IfOk result (λ words. string_bytes words ≡ key_words key.now raw.now) }
{
    let kind = key.kind;
    let enc = key.enc;
    let hash = hash_text(alloc, raw)?;
    Ok(format!(in alloc; "{kind} {enc} {hash}")?)
}

/// The SHA-256 of a key's bytes in lower-case hex.
pub(crate) fn hash_text(alloc: Global, key: &[u8]) -> Result<String, NoMemory>
    ensures { IfOk result (λ word. string_bytes word ≡ hash_word key.now) }
{
    let hash = Sha256::digest(key);
    Ok(hex::encode(alloc, hash.as_slice())?)
}

ghost use Rattle.voucher_tool.specs.Show.{mac_word as word_of_mac, chain_word as word_of_chain};
ghost use Rattle.hex.specs.Hex.{encode_lower};
ghost use Rattle.hash_hmac.specs.Value.{content};

fn put_hmac(alloc: Global, out: &mut Vec<u8>, hmac: &HMac) -> Result<(), NoMemory>
    ensures { OnOk result (out.new.items ≡ out.old.items ++ ended (codes "hmac " ++ word_of_mac hmac.now.kind ++ codes " " ++ encode_lower (content hmac.now))) }
{
    let word = mac_word(hmac.kind);
    let hex = hex::encode(alloc, hmac.content())?;
    let line = format!(in alloc; "hmac {word} {hex}")?;
    put_line(out, line.as_bytes())
}

fn mac_word(kind: i64) -> &'static str
    ensures { result.now ≡ word_of_mac kind }
{
    if kind == HMAC_SHA256 {
        "sha256"
    } else {
        "sha384"
    }
}

fn put_chain(alloc: Global, out: &mut Vec<u8>, chain: &Option<X5Chain>) -> Result<(), NoMemory>
    ensures { OnOk result (out.new.items ≡ out.old.items ++ ended (codes "chain " ++ word_of_chain chain.now)) }
{
    match chain {
        Some(chain) => {
            let count = chain.as_list().len();
            let line = format!(in alloc; "chain {count}")?;
            put_line(out, line.as_bytes())
        }
        None => put_line(out, b"chain none"),
    }
}

// ---- the rendezvous information

ghost use Rattle.voucher_tool.specs.Show.{rv_lines, directive_lines, instr_line, variable_name as name_of, variable_word as word_of_variable, value_word as word_of_value};
ghost use Rattle.std.specs.Option.{option_copied};

fn put_rv(alloc: Global, out: &mut Vec<u8>, rv: &[RvDirective]) -> Result<(), NoMemory>
    ensures { OnOk result (out.new.items ≡ out.old.items ++ text_of (rv_lines 0 rv.now)) }
{
    let mut index: usize = 0;
    for directive in rv {
        put_directive(alloc, out, index, directive.as_list())?;
        index += 1;
    }
    Ok(())
}

fn put_directive(
    alloc: Global,
    out: &mut Vec<u8>,
    directive: usize,
    instructions: &[RvInstr],
) -> Result<(), NoMemory>
    ensures { OnOk result (out.new.items ≡ out.old.items ++ text_of (directive_lines directive 0 instructions.now)) }
{
    let mut index: usize = 0;
    for instruction in instructions {
        put_instr(alloc, out, directive, index, instruction)?;
        index += 1;
    }
    Ok(())
}

fn put_instr(
    alloc: Global,
    out: &mut Vec<u8>,
    directive: usize,
    index: usize,
    instruction: &RvInstr,
) -> Result<(), NoMemory>
    ensures { OnOk result (out.new.items ≡ out.old.items ++ ended (instr_line directive index instruction.now)) }
{
    let name = variable_word(alloc, instruction.variable)?;
    let value = value_word(alloc, &instruction.value)?;
    let line = format!(in alloc; "rv {directive} {index} {name} {value}")?;
    put_line(out, line.as_bytes())
}

fn variable_word(alloc: Global, variable: u64) -> Result<String, NoMemory>
    ensures { IfOk result (λ word. string_bytes word ≡ word_of_variable variable) }
{
    match variable_name(variable) {
        Some(name) => Ok(String::from_str(alloc, name)?),
        None => Ok(format!(in alloc; "{variable}")?),
    }
}

#[tactic(auto, unfolding(crate::specs::Show::variable_name))]
fn variable_name(variable: u64) -> Option<&'static str>
    ensures { option_copied result ≡ name_of variable }
{
    match variable {
        0 => Some("RVDevOnly"),
        1 => Some("RVOwnerOnly"),
        2 => Some("RVIPAddress"),
        3 => Some("RVDevPort"),
        4 => Some("RVOwnerPort"),
        5 => Some("RVDns"),
        6 => Some("RVSvCertHash"),
        7 => Some("RVClCertHash"),
        8 => Some("RVUserInput"),
        9 => Some("RVWifiSsid"),
        10 => Some("RVWifiPw"),
        11 => Some("RVMedium"),
        12 => Some("RVProtocol"),
        13 => Some("RVDelaysec"),
        14 => Some("RVBypass"),
        15 => Some("RVExtRV"),
        _ => None,
    }
}

fn value_word(alloc: Global, value: &Option<Blob>) -> Result<String, NoMemory>
    ensures { IfOk result (λ word. string_bytes word ≡ word_of_value value.now) }
{
    match value {
        Some(bytes) => Ok(hex::encode(alloc, bytes.as_list())?),
        None => Ok(String::from_str(alloc, "-")?),
    }
}

// ---- the entries

ghost use Rattle.voucher_tool.specs.Show.{entries_line, entry_lines, entry_line};

fn put_entries(alloc: Global, out: &mut Vec<u8>, entries: &[Entry]) -> Result<(), NoMemory>
    ensures { OnOk result (out.new.items ≡ out.old.items ++ text_of (entries_line entries.now ∷ entry_lines 0 entries.now)) }
{
    let count = entries.len();
    let line = format!(in alloc; "entries {count}")?;
    put_line(out, line.as_bytes())?;
    put_each(alloc, out, entries)
}

fn put_each(alloc: Global, out: &mut Vec<u8>, entries: &[Entry]) -> Result<(), NoMemory>
    ensures { OnOk result (out.new.items ≡ out.old.items ++ text_of (entry_lines 0 entries.now)) }
{
    let mut index: usize = 0;
    for entry in entries {
        put_entry(alloc, out, index, entry)?;
        index += 1;
    }
    Ok(())
}

fn put_entry(alloc: Global, out: &mut Vec<u8>, index: usize, entry: &Entry) -> Result<(), NoMemory>
    ensures { OnOk result (out.new.items ≡ out.old.items ++ ended (entry_line index entry.now)) }
{
    let raw = received_key(alloc, entry)?;
    let words = words_of_key(alloc, &entry.key, raw.as_list())?;
    let line = format!(in alloc; "entry {index} key {words}")?;
    put_line(out, line.as_bytes())
}
