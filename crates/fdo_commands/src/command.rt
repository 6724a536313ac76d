ghost use Rattle.std.specs.Prelude.{◌≡◌, ◌↔◌, codes, IfOk, IfErr, IsTrue, bytes_eq};
ghost use Rattle.fdo_commands.specs.Commands.{HasKeys, IsExtendForm, command_said, two_said};
ghost use Rattle.fdo_commands.specs.Commands.{extend_of, extend_said, extend_with, four_said};
ghost use Rattle.fdo_commands.specs.KeyWords.{bytes_said};

use crate::key_words::{read_bytes, read_key_word};
use cbor_core::{Blob, NoMemory, Text};
use key_codec::PublicKey;
use std::alloc::Global;

/// A command of the program.
#[derive(Debug, Drop)]
pub enum Command {
    /// `step rendezvous`: answers messages, a line each, as the rendezvous server.
    StepRendezvous,
    /// `voucher show`: writes what a voucher says.
    VoucherShow,
    /// `voucher check`: checks a voucher's chain of owners.
    VoucherCheck,
    /// `voucher extend KEY PRIVATE`: adds an entry for the next owner, whose public key KEY is the hex of, signed with the
    /// last owner's key, whose private bytes PRIVATE is the hex of.
    VoucherExtend(PublicKey, Blob),
}

impl Command {
    /// The command that the words name, or None where they name none. Only `voucher extend` with two words more takes
    /// memory.
    pub fn of(alloc: Global, words: &[Text]) -> Result<Option<Command>, NoMemory>
        ensures found { IfOk result (λ command. command ≡ command_said words.now) }
        // A key that is read is of the form.
        ensures keys { IfOk result HasKeys }
        ensures no_memory { IfErr result (λ _. IsExtendForm words.now) }
    {
        match words {
            [one, two] => Ok(of_two(one, two)),
            [one, two, three, four] => of_four(alloc, one, two, three, four),
            _ => Ok(None),
        }
    }
}

fn of_two(one: &Text, two: &Text) -> Option<Command>
    ensures { result ≡ two_said one.now two.now }
{
    if is(one, "step") && is(two, "rendezvous") {
        Some(Command::StepRendezvous)
    } else if is(one, "voucher") && is(two, "show") {
        Some(Command::VoucherShow)
    } else if is(one, "voucher") && is(two, "check") {
        Some(Command::VoucherCheck)
    } else {
        None
    }
}

fn of_four(
    alloc: Global,
    one: &Text,
    two: &Text,
    three: &Text,
    four: &Text,
) -> Result<Option<Command>, NoMemory>
    ensures found { IfOk result (λ found. found ≡ four_said one.now two.now three.now four.now) }
    ensures extend { IfErr result (λ _. (one.now ≡ codes "voucher") × (two.now ≡ codes "extend")) }
{
    if is(one, "voucher") && is(two, "extend") {
        read_extend(alloc, three, four)
    } else {
        Ok(None)
    }
}

/// The command `voucher extend` with its two words, or None where one of them is not of its form.
fn read_extend(alloc: Global, key: &Text, private: &Text) -> Result<Option<Command>, NoMemory>
    ensures { IfOk result (λ found. found ≡ extend_said key.now private.now) }
{
    match read_key_word(alloc, key)? {
        Some(next) => with_private(alloc, next, private),
        None => Ok(None),
    }
}

fn with_private(alloc: Global, next: PublicKey, private: &Text) -> Result<Option<Command>, NoMemory>
    ensures { IfOk result (λ found. found ≡ extend_with next (bytes_said private.now)) }
{
    match read_bytes(alloc, private)? {
        Some(private) => Ok(Some(Command::VoucherExtend(next, private))),
        None => Ok(None),
    }
}

fn is(word: &Text, text: &str) -> bool
    ensures value { result ≡ bytes_eq word.now text.now }
    ensures same { IsTrue result ↔ (word.now ≡ text.now) }
{
    word.as_list() == text
}
