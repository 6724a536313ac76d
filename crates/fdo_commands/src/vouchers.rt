ghost use Rattle.std.specs.Prelude.{◌≡◌, ◌≤◌, ◌≢◌, ℕ, length, IfOk, MatchResult};
ghost use Rattle.suite_port.specs.Keys.{keys};
ghost use Rattle.fdo_ports.specs.Stream.{OnlyRead, OnlyWritten, stream};
ghost use Rattle.port_base.specs.Told.{grown};
ghost use Rattle.fdo_commands.specs.declared.texts.Told.TheVariants as told;
ghost use Rattle.fdo_commands.specs.Ending.{lent};
ghost use Rattle.fdo_commands.specs.Texts.{TextEnds};
ghost use Rattle.fdo_commands.specs.Vouchers.{Checks, ChecksFront, checking, showing};
ghost use Rattle.fdo_commands.specs.Vouchers.{asks_until, fault_place as place_of, refused_as, show_of, told_as};
ghost use Rattle.voucher_chain.specs.Chain.{checkings, first_break};
ghost use Rattle.voucher_chain.specs.declared.fault.ChainFault.TheVariants.{NoMemory as OutOfMemory};
ghost use Rattle.voucher_tool.specs.Check.{check_told};
ghost use Rattle.voucher_tool.specs.Show.{show_text};
ghost use Rattle.voucher_chain.specs.Reading.{most_entries};

use crate::input::read_input;
use crate::status::Status;
use crate::texts::{Told, end_found, end_unread};
use cbor_core::NoMemory;
use fdo_ports::{Sink, Source};
use std::alloc::Global;
use suite_port::Suite;
use voucher_chain::{ChainFault, Voucher, read_voucher};
use voucher_tool::{check, refusal, show};

// ---- the commands

/// Writes what a voucher says.
pub(crate) fn voucher_show<I: Source, O: Sink>(
    alloc: Global,
    input: &mut I,
    output: &mut O,
) -> Status
    ensures ends { TextEnds showing
        (lent tt (stream I.Channel input.old) (stream O.Channel output.old))
        (lent tt (stream I.Channel input.new) (stream O.Channel output.new)) result }
    ensures input { OnlyRead (stream I.Channel input.old) (stream I.Channel input.new) }
    ensures output { OnlyWritten (stream O.Channel output.old) (stream O.Channel output.new) }
{
    match read_input(alloc, input) {
        Ok(bytes) => end_found(output, show_bytes(alloc, bytes.as_slice())),
        Err(fault) => end_unread(output, fault),
    }
}

/// Checks a voucher's chain of owners.
pub(crate) fn voucher_check<I: Source, O: Sink, S: Suite>(
    alloc: Global,
    input: &mut I,
    output: &mut O,
    suite: &mut S,
) -> Status
    ensures ends { TextEnds (checking S.Verifier.verifies)
        (lent (keys S.Holder suite.old) (stream I.Channel input.old) (stream O.Channel output.old))
        (lent (keys S.Holder suite.new) (stream I.Channel input.new) (stream O.Channel output.new)) result }
    ensures input { OnlyRead (stream I.Channel input.old) (stream I.Channel input.new) }
    ensures output { OnlyWritten (stream O.Channel output.old) (stream O.Channel output.new) }
{
    match read_input(alloc, input) {
        Ok(bytes) => {
            let found = check_bytes(alloc, suite, bytes.as_slice());
            end_found(output, found)
        }
        Err(fault) => end_unread(output, fault),
    }
}

// ---- what they tell of their input

fn show_bytes(alloc: Global, bytes: &[u8]) -> Result<Told, NoMemory>
    ensures { IfOk result (λ what. what ≡ show_of bytes.now) }
{
    match read_voucher(alloc, bytes) {
        Ok(voucher) => shown(alloc, &voucher),
        Err(fault) => not_shown(fault),
    }
}

fn shown(alloc: Global, voucher: &Voucher) -> Result<Told, NoMemory>
    ensures { IfOk result (λ what. what ≡ told.Text (show_text voucher.now)) }
{
    Ok(Told::Text(show(alloc, voucher)?))
}

fn not_shown(fault: ChainFault) -> Result<Told, NoMemory>
    ensures { IfOk result (λ what. (fault ≢ OutOfMemory) × (what ≡ told.Wrong (place_of fault))) }
{
    match fault {
        ChainFault::NoMemory => Err(NoMemory),
        _ => Ok(Told::Wrong(fault_place(fault))),
    }
}

fn check_bytes<S: Suite>(alloc: Global, suite: &mut S, bytes: &[u8]) -> Result<Told, NoMemory>
    ensures { MatchResult result
        (λ what. Checks S.Verifier.verifies
        (keys S.Holder suite.old) bytes.now what
        (keys S.Holder suite.new))
        (λ _. ChecksFront
        (keys S.Holder suite.old) bytes.now
        (keys S.Holder suite.new)) }
{
    match read_voucher(alloc, bytes) {
        Ok(voucher) => checked(alloc, suite, &voucher),
        Err(fault) => refused(alloc, fault),
    }
}

fn checked<S: Suite>(alloc: Global, suite: &mut S, voucher: &Voucher) -> Result<Told, NoMemory>
    requires { length voucher.now.entries ≤ most_entries }
    ensures told { IfOk result (λ what. what ≡ told_as (check_told S.Verifier.verifies voucher.now)) }
    ensures asked { MatchResult result
        (λ _. S.Holder.asked suite.new ≡ grown (S.Holder.asked suite.old) (asks_until voucher.now (first_break S.Verifier.verifies voucher.now)))
        (λ _. (n : ℕ) × (S.Holder.asked suite.new ≡ grown (S.Holder.asked suite.old) (checkings n voucher.now.header.key voucher.now.entries))) }
    ensures held { S.Holder.held suite.new ≡ S.Holder.held suite.old }
    ensures suite_faults { S.Holder.faults suite.new ≡ S.Holder.faults suite.old }
{
    match check(alloc, suite, voucher) {
        Ok(text) => Ok(Told::Text(text)),
        Err(fault) => refused(alloc, fault),
    }
}

/// What is told of a voucher that is refused.
pub(crate) fn refused(alloc: Global, fault: ChainFault) -> Result<Told, NoMemory>
    ensures { IfOk result (λ what. (fault ≢ OutOfMemory) × (what ≡ refused_as fault)) }
{
    match fault {
        ChainFault::NoMemory => Err(NoMemory),
        _ => line_or_place(alloc, fault),
    }
}

fn line_or_place(alloc: Global, fault: ChainFault) -> Result<Told, NoMemory>
    ensures { IfOk result (λ what. what ≡ refused_as fault) }
{
    match refusal(alloc, fault) {
        Ok(Some(line)) => Ok(Told::Refused(line)),
        Ok(None) => Ok(Told::Wrong(fault_place(fault))),
        Err(_) => Err(NoMemory),
    }
}

fn fault_place(fault: ChainFault) -> usize
    ensures { result ≡ place_of fault }
{
    match fault {
        ChainFault::BadShape(place) => place,
        _ => 0,
    }
}
