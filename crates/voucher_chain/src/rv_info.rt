ghost use Rattle.std.specs.Prelude.{◌≡◌, IfOk, map};
ghost use Rattle.cbor_core.specs.declared.item.Item.{out-Item};
ghost use Rattle.cbor_core.specs.Spots.{spot_item, spot_parts};
ghost use Rattle.voucher_chain.specs.Fault.{all_in, first_fault};
ghost use Rattle.voucher_chain.specs.RvInfo.{bare_instr, valued_instr, instr_in, directive_in, rv_in, instr_fault as fault_of_instr, directive_fault as fault_of_directive, rv_fault, rv_place, is_unsigned as is_an_unsigned, item_of_instr, item_of_directive, item_of_rv};

use cbor_core::{Blob, Item, Items, NoMemory, Part};
use std::alloc::Global;
use std::marker::Model;

/// An instruction of the rendezvous information (FIDO Device Onboard 1.1, section 3.7).
#[derive(Debug, Drop)]
pub struct RvInstr {
    /// The number of its variable.
    pub variable: u64,
    /// The bytes of its value, which hold one CBOR item where the variable has one.
    pub value: Option<Blob>,
}

/// The instructions of one directive, in order. Contracts see the list of them.
#[derive(Debug, Drop)]
pub struct RvDirective {
    instructions: Vec<RvInstr>,
}

impl Model for RvDirective {
    ghost use Rattle.std.specs.Prelude.{List};
    ghost use Rattle.voucher_chain.specs.declared.rv_info.RvInstr.{RvInstr};

    ghost Value = { List RvInstr };

    ghost view = { λ d. d.instructions.items };
}

/// Rendezvous information: directives in order. Contracts see the list of them.
#[derive(Debug, Drop)]
pub struct RvInfo {
    directives: Vec<RvDirective>,
}

impl Model for RvInfo {
    ghost use Rattle.std.specs.Prelude.{List};
    ghost use Rattle.voucher_chain.specs.declared.rv_info.RvInstr.{RvInstr};

    ghost Value = { List (List RvInstr) };

    ghost view = { λ r. r.directives.items };
}

impl RvInstr {
    /// An equal instruction.
    pub fn copy(&self) -> Result<RvInstr, NoMemory>
        ensures { IfOk result (λ copy. copy ≡ self.now) }
    {
        let value = match &self.value {
            Some(value) => Some(value.copy()?),
            None => None,
        };
        Ok(RvInstr {
            variable: self.variable,
            value,
        })
    }
}

impl RvDirective {
    pub fn new(instructions: Vec<RvInstr>) -> RvDirective
        ensures { result ≡ instructions.items }
    {
        RvDirective { instructions }
    }

    pub fn as_list(&self) -> &[RvInstr]
        ensures { result.now ≡ self.now }
    {
        self.instructions.as_slice()
    }

    pub fn into_vec(self) -> Vec<RvInstr>
        ensures { result.items ≡ self }
    {
        let RvDirective { instructions } = self;
        instructions
    }

    /// An equal directive.
    pub fn copy(&self, alloc: Global) -> Result<RvDirective, NoMemory>
        ensures { IfOk result (λ copy. copy ≡ self.now) }
    {
        let mut instructions = Vec::with_capacity(alloc, self.instructions.len())?;
        let all = self.instructions.as_slice();
        for instruction in all {
            instructions.push(instruction.copy()?)?;
        }
        Ok(RvDirective { instructions })
    }
}

impl RvInfo {
    pub fn new(directives: Vec<RvDirective>) -> RvInfo
        ensures { result ≡ directives.items }
    {
        RvInfo { directives }
    }

    pub fn as_list(&self) -> &[RvDirective]
        ensures { result.now ≡ self.now }
    {
        self.directives.as_slice()
    }

    pub fn into_vec(self) -> Vec<RvDirective>
        ensures { result.items ≡ self }
    {
        let RvInfo { directives } = self;
        directives
    }

    /// Equal rendezvous information.
    pub fn copy(&self, alloc: Global) -> Result<RvInfo, NoMemory>
        ensures { IfOk result (λ copy. copy ≡ self.now) }
    {
        let mut directives = Vec::with_capacity(alloc, self.directives.len())?;
        let all = self.directives.as_slice();
        for directive in all {
            directives.push(directive.copy(alloc)?)?;
        }
        Ok(RvInfo { directives })
    }
}

// ---- reading

/// The rendezvous information that an item says, or None where it is none.
pub fn read_rv(alloc: Global, item: &Item) -> Result<Option<RvInfo>, NoMemory>
    ensures { IfOk result (λ rv. rv ≡ rv_in item.now) }
{
    match item {
        Item::Array(items) => match read_directives(alloc, items.as_slice())? {
            Some(directives) => Ok(Some(RvInfo { directives })),
            None => Ok(None),
        },
        _ => Ok(None),
    }
}

ghost use Rattle.std.specs.Prelude.{option_map};

fn read_directives(alloc: Global, items: &[Item]) -> Result<Option<Vec<RvDirective>>, NoMemory>
    ensures { IfOk result (λ all. option_map (λ v. v.items) all ≡ all_in directive_in items.now) }
{
    let mut all = Vec::new(alloc);
    for item in items {
        match read_directive(alloc, item)? {
            Some(directive) => all.push(directive)?,
            None => return Ok(None),
        }
    }
    Ok(Some(all))
}

fn read_directive(alloc: Global, item: &Item) -> Result<Option<RvDirective>, NoMemory>
    ensures { IfOk result (λ directive. directive ≡ directive_in item.now) }
{
    match item {
        Item::Array(items) => match read_instructions(alloc, items.as_slice())? {
            Some(instructions) => Ok(Some(RvDirective { instructions })),
            None => Ok(None),
        },
        _ => Ok(None),
    }
}

fn read_instructions(alloc: Global, items: &[Item]) -> Result<Option<Vec<RvInstr>>, NoMemory>
    ensures { IfOk result (λ all. option_map (λ v. v.items) all ≡ all_in instr_in items.now) }
{
    let mut all = Vec::new(alloc);
    for item in items {
        match read_instruction(item)? {
            Some(instruction) => all.push(instruction)?,
            None => return Ok(None),
        }
    }
    Ok(Some(all))
}

fn read_instruction(item: &Item) -> Result<Option<RvInstr>, NoMemory>
    ensures { IfOk result (λ instr. instr ≡ instr_in item.now) }
{
    match item {
        Item::Array(items) => match items.as_slice() {
            [variable] => Ok(read_bare(variable)),
            [variable, value] => read_valued(variable, value),
            _ => Ok(None),
        },
        _ => Ok(None),
    }
}

fn read_bare(variable: &Item) -> Option<RvInstr>
    ensures { result ≡ bare_instr variable.now }
{
    match variable {
        Item::Uint(n) => Some(RvInstr {
            variable: *n,
            value: None,
        }),
        _ => None,
    }
}

fn read_valued(variable: &Item, value: &Item) -> Result<Option<RvInstr>, NoMemory>
    ensures { IfOk result (λ instr. instr ≡ valued_instr variable.now value.now) }
{
    match (variable, value) {
        (Item::Uint(n), Item::Bytes(bytes)) => Ok(Some(RvInstr {
            variable: *n,
            value: Some(bytes.copy()?),
        })),
        _ => Ok(None),
    }
}

// ---- where it is at fault

/// Where a part that is no rendezvous information is not of its form.
pub fn find_rv_fault(part: &Part) -> usize
    ensures { result ≡ rv_place part.now.spot }
{
    match rv_info_fault(part) {
        Some(place) => place,
        None => part.at(),
    }
}

fn rv_info_fault(part: &Part) -> Option<usize>
    ensures { result ≡ rv_fault part.now.spot }
{
    if part.is_array() {
        directives_fault(part)
    } else {
        Some(part.at())
    }
}

fn directives_fault(part: &Part) -> Option<usize>
    ensures { result ≡ first_fault fault_of_directive (spot_parts part.now.spot) }
{
    let mut next = part.inside();
    while let Some(directive) = next {
        if let Some(place) = directive_fault(&directive) {
            return Some(place);
        }
        next = directive.after();
    }
    None
}

fn directive_fault(part: &Part) -> Option<usize>
    ensures { result ≡ fault_of_directive part.now.spot }
{
    if part.is_array() {
        instructions_fault(part)
    } else {
        Some(part.at())
    }
}

fn instructions_fault(part: &Part) -> Option<usize>
    ensures { result ≡ first_fault fault_of_instr (spot_parts part.now.spot) }
{
    let mut next = part.inside();
    while let Some(instruction) = next {
        if let Some(place) = instr_fault(&instruction) {
            return Some(place);
        }
        next = instruction.after();
    }
    None
}

fn instr_fault(part: &Part) -> Option<usize>
    ensures { result ≡ fault_of_instr part.now.spot }
{
    if part.is_array() {
        instr_parts_fault(part)
    } else {
        Some(part.at())
    }
}

ghost use Rattle.voucher_chain.specs.RvInfo.{instr_parts_fault as fault_of_parts};

fn instr_parts_fault(part: &Part) -> Option<usize>
    ensures { result ≡ fault_of_parts part.now.spot.at (spot_parts part.now.spot) }
{
    let Some(variable) = part.inside() else {
        return Some(part.at());
    };
    let Some(value) = variable.after() else {
        return unless(is_unsigned(&variable), &variable);
    };
    if value.after().is_some() {
        return Some(part.at());
    }
    if is_unsigned(&variable) {
        unless(value.is_bytes(), &value)
    } else {
        Some(variable.at())
    }
}

ghost use Rattle.std.specs.Prelude.{Some, None, if◌then◌else◌};

/// The place of a part that is not right.
fn unless(right: bool, part: &Part) -> Option<usize>
    ensures { result ≡ (if right then None else Some part.now.spot.at) }
{
    if right { None } else { Some(part.at()) }
}

fn is_unsigned(part: &Part) -> bool
    ensures { result ≡ is_an_unsigned part.now.spot }
{
    part.major() == 0
}

// ---- writing

ghost use Rattle.std.specs.Prelude.{◌<◌, ◌^◌};
ghost use Rattle.std.specs.List.{AllByRecursion};
ghost use Rattle.voucher_chain.specs.RvInfo.{AreNumbers};

/// The item that rendezvous information is written as.
#[tactic(auto, using(crate::proofs::InMemory::all_next))]
pub fn rv_item(alloc: Global, rv: &RvInfo) -> Result<Item, NoMemory>
    ensures item { IfOk result (λ item. item ≡ item_of_rv rv.now) }
    // The numbers of its variables have 64 bits.
    ensures numbers { IfOk result (λ item. AllByRecursion AreNumbers rv.now) }
{
    let mut items = Items::new(alloc);
    let directives = rv.as_list();
    for directive in directives {
        items.push(directive_item(alloc, directive)?)?;
    }
    Ok(Item::Array(items))
}

#[tactic(auto, using(crate::proofs::InMemory::all_next))]
fn directive_item(alloc: Global, directive: &RvDirective) -> Result<Item, NoMemory>
    ensures item { IfOk result (λ item. item ≡ item_of_directive directive.now) }
    ensures numbers { IfOk result (λ item. AreNumbers directive.now) }
{
    let mut items = Items::new(alloc);
    let instructions = directive.as_list();
    for instruction in instructions {
        items.push(instr_item(alloc, instruction)?)?;
    }
    Ok(Item::Array(items))
}

fn instr_item(alloc: Global, instruction: &RvInstr) -> Result<Item, NoMemory>
    ensures item { IfOk result (λ item. item ≡ item_of_instr instruction.now) }
    ensures number { instruction.now.variable < 2 ^ 64 }
{
    is_number(instruction.variable);
    let mut items = Items::new(alloc);
    items.push(Item::Uint(instruction.variable))?;
    if let Some(value) = &instruction.value {
        items.push(Item::Bytes(value.copy()?))?;
    }
    Ok(Item::Array(items))
}

fn is_number(n: u64)
    ensures { n < 2 ^ 64 }
{}
