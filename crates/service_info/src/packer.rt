ghost use Rattle.std.specs.Prelude.{◌≡◌, ◌≢◌, ◌↔◌, ◌+◌, ◌-◌, ◌<◌, ◌≤◌, ℕ, [], ◌∷◌, drop, length, position, reverse, take, IfOk, OnOk, OnErr, IfSome, IfNone, IsTrue};
ghost use Rattle.cbor_core.specs.Head.{head};
ghost use Rattle.service_info.specs.Fault.{fault_of};
ghost use Rattle.service_info.specs.Packed.{IsCut, BeginsPacked, too_wide, is_too_wide as has_no_room};
ghost use Rattle.service_info.specs.Pairs.{Fits, length_of, pair_length};

use crate::info_fault::InfoFault;
use crate::info_pairs::InfoPairs;
use crate::pair::Pair;
use cbor_core::NoMemory;
use std::alloc::Global;
use std::marker::Model;

/// Pairs that are cut into the lists of messages. Contracts see those still to be sent, and the size of a message.
#[derive(Drop)]
pub struct Packer {
    /// The pairs still to be sent, the next one last.
    reversed: Vec<Pair>,
    size: u64,
}

impl Model for Packer {
    ghost use Rattle.std.specs.Prelude.{◌≡◌, false, reverse};
    ghost use Rattle.std.specs.List.{list_any};
    ghost use Rattle.service_info.specs.Packed.{Parcel, is_too_wide};

    ghost Value = { Parcel };

    ghost view = { λ p. record { left = reverse p.reversed.items; size = p.size } };

    ghost invariant = { λ p. list_any (is_too_wide p.size) p.reversed.items ≡ false };
}

impl Packer {
    /// The pairs in order, for messages whose lists of pairs have at most so many bytes. Refused is only the first pair
    /// that has no room alone.
    #[tactic(auto, using(crate::proofs::CutLaws::none_at, crate::proofs::CutLaws::any_reversed))]
    pub fn new(pairs: Vec<Pair>, size: u64) -> Result<Packer, InfoFault>
        ensures packer { IfOk result (λ packer. packer ≡ record { left = pairs.items; size = size }) }
        ensures refused { fault_of result ≡ too_wide size pairs.items }
    {
        if let Some(place) = find_wide(size, pairs.as_slice()) {
            return Err(InfoFault::TooWide(place));
        }
        Ok(Packer {
            reversed: reversed(pairs),
            size,
        })
    }

    /// The next list, and whether more pairs follow it. At the end it is an empty list.
    #[tactic(auto, using(crate::proofs::CutLaws::any_front))]
    pub fn next(&mut self, _alloc: Global) -> Result<(bool, InfoPairs), NoMemory>
        // It is the longest that has room.
        ensures cut { IfOk result (λ next. IsCut self.old.size self.old.left next.1 self.new.left) }
        ensures more { IfOk result (λ next. IsTrue next.0 ↔ (self.new.left ≢ [])) }
        // It has a pair while there is one.
        ensures some { IfOk result (λ next. self.old.left ≢ [] → next.1 ≢ []) }
        // All lists that are given are those that the pairs are cut into.
        ensures packed { IfOk result (λ next. BeginsPacked self.old next.1 self.new) }
        ensures size { self.new.size ≡ self.old.size }
        ensures no_memory { OnErr result (self.new.left ≡ self.old.left) }
    {
        let count = count_fitting(self.size, self.reversed.as_slice());
        let list = take_end(&mut self.reversed, count)?;
        Ok((!self.reversed.is_empty(), InfoPairs::new(list)))
    }
}

/// The pairs, the last one first.
pub(crate) fn reversed(pairs: Vec<Pair>) -> Vec<Pair>
    ensures { result.items ≡ reverse pairs.items }
{
    let mut reversed = pairs;
    reversed.as_mut_slice().reverse();
    reversed
}

/// The first pair that has no room alone.
fn find_wide(size: u64, pairs: &[Pair]) -> Option<usize>
    ensures { result ≡ position (has_no_room size) pairs.now }
{
    pairs.iter().position(|pair| is_too_wide(size, pair))
}

fn is_too_wide(size: u64, pair: &Pair) -> bool
    ensures { result ≡ has_no_room size pair.now }
{
    match room_behind(size, pair, 1) {
        Some(_) => false,
        None => true,
    }
}

/// How many pairs from the end have room together.
#[tactic(auto, using(crate::proofs::PackLaws::more_pairs, crate::proofs::PackLaws::front_fits, crate::proofs::PackLaws::front_passes))]
fn count_fitting(size: u64, reversed: &[Pair]) -> usize
    ensures within { result ≤ length reversed.now }
    ensures fits { result ≢ 0 → Fits size (take result (reverse reversed.now)) }
    ensures longest { result < length reversed.now → size < length_of (take (result + 1) (reverse reversed.now)) }
{
    let mut room = size;
    let mut count = 0;
    while count < reversed.len() {
        let pair = &reversed[reversed.len() - 1 - count];
        match room_behind(room, pair, count + 1) {
            Some(left) => room = left,
            None => return count,
        }
        count += 1;
    }
    count
}

/// Moves the last so many out, the last one first.
fn take_end(reversed: &mut Vec<Pair>, count: usize) -> Result<Vec<Pair>, NoMemory>
    requires { count ≤ length reversed.old.items }
    ensures list { IfOk result (λ list. list.items ≡ reverse (drop (length reversed.old.items - count) reversed.old.items)) }
    ensures rest { OnOk result (reversed.new.items ≡ take (length reversed.old.items - count) reversed.old.items) }
    ensures no_memory { OnErr result (reversed.new.items ≡ reversed.old.items) }
{
    let mut list = reversed.split_off(reversed.len() - count)?;
    list.as_mut_slice().reverse();
    Ok(list)
}

/// The room left behind a pair, where there is room for it and for the head of a list of so many.
#[tactic(auto, using(crate::proofs::PackLaws::length_of_pair))]
fn room_behind(room: u64, pair: &Pair, count: usize) -> Option<u64>
    ensures some { IfSome result (λ left. (room ≡ left + pair_length pair.now) × (length (head 4 count) ≤ left)) }
    ensures none { IfNone result (room < pair_length pair.now + length (head 4 count)) }
{
    let left = room.checked_sub(1)?;
    let left = room_behind_string(left, pair.key.as_list().as_bytes())?;
    let left = room_behind_string(left, pair.value.as_list())?;
    if left < head_length(count as u64) {
        None
    } else {
        Some(left)
    }
}

/// The room left behind a string and its head, where there is room for them.
fn room_behind_string(room: u64, content: &[u8]) -> Option<u64>
    ensures some { IfSome result (λ left. room ≡ left + (length (head 4 (length content.now)) + length content.now)) }
    ensures none { IfNone result (room < length (head 4 (length content.now)) + length content.now) }
{
    let length = content.len() as u64;
    room.checked_sub(head_length(length))?.checked_sub(length)
}

/// How many bytes the shortest head with this argument has, whatever its major type (RFC 8949, section 3).
#[tactic(auto, unfolding(cbor_core::specs::Head::head))]
fn head_length(argument: u64) -> u64
    ensures { result ≡ length (head 4 argument) }
{
    if argument < 24 {
        1
    } else if argument < 1 << 8 {
        2
    } else if argument < 1 << 16 {
        3
    } else if argument < 1 << 32 {
        5
    } else {
        9
    }
}
