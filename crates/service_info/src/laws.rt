//! Laws of the definitions of `specs/`, for callers to cite.

ghost use Rattle.std.specs.Prelude.{◌≡◌, ℕ, List};
ghost use Rattle.std.specs.List.{flat_map};
ghost use Rattle.service_info.specs.declared.pair.Pair.{Pair};
ghost use Rattle.service_info.specs.Packed.{Packed};

/// The lists that pairs are cut into are all of the pairs, in order.
pub fn packed_whole()
    ensures { (size : ℕ) (pairs : List Pair) (lists : List (List Pair)) → Packed size pairs lists → flat_map (λ list. list) lists ≡ pairs }
{}

/// There is one way to cut them.
pub fn packed_once()
    ensures { (size : ℕ) (pairs : List Pair) (lists others : List (List Pair)) → Packed size pairs lists → Packed size pairs others → lists ≡ others }
{}
