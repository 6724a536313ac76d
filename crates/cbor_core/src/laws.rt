//! Laws of the definitions of `specs/`, for callers to cite.

ghost use Rattle.std.specs.Prelude.{◌≡◌, ℕ, ◌^◌, ◌<◌, List, length, ◌++◌, ◌↔◌};
ghost use Rattle.cbor_core.specs.declared.item.Item.{Item};
ghost use Rattle.cbor_core.specs.Deterministic.{det};
ghost use Rattle.cbor_core.specs.Norm.{norm, IsFit};
ghost use Rattle.cbor_core.specs.Spelling.{Spells};
ghost use Rattle.cbor_core.specs.Spots.{Spot, start, spot_item, IsSpelled, HasParts};

/// No spelling is a proper prefix of another, and bytes spell at most one item.
pub fn one_spelling()
    ensures { (x y : Item) (a b rest more : List ℕ) → Spells x a → Spells y b → a ++ rest ≡ b ++ more → (x ≡ y) × (a ≡ b) }
{}

/// Two items have equal deterministic spellings exactly where they are equal up to the order of their maps' pairs.
pub fn equal_spellings()
    ensures { (x y : Item) → IsFit x → IsFit y → (det x ≡ det y) ↔ (norm x ≡ norm y) }
{}

/// Where an item is spelled, the items inside stand at the places of its parts, and are spelled there.
pub fn spelled_parts()
    ensures { (s : Spot) → IsSpelled s → length s.tail < 2 ^ 64 → HasParts s }
{}

/// What is written stands, up to the order of its maps' pairs, at the front of its bytes.
pub fn written_item()
    ensures { (x : Item) (bytes : List ℕ) → IsFit x → bytes ≡ det x → IsSpelled (start bytes) × (spot_item (start bytes) ≡ norm x) }
{}
