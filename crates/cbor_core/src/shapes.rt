//! Parts of a known form: null, arrays of a known length, strings of a known length, labels and tags.

ghost use Rattle.std.specs.Prelude.{◌≡◌, option_map};
ghost use Rattle.cbor_core.specs.declared.item.Item.{out-Item};
ghost use Rattle.cbor_core.specs.Numbers.{integer_in};
ghost use Rattle.cbor_core.specs.Spots.{spot_item, spot_parts};
ghost use Rattle.cbor_core.specs.Shapes.{is_null as is_null_item, is_bytes as is_bytes_item, is_text as is_text_item, is_array as is_array_item, is_map as is_map_item, of_length, two_items, three_items, four_items, five_items, six_items, two_spots, three_spots, four_spots, five_spots, six_spots, tagged_in, tagged_at, labelled_in, labelled_at, labelled_spot};

use crate::part::Part;

/// These bytes as an array, where they are so many.
pub fn exactly<const N: usize>(bytes: &[u8]) -> Option<[u8; N]>
    ensures { result ≡ of_length N bytes.now }
{
    if bytes.len() != N {
        return None;
    }
    let mut all = [0u8; N];
    all.copy_from_slice(bytes);
    Some(all)
}

impl<'a> Part<'a> {
    /// The number that the part is, where it is one of `i64`.
    pub fn integer(&self) -> Option<i64>
        ensures { result ≡ integer_in (spot_item self.now.spot) }
    {
        match (self.major(), self.number()) {
            (0, Some(n)) if n < 1 << 63 => Some(n as i64),
            (1, Some(n)) if n < 1 << 63 => Some(-1 - (n as i64)),
            _ => None,
        }
    }

    /// Whether it is null (RFC 8949, section 3.3).
    pub fn is_null(&self) -> bool
        ensures { result ≡ is_null_item (out-Item (spot_item self.now.spot)) }
    {
        match (self.major(), self.number()) {
            (7, Some(n)) => n == 22,
            _ => false,
        }
    }

    /// Whether it is a byte string (RFC 8949, section 3.1).
    pub fn is_bytes(&self) -> bool
        ensures { result ≡ is_bytes_item (out-Item (spot_item self.now.spot)) }
    {
        self.major() == 2
    }

    /// Whether it is a text (RFC 8949, section 3.1).
    pub fn is_text(&self) -> bool
        ensures { result ≡ is_text_item (out-Item (spot_item self.now.spot)) }
    {
        self.major() == 3
    }

    /// Whether it is an array (RFC 8949, section 3.1).
    pub fn is_array(&self) -> bool
        ensures { result ≡ is_array_item (out-Item (spot_item self.now.spot)) }
    {
        self.major() == 4
    }

    /// Whether it is a map (RFC 8949, section 3.1).
    pub fn is_map(&self) -> bool
        ensures { result ≡ is_map_item (out-Item (spot_item self.now.spot)) }
    {
        self.major() == 5
    }

    /// The parts of an array of two.
    pub fn two(&self) -> Option<(Part<'a>, Part<'a>)>
        ensures spots { option_map (λ p. (p.0.spot, p.1.spot)) result ≡ two_spots self.now.spot }
        ensures items { option_map (λ p. (spot_item p.0.spot, spot_item p.1.spot)) result ≡ two_items (spot_item self.now.spot) }
    {
        self.parts_say();
        two_parts(self)
    }

    /// The parts of an array of three.
    pub fn three(&self) -> Option<(Part<'a>, Part<'a>, Part<'a>)>
        ensures spots { option_map (λ p. (p.0.spot, p.1.spot, p.2.spot)) result ≡ three_spots self.now.spot }
        ensures items { option_map (λ p. (spot_item p.0.spot, spot_item p.1.spot, spot_item p.2.spot)) result ≡ three_items (spot_item self.now.spot) }
    {
        self.parts_say();
        three_parts(self)
    }

    /// The parts of an array of four.
    pub fn four(&self) -> Option<(Part<'a>, Part<'a>, Part<'a>, Part<'a>)>
        ensures spots { option_map (λ p. (p.0.spot, p.1.spot, p.2.spot, p.3.spot)) result ≡ four_spots self.now.spot }
        ensures items { option_map (λ p. (spot_item p.0.spot, spot_item p.1.spot, spot_item p.2.spot, spot_item p.3.spot)) result ≡ four_items (spot_item self.now.spot) }
    {
        self.parts_say();
        four_parts(self)
    }

    /// The parts of an array of five.
    pub fn five(&self) -> Option<(Part<'a>, Part<'a>, Part<'a>, Part<'a>, Part<'a>)>
        ensures spots { option_map (λ p. (p.0.spot, p.1.spot, p.2.spot, p.3.spot, p.4.spot)) result ≡ five_spots self.now.spot }
        ensures items { option_map (λ p. (spot_item p.0.spot, spot_item p.1.spot, spot_item p.2.spot, spot_item p.3.spot, spot_item p.4.spot)) result ≡ five_items (spot_item self.now.spot) }
    {
        self.parts_say();
        five_parts(self)
    }

    /// The parts of an array of six.
    pub fn six(&self) -> Option<(Part<'a>, Part<'a>, Part<'a>, Part<'a>, Part<'a>, Part<'a>)>
        ensures spots { option_map (λ p. (p.0.spot, p.1.spot, p.2.spot, p.3.spot, p.4.spot, p.5.spot)) result ≡ six_spots self.now.spot }
        ensures items { option_map (λ p. (spot_item p.0.spot, spot_item p.1.spot, spot_item p.2.spot, spot_item p.3.spot, spot_item p.4.spot, spot_item p.5.spot)) result ≡ six_items (spot_item self.now.spot) }
    {
        self.parts_say();
        six_parts(self)
    }

    /// The value beside the key that is this label, where the part is a map that has it (RFC 9052, section 1.5).
    pub fn labelled(&self, label: i64) -> Option<Part<'a>>
        ensures spots { option_map (λ p. p.spot) result ≡ labelled_at label self.now.spot }
        ensures items { option_map (λ p. spot_item p.spot) result ≡ labelled_in label (spot_item self.now.spot) }
    {
        self.parts_say();
        labelled_part(self, label)
    }

    /// What a tag of this number holds (RFC 8949, section 3.4), or None where the part is no such tag.
    pub fn tagged(&self, number: u64) -> Option<Part<'a>>
        ensures spots { option_map (λ p. p.spot) result ≡ tagged_at number self.now.spot }
        ensures items { option_map (λ p. spot_item p.spot) result ≡ tagged_in number (spot_item self.now.spot) }
    {
        self.parts_say();
        tagged_part(self, number)
    }
}

fn two_parts<'a>(part: &Part<'a>) -> Option<(Part<'a>, Part<'a>)>
    ensures { option_map (λ p. (p.0.spot, p.1.spot)) result ≡ two_spots part.now.spot }
{
    if !part.is_array() {
        return None;
    }
    let first = part.inside()?;
    let second = first.after()?;
    match second.after() {
        None => Some((first, second)),
        Some(_) => None,
    }
}

fn three_parts<'a>(part: &Part<'a>) -> Option<(Part<'a>, Part<'a>, Part<'a>)>
    ensures { option_map (λ p. (p.0.spot, p.1.spot, p.2.spot)) result ≡ three_spots part.now.spot }
{
    if !part.is_array() {
        return None;
    }
    let first = part.inside()?;
    let second = first.after()?;
    let third = second.after()?;
    match third.after() {
        None => Some((first, second, third)),
        Some(_) => None,
    }
}

fn four_parts<'a>(part: &Part<'a>) -> Option<(Part<'a>, Part<'a>, Part<'a>, Part<'a>)>
    ensures { option_map (λ p. (p.0.spot, p.1.spot, p.2.spot, p.3.spot)) result ≡ four_spots part.now.spot }
{
    if !part.is_array() {
        return None;
    }
    let first = part.inside()?;
    let second = first.after()?;
    let third = second.after()?;
    let fourth = third.after()?;
    match fourth.after() {
        None => Some((first, second, third, fourth)),
        Some(_) => None,
    }
}

fn five_parts<'a>(part: &Part<'a>) -> Option<(Part<'a>, Part<'a>, Part<'a>, Part<'a>, Part<'a>)>
    ensures { option_map (λ p. (p.0.spot, p.1.spot, p.2.spot, p.3.spot, p.4.spot)) result ≡ five_spots part.now.spot }
{
    if !part.is_array() {
        return None;
    }
    let first = part.inside()?;
    let second = first.after()?;
    let third = second.after()?;
    let fourth = third.after()?;
    let fifth = fourth.after()?;
    match fifth.after() {
        None => Some((first, second, third, fourth, fifth)),
        Some(_) => None,
    }
}

fn six_parts<'a>(
    part: &Part<'a>,
) -> Option<(Part<'a>, Part<'a>, Part<'a>, Part<'a>, Part<'a>, Part<'a>)>
    ensures { option_map (λ p. (p.0.spot, p.1.spot, p.2.spot, p.3.spot, p.4.spot, p.5.spot)) result ≡ six_spots part.now.spot }
{
    if !part.is_array() {
        return None;
    }
    let first = part.inside()?;
    let second = first.after()?;
    let third = second.after()?;
    let fourth = third.after()?;
    let fifth = fourth.after()?;
    let sixth = fifth.after()?;
    match sixth.after() {
        None => Some((first, second, third, fourth, fifth, sixth)),
        Some(_) => None,
    }
}

fn labelled_part<'a>(map: &Part<'a>, label: i64) -> Option<Part<'a>>
    ensures { option_map (λ p. p.spot) result ≡ labelled_at label map.now.spot }
{
    if map.is_map() {
        find_label(map, label)
    } else {
        None
    }
}

/// The value beside the first key that is the label, among keys and values in turn.
fn find_label<'a>(map: &Part<'a>, label: i64) -> Option<Part<'a>>
    ensures { option_map (λ p. p.spot) result ≡ labelled_spot label (spot_parts map.now.spot) }
{
    let mut next = map.inside();
    while let Some(key) = next {
        let Some(value) = key.after() else {
            return None;
        };
        if key.integer() == Some(label) {
            return Some(value);
        }
        next = value.after();
    }
    None
}

fn tagged_part<'a>(part: &Part<'a>, number: u64) -> Option<Part<'a>>
    ensures { option_map (λ p. p.spot) result ≡ tagged_at number part.now.spot }
{
    match (part.major(), part.number()) {
        (6, Some(n)) if n == number => part.inside(),
        _ => None,
    }
}
