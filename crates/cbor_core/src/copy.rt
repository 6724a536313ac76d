ghost use Rattle.std.specs.Prelude.{◌≡◌, IfOk};

use crate::item::{Item, Items, Pairs};
use crate::no_memory::NoMemory;
use sqlite_items::Boxed;
use std::alloc::Global;

impl Item {
    /// An equal item.
    pub fn copy(&self, alloc: Global) -> Result<Item, NoMemory>
        ensures { IfOk result (λ item. item ≡ self.now) }
    {
        copy_item(alloc, self)
    }
}

#[cycle(copy)]
fn copy_item(alloc: Global, item: &Item) -> Result<Item, NoMemory>
    ensures { IfOk result (λ copied. copied ≡ item.now) }
{
    Ok(match item {
        Item::Uint(number) => Item::Uint(*number),
        Item::Nint(number) => Item::Nint(*number),
        Item::Bytes(bytes) => Item::Bytes(bytes.copy()?),
        Item::Text(text) => Item::Text(text.copy()?),
        Item::Array(items) => Item::Array(copy_items(alloc, items.as_slice())?),
        Item::Map(pairs) => Item::Map(copy_pairs(alloc, pairs.as_slice())?),
        Item::Tag(tag, content) => {
            Item::Tag(*tag, Boxed::new(alloc, copy_item(alloc, content.get())?)?)
        }
        Item::Simple(value) => Item::Simple(*value),
    })
}

#[cycle(copy)]
fn copy_items(alloc: Global, items: &[Item]) -> Result<Items, NoMemory>
    ensures { IfOk result (λ all. all ≡ items.now) }
{
    let mut all = Items::new(alloc);
    for item in items {
        all.push(copy_item(alloc, item)?)?;
    }
    Ok(all)
}

/// Equal pairs.
#[cycle(copy)]
pub fn copy_pairs(alloc: Global, pairs: &[(Item, Item)]) -> Result<Pairs, NoMemory>
    ensures { IfOk result (λ all. all ≡ pairs.now) }
{
    let mut all = Pairs::new(alloc);
    for (key, value) in pairs {
        all.push((copy_item(alloc, key)?, copy_item(alloc, value)?))?;
    }
    Ok(all)
}
