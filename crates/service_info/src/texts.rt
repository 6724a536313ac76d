ghost use Rattle.std.specs.Prelude.{◌≡◌, IfOk};

use cbor_core::{NoMemory, Text};
use std::alloc::Global;
use std::marker::Model;

/// Texts in order. Contracts see the list of them.
#[derive(Debug, Drop)]
pub struct Texts {
    texts: Vec<Text>,
}

impl Model for Texts {
    ghost use Rattle.std.specs.Prelude.{List, ℕ};

    ghost Value = { List (List ℕ) };

    ghost view = { λ t. t.texts.items };
}

impl Texts {
    pub fn new(texts: Vec<Text>) -> Texts
        ensures { result ≡ texts.items }
    {
        Texts { texts }
    }

    pub fn as_list(&self) -> &[Text]
        ensures { result.now ≡ self.now }
    {
        self.texts.as_slice()
    }

    pub fn into_vec(self) -> Vec<Text>
        ensures { result.items ≡ self }
    {
        let Texts { texts } = self;
        texts
    }

    /// Equal texts.
    pub fn copy(&self, alloc: Global) -> Result<Texts, NoMemory>
        ensures { IfOk result (λ copy. copy ≡ self.now) }
    {
        let mut texts = Vec::with_capacity(alloc, self.texts.len())?;
        let all = self.texts.as_slice();
        for text in all {
            texts.push(text.copy()?)?;
        }
        Ok(Texts { texts })
    }
}
