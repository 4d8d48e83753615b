//! The texts that `_OSI` knows (ACPI 6.5, 5.7.2).
ghost use Rattle.std.specs.Prelude.{◌≡◌, [], ◌∷◌, ◌++◌, map, OnOk};

use std::alloc::{AllocError, Global};
use std::marker::Model;

/// Texts, in the order in which they came.
#[derive(Drop)]
pub struct OsiTexts {
    texts: Vec<Vec<u8>>,
}

impl Model for OsiTexts {
    ghost use Rattle.std.specs.Prelude.{ℕ, List, map};

    ghost Value = { List (List ℕ) };

    ghost view = { λ s. map (λ text. text.items) s.texts.items };
}

impl OsiTexts {
    /// No texts. It takes no memory.
    pub fn new(alloc: Global) -> OsiTexts
        ensures { result ≡ [] }
    {
        OsiTexts {
            texts: Vec::new(alloc),
        }
    }

    /// These texts, in this order. It takes no memory.
    pub fn from_vec(texts: Vec<Vec<u8>>) -> OsiTexts
        ensures { result ≡ map (λ text. text.items) texts.items }
    {
        OsiTexts { texts }
    }

    /// The texts.
    pub fn as_slice(&self) -> &[Vec<u8>]
        ensures { map (λ text. text.items) result.now ≡ self.now }
    {
        &self.texts
    }

    /// Adds a copy of a text.
    pub(crate) fn push(&mut self, alloc: Global, text: &[u8]) -> Result<(), AllocError>
        ensures { OnOk result (self.new ≡ self.old ++ text.now ∷ []) }
    {
        self.texts.push(Vec::from_slice(alloc, text)?)?;
        Ok(())
    }

    /// The texts, in a `Vec` of their own. It takes no memory.
    pub fn into_vec(self) -> Vec<Vec<u8>>
        ensures { map (λ text. text.items) result.items ≡ self }
    {
        self.texts
    }
}
