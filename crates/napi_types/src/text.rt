//! Texts, and the table of a script's texts.
ghost use Rattle.std.specs.Prelude.{◌≡◌, IfOk, slice_get, option_map};
ghost use Rattle.napi_types.specs.plain.Texts.{IsTextTable};

use crate::{NoMemory, TextNo};
use std::alloc::Global;
use std::marker::Model;

/// A text, seen as its bytes.
#[derive(Drop)]
pub struct Text {
    letters: Vec<u8>,
}

impl Model for Text {
    ghost use Rattle.std.specs.Prelude.{List, ℕ};

    ghost Value = { List ℕ };

    ghost view = { λ text. text.letters.items };
}

impl Text {
    /// Copies a text.
    pub fn of(alloc: Global, from: &str) -> Result<Text, NoMemory>
        ensures { IfOk result (λ text. text ≡ from.now) }
    {
        let letters = Vec::from_slice(alloc, from.as_bytes())?;
        Ok(Text { letters })
    }

    /// The bytes of the text.
    pub fn bytes(&self) -> &[u8]
        ensures { result.now ≡ self.now }
    {
        &self.letters
    }
}

/// The texts of a script, each once. Numbers 0, 1 and 2 are `message`, `code` and `stack depth`.
#[derive(Drop)]
pub struct Texts {
    texts: Vec<Text>,
}

impl Model for Texts {
    ghost use Rattle.std.specs.Prelude.{List, ℕ};
    ghost use Rattle.napi_types.specs.plain.Texts.{IsTextTable};

    ghost Value = { List (List ℕ) };

    ghost view = { λ table. table.texts.items };

    ghost invariant = { λ table. IsTextTable table.texts.items };
}

impl Texts {
    /// The table of these texts.
    pub fn of(items: Vec<Text>) -> Texts
        requires { IsTextTable items.items }
        ensures { result ≡ items.items }
    {
        Texts { texts: items }
    }

    /// The text of a number, `None` exactly past the end.
    pub fn get(&self, no: TextNo) -> Option<&Text>
        ensures { option_map (λ text. text.now) result ≡ slice_get self.now no.0 }
    {
        self.texts.get(no.0 as usize)
    }

    /// The texts in their order.
    pub fn items(&self) -> &[Text]
        ensures { result.now ≡ self.now }
    {
        &self.texts
    }
}
