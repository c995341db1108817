//! The table of a script's texts while the script is read: each text once, found by its bytes in time logarithmic in the texts.
ghost use Rattle.std.specs.Prelude.{◌≡◌, ◌+◌, ◌^◌, ◌<◌, ◌++◌, ◌∷◌, [], ℕ, List, None, length, IfOk, OnOk, OnErr};
ghost use Rattle.std.specs.BTreeMap.{get_by_text};
ghost use Rattle.napi_types.specs.plain.Texts.{fixed_texts, place_of, text_number, with_text};

use napi_types::{NoMemory, Text, TextNo, Texts};
use std::alloc::Global;
use std::collections::BTreeMap;
use std::marker::Model;

/// The texts in the order of their first places, and the number of each by its bytes.
#[derive(Drop)]
pub(crate) struct TextTable {
    texts: Vec<Text>,
    numbers: BTreeMap<String, u32>,
}

impl Model for TextTable {
    ghost use Rattle.std.specs.Prelude.{List, ℕ};
    ghost use Rattle.std.specs.BTreeMap.{get_by_text};
    ghost use Rattle.script_read.specs.Table.{IsTable};

    ghost Value = { List (List ℕ) };

    ghost view = { λ table. table.texts.items };

    ghost invariant = { λ table. IsTable table.texts.items (λ text. get_by_text table.numbers text) };
}

/// Puts a text that is not there yet behind the others. Where there is no memory, nothing changes.
fn put(
    alloc: Global,
    texts: &mut Vec<Text>,
    numbers: &mut BTreeMap<String, u32>,
    text: &str,
) -> Result<(), NoMemory>
    requires few { length texts.old.items + 1 < 2 ^ 32 }
    requires absent { place_of texts.old.items text.now ≡ None }
    requires found { (other : List ℕ) → get_by_text numbers.old other ≡ place_of texts.old.items other }
    ensures texts { OnOk result (texts.new.items ≡ texts.old.items ++ text.now ∷ []) }
    ensures found { OnOk result ((other : List ℕ) → get_by_text numbers.new other ≡ place_of texts.new.items other) }
    ensures texts_stay { OnErr result (texts.new.items ≡ texts.old.items) }
    ensures numbers_stay { OnErr result ((other : List ℕ) → get_by_text numbers.new other ≡ get_by_text numbers.old other) }
{
    let number = texts.len() as u32;
    let copied = Text::of(alloc, text)?;
    let Ok(name) = String::from_str(alloc, text) else {
        return Err(NoMemory);
    };
    let Ok(()) = texts.reserve(1) else {
        return Err(NoMemory);
    };
    let Ok(_) = numbers.insert(name, number) else {
        return Err(NoMemory);
    };
    texts.push_reserved(copied);
    Ok(())
}

impl TextTable {
    /// The three texts with which every table begins.
    pub(crate) fn fixed(alloc: Global) -> Result<TextTable, NoMemory>
        ensures { IfOk result (λ table. table ≡ fixed_texts) }
    {
        let mut texts = Vec::new(alloc);
        let mut numbers = BTreeMap::new(alloc);
        put(alloc, &mut texts, &mut numbers, "message")?;
        put(alloc, &mut texts, &mut numbers, "code")?;
        put(alloc, &mut texts, &mut numbers, "stack depth")?;
        Ok(TextTable { texts, numbers })
    }

    /// The number of a text: its place, and where it does not stand in the table yet the place that it would get.
    #[tactic(auto, unfolding(napi_types::specs::plain::Texts::text_number))]
    pub(crate) fn number(&self, text: &str) -> u32
        ensures { result ≡ text_number self.now text.now }
    {
        match self.numbers.get(text) {
            Some(number) => *number,
            None => self.texts.len() as u32,
        }
    }

    /// Keeps a text at the number that `number` tells of it.
    #[tactic(auto, unfolding(napi_types::specs::plain::Texts::with_text))]
    pub(crate) fn keep(&mut self, alloc: Global, text: &str) -> Result<(), NoMemory>
        ensures { OnOk result (self.new ≡ with_text self.old text.now) }
    {
        if self.numbers.contains_key(text) {
            return Ok(());
        }
        if self.texts.len() >= 4_294_967_294 {
            return Err(NoMemory);
        }
        put(alloc, &mut self.texts, &mut self.numbers, text)
    }

    /// Keeps a text, and answers its number.
    pub(crate) fn take(&mut self, alloc: Global, text: &str) -> Result<TextNo, NoMemory>
        ensures number { IfOk result (λ number. number.0 ≡ text_number self.old text.now) }
        ensures table { OnOk result (self.new ≡ with_text self.old text.now) }
    {
        let number = self.number(text);
        self.keep(alloc, text)?;
        Ok(TextNo(number))
    }

    /// The table as a script has it.
    pub(crate) fn into_texts(self) -> Texts
        ensures { result ≡ self }
    {
        let TextTable { texts, numbers: _ } = self;
        Texts::of(texts)
    }
}
