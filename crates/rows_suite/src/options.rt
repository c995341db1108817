//! The options of a row: its words, what its ends give and take, and how many addons are handed in.
use crate::Unable;
use napi_types::Text;
use std::alloc::Global;
use std::num::NonZeroUsize;

/// How many addons are handed in, where no option says it.
const ADDONS: usize = 8;

/// What a row is run with.
#[derive(Drop)]
pub(crate) struct Options {
    /// The words of the command line. Where there are none they are the one word `run`, unless `no_words` is set.
    pub(crate) words: Vec<Text>,
    pub(crate) no_words: bool,
    /// How many bytes the source has: the script's, and then spaces.
    pub(crate) length: usize,
    /// The most bytes that one read gives.
    pub(crate) piece: NonZeroUsize,
    /// The calls of the source that fail, counted from 0.
    pub(crate) read_faults: Vec<u64>,
    /// The most bytes that the sink takes in one call.
    pub(crate) greatest: NonZeroUsize,
    /// The calls of the sink that fail, counted from 0.
    pub(crate) write_faults: Vec<u64>,
    /// How many addons are handed in. Each of them follows its script.
    pub(crate) addons: usize,
    /// Whether a schedule is demanded: `host_scheduled` is called in place of `host`.
    pub(crate) scheduled: bool,
}

impl Options {
    /// Those of a row without options.
    pub(crate) fn new(alloc: Global) -> Options {
        Options {
            words: Vec::new(alloc),
            no_words: false,
            length: 0,
            piece: NonZeroUsize::MAX,
            read_faults: Vec::new(alloc),
            greatest: NonZeroUsize::MAX,
            write_faults: Vec::new(alloc),
            addons: ADDONS,
            scheduled: false,
        }
    }

    /// Takes in the options of a line, which single spaces part.
    pub(crate) fn read(&mut self, alloc: Global, line: &[u8]) -> Result<(), Unable> {
        for option in str::from_utf8(line)?.split(' ') {
            self.set(alloc, option)?;
        }
        Ok(())
    }

    /// Takes in an option: a name, and mostly `=` and a value.
    fn set(&mut self, alloc: Global, option: &str) -> Result<(), Unable> {
        match option.split_once('=') {
            Some(("word", word)) => self.words.push(Text::of(alloc, word)?)?,
            Some((name, number)) => self.set_number(name, number.parse()?)?,
            None if option == "no_words" => self.no_words = true,
            None if option == "scheduled" => self.scheduled = true,
            None => return Err(Unable::WrongOption),
        }
        Ok(())
    }

    /// Takes in a number under its name.
    fn set_number(&mut self, name: &str, number: usize) -> Result<(), Unable> {
        match name {
            "length" => self.length = number,
            "piece" => self.piece = NonZeroUsize::try_from(number)?,
            "read_fault" => self.read_faults.push(number as u64)?,
            "greatest" => self.greatest = NonZeroUsize::try_from(number)?,
            "write_fault" => self.write_faults.push(number as u64)?,
            "addons" => self.addons = number,
            _ => return Err(Unable::WrongOption),
        }
        Ok(())
    }
}
