//! The command lines.
ghost use Rattle.std.specs.Char.{is_ascii_digit};
ghost use Rattle.std.specs.List.{list_all};
ghost use Rattle.std.specs.Prelude.{◌≡◌};
ghost use Rattle.outside.specs.Words.{command_of, is_numeral, load_number};

use napi_types::Text;

/// The greatest number of a load script.
const GREATEST_LOAD: u32 = 1_000_000;

/// The most digits with which it is written.
const MOST_DIGITS: usize = 7;

/// What the words after the program's name ask for.
#[derive(Clone, Copy)]
pub enum Command {
    /// To run the script that the source gives, and to write the trace.
    Run,
    /// To run it, and to write the summary of the trace.
    Summary,
    /// To run the load script of this number, and to write the summary of the trace.
    Load(u32),
}

/// What the words after the program's name ask for: `run`, `summary`, or `load` and a number.
pub fn command_of(words: &[Text]) -> Option<Command>
    ensures { result ≡ command_of words.now }
{
    match words {
        [word] if word.bytes() == b"run".as_slice() => Some(Command::Run),
        [word] if word.bytes() == b"summary".as_slice() => Some(Command::Summary),
        [word, number] if word.bytes() == b"load".as_slice() => {
            Some(Command::Load(number_of(number.bytes())?))
        }
        _ => None,
    }
}

/// Whether all bytes of a word are digits.
fn are_digits(word: &[u8]) -> bool
    ensures { result ≡ list_all is_ascii_digit word.now }
{
    word.iter().all(|byte| byte.is_ascii_digit())
}

/// Whether a word has one to seven digits, and nothing else.
fn is_numeral(word: &[u8]) -> bool
    ensures { result ≡ is_numeral word.now }
{
    !word.is_empty() && word.len() <= MOST_DIGITS && are_digits(word)
}

/// The number that a word of one to seven digits writes, where it is at most 1,000,000.
fn number_of(word: &[u8]) -> Option<u32>
    ensures { result ≡ load_number word.now }
{
    if !is_numeral(word) {
        return None;
    }
    let Ok(text) = str::from_utf8(word) else {
        return None;
    };
    let Ok(number) = text.parse::<u32>() else {
        return None;
    };
    if number > GREATEST_LOAD {
        return None;
    }
    Some(number)
}
