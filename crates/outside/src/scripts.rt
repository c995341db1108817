//! The script that a source gives, and what is demanded of one.
ghost use Rattle.std.specs.Prelude.{◌≡◌, ◌<◌, ◌≤◌, ◌^◌, length, true, false, IfOk, OnOk, IfErr};
ghost use Rattle.outside.specs.Ends.{input_of};
ghost use Rattle.outside.specs.Given.{is_met, GaveOrRefused, Misses, ReadFor};

use crate::message::Message;
use crate::reading::{ReadError, read_all};
use napi_types::{Script, Source};
use script_read::{Refusal, read_script};
use std::alloc::Global;

/// How many texts can be counted in 32 bits.
const MOST_TEXTS: usize = 4_294_967_295;

/// What a top call demands of a script, beside its form.
#[derive(Clone, Copy)]
pub enum Demand {
    /// Nothing.
    Nothing,
    /// That it has a schedule.
    Schedule,
}

impl Demand {
    /// Whether a script is what is demanded.
    fn is_met(self, script: &Script) -> bool
        ensures { result ≡ is_met self script.now }
    {
        match self {
            Demand::Nothing => true,
            Demand::Schedule => script.schedule.is_some(),
        }
    }

    /// The script, where there are enough addons for it, and it is what is demanded.
    fn admit(self, script: Script, handed: usize) -> Result<Script, Message>
        ensures same { IfOk result (λ same. same ≡ script) }
        ensures enough { OnOk result (length script.addons ≤ handed) }
        ensures met { OnOk result (is_met self script ≡ true) }
        ensures err { IfErr result (λ line. Misses self script handed line) }
    {
        if handed < script.addons.items().len() {
            return Err(Message::TooManyAddons);
        }
        if !self.is_met(&script) {
            return Err(Message::Schedule);
        }
        Ok(script)
    }
}

/// The script, where its texts can be counted in 32 bits. No source is long enough for more; a table of so many is taken for want
/// of memory.
fn with_countable_texts(script: Script) -> Result<Script, Message>
    ensures same { IfOk result (λ same. same ≡ script) }
    ensures texts { IfOk result (λ same. length same.texts < 2 ^ 32) }
    ensures err { IfErr result (λ line. line ≡ Message.NoMemory) }
{
    if script.texts.items().len() > MOST_TEXTS {
        return Err(Message::NoMemory);
    }
    Ok(script)
}

/// The script that the source gives, where so many addons are enough for it, and it is what is demanded. Else the line that tells why there is none.
///
/// A source may give 4,194,304 bytes. Reading stops at the first fault and at the first byte too many.
pub fn script_from_source<S: Source>(
    alloc: Global,
    demand: Demand,
    source: &mut S,
    handed: usize,
) -> Result<Script, Message>
    ensures answer { let input = input_of S.left S.faults source.old source.new in
        GaveOrRefused demand input handed result }
    ensures source { let input = input_of S.left S.faults source.old source.new in
        ReadFor result input }
{
    let bytes = match read_all(alloc, source) {
        Ok(bytes) => bytes,
        Err(ReadError::NoMemory) => return Err(Message::NoMemory),
        Err(ReadError::Fault) => return Err(Message::ReadFault),
        Err(ReadError::Long) => return Err(Message::TooLong),
    };
    match read_script(alloc, &bytes) {
        Ok(script) => demand.admit(with_countable_texts(script)?, handed),
        Err(Refusal::NotJson) => Err(Message::NotJson),
        Err(Refusal::Shape { path }) => Err(Message::Shape(path)),
        Err(Refusal::Limit { which }) => Err(Message::Limit(which)),
        Err(Refusal::NoMemory) => Err(Message::NoMemory),
    }
}
