//! The command that the words ask for, and its script.
ghost use Rattle.std.specs.Prelude.{◌≡◌, ◌≢◌};
ghost use Rattle.outside.specs.Ends.{input_of};
ghost use Rattle.script_host.specs.Host.{Chose, LoadedOrRefused, ReadAsAsked};

use napi_types::{Script, Source, Text};
use outside::{Command, Demand, Message, command_of, script_from_source};
use script_run::load_script;
use std::alloc::Global;

/// The load script of a number, where so many addons are enough for it. It has no schedule, so none is made where one is demanded.
fn load_script_if_allowed(
    alloc: Global,
    demand: Demand,
    number: u32,
    handed: usize,
) -> Result<Script, Message>
    ensures { LoadedOrRefused demand number handed result }
{
    match demand {
        Demand::Schedule => Err(Message::Schedule),
        Demand::Nothing if handed == 0 => Err(Message::TooManyAddons),
        Demand::Nothing => load_script(alloc, number).map_err(|_| Message::NoMemory),
    }
}

/// The command that the words ask for, and its script, where so many addons are enough for that, and it is what is demanded. Else the line that tells
/// why there is none.
pub(crate) fn command_and_script<S: Source>(
    alloc: Global,
    demand: Demand,
    words: &[Text],
    source: &mut S,
    handed: usize,
) -> Result<(Command, Script), Message>
    ensures answer { let input = input_of S.left S.faults source.old source.new in
        Chose demand words.now input handed result }
    ensures source { let input = input_of S.left S.faults source.old source.new in
        ReadAsAsked words.now input }
    ensures counted { result ≢ Err Message.ReadFault → S.faults source.new ≡ S.faults source.old }
{
    let Some(command) = command_of(words) else {
        return Err(Message::Usage);
    };
    match command {
        Command::Run | Command::Summary => {
            let script = script_from_source(alloc, demand, source, handed)?;
            Ok((command, script))
        }
        Command::Load(number) => {
            let script = load_script_if_allowed(alloc, demand, number, handed)?;
            Ok((command, script))
        }
    }
}
