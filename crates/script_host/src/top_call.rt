//! The top calls.
ghost use Rattle.std.specs.Prelude.{◌≡◌, ◌≢◌, ◌≤◌, ◌==◌, length, true, Some, OnErr};
ghost use Rattle.outside.specs.Ends.{input_of, output_of};
ghost use Rattle.outside.specs.Given.{is_met};
ghost use Rattle.outside.specs.Words.{command_of};
ghost use Rattle.outside.specs.Written.{text_written, IsRunStatus, WroteText};
ghost use Rattle.script_run.specs.Runs.{handed_in, HasRun};
ghost use Rattle.script_host.specs.Host.{Concluded, IsScriptOf, RanOrRefused, ReadAsAsked};

use crate::choosing::command_and_script;
use addon_trait::Addon;
use napi_types::{Gate, NoMemory, Record, Script, Sink, Source, Text, Texts};
use outside::{Command, Demand, Message, write_outcome};
use script_run::{in_turns, on_threads};
use std::alloc::Global;
use std::marker::Brand;
use std::sync::Wait;
use std::thread::Threads;

/// Runs the script that the words ask for, on threads where it has no schedule: the command and the script's texts, or the line that tells why nothing
/// was run.
fn run_on_threads<R: Threads + Wait + Sync, S: Source, G: Gate>(
    rt: &R,
    gate: &G,
    alloc: Global,
    words: &[Text],
    source: &mut S,
    addons: &mut Vec<Box<dyn Addon>>,
    left: &mut Record,
) -> Result<(Command, Texts), Message>
    ensures ran { let input = input_of S.left S.faults source.old source.new in
        let before = handed_in (λ b. plan b) (λ b. regs b) (λ b. seen b) addons.old.items in
        let after = handed_in (λ b. plan b) (λ b. regs b) (λ b. seen b) addons.new.items in
        RanOrRefused Demand.Nothing words.now input before (length addons.old.items) left.new after result }
    ensures left { OnErr result (left.new ≡ left.old) }
    ensures addons { OnErr result (addons.new.items ≡ addons.old.items) }
    ensures source { let input = input_of S.left S.faults source.old source.new in
        ReadAsAsked words.now input }
    ensures counted { result ≢ Err Message.ReadFault → S.faults source.new ≡ S.faults source.old }
{
    let (command, script) = command_and_script(
        alloc,
        Demand::Nothing,
        words,
        source,
        addons.len(),
    )?;
    match on_threads::<Brand, R, G>(rt, gate, alloc, script, addons, left) {
        Ok(texts) => Ok((command, texts)),
        Err(NoMemory) => Err(Message::NoMemory),
    }
}

/// Does the same for a script with a schedule alone, on this thread.
fn run_in_turns<S: Source>(
    alloc: Global,
    words: &[Text],
    source: &mut S,
    addons: &mut Vec<Box<dyn Addon>>,
    left: &mut Record,
) -> Result<(Command, Texts), Message>
    ensures ran { let input = input_of S.left S.faults source.old source.new in
        let before = handed_in (λ b. plan b) (λ b. regs b) (λ b. seen b) addons.old.items in
        let after = handed_in (λ b. plan b) (λ b. regs b) (λ b. seen b) addons.new.items in
        RanOrRefused Demand.Schedule words.now input before (length addons.old.items) left.new after result }
    ensures left { OnErr result (left.new ≡ left.old) }
    ensures addons { OnErr result (addons.new.items ≡ addons.old.items) }
    ensures source { let input = input_of S.left S.faults source.old source.new in
        ReadAsAsked words.now input }
    ensures counted { result ≢ Err Message.ReadFault → S.faults source.new ≡ S.faults source.old }
{
    let (command, script) = command_and_script(
        alloc,
        Demand::Schedule,
        words,
        source,
        addons.len(),
    )?;
    match in_turns::<Brand>(alloc, script, addons, left) {
        Ok(texts) => Ok((command, texts)),
        Err(NoMemory) => Err(Message::NoMemory),
    }
}

/// Does all that the program does: runs the script that the words ask for, with the addons that it is handed, and
/// writes the trace or the summary of the run to the sink. It answers the exit status.
///
/// The command lines are `run`, `summary`, and `load` with a number from 0 to 1,000,000 of at most seven digits. `run` and `summary` read the script from the
/// source. `load` reads nothing, and runs the load script of its number. `run` writes the trace, and the two others write the summary.
///
/// At status 0 the whole text was written, at 5 the sink failed within it; then `left` holds the journal and the history of the run, and each addon of the
/// script was loaded with its plan. At every other status a line stands in place of the text and `left` is as it was: 2 where the words are no command
/// line, 3 where the bytes are no JSON text or no script, or where the script has more addons than were handed in, 4 where the source failed, 7 where it
/// gave more than 4,194,304 bytes, and 6 for want of memory, which may come in place of 0, 3, 5 and 7.
///
/// Every script that has the right form runs. One with a schedule takes its turns on this thread: first those of the schedule, and then rounds. One without
/// runs on threads of the machine: each thread of the script and each worker on one of its own, and the environment on this one. An actor for which none can
/// be started takes its turns on this one too.
///
/// Status 6 comes before an addon is loaded and a thread is started. `rt` starts the threads, and they call `gate` at its places. What is not promised is
/// that a call on threads returns, that two actors run at once, and whose entry comes first.
pub fn host<R: Threads + Wait + Sync, S: Source, K: Sink, G: Gate>(
    rt: &R,
    alloc: Global,
    words: &[Text],
    source: &mut S,
    sink: &mut K,
    gate: &G,
    addons: &mut Vec<Box<dyn Addon>>,
    left: &mut Record,
) -> u8
    // At 0 and 5 the words ask for a command, and the two lists of `left` are a run of its script to its end. Each collection kept exactly what its roots
    // reached. Each finalizer and hook that no call of its own withdrew began exactly once, hooks in the reverse of the order of adding, and
    // what was left to the end in the order of registration. Each accepted cancel led to the completion that tells it. Each addon has seen, after what it
    // had seen before, what began of its. Each thread made the calls of its script, and each worker's works came by turns. Each entry stands in its place, and
    // where the script has a schedule the turns followed it. The sink took the command's text of the run.
    ensures ran { let input = input_of S.left S.faults source.old source.new in
        let output = output_of K.taken K.faults sink.old sink.new in
        let before = handed_in (λ b. plan b) (λ b. regs b) (λ b. seen b) addons.old.items in
        let after = handed_in (λ b. plan b) (λ b. regs b) (λ b. seen b) addons.new.items in
        IsRunStatus result → (command : Command) × (script : Script) × (command_of words.now ≡ Some command) × IsScriptOf command input script
        × HasRun script before left.new after × WroteText (result == 0) output (text_written command script.texts left.new) }

    // At every other status a line stands in place of the text, and nothing was run.
    ensures left { ¬ IsRunStatus result → left.new ≡ left.old }
    ensures addons { ¬ IsRunStatus result → addons.new.items ≡ addons.old.items }

    // Each status has its cause, each fault is told, and the words with the bytes of the source say the status where no read failed.
    ensures concluded { let input = input_of S.left S.faults source.old source.new in
        let output = output_of K.taken K.faults sink.old sink.new in
        Concluded Demand.Nothing words.now input output (length addons.old.items) result }

    // Nothing is read where the words are no command line or ask for a load, and else no more than a prefix of what the source has left.
    ensures source { let input = input_of S.left S.faults source.old source.new in
        ReadAsAsked words.now input }
    ensures writing { K.faults sink.old ≤ K.faults sink.new }
{
    let ran = run_on_threads(rt, gate, alloc, words, source, addons, left);
    write_outcome(ran, sink, left)
}

/// Does the same, but that it runs a script with a schedule alone. It does not wait, and always returns.
///
/// Where all else is right and the script has no schedule, the status is 3 and the line `refused schedule` stands in place of the text. A load script has none:
/// with `load` that is the answer always, before a script is made.
pub fn host_scheduled<S: Source, K: Sink>(
    alloc: Global,
    words: &[Text],
    source: &mut S,
    sink: &mut K,
    addons: &mut Vec<Box<dyn Addon>>,
    left: &mut Record,
) -> u8
    // The clauses are those of `host`, where a schedule is demanded.
    ensures ran { let input = input_of S.left S.faults source.old source.new in
        let output = output_of K.taken K.faults sink.old sink.new in
        let before = handed_in (λ b. plan b) (λ b. regs b) (λ b. seen b) addons.old.items in
        let after = handed_in (λ b. plan b) (λ b. regs b) (λ b. seen b) addons.new.items in
        IsRunStatus result → (command : Command) × (script : Script) × (command_of words.now ≡ Some command) × IsScriptOf command input script
        × (is_met Demand.Schedule script ≡ true) × HasRun script before left.new after
        × WroteText (result == 0) output (text_written command script.texts left.new) }
    ensures left { ¬ IsRunStatus result → left.new ≡ left.old }
    ensures addons { ¬ IsRunStatus result → addons.new.items ≡ addons.old.items }
    ensures concluded { let input = input_of S.left S.faults source.old source.new in
        let output = output_of K.taken K.faults sink.old sink.new in
        Concluded Demand.Schedule words.now input output (length addons.old.items) result }
    ensures source { let input = input_of S.left S.faults source.old source.new in
        ReadAsAsked words.now input }
    ensures writing { K.faults sink.old ≤ K.faults sink.new }
{
    let ran = run_in_turns(alloc, words, source, addons, left);
    write_outcome(ran, sink, left)
}
