//! A run of a script: its addons are given their plans, and the environment, the threads and the workers run to their end.
ghost use Rattle.std.specs.Prelude.{◌≡◌, ℕ, ◌<◌, ◌≤◌, ◌++◌, length, map, drop, [], true, IfOk, OnOk, OnErr, unwrap_or};
ghost use Rattle.std.specs.List.{All};
ghost use Rattle.napi_types.specs.plain.Numbers.{is_supported};
ghost use Rattle.napi_types.specs.plain.Room.{most_entries};
ghost use Rattle.napi_types.specs.scripts.Plans.{registers_of};
ghost use Rattle.napi_types.specs.scripts.Registers.{blank_registers};
ghost use Rattle.env_core.specs.Core.{opened_core};
ghost use Rattle.env_loop.specs.RecordedRuns.{opened_run};
ghost use Rattle.shared_hub.specs.HubStates.{hub_seen};
ghost use Rattle.script_run.specs.Runs.{handed_in, HasRun, IsSmall};
ghost use Rattle.script_run.specs.Loading.{told_plans, hub_numbers};
ghost use Rattle.script_run.specs.ScriptActors.{IsThreadScript, thread_runs, worker_runs};

use crate::actors::{actor_runs, retire_all};
use addon_trait::{Addon, load_at};
use env_core::EnvCore;
use env_loop::{ActorRun, EnvRun};
use napi_types::{Actor, Actors, Gate, Limits, NoMemory, OpLists, Plans, Record, Script, Texts};
use runner::Crew;
use script_addon::ScriptJob;
use shared_hub::{HubState, Naming};
use std::alloc::Global;
use std::sync::Wait;
use std::thread::Threads;
use stepper::step_all;

/// How many entries a journal and a history may have.
const LIMITS: Limits = Limits {
    journal: 4_194_304,
    history: 4_194_304,
};

/// Gives each addon of the script its plan, and clears its registers: the first addons, in order. The others stay as they are, and
/// no addon has seen anything more.
fn load_all(addons: &mut Vec<Box<dyn Addon>>, given: Plans)
    requires enough { length given ≤ length addons.old.items }
    ensures count { length addons.new.items ≡ length addons.old.items }
    ensures plans { let before = map (λ b. plan b) addons.old.items in
        map (λ b. plan b) addons.new.items ≡ told_plans given before ++ drop (length given) before }
    ensures blank { let after = map (λ b. regs b) addons.new.items in
        (addon : ℕ) → addon < length given → registers_of after addon ≡ blank_registers }
    ensures others { drop (length given) (map (λ b. regs b) addons.new.items) ≡ drop (length given) (map (λ b. regs b) addons.old.items) }
    ensures seen { map (λ b. seen b) addons.new.items ≡ map (λ b. seen b) addons.old.items }
{
    for (addon, plan) in given.into_items().into_iter().enumerate() {
        load_at(addons, addon, plan);
    }
}

/// The words of a schedule; none where a script has no schedule.
fn words_of(schedule: &Option<Actors>) -> &[Actor]
    ensures { result.now ≡ unwrap_or schedule.now [] }
{
    match schedule {
        Some(words) => words.items(),
        None => &[],
    }
}

/// What a run begins with, over memory that is all taken: the environment, its hub, and the threads and workers before their first turns.
struct Opening<N: Naming> {
    env: EnvRun,
    hub: HubState<ScriptJob, N>,
    actors: Vec<ActorRun<ScriptJob>>,
}

/// Opens a run at a version, of so many addons and texts, with these threads and so many workers. Where there is no memory, what was made is retired.
fn open<N: Naming>(
    alloc: Global,
    version: u32,
    addons: u32,
    texts: u32,
    threads: OpLists,
    workers: u32,
) -> Result<Opening<N>, NoMemory>
    requires named { N.numbers ≡ hub_numbers (length threads) workers }
    requires version { is_supported version ≡ true }
    requires addons { addons ≤ 8 }
    requires threads { length threads ≤ 16 }
    requires scripts { All IsThreadScript threads }
    requires workers { workers ≤ 8 }
    ensures env { IfOk result (λ opening. opening.env ≡ opened_run (opened_core (record { version = version; addons = addons; texts = texts }) most_entries)) }
    ensures hub { IfOk result (λ opening. opening.hub ≡ hub_seen N.numbers []) }
    ensures actors { IfOk result (λ opening. opening.actors.items ≡ thread_runs 0 threads ++ worker_runs workers) }
{
    let count = threads.items().len() as u32;
    let actors = actor_runs(alloc, threads, workers)?;
    let Ok(core) = EnvCore::new(alloc, version, addons, texts, LIMITS) else {
        retire_all(actors);
        return Err(NoMemory);
    };
    let env = EnvRun::new(core);
    let Ok(hub) = HubState::<ScriptJob, N>::new(alloc, count, workers, LIMITS) else {
        retire_all(actors);
        env.retire();
        return Err(NoMemory);
    };
    Ok(Opening { env, hub, actors })
}

/// Runs a script on this thread, with the first of the addons that are handed in, from the opening to `gone`: first the turns of its schedule, where it has
/// one, and then rounds. It leaves the two lists, and hands out the texts of the script.
///
/// The hub has the numbers that the type names: those of the script, under the limits of every run. Want of memory comes before an addon is touched.
pub fn in_turns<N: Naming>(
    alloc: Global,
    script: Script,
    addons: &mut Vec<Box<dyn Addon>>,
    left: &mut Record,
) -> Result<Texts, NoMemory>
    requires named { N.numbers ≡ hub_numbers (length script.threads) script.workers }
    requires small { IsSmall script }
    requires enough { length script.addons ≤ length addons.old.items }
    ensures ran { let before = handed_in (λ b. plan b) (λ b. regs b) (λ b. seen b) addons.old.items in
        let after = handed_in (λ b. plan b) (λ b. regs b) (λ b. seen b) addons.new.items in
        OnOk result (HasRun script before left.new after) }
    ensures texts { IfOk result (λ texts. texts ≡ script.texts) }
    ensures left { OnErr result (left.new ≡ left.old) }
    ensures addons { OnErr result (addons.new.items ≡ addons.old.items) }
{
    let Script {
        version,
        workers,
        addons: plans,
        threads,
        schedule,
        texts,
    } = script;
    let plans_len = plans.items().len() as u32;
    let texts_len = texts.items().len() as u32;
    let opening = open::<N>(alloc, version, plans_len, texts_len, threads, workers)?;
    let Opening {
        mut env,
        mut hub,
        mut actors,
    } = opening;
    load_all(addons, plans);
    step_all(&mut env, &mut hub, &mut actors, words_of(&schedule), addons);
    hub.invariant();
    retire_all(actors);
    *left = env.into_record(hub);
    Ok(texts)
}

/// Does the same, but that a script without a schedule runs on threads of the machine: each thread of the script and each worker on one of its own, and the
/// environment on this one. All memory is taken before the first is started.
pub fn on_threads<N: Naming + Send + Sync, R: Threads + Wait + Sync, G: Gate>(
    rt: &R,
    gate: &G,
    alloc: Global,
    script: Script,
    addons: &mut Vec<Box<dyn Addon>>,
    left: &mut Record,
) -> Result<Texts, NoMemory>
    requires named { N.numbers ≡ hub_numbers (length script.threads) script.workers }
    requires small { IsSmall script }
    requires enough { length script.addons ≤ length addons.old.items }
    ensures ran { let before = handed_in (λ b. plan b) (λ b. regs b) (λ b. seen b) addons.old.items in
        let after = handed_in (λ b. plan b) (λ b. regs b) (λ b. seen b) addons.new.items in
        OnOk result (HasRun script before left.new after) }
    ensures texts { IfOk result (λ texts. texts ≡ script.texts) }
    ensures left { OnErr result (left.new ≡ left.old) }
    ensures addons { OnErr result (addons.new.items ≡ addons.old.items) }
{
    if script.schedule.is_some() {
        return in_turns::<N>(alloc, script, addons, left);
    }
    let Script {
        version,
        workers,
        addons: plans,
        threads,
        schedule: _,
        texts,
    } = script;
    let plans_len = plans.items().len() as u32;
    let texts_len = texts.items().len() as u32;
    let opening = open::<N>(alloc, version, plans_len, texts_len, threads, workers)?;
    let Opening { env, hub, actors } = opening;
    let Ok(crew) = Crew::new(alloc, hub, actors) else {
        env.retire();
        return Err(NoMemory);
    };
    load_all(addons, plans);
    *left = crew.run(rt, env, addons, gate);
    Ok(texts)
}
