//! A run beside its hub, which is driven to its end turn by turn; and what the two lists tell that it leaves.
ghost use Rattle.std.specs.Prelude.{◌≡◌, ◌+◌, ◌≤◌, [], true, length, None};
ghost use Rattle.napi_types.specs.declared.entry.Phase.TheVariants as phase;
ghost use Rattle.napi_types.specs.plain.Room.{most_entries};
ghost use Rattle.env_core.specs.Core.{opened_core};
ghost use Rattle.shared_hub.specs.HubStates.{HubSeen, hub_seen};
ghost use Rattle.env_loop.specs.ActorTurns.{IsActorOf};
ghost use Rattle.env_loop.specs.RecordedRuns.{opened_run, FitsHub};
ghost use Rattle.env_loop.specs.Turns.{needs_hub};
ghost use Rattle.env_loop.specs.declared.actor.ActorRun.{ActorRun};

use super::{ample, told, word_of};
use addon_trait::Addon;
use env_core::EnvCore;
use env_loop::{ActorRun, EnvRun, LocalTurn};
use napi_types::{
    Actor, AddonPlan, Ask, Begun, Call, Cause, Due, Duty, Entry, HostStep, Limits, LoopEnd, Out,
    Record, Reply, SeenList, What,
};
use script_addon::ScriptJob;
use shared_hub::{HubState, Naming};
use std::alloc::Global;
use std::mem;
use std::process::Abort;

/// How many turns no run of these tests makes.
const MANY: u64 = 200;

/// What leaves a frame.
pub const LEAVE: Ask = Ask::Leave(None);

/// What the frames of two entries of an addon ask.
pub type Entries = [[Ask; 5]; 2];

/// An addon whose entries ask this, and then leave. What it is asked a second time, before it was told a reply or a frame began, it answers
/// by `get_version`.
#[derive(Drop)]
pub struct Caller {
    first: [Ask; 5],
    second: [Ask; 5],
    asked: bool,
    registers: [u64; 32],
    seen: SeenList,
}

impl Addon for Caller {
    ghost plan = { λ _. None };

    ghost regs = { λ addon. addon.registers };

    ghost seen = { λ addon. addon.seen };

    fn load(&mut self, _given: AddonPlan) {
        self.registers = [0; 32];
    }

    fn enter(&mut self, _entry: u32, gifts: &[u64; 8]) {
        self.asked = false;
        self.registers[24..].copy_from_slice(gifts);
    }

    fn begin(&mut self, due: Due) -> Begun {
        let info = *due.info();
        self.enter(info.entry, &info.gifts);
        due.begin(&mut self.seen)
    }

    fn ask(&mut self, entry: u32, step: u32) -> Ask {
        if mem::replace(&mut self.asked, true) {
            return Ask::Do(Call::GetVersion);
        }
        match entry {
            0 if step < 5 => self.first[step as usize],
            1 if step < 5 => self.second[step as usize],
            _ => LEAVE,
        }
    }

    fn note(&mut self, _entry: u32, _step: u32, _reply: &Reply) {
        self.asked = false;
    }
}

/// A list of one addon.
pub fn list_of(rt: &impl Abort, alloc: Global, addon: Box<dyn Addon>) -> Vec<Box<dyn Addon>>
    ensures { length result.items ≡ 1 }
{
    let mut addons = Vec::new(alloc);
    addons.push(addon).expect(rt, "a place");
    addons
}

/// A list of one addon whose entries ask this.
pub fn callers(rt: &impl Abort, alloc: Global, entries: Entries) -> Vec<Box<dyn Addon>>
    ensures { length result.items ≡ 1 }
{
    let addon = Caller {
        first: entries[0],
        second: entries[1],
        asked: false,
        registers: [0; 32],
        seen: SeenList::new(),
    };
    list_of(rt, alloc, Box::new(alloc, addon).expect(rt, "an addon"))
}

/// An environment of one addon that is to run, whose journal has so many places.
pub fn opened(rt: &impl Abort, alloc: Global, journal: u32) -> EnvRun
    requires least { 4 ≤ journal }
    requires most { journal ≤ most_entries }
    ensures { result ≡ opened_run (opened_core (record { version = 9; addons = 1; texts = 0 }) journal) }
{
    let limits = Limits {
        journal,
        history: 0,
    };
    EnvRun::new(ample(rt, EnvCore::new(alloc, 9, 1, 0, limits)))
}

/// A hub as it opens, with so many threads and workers, and so many places.
pub fn opened_hub<N: Naming>(
    rt: &impl Abort,
    alloc: Global,
    threads: u32,
    workers: u32,
    history: u32,
) -> HubState<ScriptJob, N>
    requires named { N.numbers ≡ record { threads = threads; workers = workers; limits = record { journal = 0; history = history } } }
    requires room { 5 + threads + workers ≤ history }
    requires most { history ≤ most_entries }
    ensures { result ≡ hub_seen N.numbers [] }
{
    let limits = Limits {
        journal: 0,
        history,
    };
    ample(rt, HubState::new(alloc, threads, workers, limits))
}

/// A turn of the environment by itself. Where it needs the hub it is asked for that turn twice more.
fn local(env: &mut EnvRun, addons: &mut Vec<Box<dyn Addon>>) -> LocalTurn
    requires enough { env.old.core.env.addons ≤ length addons.old.items }
    ensures fits { (hub : HubSeen) → FitsHub env.old hub → FitsHub env.new hub }
    ensures enough { env.new.core.env.addons ≤ length addons.new.items }
    ensures needs { result ≡ LocalTurn.NeedsHub → needs_hub env.new }
    ensures gone { result ≡ LocalTurn.Gone → env.new.core.env.phase ≡ phase.Gone }
{
    let first = env.local_turn(addons);
    if first != LocalTurn::NeedsHub {
        return first;
    }
    let _ = env.local_turn(addons);
    env.local_turn(addons)
}

/// A turn of the environment, at the hub where it needs the hub. Whether it was gone. An actor beside it stays one of the hub's.
pub fn turn<N: Naming>(
    env: &mut EnvRun,
    hub: &mut HubState<ScriptJob, N>,
    addons: &mut Vec<Box<dyn Addon>>,
) -> bool
    requires fits { FitsHub env.old hub.old }
    requires enough { env.old.core.env.addons ≤ length addons.old.items }
    ensures fits { FitsHub env.new hub.new }
    ensures enough { env.new.core.env.addons ≤ length addons.new.items }
    ensures gone { result ≡ true → env.new.core.env.phase ≡ phase.Gone }
    ensures actors { (actor : ActorRun ScriptJob) → IsActorOf N.numbers hub.old actor → IsActorOf N.numbers hub.new actor }
{
    hub.invariant();
    match local(env, addons) {
        LocalTurn::Made => false,
        LocalTurn::NeedsHub => {
            let _ = env.hub_turn(hub, addons);
            false
        }
        LocalTurn::Gone => true,
    }
}

/// Turns of the environment alone until it is gone; how many these are.
pub fn to_end<N: Naming>(
    rt: &impl Abort,
    env: &mut EnvRun,
    hub: &mut HubState<ScriptJob, N>,
    addons: &mut Vec<Box<dyn Addon>>,
) -> u64
    requires fits { FitsHub env.old hub.old }
    requires enough { env.old.core.env.addons ≤ length addons.old.items }
    ensures { env.new.core.env.phase ≡ phase.Gone }
{
    for turns in 0..MANY {
        if turn(env, hub, addons) {
            return turns;
        }
    }
    panic!(rt; "the run does not end")
}

/// What an entry of the journal tells: its word, its number, and the length of the history at which it stands.
pub type InJournal = (&'static str, u64, u64);

/// What an entry of the history tells: who made it, its word and its number; and the status, the number of the ask, and the number of the
/// duty that it made, 0 where it made none.
pub type InHistory = (&'static str, &'static str, u64, [u64; 3]);

/// What the entries of a journal tell.
pub fn journal_of(rt: &impl Abort, alloc: Global, record: &Record) -> Vec<InJournal> {
    let mut entries = Vec::new(alloc);
    for local in record.journal.items() {
        let (word, number, _) = told(&local.entry.reply);
        entries.push((word, number, local.at)).expect(rt, "a place");
    }
    entries
}

/// What the entries of a history tell.
pub fn history_of(rt: &impl Abort, alloc: Global, record: &Record) -> Vec<InHistory> {
    let mut entries = Vec::new(alloc);
    for entry in record.history.items() {
        entries.push(shared_told(entry)).expect(rt, "a place");
    }
    entries
}

/// The number of a duty of the hub: of a work, of an item, or of a function.
fn duty_number(duty: Option<Duty>) -> u64 {
    match duty {
        Some(Duty::Work(number)) => number,
        Some(Duty::Item(_, number)) => number,
        Some(Duty::Function(function)) => function.0,
        _ => 0,
    }
}

/// The word and the number of an entry of the history: of a call those of its result, and of another event its name, or why it came.
fn event_told(entry: &Entry) -> (&'static str, u64) {
    let status = entry.reply.status.number() as u64;
    match (entry.what, entry.reply.out) {
        (_, Out::Work(work)) => ("work", work.0),
        (What::Call(_), Out::Function(function)) => ("function", function.0),
        (What::Host(HostStep::Go), _) => ("go", status),
        (_, Out::Ended(LoopEnd::Exit)) => ("exit", status),
        (_, Out::Ended(LoopEnd::Idle)) => ("idle", status),
        (_, Out::Ended(LoopEnd::Quiet)) => ("quiet", status),
        (What::Host(HostStep::Drain), Out::Unsigned(works)) => ("drain", works),
        (What::Host(HostStep::Finals), _) => ("finals", status),
        (_, Out::Begin(Cause::Complete, _, _, duty)) => ("completion", duty_number(duty)),
        (_, Out::Begin(Cause::Item, _, _, duty)) => ("item", duty_number(duty)),
        (_, Out::Begin(Cause::Torn, _, _, duty)) => ("torn", duty_number(duty)),
        (What::Host(HostStep::End), Out::Nothing) => ("end", status),
        (What::Host(HostStep::FinishTsfn), Out::Function(function)) => ("finished", function.0),
        (What::Host(HostStep::CloseTsfn), Out::Function(function)) => ("closed", function.0),
        (What::Host(HostStep::Start), Out::Duty(duty)) => ("start", duty_number(Some(duty))),
        (What::Host(HostStep::Finish), Out::Unsigned(value)) => ("finish", value),
        (What::Host(HostStep::ActorEnd), Out::Nothing) => ("over", status),
        (_, out) => word_of(status, out),
    }
}

/// What an entry of the history tells.
fn shared_told(entry: &Entry) -> InHistory {
    let who = match entry.actor {
        Actor::Env => "env",
        Actor::Thread(_) => "thread",
        Actor::Worker(_) => "worker",
    };
    let (word, number) = event_told(entry);
    let status = entry.reply.status.number() as u64;
    let made = duty_number(entry.reply.made);
    (who, word, number, [status, entry.step as u64, made])
}
