//! Worked runs without a schedule. In some no thread is started: the environment gives turns to all actors. Each is made twice, and both come to the
//! same two lists. In others each actor has a thread of its own. What the lists tell in any order of turns was worked out by hand.
ghost use Rattle.std.specs.Prelude.{◌≡◌, ◌≤◌, ◌∷◌, List, length, map};
ghost use Rattle.std.specs.List.{All, range_with_len};
ghost use Rattle.turn_lock.specs.Passes.{PassState, new_pass};
ghost use Rattle.env_loop.specs.ActorRuns.{IsOperationOfThread};
ghost use Rattle.env_loop.specs.ActorTurns.{actor_of, actors_of, IsUnstartedActor, HoldsNoWork};
ghost use Rattle.env_loop.specs.OpenedAndGone.{IsOpenedRun};
ghost use Rattle.runner.specs.ActorsAtTheLock.{IsUnstartedStray};

use super::ample;
use super::driving::{InHistory, InJournal, history_of, journal_of, list_of, opened_hub};
use addon_trait::Addon;
use env_core::EnvCore;
use env_loop::{ActorRun, EnvRun};
use hub_lock::Hub;
use napi_types::{Limits, Listed, Mode, Op, OpList, OpenGate, Record, Release};
use runner::{Crew, Stray, run_env};
use script_addon::{ScriptAddon, ScriptJob};
use script_read::read_script;
use shared_hub::Naming;
use std::alloc::Global;
use std::marker::Brand;
use std::process::Abort;
use std::sync::Wait;
use std::thread::Threads;
use turn_lock::Pass;

/// How many entries each of the two lists may have.
const PLACES: u32 = 200;

/// The operations of a thread.
#[derive(Clone, Copy)]
enum Calls {
    None,
    /// A call of function 1 that waits, with this payload.
    One(u64),
    /// The same, and then a release.
    OneAndRelease(u64),
}

/// The list of these operations.
fn operations(rt: &impl Abort, alloc: Global, calls: Calls) -> OpList
    ensures few { length result ≤ 16384 }
    ensures kinds { All IsOperationOfThread result }
{
    let list = match calls {
        Calls::None => Some(Vec::new(alloc)),
        Calls::One(payload) => { vec![in alloc; Op::ThreadCall(1, payload, Mode::Blocking)].ok() }
        Calls::OneAndRelease(payload) => vec![in alloc;
            Op::ThreadCall(1, payload, Mode::Blocking),
            Op::ThreadRelease(1, Release::Release),
        ]
        .ok(),
    };
    Listed::of(list.expect(rt, "a list"))
}

/// A list of one addon that follows the first addon of a script.
fn scripted(rt: &impl Abort, alloc: Global, script: &[u8]) -> Vec<Box<dyn Addon>>
    ensures { length result.items ≡ 1 }
{
    let mut addon = ScriptAddon::blank(alloc);
    match read_script(alloc, script) {
        Ok(script) => {
            for plan in script.addons.into_items() {
                addon.load(plan);
            }
        }
        Err(_) => panic!(rt; "a script is refused"),
    }
    list_of(rt, alloc, Box::new(alloc, addon).expect(rt, "an addon"))
}

/// An environment of one addon that is to run, with one text.
fn opened(rt: &impl Abort, alloc: Global) -> EnvRun
    ensures opened { IsOpenedRun result }
    ensures one { result.core.env.addons ≡ 1 }
{
    let limits = Limits {
        journal: PLACES,
        history: PLACES,
    };
    EnvRun::new(ample(rt, EnvCore::new(alloc, 9, 1, 1, limits)))
}

/// The passes of actors that hold no work, behind this one.
fn passes_behind(
    rt: &impl Abort,
    alloc: Global,
    first: Pass,
    mut strays: Vec<Stray<ScriptJob>>,
) -> Vec<Pass>
    requires { All (λ s. HoldsNoWork s.actor) strays.items }
    ensures { result.items ≡ first ∷ map (λ s. s.pass) strays.items }
{
    let mut passes = Vec::new(alloc);
    passes.push(first).expect(rt, "a place");
    while !strays.is_empty() {
        let Stray { actor, pass } = strays.remove(0);
        actor.retire();
        passes.push(pass).expect(rt, "a place");
    }
    strays.destroy_empty();
    passes
}

/// Takes the first pass off.
fn take_pass(passes: &mut Vec<Pass>) -> Pass
    requires { (p : PassState) × (rest : List PassState) × (passes.old.items ≡ p ∷ rest) }
    ensures { (p : PassState) (rest : List PassState) → passes.old.items ≡ p ∷ rest → (result ≡ p) × (passes.new.items ≡ rest) }
{
    passes.remove(0)
}

/// Two threads and a worker, each with its pass.
fn strays_of<N: Naming>(
    rt: &impl Abort,
    alloc: Global,
    hub: &Hub<ScriptJob, N>,
    mut passes: Vec<Pass>,
    threads: [Calls; 2],
) -> Vec<Stray<ScriptJob>>
    requires named { N.numbers ≡ record { threads = 2; workers = 1; limits = record { journal = 0; history = 200 } } }
    requires passes { passes.items ≡ map (new_pass hub.now.lock) (range_with_len 1 3) }
    ensures fresh { All (IsUnstartedStray N.numbers hub.now) result.items }
    ensures numbers { map (λ s. s.pass.number) result.items ≡ range_with_len 1 3 }
{
    let mut strays = Vec::with_capacity(alloc, 3).expect(rt, "places");
    strays.push_reserved(Stray {
        actor: ActorRun::thread(0, operations(rt, alloc, threads[0])),
        pass: take_pass(&mut passes),
    });
    strays.push_reserved(Stray {
        actor: ActorRun::thread(1, operations(rt, alloc, threads[1])),
        pass: take_pass(&mut passes),
    });
    strays.push_reserved(Stray {
        actor: ActorRun::worker(0),
        pass: take_pass(&mut passes),
    });
    strays
}

/// A run with two threads and a worker, none of which has a thread of its own, and how often anybody fell asleep in it.
fn run_of<N: Naming, R: Abort + Wait>(
    rt: &R,
    alloc: Global,
    script: &[u8],
    threads: [Calls; 2],
) -> (Record, u64)
    requires named { N.numbers ≡ record { threads = 2; workers = 1; limits = record { journal = 0; history = 200 } } }
{
    let hub = opened_hub::<N>(rt, alloc, 2, 1, PLACES);
    let (hub, mut passes) = ample(rt, Hub::new(alloc, hub, 4));
    let mut first = take_pass(&mut passes);
    let mut strays = strays_of(rt, alloc, &hub, passes, threads);
    let mut env = opened(rt, alloc);
    let mut addons = scripted(rt, alloc, script);
    run_env(rt, &hub, &mut first, &mut env, &mut addons, &mut strays);
    let state = Box::into_inner(hub.close(passes_behind(rt, alloc, first, strays)));
    let sleeps = state.sleeps();
    (env.into_record(state), sleeps)
}

/// What the two lists of such a run tell, and how often anybody fell asleep. The numbers are named here.
fn told<R: Abort + Wait>(
    rt: &R,
    alloc: Global,
    script: &[u8],
    threads: [Calls; 2],
) -> (Vec<InJournal>, Vec<InHistory>, u64) {
    let (record, sleeps) = run_of::<Brand, R>(rt, alloc, script, threads);
    (
        journal_of(rt, alloc, &record),
        history_of(rt, alloc, &record),
        sleeps,
    )
}

/// Two threads and a worker, before their first turns.
fn actors<N: Naming>(
    rt: &impl Abort,
    alloc: Global,
    threads: [Calls; 2],
) -> Vec<ActorRun<ScriptJob>>
    requires named { N.numbers ≡ record { threads = 2; workers = 1; limits = record { journal = 0; history = 200 } } }
    ensures order { map actor_of result.items ≡ actors_of N.numbers }
    ensures fresh { All IsUnstartedActor result.items }
{
    let mut actors = Vec::with_capacity(alloc, 3).expect(rt, "places");
    actors.push_reserved(ActorRun::thread(0, operations(rt, alloc, threads[0])));
    actors.push_reserved(ActorRun::thread(1, operations(rt, alloc, threads[1])));
    actors.push_reserved(ActorRun::worker(0));
    actors
}

/// A run with two threads and a worker, each of which has a thread of its own.
fn run_at_once<N: Naming + Send + Sync, R: Abort + Threads + Wait + Sync>(
    rt: &R,
    alloc: Global,
    script: &[u8],
    threads: [Calls; 2],
) -> Record
    requires named { N.numbers ≡ record { threads = 2; workers = 1; limits = record { journal = 0; history = 200 } } }
{
    let hub = opened_hub::<N>(rt, alloc, 2, 1, PLACES);
    let crew = ample(rt, Crew::new(alloc, hub, actors::<N>(rt, alloc, threads)));
    let mut addons = scripted(rt, alloc, script);
    crew.run(rt, opened(rt, alloc), &mut addons, &OpenGate)
}

/// Who makes which entries that are counted.
const COUNTED: [(&str, &str); 9] = [
    ("thread", "status"),
    ("thread", "over"),
    ("worker", "start"),
    ("worker", "finish"),
    ("worker", "over"),
    ("env", "completion"),
    ("env", "item"),
    ("env", "torn"),
    ("env", "quiet"),
];

/// Whether an entry is one of those, and has the status 0.
fn is_counted(entry: InHistory, who: &str, word: &str) -> bool {
    let (by, told, _, [status, _, _]) = entry;
    status == 0 && by == who && told == word
}

/// How many there are of each.
fn counts_of(history: &[InHistory]) -> [usize; 9] {
    COUNTED.map(|(who, word)| history
        .iter()
        .filter(|entry| is_counted(**entry, who, word))
        .count())
}

/// How many there are of each in the history of a run. A second run comes to the same lists.
fn counted<R: Abort + Wait>(
    rt: &R,
    alloc: Global,
    script: &[u8],
    threads: [Calls; 2],
) -> [usize; 9] {
    let (journal, history, sleeps) = told(rt, alloc, script, threads);
    let (same_journal, same_history, same_sleeps) = told(rt, alloc, script, threads);
    assert_eq!(rt; journal.as_slice(), same_journal.as_slice());
    assert_eq!(rt; history.as_slice(), same_history.as_slice());
    assert_eq!(rt; sleeps, same_sleeps);
    counts_of(&history)
}

/// How many there are of each where each actor has a thread of its own. The numbers are named here.
fn counted_at_once<R: Abort + Threads + Wait + Sync>(
    rt: &R,
    alloc: Global,
    script: &[u8],
    threads: [Calls; 2],
) -> [usize; 9] {
    let record = run_at_once::<Brand, R>(rt, alloc, script, threads);
    counts_of(&history_of(rt, alloc, &record))
}

/// A work, and a function with a queue of four, which two threads call and release.
const REALISTIC: &[u8] =
    br#"{"version":9,"workers":0,"addons":[{"name":"counter","entries":[[["create_object",1],["wrap",1,100,3,0,-1],["create_reference",1,1,2],["create_async_work",["sum",10],2,0,3],["queue_async_work",3],["create_threadsafe_function",-1,1,4,2,-1,0,0]],[["get_reference_value",2,4],["create_int64",1,5],["set_named_property",4,"n",5]],[["delete_async_work",3]],[]]}],"threads":[]}"#;

/// A work that is queued and cancelled. Its completion deletes it.
const CANCELLED: &[u8] =
    br#"{"version":9,"workers":0,"addons":[{"name":"a","entries":[[["create_async_work",["sum",4],1,9,0],["queue_async_work",0],["cancel_async_work",0],["queue_async_work",0],["delete_async_work",0]],[["delete_async_work",0]]]}],"threads":[]}"#;

/// A function whose queue has one place, which is taken when the thread calls.
const FULL: &[u8] =
    br#"{"version":9,"workers":0,"addons":[{"name":"a","entries":[[["create_threadsafe_function",-1,1,1,1,-1,0,0],["call_threadsafe_function",0,7,0],["call_threadsafe_function",0,8,0],["call_threadsafe_function",0,9,1]],[]]}],"threads":[]}"#;

/// The loop ends while a work is queued, an item waits, and a thread is to call.
const EXIT: &[u8] =
    br#"{"version":9,"workers":0,"addons":[{"name":"a","entries":[[["add_env_cleanup_hook",3,1],["add_env_cleanup_hook",3,2],["create_object",1],["wrap",1,5,4,0,-1],["create_async_work",["sum",3],2,0,2],["queue_async_work",2],["create_threadsafe_function",-1,1,1,1,-1,0,0],["call_threadsafe_function",0,7,0],["exit"]],[],[],[],[]]}],"threads":[]}"#;

/// A function that nobody releases.
const OPEN: &[u8] =
    br#"{"version":9,"workers":0,"addons":[{"name":"a","entries":[[["create_threadsafe_function",-1,1,0,1,-1,0,0]],[]]}],"threads":[]}"#;

/// An item, whose frame queues a work, whose completion releases the function.
const LATE_WORK: &[u8] =
    br#"{"version":9,"workers":0,"addons":[{"name":"a","entries":[[["create_threadsafe_function",-1,1,0,1,-1,0,0],["call_threadsafe_function",0,7,0]],[["create_async_work",["sum",4],2,0,1],["queue_async_work",1]],[["release_threadsafe_function",0,0]]]}],"threads":[]}"#;

#[test]
fn all_actors_are_strays(rt: HostRuntime) {
    let alloc = rt.alloc();
    let none = [Calls::None; 2];
    let one = [Calls::One(8), Calls::None];
    let two = [Calls::OneAndRelease(1), Calls::OneAndRelease(2)];
    let full = [Calls::OneAndRelease(10), Calls::None];
    assert_eq!(rt;
        counted(&rt, alloc, REALISTIC, two),
        [4, 2, 1, 1, 1, 1, 2, 0, 0]
    );
    assert_eq!(rt;
        counted(&rt, alloc, FULL, full),
        [2, 2, 0, 0, 1, 0, 2, 0, 0]
    );
    // The environment has something to do until it drains, so no other actor has a turn before that.
    assert_eq!(rt;
        counted(&rt, alloc, CANCELLED, none),
        [0, 2, 0, 0, 1, 0, 0, 0, 0]
    );
    assert_eq!(rt; counted(&rt, alloc, EXIT, one), [0, 2, 0, 0, 1, 0, 0, 1, 0]);
    // Here it has nothing to do until they have ended, or until the work is finished.
    assert_eq!(rt;
        counted(&rt, alloc, OPEN, none),
        [0, 2, 0, 0, 1, 0, 0, 0, 1]
    );
    assert_eq!(rt;
        counted(&rt, alloc, LATE_WORK, none),
        [0, 2, 1, 1, 1, 1, 1, 0, 0]
    );
}

/// The environment alone falls asleep: while all of them are left, and while the worker is, which waits in between and stays awake.
#[test]
fn a_stray_never_falls_asleep(rt: HostRuntime) {
    let (_, _, sleeps) = told(&rt, rt.alloc(), OPEN, [Calls::None; 2]);
    assert_eq!(&rt; sleeps, 2);
}

#[test]
fn each_actor_has_a_thread(rt: HostRuntime) {
    let alloc = rt.alloc();
    let none = [Calls::None; 2];
    let two = [Calls::OneAndRelease(1), Calls::OneAndRelease(2)];
    let full = [Calls::OneAndRelease(10), Calls::None];
    assert_eq!(rt;
        counted_at_once(&rt, alloc, REALISTIC, two),
        [4, 2, 1, 1, 1, 1, 2, 0, 0]
    );
    assert_eq!(rt;
        counted_at_once(&rt, alloc, FULL, full),
        [2, 2, 0, 0, 1, 0, 2, 0, 0]
    );
    assert_eq!(rt;
        counted_at_once(&rt, alloc, OPEN, none),
        [0, 2, 0, 0, 1, 0, 0, 0, 1]
    );
    assert_eq!(rt;
        counted_at_once(&rt, alloc, LATE_WORK, none),
        [0, 2, 1, 1, 1, 1, 1, 0, 0]
    );
}
