//! Actors on threads of their own: the first worker is held before its job until the second one is there. No clause says that two threads run at once,
//! nor that a worker and a thread come to the gate where there is one of each.
use super::*;
use std::sync::atomic::{AtomicU64, Ordering};

/// Two works, two workers, a thread without operations, and one that acquires a function and releases it twice.
const TWO_WORKS: &[u8] =
    br#"{"version":9,"workers":2,"addons":[{"name":"a","entries":[[["create_async_work",["sum",4],1,0,0],["queue_async_work",0],["create_async_work",["mix",1,1],1,0,1],["queue_async_work",1],["create_threadsafe_function",-1,1,0,1,-1,0,2]],[]]}],"threads":[[],[["acquire_threadsafe_function",1],["release_threadsafe_function",1,0],["release_threadsafe_function",1,0]]]}"#;

/// The same works and one worker, and that thread alone.
const ONE_WORKER: &[u8] =
    br#"{"version":9,"workers":1,"addons":[{"name":"a","entries":[[["create_async_work",["sum",4],1,0,0],["queue_async_work",0],["create_async_work",["mix",1,1],1,0,1],["queue_async_work",1],["create_threadsafe_function",-1,1,0,1,-1,0,2]],[]]}],"threads":[[["acquire_threadsafe_function",1],["release_threadsafe_function",1,0],["release_threadsafe_function",1,0]]]}"#;

/// How often a worker looks whether the other one is there.
const MOST_LOADS: u32 = 200_000_000;

/// A gate that holds a worker before its job until all are there, and gives up after so many looks.
#[derive(Drop)]
struct Meeting {
    /// The number of the thread that makes calls. The workers have the numbers behind it.
    caller: u32,
    /// The workers that are to come: 1 for the first one, and 2 for the second.
    wanted: u64,
    /// Those that came.
    there: AtomicU64,
    /// How many of them gave up.
    alone: AtomicU64,
    /// How often a worker came.
    jobs: AtomicU64,
    /// How often the thread came.
    calls: AtomicU64,
    /// How often it was another actor, or another point.
    others: AtomicU64,
}

impl Meeting {
    fn new(caller: u32, wanted: u64) -> Meeting {
        Meeting {
            caller,
            wanted,
            there: AtomicU64::new(0),
            alone: AtomicU64::new(0),
            jobs: AtomicU64::new(0),
            calls: AtomicU64::new(0),
            others: AtomicU64::new(0),
        }
    }

    /// A worker comes, and looks until all are there.
    fn meet(&self, worker: u64) {
        let _ = self.jobs.fetch_add(1, Ordering::SeqCst);
        let _ = self.there.fetch_or(worker, Ordering::SeqCst);
        for _ in 0..MOST_LOADS {
            if self.there.load(Ordering::SeqCst) == self.wanted {
                return;
            }
        }
        let _ = self.alone.fetch_add(1, Ordering::SeqCst);
    }

    /// What was counted.
    fn counts(&self) -> [u64; 5] {
        [
            self.there.load(Ordering::SeqCst),
            self.alone.load(Ordering::SeqCst),
            self.jobs.load(Ordering::SeqCst),
            self.calls.load(Ordering::SeqCst),
            self.others.load(Ordering::SeqCst),
        ]
    }
}

impl Gate for Meeting {
    /// The thread comes to point 2, before each operation. The workers come to point 1, before each job.
    fn at<R: Wait>(&self, _rt: &R, actor: u32, point: u32) {
        match (actor.checked_sub(self.caller), point) {
            (Some(0), 2) => {
                let _ = self.calls.fetch_add(1, Ordering::SeqCst);
            }
            (Some(1), 1) => self.meet(1),
            (Some(2), 1) => self.meet(2),
            _ => {
                let _ = self.others.fetch_add(1, Ordering::SeqCst);
            }
        }
    }
}

/// What a worker's lines tell that executes the first work, and what those of the other one tell.
const FIRST_WORK: &str = ";start 0 j1;finish 0 10;actor_end 0 -";

const SECOND_WORK: &str = ";start 0 j2;finish 0 7806831264735756412;actor_end 0 -";

/// What the thread's lines tell.
const CALLS: &str =
    ";acquire_threadsafe_function 0 -;release_threadsafe_function 0 -;release_threadsafe_function 0 -;actor_end 0 -";

/// What the lines of an actor tell, each behind a semicolon.
fn told_of<R: Abort>(rt: &R, alloc: Global, trace: &str, actor: &str) -> String {
    let mut told = String::new(alloc);
    for line in trace.lines() {
        let (_, event) = given(rt, line.split_once(' ').ok_or("a line has no number"));
        let (who, what) = given(rt, event.split_once(' ').ok_or("a line has no actor"));
        if who == actor {
            given(rt, told.push(';'));
            given(rt, told.push_str(what));
        }
    }
    told
}

/// Whether two workers executed a work each, whichever of them came first.
fn worked<R: Abort>(rt: &R, alloc: Global, trace: &str) -> bool {
    let first = told_of(rt, alloc, trace, "w0");
    let second = told_of(rt, alloc, trace, "w1");
    match first.as_str() {
        FIRST_WORK => second.as_str() == SECOND_WORK,
        SECOND_WORK => second.as_str() == FIRST_WORK,
        _ => false,
    }
}

/// The status of the run of a script at this gate, and its trace.
fn ran<R: Abort + Threads + Wait + Sync>(
    rt: &R,
    alloc: Global,
    meeting: &Meeting,
    script: &[u8],
) -> (u8, String) {
    let mut addons: Vec<Box<dyn Addon>> = Vec::new(alloc);
    let scripted = given(rt, Box::new(alloc, ScriptAddon::blank(alloc)));
    given(rt, addons.push(scripted));
    run_at(rt, alloc, meeting, script, &mut addons)
}

/// The thread that makes calls has the number 2, and the workers have 3 and 4: whoever has no thread of its own does not come to the gate.
#[test]
fn two_workers_execute_their_jobs_at_once(rt: HostRuntime) {
    let alloc = rt.alloc();
    let meeting = Meeting::new(2, 3);
    let (status, trace) = ran(&rt, alloc, &meeting, TWO_WORKS);
    assert_eq!(&rt; (status, meeting.counts()), (0, [3, 0, 2, 3, 0]));
    assert!(&rt; worked(&rt, alloc, &trace));
    assert_eq!(&rt; told_of(&rt, alloc, &trace, "t1").as_str(), CALLS);
    let told = told_of(&rt, alloc, &trace, "env");
    for line in [
        ";begin 0 complete:0.1:j1;",
        ";begin 0 complete:0.1:j2;",
        ";loop_end 0 idle;",
    ] {
        assert!(&rt; told.contains(line), "no {line}");
    }
}

/// One worker comes before each of two jobs, and the thread, which has the number 1, before each of its calls.
#[test]
fn a_worker_and_a_thread_come_to_the_gate(rt: HostRuntime) {
    let alloc = rt.alloc();
    let meeting = Meeting::new(1, 1);
    let (status, trace) = ran(&rt, alloc, &meeting, ONE_WORKER);
    assert_eq!(&rt; (status, meeting.counts()), (0, [1, 0, 2, 3, 0]));
    assert_eq!(&rt; told_of(&rt, alloc, &trace, "t0").as_str(), CALLS);
}
