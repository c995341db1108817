//! The load script.
ghost use Rattle.std.specs.Prelude.{◌≡◌, ◌≤◌, ◌+◌, ◌^◌, ◌++◌, ◌∷◌, [], flat_map, IfOk, vec_len, vec_capacity};
ghost use Rattle.std.specs.List.{range_with_len};
ghost use Rattle.napi_types.specs.plain.Texts.{fixed_texts};
ghost use Rattle.script_run.specs.Runs.{IsSmall};
ghost use Rattle.script_run.specs.Load.{calls_from, first_entry, load_plan, load_script, load_threads, makes_work, makes_wrap, thread_operations};

use napi_types::{
    AddonPlan, JobSpec, LOWEST_VERSION, Listed, Mode, NoMemory, Op, OpList, OpLists, Plans,
    Release, Script, Text, Texts,
};
use std::alloc::Global;

/// How many threads the load script has.
const THREADS: u32 = 16;

/// How many calls each of them makes.
const CALLS: u32 = 6_250;

/// How many operations its first entry has.
const FIRST_ENTRY: usize = 39;

/// Makes the load script of a number: one addon and 16 threads that make 100,000 accepted calls of its thread-safe function in all.
/// The number adds to each payload, so that it shows in the sum. The host can run the script.
pub fn load_script(alloc: Global, number: u32) -> Result<Script, NoMemory>
    ensures same { IfOk result (λ script. script ≡ load_script number) }
    ensures small { IfOk result IsSmall }
{
    let addons = plans(alloc)?;
    let threads = threads(alloc, number)?;
    let texts = fixed(alloc)?;
    Ok(Script {
        version: LOWEST_VERSION,
        workers: 4,
        addons,
        threads,
        schedule: None,
        texts,
    })
}

/// The three texts with which every table begins.
fn fixed(alloc: Global) -> Result<Texts, NoMemory>
    ensures { IfOk result (λ texts. texts ≡ fixed_texts) }
{
    let mut texts = Vec::with_capacity(alloc, 3)?;
    texts.push_reserved(Text::of(alloc, "message")?);
    texts.push_reserved(Text::of(alloc, "code")?);
    texts.push_reserved(Text::of(alloc, "stack depth")?);
    Ok(Texts::of(texts))
}

/// The plan of the addon.
fn plans(alloc: Global) -> Result<Plans, NoMemory>
    ensures { IfOk result (λ plans. plans ≡ load_plan ∷ []) }
{
    let mut plans = Vec::with_capacity(alloc, 1)?;
    let entries = entries(alloc)?;
    plans.push_reserved(AddonPlan { entries });
    Ok(Listed::of(plans))
}

/// The entries of the addon.
fn entries(alloc: Global) -> Result<OpLists, NoMemory>
    ensures { IfOk result (λ entries. entries ≡ load_plan.entries) }
{
    let mut entries = Vec::with_capacity(alloc, 6)?;
    entries.push_reserved(first_entry(alloc)?);
    entries.push_reserved(second_entry(alloc)?);
    entries.push_reserved(Listed::of(Vec::new(alloc)));
    entries.push_reserved(Listed::of(Vec::new(alloc)));
    entries.push_reserved(Listed::of(Vec::new(alloc)));
    entries.push_reserved(Listed::of(Vec::new(alloc)));
    Ok(Listed::of(entries))
}

fn first_entry(alloc: Global) -> Result<OpList, NoMemory>
    ensures { IfOk result (λ operations. operations ≡ first_entry) }
{
    let mut operations = Vec::with_capacity(alloc, FIRST_ENTRY)?;
    operations.push_reserved(Op::CreateThreadsafeFunction(None, Some(1), 64, 16, Some(2), 0, 0));
    add_works(&mut operations);
    add_wraps(&mut operations);
    operations.push_reserved(Op::AddEnvCleanupHook(5, 0));
    operations.push_reserved(Op::AddEnvCleanupHook(5, 1));
    Ok(Listed::of(operations))
}

/// Adds eight works, where there is room for them.
fn add_works(operations: &mut Vec<Op>)
    requires { vec_len operations.old + 16 ≤ vec_capacity operations.old }
    ensures added { operations.new.items ≡ operations.old.items ++ flat_map makes_work (range_with_len 0 8) }
    ensures len { vec_len operations.new ≡ vec_len operations.old + 16 }
    ensures capacity { vec_capacity operations.new ≡ vec_capacity operations.old }
{
    for number in 0..8 {
        let payload: u64 = number;
        operations.push_reserved(Op::CreateAsyncWork(JobSpec::Sum(1000 + payload), 3, payload, 1));
        operations.push_reserved(Op::QueueAsyncWork(1));
    }
}

/// Adds ten objects with their wraps, where there is room for them.
fn add_wraps(operations: &mut Vec<Op>)
    requires { vec_len operations.old + 20 ≤ vec_capacity operations.old }
    ensures added { operations.new.items ≡ operations.old.items ++ flat_map makes_wrap (range_with_len 0 10) }
    ensures len { vec_len operations.new ≡ vec_len operations.old + 20 }
    ensures capacity { vec_capacity operations.new ≡ vec_capacity operations.old }
{
    for number in 0..10 {
        let payload: u64 = number;
        operations.push_reserved(Op::CreateObject(2));
        operations.push_reserved(Op::Wrap(2, payload, Some(4), 0, None));
    }
}

fn second_entry(alloc: Global) -> Result<OpList, NoMemory>
    ensures { IfOk result (λ operations. operations ≡ Op.CreateObject 3 ∷ []) }
{
    let mut operations = Vec::with_capacity(alloc, 1)?;
    operations.push_reserved(Op::CreateObject(3));
    Ok(Listed::of(operations))
}

/// The operations of all threads.
fn threads(alloc: Global, number: u32) -> Result<OpLists, NoMemory>
    ensures { IfOk result (λ threads. threads ≡ load_threads number 16) }
{
    let mut threads = Vec::with_capacity(alloc, THREADS as usize)?;
    for thread in 0..THREADS {
        threads.push_reserved(thread_operations(alloc, number, thread)?);
    }
    Ok(Listed::of(threads))
}

/// The operations of one thread.
fn thread_operations(alloc: Global, number: u32, thread: u32) -> Result<OpList, NoMemory>
    ensures { IfOk result (λ operations. operations ≡ thread_operations number thread) }
{
    let mut operations = Vec::with_capacity(alloc, CALLS as usize + 1)?;
    add_calls(&mut operations, number as u64 + thread as u64, CALLS);
    operations.push_reserved(Op::ThreadRelease(1, Release::Release));
    Ok(Listed::of(operations))
}

/// Adds so many calls with rising payloads, where there is room for them.
fn add_calls(operations: &mut Vec<Op>, payload: u64, many: u32)
    requires room { vec_len operations.old + many ≤ vec_capacity operations.old }
    requires fits { payload + many ≤ 2 ^ 63 }
    ensures added { operations.new.items ≡ operations.old.items ++ calls_from payload many }
    ensures len { vec_len operations.new ≡ vec_len operations.old + many }
    ensures capacity { vec_capacity operations.new ≡ vec_capacity operations.old }
{
    for call in 0..many {
        operations.push_reserved(Op::ThreadCall(1, payload + call as u64, Mode::Blocking));
    }
}
