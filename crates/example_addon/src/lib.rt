//! An addon written in the language, which tells no plan: an example for whoever writes one.
//! It keeps what it was told in a state of its own, and asks by it. Contracts see it as that state, and say exactly what it asks
//! and what it keeps of each reply.
#![tactic(auto)]

ghost use Rattle.std.specs.Prelude.{◌≡◌, [], ◌∷◌, ◌++◌, None};
ghost use Rattle.napi_types.specs.scripts.Registers.{blank_registers, with_gifts};
ghost use Rattle.example_addon.specs.Example.{starting, main_ask, callback_ask, ask_of, accepted_result, given_handle, given_reference, lowered_after, progress_after, noted};

use addon_trait::Addon;
use napi_types::{
    AddonPlan, Args, Ask, Begun, Call, Due, HandleId, Out, RefId, Reply, SeenList, Status,
};
use std::marker::Model;

/// How far the addon has come in its entry 0, with what it was told on the way.
#[derive(Clone, Copy)]
pub enum Progress {
    /// It was told nothing.
    Start,
    /// It has an array.
    Array(HandleId),
    /// It has the array and a reference to it, which it counted down so many times.
    Referenced(HandleId, RefId, u64),
    /// It has the array. The reference was counted down so many times, and then no more.
    Lowered(HandleId, u64),
    /// It has the array and a function.
    Function(HandleId, HandleId),
    /// The function gave it this.
    Returned(HandleId),
    /// Nothing is left to do.
    Done,
}

/// The addon of the example. It has two entries.
///
/// Entry 0 makes an array and a reference to it, and counts the reference down until that is refused. Then it makes a function of
/// entry 1, whose payload is how often it counted, calls it with the array, and asks for the length of what the call gives. Where
/// a reply is another than the one that it waits for it leaves.
///
/// Entry 1 sets an element of its first argument to its receiver, at the index that is its payload, and leaves with the argument.
#[derive(Drop)]
pub struct ExampleAddon {
    progress: Progress,
    /// What the last frame was given that a call entered or a duty began.
    gifts: [u64; 8],
    /// The duties that began.
    seen: SeenList,
}

impl Model for ExampleAddon {
    ghost use Rattle.example_addon.specs.Example.{ExampleState};

    ghost Value = { ExampleState };

    ghost view = { λ addon. record { progress = addon.progress; gifts = addon.gifts; seen = addon.seen } };
}

impl ExampleAddon {
    /// An addon that was told nothing and has seen nothing. It takes no memory.
    pub fn new() -> ExampleAddon
        ensures { result ≡ starting }
    {
        ExampleAddon {
            progress: Progress::Start,
            gifts: [0; 8],
            seen: SeenList::new(),
        }
    }
}

/// What entry 0 asks.
fn main_ask(progress: Progress) -> Ask
    ensures { result ≡ main_ask progress }
{
    match progress {
        Progress::Start => Ask::Do(Call::CreateArray),
        Progress::Array(array) => Ask::Do(Call::CreateReference(array, 2)),
        Progress::Referenced(_, reference, _) => Ask::Do(Call::ReferenceUnref(reference)),
        Progress::Lowered(_, lowered) => Ask::Do(Call::CreateFunction(1, lowered)),
        Progress::Function(array, function) => {
            let unused = HandleId(0);
            let arguments = Args {
                count: 1,
                handles: [array, unused, unused, unused],
            };
            Ask::Do(Call::CallFunction(None, function, arguments))
        }
        Progress::Returned(value) => Ask::Do(Call::GetArrayLength(value)),
        Progress::Done => Ask::Leave(None),
    }
}

/// What entry 1 asks, which was given these numbers.
fn callback_ask(gifts: &[u64; 8], step: u32) -> Ask
    ensures { result ≡ callback_ask gifts.now step }
{
    let argument = HandleId(gifts[1]);
    let receiver = HandleId(gifts[5]);
    let payload = gifts[6];
    match step {
        0 => Ask::Do(Call::SetElement(argument, payload, receiver)),
        _ => Ask::Leave(Some(argument)),
    }
}

/// The result of an accepted call.
fn accepted(reply: &Reply) -> Option<Out>
    ensures { result ≡ accepted_result reply.now }
{
    match reply.status {
        Status::Ok => Some(reply.out),
        _ => None,
    }
}

/// The handle that an accepted call gave.
fn handle(reply: &Reply) -> Option<HandleId>
    ensures { result ≡ given_handle reply.now }
{
    match accepted(reply)? {
        Out::Handle(handle) => Some(handle),
        _ => None,
    }
}

/// The reference that an accepted call gave.
fn reference(reply: &Reply) -> Option<RefId>
    ensures { result ≡ given_reference reply.now }
{
    match accepted(reply)? {
        Out::Ref(reference) => Some(reference),
        _ => None,
    }
}

/// What a reply to a count downwards comes to: an accepted one is counted, and a refused one is the last.
fn lowered(array: HandleId, reference: RefId, times: u64, status: Status) -> Progress
    ensures { result ≡ lowered_after array reference times status }
{
    match status {
        Status::Ok => Progress::Referenced(array, reference, times.saturating_add(1)),
        _ => Progress::Lowered(array, times),
    }
}

/// What entry 0 comes to by the reply to its call.
fn next(progress: Progress, reply: &Reply) -> Progress
    ensures { result ≡ progress_after progress reply.now }
{
    match progress {
        Progress::Start => match handle(reply) {
            Some(array) => Progress::Array(array),
            None => Progress::Done,
        },
        Progress::Array(array) => match reference(reply) {
            Some(reference) => Progress::Referenced(array, reference, 0),
            None => Progress::Done,
        },
        Progress::Referenced(array, reference, times) => {
            lowered(array, reference, times, reply.status)
        }
        Progress::Lowered(array, _) => match handle(reply) {
            Some(function) => Progress::Function(array, function),
            None => Progress::Done,
        },
        Progress::Function(_, _) => match handle(reply) {
            Some(value) => Progress::Returned(value),
            None => Progress::Done,
        },
        Progress::Returned(_) | Progress::Done => Progress::Done,
    }
}

impl Addon for ExampleAddon {
    ghost plan = { λ _. None };

    ghost regs = { λ addon. with_gifts addon.gifts blank_registers };

    ghost seen = { λ addon. addon.seen };

    fn load(&mut self, _given: AddonPlan)
        ensures { self.new ≡ record starting { seen = self.old.seen } }
    {
        self.progress = Progress::Start;
        self.gifts = [0; 8];
    }

    fn enter(&mut self, _entry: u32, gifts: &[u64; 8])
        ensures { self.new ≡ record self.old { gifts = gifts.now } }
    {
        self.gifts = *gifts;
    }

    fn begin(&mut self, due: Due) -> Begun
        ensures begun { result ≡ due }
        ensures kept { self.new ≡ record self.old { gifts = due.gifts; seen = self.old.seen ++ due ∷ [] } }
    {
        self.gifts = due.info().gifts;
        due.begin(&mut self.seen)
    }

    fn ask(&mut self, entry: u32, step: u32) -> Ask
        ensures asked { result ≡ ask_of self.old entry step }
        ensures stays { self.new ≡ self.old }
    {
        match entry {
            0 => main_ask(self.progress),
            1 => callback_ask(&self.gifts, step),
            _ => Ask::Leave(None),
        }
    }

    fn note(&mut self, entry: u32, _step: u32, reply: &Reply)
        ensures { self.new ≡ noted self.old entry reply.now }
    {
        if entry == 0 {
            self.progress = next(self.progress, reply);
        }
    }
}
