//! What is done with an environment, step by step, and compared with what it is to come to. A step that cannot be made ends the test.
ghost use Rattle.std.specs.Prelude.{◌≡◌, ◌≢◌, [], true, false, Some};
ghost use Rattle.napi_types.specs.plain.Lists.{tail};
ghost use Rattle.napi_types.specs.plain.Phases.{next_phase};
ghost use Rattle.napi_types.specs.parts.Frames.{cause_of, duty_of, is_hub_duty};
ghost use Rattle.env_core.specs.Sharing.{IsAnswer};

use super::{Found, NONE, ample, ticket_of, told, word_of};
use addon_trait::Phased;
use env_core::{EnvCore, Stepped};
use napi_types::{
    Begun, Call, Cause, DueInfo, Duty, HandleId, LOWEST_VERSION, Limits, Out, Phase, Reply,
    SeenList, SharedCall, Status, TsfnId, Why,
};
use std::alloc::Global;
use std::process::Abort;

/// An environment in the init frame of its first addon, where there are two addons and three texts.
pub fn opened(rt: &impl Abort, alloc: Global) -> EnvCore {
    let limits = Limits {
        journal: 1024,
        history: 16,
    };
    let mut core = ample(rt, EnvCore::new(alloc, LOWEST_VERSION, 2, 3, limits));
    core.begin_init(0);
    core
}

/// Compares what something came to.
fn compare(rt: &impl Abort, core: &EnvCore, found: Found, expected: Found) {
    let entries = core.journal().len();
    assert_eq!(rt; found, expected, "with {entries} entries");
}

/// What a shared call is handed over with: the status of the environment's own refusal, 0 where it refuses nothing; how many frames stand, the number of the
/// ask, and the addon that calls; and of a target that it is there, its addon, its entry, and whether its torn items run.
fn handed(shared: &SharedCall) -> Found {
    let refused = match shared.refused {
        Some(status) => status.number() as u64,
        None => 0,
    };
    let target = match shared.target {
        Some(target) => [
            1,
            target.addon as u64,
            target.entry as u64,
            target.torn_runs as u64,
        ],
        None => [0; 4],
    };
    let (depth, step, addon) = (shared.depth as u64, shared.step as u64, shared.addon as u64);
    let numbers = [
        depth, step, addon, target[0], target[1], target[2], target[3], 0,
    ];
    ("shared", refused, numbers)
}

/// What a call of the innermost frame comes to.
fn called(rt: &impl Abort, core: &mut EnvCore, call: &Call) -> Found {
    let Some(frame) = core.frame() else {
        panic!(rt; "no frame stands");
    };
    assert!(rt;
        frame.asks < 65_536 && core.awaited().is_none(),
        "the call cannot be made"
    );
    match core.step(frame.asks, call) {
        Stepped::Reply(reply) => told(&reply),
        Stepped::Enter(target, gifts) => ("entry", target.entry as u64, gifts),
        Stepped::Shared(shared) => handed(&shared),
        Stepped::Stop(status) => ("stop", status.number() as u64, NONE),
    }
}

/// A call is accepted and tells this.
pub fn tells(rt: &impl Abort, core: &mut EnvCore, call: Call, word: &'static str, number: u64) {
    let found = called(rt, core, &call);
    compare(rt, core, found, (word, number, NONE));
}

/// A shared call is handed over with this, and the environment refuses it with the status of this number, 0 where it does not.
pub fn hands(rt: &impl Abort, core: &mut EnvCore, call: Call, refused: u64, numbers: [u64; 8]) {
    let found = called(rt, core, &call);
    compare(rt, core, found, ("shared", refused, numbers));
}

/// Whether a shared call that may be handed over stops for want of memory.
pub fn wants_memory(rt: &impl Abort, core: &mut EnvCore, call: Call) -> bool {
    called(rt, core, &call) == ("stop", 1000, NONE)
}

/// The reply to a shared call with this result, or with the environment's own refusal where there is one.
fn reply_to(shared: &SharedCall, out: Out) -> Reply
    ensures { IsAnswer shared.now result }
{
    match shared.refused {
        Some(status) => Reply::plain(status, Out::Nothing),
        None => Reply::plain(Status::Ok, out),
    }
}

/// The hub answers the call that is awaited, with this result where the environment does not refuse it; its history has this length then.
pub fn answers(rt: &impl Abort, core: &mut EnvCore, out: Out, position: u64) {
    assert!(rt; core.position() <= position, "the history was longer");
    let Some(shared) = core.awaited() else {
        panic!(rt; "no call is awaited");
    };
    core.settle(reply_to(&shared, out), position);
}

/// The hub stops at the call that is awaited; its history has this length then.
pub fn stops(rt: &impl Abort, core: &mut EnvCore, position: u64) {
    assert!(rt; core.position() <= position, "the history was longer");
    assert!(rt; core.awaited().is_some(), "no call is awaited");
    core.unsettle(position);
}

/// A call is accepted and tells nothing.
pub fn does(rt: &impl Abort, core: &mut EnvCore, call: Call) {
    tells(rt, core, call, "status", 0);
}

/// A call is refused with the status of this number.
pub fn refuses(rt: &impl Abort, core: &mut EnvCore, call: Call, status: u64) {
    tells(rt, core, call, "status", status);
}

/// A call gives this handle.
pub fn gives(rt: &impl Abort, core: &mut EnvCore, call: Call, handle: u64) {
    tells(rt, core, call, "handle", handle);
}

/// A call is accepted, tells this, and makes and withdraws these tickets, 0 where it makes or withdraws none.
pub fn tells_tickets(
    rt: &impl Abort,
    core: &mut EnvCore,
    call: Call,
    answer: (&'static str, u64),
    tickets: [u64; 2],
) {
    let found = called(rt, core, &call);
    let numbers = [tickets[0], tickets[1], 0, 0, 0, 0, 0, 0];
    compare(rt, core, found, (answer.0, answer.1, numbers));
}

/// A call is accepted, tells nothing and makes this ticket.
pub fn registers(rt: &impl Abort, core: &mut EnvCore, call: Call, ticket: u64) {
    tells_tickets(rt, core, call, ("status", 0), [ticket, 0]);
}

/// A call enters a frame of this entry, with these gifts.
pub fn enters(rt: &impl Abort, core: &mut EnvCore, call: Call, entry: u64, gifts: [u64; 8]) {
    let found = called(rt, core, &call);
    compare(rt, core, found, ("entry", entry, gifts));
}

/// What the end of the innermost frame, which no ticket began, comes to.
fn left(rt: &impl Abort, core: &mut EnvCore, value: Option<HandleId>, cut: Option<Why>) -> Found
    requires { cut ≢ Some Why.Asks }
{
    let Some(frame) = core.frame() else {
        panic!(rt; "no frame stands");
    };
    assert!(rt;
        frame.duty.is_none() && core.awaited().is_none(),
        "the frame cannot end"
    );
    told(&core.leave(value, cut))
}

/// The innermost frame ends and leaves the value of a handle, which comes to this.
pub fn leave(rt: &impl Abort, core: &mut EnvCore, value: Option<HandleId>, expected: Found) {
    let found = left(rt, core, value, None);
    compare(rt, core, found, expected);
}

/// The innermost frame is cut for want of memory, and its end has the status of this number.
pub fn cut(rt: &impl Abort, core: &mut EnvCore, status: u64) {
    let found = left(rt, core, None, Some(Why::Memory));
    compare(rt, core, found, ("cut for memory", status, NONE));
}

/// The next addon's init frame begins, where no frame stands.
pub fn begin_next(rt: &impl Abort, core: &mut EnvCore) {
    let (None, Some(addon)) = (core.frame(), core.next_init()) else {
        panic!(rt; "no init frame can begin");
    };
    core.begin_init(addon);
}

/// The phase after this one.
fn phase_after(phase: Phase) -> Option<Phase>
    ensures { result ≡ next_phase phase }
{
    match phase {
        Phase::Init => Some(Phase::Live),
        Phase::Live => Some(Phase::Hooks),
        Phase::Hooks => Some(Phase::Drain),
        Phase::Drain => Some(Phase::Finals),
        Phase::Finals => Some(Phase::Gone),
        Phase::Gone => None,
    }
}

/// The next phase comes at this position, where no frame stands.
pub fn advance(rt: &impl Abort, core: &mut EnvCore, position: u64) {
    let (None, Some(phase)) = (core.frame(), phase_after(core.phase())) else {
        panic!(rt; "no phase can come");
    };
    core.advance(phase, position);
}

/// A thread-safe function finishes and one is closed, at these positions, as the teardown tells a core.
pub fn finish_and_close<P: Phased>(core: &mut P, finished: u64, closed: u64) {
    core.function_finished(TsfnId(1), finished);
    core.moved(closed);
}

/// The asynchronous hooks that wait are abandoned, at this position.
pub fn abandon(rt: &impl Abort, core: &mut EnvCore, position: u64) {
    assert!(rt;
        core.phase() == Phase::Hooks && core.waiting() > 0,
        "no hook waits in this phase"
    );
    core.abandoned(position);
}

/// Whether the duty is one of the hub.
fn is_of_hub(duty: Duty) -> bool
    ensures { result ≡ is_hub_duty (Some duty) }
{
    !matches!(duty, Duty::Ticket(_))
}

/// Whether the frame of this duty stands, and stands alone.
fn stands(core: &EnvCore, duty: Duty) -> bool
    ensures { let frames = core.now.env.frames in
        result ≡ true → (duty_of frames ≡ Some duty) × (tail frames ≡ []) × (cause_of frames ≢ Cause.Call) }
{
    match core.frame() {
        Some(frame) if frame.cause != Cause::Call => {
            frame.duty == Some(duty) && core.depth() == 1
        }
        _ => false,
    }
}

/// What a ticket that began tells: its number, and the addon, the entry, the payload and the hint.
fn ticket_told(info: &DueInfo) -> Found {
    let (addon, entry) = (info.addon as u64, info.entry as u64);
    let (payload, hint) = (info.gifts[0], info.gifts[1]);
    let numbers = [addon, entry, payload, hint, 0, 0, 0, 0];
    ("ticket", ticket_of(Some(info.duty)), numbers)
}

/// The frame of the next ticket begins, where no frame stands and a ticket is next.
fn begun(rt: &impl Abort, core: &mut EnvCore) -> Option<Begun> {
    assert!(rt; core.frame().is_none(), "a frame stands");
    assert!(rt;
        core.phase() != Phase::Live || !core.exit_asked(),
        "the loop is to end"
    );
    let due = core.next_local()?;
    Some(due.begin(&mut SeenList::new()))
}

/// The frame of a ticket, which stands alone, ends so.
pub fn end_ticket(rt: &impl Abort, core: &mut EnvCore, begun: Begun, cut: Option<Why>)
    requires { cut ≢ Some Why.Asks }
{
    let duty = begun.info().duty;
    assert!(rt;
        stands(core, duty) && !is_of_hub(duty) && core.awaited().is_none(),
        "the frame of the ticket cannot end"
    );
    core.end_duty(begun, cut);
}

/// The frame of the next ticket begins, where no frame stands, and ends so. The answer is what the ticket tells.
fn ran(rt: &impl Abort, core: &mut EnvCore, cut: Option<Why>) -> Found
    requires { cut ≢ Some Why.Asks }
{
    match begun(rt, core) {
        Some(begun) => {
            let info = *begun.info();
            end_ticket(rt, core, begun, cut);
            ticket_told(&info)
        }
        None => ("no ticket", 0, NONE),
    }
}

/// The frame of the next ticket begins, where there is one, and stays.
pub fn start_next(rt: &impl Abort, core: &mut EnvCore) -> Begun {
    match begun(rt, core) {
        Some(begun) => begun,
        None => panic!(rt; "no ticket is next"),
    }
}

/// The frame of a duty of the hub begins, where no frame stands; the history has this length then.
pub fn start_delivery(rt: &impl Abort, core: &mut EnvCore, info: &DueInfo, position: u64) {
    assert!(rt; core.position() <= position, "the history was longer");
    assert!(rt; core.frame().is_none(), "a frame stands");
    assert!(rt;
        is_of_hub(info.duty) && info.cause != Cause::Call,
        "the duty is none of the hub"
    );
    core.enter_hub_frame(info, position);
}

/// The frame of this duty of the hub ends so, and its end tells this; the history has this length then.
pub fn end_delivery(
    rt: &impl Abort,
    core: &mut EnvCore,
    info: &DueInfo,
    position: u64,
    expected: (&'static str, u64),
) {
    assert!(rt; core.position() <= position, "the history was longer");
    assert!(rt;
        stands(core, info.duty) && is_of_hub(info.duty) && core.awaited().is_none(),
        "the frame of the duty cannot end"
    );
    let out = core.leave_hub_frame(None, position);
    assert_eq!(rt; word_of(0, out), expected);
}

/// The frame of the next ticket begins and ends so, and the ticket tells this.
pub fn run_next(rt: &impl Abort, core: &mut EnvCore, cut: Option<Why>, expected: Found)
    requires { cut ≢ Some Why.Asks }
{
    let found = ran(rt, core, cut);
    compare(rt, core, found, expected);
}

/// What the environment tells of itself: how many frames stand; and how many entries the journal has, the position of the last one, how many places are
/// left, whether exit was asked, whether a ticket is next, the addon whose init frame is next, or 9, how many asks the innermost frame made, and the phase,
/// counted from 0.
fn looked(core: &EnvCore) -> Found {
    let last = match core.journal().last() {
        Some(local) => local.at,
        None => 0,
    };
    let asks = match core.frame() {
        Some(frame) => frame.asks as u64,
        None => 0,
    };
    let next = match core.next_init() {
        Some(addon) => addon as u64,
        None => 9,
    };
    let numbers = [
        core.journal().len() as u64,
        last,
        core.room() as u64,
        core.exit_asked() as u64,
        core.has_local() as u64,
        next,
        asks,
        core.phase() as u64,
    ];
    ("depth", core.depth() as u64, numbers)
}

/// What the environment tells of itself is this.
pub fn look(rt: &impl Abort, core: &EnvCore, expected: Found) {
    compare(rt, core, looked(core), expected);
}
