//! The environment's state without its journal: values, scopes, the frames that stand, and how far the run has come.
ghost use Rattle.std.specs.Prelude.{◌≡◌, ◌≢◌, ◌+◌, ◌<◌, ◌^◌, [], length, true, false, is_some, option_map, Some, None, IfOk, OnErr, IsTrue};
ghost use Rattle.napi_types.specs.declared.call.Call.TheVariants as call_of;
ghost use Rattle.napi_types.specs.plain.CallFacts.{group_of};
ghost use Rattle.napi_types.specs.plain.CallKinds.{is_calling, is_value_call};
ghost use Rattle.napi_types.specs.plain.Entries.{host_entry as entry_of, host_told as told_of};
ghost use Rattle.napi_types.specs.plain.Guards.{is_shared};
ghost use Rattle.napi_types.specs.plain.Lists.{head};
ghost use Rattle.napi_types.specs.plain.Numbers.{is_ten_or_later};
ghost use Rattle.napi_types.specs.plain.Replies.{plain as plain_reply};
ghost use Rattle.napi_types.specs.parts.Frames.{caller_of, asks_made, most_asks};
ghost use Rattle.napi_types.specs.parts.NamedNumbers.{is_known};
ghost use Rattle.napi_types.specs.parts.Properties.{most_names};
ghost use Rattle.napi_types.specs.environment.Changes.{opening_change, init_change, gone_change, in_phase, with_noted_status, call_entry};
ghost use Rattle.napi_types.specs.environment.Environment.{new_environment};
ghost use Rattle.napi_types.specs.environment.Hooked.{IsHooked};
ghost use Rattle.napi_types.specs.environment.Promised.{IsPromised};
ghost use Rattle.napi_types.specs.environment.Moments.{guard_status, is_tearing, refusal_by_moment};
ghost use Rattle.napi_types.specs.environment.Refusals.{refusal_by_state, refusal_before_depth};
ghost use Rattle.napi_types.specs.environment.Registering.{finalizer_of, finalizer_if};
ghost use Rattle.env_core.specs.Standing.{machine_frame};
ghost use Rattle.env_registry.specs.Registering.{finalizer_registration};
ghost use Rattle.env_core.specs.Core.{next_init};
ghost use Rattle.env_core.specs.State.{HasNumbersFor, Calls, Answers, AnswersInTime, FindsNoMemory, opening_call, closing_call};

mod attachments;
mod buffers;
mod calling;
mod collection;
mod ends;
mod exceptions;
mod externals;
mod hooks;
mod instances;
mod promises;
mod references;
mod shared;
mod tickets;
mod tsfn_roots;

use crate::frames::{Frames, StandingFrame};
use crate::tsfn_roots::TsfnRoots;
pub use calling::Called;
use env_registry::{Finalizer, Registry};
use env_values::{invariant, value_step};
use exception_state::Exceptions;
use handle_scope::{ScopeKind, Scopes};
use napi_reference::Refs;
use napi_types::{
    Actor, Call, CallGroup, Cause, Entry, HIGHEST_VERSION, HandleId, HostStep, NoMemory, Out,
    Phase, Reply, ScopeId, Status, TextNo, What,
};
use std::alloc::Global;
use std::marker::Model;
use value_store::Store;

/// The environment's state.
#[derive(Drop)]
pub struct State {
    alloc: Global,
    version: u32,
    addons: u32,
    texts: u32,
    opened: bool,
    inits: u32,
    phase: Phase,
    exit_asked: bool,
    store: Store,
    scopes: Scopes,
    frames: Frames,
    references: Refs,
    registry: Registry,
    tsfn_roots: TsfnRoots,
    exceptions: Exceptions,
}

impl Model for State {
    ghost use Rattle.std.specs.Prelude.{[]};
    ghost use Rattle.napi_types.specs.environment.Environment.{Environment};

    ghost Value = { Environment };

    ghost use Rattle.env_values.specs.SeenValues.{heap_of};
    ghost use Rattle.napi_reference.specs.ReferencePlaces.{map_of};
    ghost use Rattle.env_core.specs.Attaching.{attachments_seen, AreAttachedToLive};
    ghost use Rattle.env_core.specs.Beginning.{AreBegun};
    ghost use Rattle.env_core.specs.TsfnRooting.{tsfn_roots_seen};
    ghost use Rattle.env_core.specs.Referring.{references_seen};
    ghost use Rattle.env_core.specs.Buffering.{buffers_seen, LinkedAreLive};
    ghost use Rattle.env_core.specs.Promising.{promises_seen};
    ghost use Rattle.env_core.specs.State.{pending_seen, IsState};

    ghost view = { λ state. record {
      version = state.version;
      addons = state.addons;
      texts = state.texts;
      opened = state.opened;
      inits = state.inits;
      phase = state.phase;
      exit_asked = state.exit_asked;
      heap = heap_of state.store state.scopes;
      frames = state.frames;
      references = references_seen state.store (map_of state.references);
      attachments = attachments_seen state.store state.registry.parts.attachments;
      book = state.registry.parts.book;
      hooks = state.registry.parts.hooks;
      async_hooks = state.registry.parts.async_hooks;
      instances = state.registry.parts.instances;
      promises = promises_seen state.store state.registry.parts.promises;
      buffers = buffers_seen state.store state.registry.parts.buffers;
      tsfn_roots = tsfn_roots_seen state.store state.tsfn_roots;
      pending = pending_seen state.store state.exceptions.pending;
      last = state.exceptions.last;
    } };

    ghost invariant = { λ state. IsState state.store state.scopes state.frames state.exceptions.pending (map_of state.references) state.tsfn_roots
        × AreAttachedToLive state.store state.registry.parts.attachments
        × AreBegun state.frames state.registry.parts.book
        × LinkedAreLive state.store state.registry.parts.promises state.registry.parts.buffers };
}

impl State {
    /// The state before the opening, with the five starting values.
    pub fn new(alloc: Global, version: u32, addons: u32, texts: u32) -> Result<State, NoMemory>
        ensures { IfOk result (λ state. state ≡ new_environment (record { version = version; addons = addons; texts = texts })) }
    {
        let store = Store::new(alloc)?;
        let scopes = Scopes::new(alloc)?;
        let frames = Frames::new(alloc)?;
        let references = Refs::new(alloc)?;
        let registry = Registry::new(alloc, addons)?;
        Ok(State {
            alloc,
            version,
            addons,
            texts,
            opened: false,
            inits: 0,
            phase: Phase::Init,
            exit_asked: false,
            store,
            scopes,
            frames,
            references,
            registry,
            tsfn_roots: TsfnRoots::new(alloc),
            exceptions: Exceptions::new(),
        })
    }

    /// The opening, which tells the version that the script asks for.
    pub fn open(&mut self) -> Entry
        ensures entry { result ≡ (opening_change self.old).entry }
        ensures after { self.new ≡ (opening_change self.old).after }
    {
        self.opened = true;
        host_entry(HostStep::Opened, Out::Unsigned(u64::from(self.version)))
    }

    /// The init frame of the next addon begins.
    pub fn begin_init(&mut self) -> Entry
        requires alone { self.old.frames ≡ [] }
        requires there { self.old.inits < self.old.addons }
        ensures entry { result ≡ (init_change self.old.inits self.old).entry }
        ensures after { self.new ≡ (init_change self.old.inits self.old).after }
    {
        prove!(self.inits < self.addons);
        let addon = self.inits;
        self.scopes.enter_frame();
        self.frames.push(StandingFrame {
            cause: Cause::Init,
            addon,
            entry: 0,
            duty: None,
            makes_asks: true,
            asks: 0,
        });
        self.inits += 1;
        host_entry(HostStep::Begin, Out::Begin(Cause::Init, addon, 0, None))
    }

    /// A call of the innermost frame, of a group that is neither on values nor of a function: what it replies. Its status is noted and its ask is
    /// counted.
    pub fn call(&mut self, call: &Call, group: CallGroup) -> Result<Reply, NoMemory>
        requires standing { self.old.frames ≢ [] }
        requires group { group ≡ group_of call.now }
        requires local { is_shared call.now ≡ false }
        requires at_once { is_calling call.now ≡ false }
        requires other { is_value_call call.now ≡ false }
        requires within { asks_made self.old.frames < most_asks }
        requires numbers { HasNumbersFor self.old }
        requires hooked { IsHooked self.old }
        requires promised { IsPromised self.old }
        ensures ok { IfOk result (λ reply. Calls self.old call.now (call_entry self.old call.now reply) self.new) }
        ensures stopped { OnErr result (FindsNoMemory self.old call.now (refusal_before_depth self.old call.now) self.new) }
    {
        let reply = self.answer(call, group)?;
        self.note(call, reply.status);
        Ok(reply)
    }

    /// A call of the innermost frame on values, properties or elements: the status and the result of its reply, which neither withdraws nor makes a
    /// duty. The status is noted and the ask is counted.
    pub fn call_on_values(&mut self, call: &Call) -> Result<(Status, Out), NoMemory>
        requires standing { self.old.frames ≢ [] }
        requires at_once { is_calling call.now ≡ false }
        requires value_call { is_value_call call.now ≡ true }
        requires within { asks_made self.old.frames < most_asks }
        requires numbers { HasNumbersFor self.old }
        requires hooked { IsHooked self.old }
        ensures ok { IfOk result (λ told. Calls self.old call.now (call_entry self.old call.now (plain_reply told.0 told.1)) self.new) }
        ensures stopped { OnErr result (FindsNoMemory self.old call.now (refusal_before_depth self.old call.now) self.new) }
    {
        let (status, out) = self.answer_on_values(call)?;
        self.note(call, status);
        Ok((status, out))
    }

    /// The addon whose init frame is next.
    pub fn next_init(&self) -> Option<u32>
        ensures { result ≡ next_init self.now }
    {
        if self.inits < self.addons {
            Some(self.inits)
        } else {
            None
        }
    }

    /// How many frames stand.
    pub fn depth(&self) -> u32
        ensures { result ≡ length self.now.frames }
    {
        self.frames.depth()
    }

    /// The innermost frame.
    pub fn frame(&self) -> Option<StandingFrame>
        ensures { option_map machine_frame result ≡ head self.now.frames }
    {
        self.frames.innermost()
    }

    /// What the call answers, refused or accepted.
    fn answer(&mut self, call: &Call, group: CallGroup) -> Result<Reply, NoMemory>
        requires standing { self.old.frames ≢ [] }
        requires group { group ≡ group_of call.now }
        requires local { is_shared call.now ≡ false }
        requires at_once { is_calling call.now ≡ false }
        requires other { is_value_call call.now ≡ false }
        requires numbers { HasNumbersFor self.old }
        requires hooked { IsHooked self.old }
        requires promised { IsPromised self.old }
        ensures ok { IfOk result (λ reply. Answers self.old call.now reply self.new) }
        ensures stopped { OnErr result (FindsNoMemory self.old call.now (refusal_before_depth self.old call.now) self.new) }
    {
        match self.refusal_by_moment(call) {
            Some(status) => Ok(Reply::plain(status, Out::Nothing)),
            None => self.answer_in_time(call, group),
        }
    }

    /// What a call on values, properties or elements answers, refused or accepted: its status and its result.
    fn answer_on_values(&mut self, call: &Call) -> Result<(Status, Out), NoMemory>
        requires standing { self.old.frames ≢ [] }
        requires at_once { is_calling call.now ≡ false }
        requires value_call { is_value_call call.now ≡ true }
        requires numbers { HasNumbersFor self.old }
        ensures ok { IfOk result (λ told. Answers self.old call.now (plain_reply told.0 told.1) self.new) }
        ensures stopped { OnErr result (FindsNoMemory self.old call.now (refusal_before_depth self.old call.now) self.new) }
    {
        match self.refusal_by_moment(call) {
            Some(status) => Ok((status, Out::Nothing)),
            None => self.value_call(call),
        }
    }

    /// Why the call comes at a wrong moment, if it does: it is guarded or registers, and an exception is pending or the teardown
    /// has started.
    fn refusal_by_moment(&self, call: &Call) -> Option<Status>
        ensures { result ≡ refusal_by_moment self.now call.now }
    {
        let pending = self.exceptions.pending().is_some();
        let tearing = self.is_tearing();
        if (pending || tearing) && call.facts().guarded {
            return Some(self.guard_status(pending));
        }
        if tearing && call.facts().registers {
            return Some(Status::GenericFailure);
        }
        None
    }

    /// Why a guarded call is refused, while an exception is pending or else in the teardown.
    fn guard_status(&self, pending: bool) -> Status
        requires { pending ≡ is_some self.now.pending }
        ensures { result ≡ guard_status self.now }
    {
        if !pending && self.is_ten_or_later() {
            Status::CannotRunJs
        } else {
            Status::PendingException
        }
    }

    /// Whether what version 10 changed holds.
    fn is_ten_or_later(&self) -> bool
        ensures { result ≡ is_ten_or_later self.now.version }
    {
        self.version >= 10
    }

    /// Whether the teardown has started.
    fn is_tearing(&self) -> bool
        ensures { result ≡ is_tearing self.now.phase }
    {
        !matches!(self.phase, Phase::Init | Phase::Live)
    }

    /// What a call of this group that comes at a right moment answers, refused or accepted.
    fn answer_in_time(&mut self, call: &Call, group: CallGroup) -> Result<Reply, NoMemory>
        requires standing { self.old.frames ≢ [] }
        requires group { group ≡ group_of call.now }
        requires local { is_shared call.now ≡ false }
        requires at_once { is_calling call.now ≡ false }
        requires other { is_value_call call.now ≡ false }
        requires numbers { HasNumbersFor self.old }
        requires hooked { IsHooked self.old }
        requires promised { IsPromised self.old }
        ensures ok { IfOk result (λ reply. AnswersInTime self.old call.now reply self.new) }
        ensures stopped { OnErr result (FindsNoMemory self.old call.now (refusal_by_state self.old call.now) self.new) }
    {
        match group {
            CallGroup::OnScopes => self.answer_on_scopes(call),
            CallGroup::OnReferences => self.answer_on_references(call),
            CallGroup::OnWraps => self.answer_on_wraps(call),
            CallGroup::OnExternals => self.answer_on_externals(call),
            CallGroup::OnExceptions => self.answer_on_exceptions(call),
            CallGroup::OnInstances => self.answer_on_instances(call),
            CallGroup::OnHooks => self.answer_on_hooks(call),
            CallGroup::OnPromises => self.answer_on_promises(call),
            CallGroup::OnBuffers => self.answer_on_buffers(call),
            CallGroup::OnVersion => Ok(self.answer_on_version(call)),
            CallGroup::OnCollection => self.answer_on_collection(call),
            CallGroup::OnExit => Ok(self.answer_on_exit(call)),
            CallGroup::OnValues
            | CallGroup::OnProperties
            | CallGroup::OnFunctions
            | CallGroup::OnEntering
            | CallGroup::OnWorks
            | CallGroup::OnTsfns => unreachable!(),
        }
    }

    /// What a call on scopes answers.
    #[tactic(auto, using(crate::proofs::Unrefused::stopped))]
    fn answer_on_scopes(&mut self, call: &Call) -> Result<Reply, NoMemory>
        requires standing { self.old.frames ≢ [] }
        requires group { group_of call.now ≡ CallGroup.OnScopes }
        requires numbers { HasNumbersFor self.old }
        ensures ok { IfOk result (λ reply. AnswersInTime self.old call.now reply self.new) }
        ensures stopped { OnErr result (FindsNoMemory self.old call.now (refusal_by_state self.old call.now) self.new) }
    {
        match call {
            Call::OpenHandleScope => self.open_scope(ScopeKind::Plain),
            Call::OpenEscapableHandleScope => self.open_scope(ScopeKind::Escapable),
            Call::CloseHandleScope(scope) => Ok(self.close_scope(*scope, ScopeKind::Plain)),
            Call::CloseEscapableHandleScope(scope) => {
                Ok(self.close_scope(*scope, ScopeKind::Escapable))
            }
            Call::EscapeHandle(scope, handle) => Ok(self.escape(*scope, *handle)),
            _ => unreachable!(),
        }
    }

    /// What the call on the version answers.
    fn answer_on_version(&self, call: &Call) -> Reply
        requires { group_of call.now ≡ CallGroup.OnVersion }
        ensures { AnswersInTime self.now call.now result self.now }
    {
        match call {
            Call::GetVersion => {
                Reply::plain(Status::Ok, Out::Unsigned(u64::from(HIGHEST_VERSION)))
            }
            _ => unreachable!(),
        }
    }

    /// What the call of the exit answers.
    fn answer_on_exit(&mut self, call: &Call) -> Reply
        requires { group_of call.now ≡ CallGroup.OnExit }
        ensures { AnswersInTime self.old call.now result self.new }
    {
        match call {
            Call::Exit => self.exit(),
            _ => unreachable!(),
        }
    }

    /// A call on values, properties or elements that comes at a right moment: its status and its result.
    #[tactic(auto, using(env_values::proofs::Numbering::numbers_for_any))]
    fn value_call(&mut self, call: &Call) -> Result<(Status, Out), NoMemory>
        requires standing { self.old.frames ≢ [] }
        requires value_call { is_value_call call.now ≡ true }
        requires values { self.old.heap.made + most_names + 8 < 2 ^ 48 }
        requires handles { self.old.heap.handles < 2 ^ 62 }
        ensures ok { IfOk result (λ told. AnswersInTime self.old call.now (plain_reply told.0 told.1) self.new) }
        ensures stopped { OnErr result (FindsNoMemory self.old call.now (refusal_by_state self.old call.now) self.new) }
    {
        let addon = self.caller();
        // What a view names is live, so it is seen as it was.
        invariant(&self.store);
        value_step(
            self.alloc,
            &mut self.store,
            &mut self.scopes,
            self.texts,
            addon,
            call,
        )
    }

    /// The addon of the innermost frame.
    fn caller(&self) -> u32
        ensures { result ≡ caller_of self.now.frames }
    {
        match self.frames.innermost() {
            Some(frame) => frame.addon,
            None => 0,
        }
    }

    /// A finalizer as a call registers it: the entry is one of the addon that calls.
    fn finalizer(&self, payload: u64, entry: u32, hint: u64) -> Finalizer
        ensures { finalizer_registration result ≡ finalizer_of self.now payload entry hint }
    {
        Finalizer {
            addon: self.caller(),
            entry,
            payload,
            hint,
        }
    }

    /// The same where the call names an entry.
    fn finalizer_if(&self, payload: u64, entry: Option<u32>, hint: u64) -> Option<Finalizer>
        ensures { option_map finalizer_registration result ≡ finalizer_if self.now payload entry hint }
    {
        Some(self.finalizer(payload, entry?, hint))
    }

    /// A scope of this kind and a fresh number opens inside the innermost one.
    #[tactic(auto, using(crate::proofs::Unrefused::opening_unrefused))]
    #[inline(never)]
    fn open_scope(&mut self, kind: ScopeKind) -> Result<Reply, NoMemory>
        requires standing { self.old.frames ≢ [] }
        requires scopes { length self.old.heap.scope_numbers < 2 ^ 62 }
        ensures ok { IfOk result (λ reply. AnswersInTime self.old (opening_call kind) reply self.new) }
        ensures err { OnErr result (self.new ≡ self.old) }
        ensures unrefused { OnErr result (refusal_by_state self.old (opening_call kind) ≡ None) }
    {
        let scope = self.scopes.open_scope(kind)?;
        Ok(Reply::plain(Status::Ok, Out::Scope(scope)))
    }

    /// The innermost scope closes, if it is the one that the call names, and of the kind that the call closes.
    #[inline(never)]
    fn close_scope(&mut self, scope: ScopeId, kind: ScopeKind) -> Reply
        ensures { AnswersInTime self.old (closing_call kind scope) result self.new }
    {
        if let Err(status) = self.scopes.close_scope(scope, kind) {
            return Reply::plain(status, Out::Nothing);
        }
        Reply::plain(Status::Ok, Out::Nothing)
    }

    /// The value of a handle escapes from the scope that the call names, into the one that encloses it.
    #[inline(never)]
    fn escape(&mut self, scope: ScopeId, handle: HandleId) -> Reply
        requires { self.old.heap.handles < 2 ^ 62 }
        ensures { AnswersInTime self.old (call_of.EscapeHandle scope handle) result self.new }
    {
        let Some(value) = self.scopes.look(handle) else {
            return Reply::plain(Status::InvalidArg, Out::Nothing);
        };
        match self.scopes.escape(scope, value) {
            Ok(escaped) => Reply::plain(Status::Ok, Out::Handle(escaped)),
            Err(status) => Reply::plain(status, Out::Nothing),
        }
    }

    /// Notes a call's status as the last one, unless the call asks for the last one, and counts its ask.
    fn note(&mut self, call: &Call, status: Status)
        requires { asks_made self.old.frames < most_asks }
        ensures { self.new ≡ with_noted_status call.now status self.old }
    {
        if !matches!(call, Call::GetLastErrorInfo) {
            self.exceptions.note(status);
        }
        self.frames.count_ask();
    }

    /// Asks that the loop ends, and changes nothing else.
    #[inline(never)]
    fn exit(&mut self) -> Reply
        ensures { AnswersInTime self.old call_of.Exit result self.new }
    {
        self.exit_asked = true;
        Reply::plain(Status::Ok, Out::Nothing)
    }

    /// Whether exit was asked.
    pub fn exit_asked(&self) -> bool
        ensures { result ≡ self.now.exit_asked }
    {
        self.exit_asked
    }

    /// The environment is gone.
    pub fn gone(&mut self) -> Entry
        ensures entry { result ≡ (gone_change self.old).entry }
        ensures after { self.new ≡ (gone_change self.old).after }
    {
        self.phase = Phase::Gone;
        host_entry(HostStep::Gone, Out::Nothing)
    }

    /// The phase starts. At `finals` every ticket that is registered falls due.
    pub fn enter(&mut self, phase: Phase)
        ensures { self.new ≡ in_phase phase self.old }
    {
        self.phase = phase;
        match phase {
            Phase::Finals => self.registry.all_due(),
            _ => {}
        }
    }

    /// How far the environment has come.
    pub fn phase(&self) -> Phase
        ensures { result ≡ self.now.phase }
    {
        self.phase
    }
}

/// The entry of an event that is no call, with status 0.
pub fn host_entry(event: HostStep, out: Out) -> Entry
    ensures { result ≡ entry_of event out }
{
    host_told(event, Status::Ok, out)
}

/// The same with any status, as at the end of a call's frame.
fn host_told(event: HostStep, status: Status, out: Out) -> Entry
    ensures { result ≡ told_of event status out }
{
    Entry {
        actor: Actor::Env,
        depth: 0,
        step: 0,
        what: What::Host(event),
        reply: Reply::plain(status, out),
        given: None,
    }
}
