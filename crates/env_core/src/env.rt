//! The environment with its journal.
ghost use Rattle.std.specs.Prelude.{◌≡◌, ◌≢◌, ℕ, ◌+◌, ◌-◌, ◌*◌, ◌<◌, ◌≤◌, [], length, option_map, Some, None, is_some, true, false, IfOk, OnOk, OnErr, IfErr, IfSome, IsTrue, ◌↔◌, option_copied};
ghost use Rattle.napi_types.specs.declared.call.Call.TheVariants as call_of;
ghost use Rattle.napi_types.specs.declared.entry.Cause.TheVariants as cause;
ghost use Rattle.napi_types.specs.plain.CallFacts.{AreFactsOf};
ghost use Rattle.napi_types.specs.plain.CallKinds.{is_calling, is_value_call};
ghost use Rattle.napi_types.specs.plain.Guards.{is_shared};
ghost use Rattle.napi_types.specs.plain.Lists.{head, tail};
ghost use Rattle.napi_types.specs.plain.Numbers.{is_supported};
ghost use Rattle.napi_types.specs.plain.Phases.{next_phase};
ghost use Rattle.napi_types.specs.plain.Room.{is_full, one_if, most_entries};
ghost use Rattle.napi_types.specs.parts.Frames.{asks_made, cause_of, duty_of, is_hub_duty, most_asks};
ghost use Rattle.napi_types.specs.environment.Calls.{with_depth_error};
ghost use Rattle.napi_types.specs.environment.Changes.{call_change, init_change};
ghost use Rattle.napi_types.specs.environment.Ends.{end_change};
ghost use Rattle.napi_types.specs.environment.Refusals.{refusal_before_depth, depth_refusal};
ghost use Rattle.napi_types.specs.environment.Tickets.{next_ticket};
ghost use Rattle.napi_types.specs.runs.Choice.{waiting_hooks};
ghost use Rattle.env_core.specs.Standing.{machine_frame};
ghost use Rattle.env_core.specs.Core.{opened_core, after_change, after_phase, after_abandon, at_position, next_init, room_in};
ghost use Rattle.env_core.specs.CoreSteps.{IfReply, IfEnter, IfStop, OnLastReply, Replies, Enters, EntersBy, RefusedAs, StopsBy, IsAtOnce, IsLocal, IsHandedOver};
ghost use Rattle.env_core.specs.CoreSteps.{BeginsTicket};
ghost use Rattle.env_core.specs.Journal.{last_reply};
ghost use Rattle.env_core.specs.Sharing.{after_finish};

mod hub;

use crate::frames::StandingFrame;
use crate::journal::Journal;
use crate::state::{Called, State, host_entry};
use crate::tsfn_roots::RootRoom;
use addon_trait::Phased;
use napi_types::{
    Args, Begun, Call, Cause, Due, Duty, Facts, HandleId, HostStep, Limits, Local, LocalList,
    NoMemory, Out, Phase, Reply, SharedCall, Status, Target, TsfnId, Why,
};
use std::alloc::Global;
use std::marker::Model;

/// What a step of a frame comes to.
#[derive(Drop)]
pub enum Stepped {
    /// The call's reply; its entry stands in the journal.
    Reply(Reply),
    /// An accepted call of a function: the frame that it enters, and its gifts.
    Enter(Target, [u64; 8]),
    /// A call that the hub answers. The answer is awaited.
    Shared(SharedCall),
    /// The call stopped, with `NoMemory` or `TraceFull`. It left no entry and changed nothing.
    Stop(Status),
}

/// An environment (`napi_env`) and its journal.
#[derive(Drop)]
pub struct EnvCore {
    state: State,
    journal: Journal,
    // The call that the hub has not answered yet, and the memory for the root that it may want.
    awaited: Option<SharedCall>,
    root_room: RootRoom,
}

impl Model for EnvCore {
    ghost use Rattle.env_core.specs.Core.{Core, IsCore};
    ghost use Rattle.env_core.specs.Sharing.{MayAwait};

    ghost Value = { Core };

    ghost view = { λ core. record {
      env = core.state;
      journal = core.journal.entries;
      limit = core.journal.limit;
      position = core.journal.position;
      awaited = core.awaited;
    } };

    ghost invariant = { λ core. IsCore core.state core.journal × MayAwait core.state core.root_room core.awaited };
}

impl EnvCore {
    /// Opens an environment and writes the entry `opened`.
    ///
    /// `version` is 9 or 10. `addons` and `texts` say how many the script has. `limits.journal` is from 2 + 2 · `addons`,
    /// the places of the events that every run has, to 4,194,304; `limits.history` is not read. The memory of the journal's
    /// first places is taken here.
    pub fn new(
        alloc: Global,
        version: u32,
        addons: u32,
        texts: u32,
        limits: Limits,
    ) -> Result<EnvCore, NoMemory>
        requires version { is_supported version ≡ true }
        requires room { 2 + 2 * addons ≤ limits.journal }
        requires most { limits.journal ≤ most_entries }
        ensures { IfOk result (λ core. core ≡ opened_core (record { version = version; addons = addons; texts = texts }) limits.journal) }
    {
        let mut journal = Journal::new(alloc, limits.journal, 2 + 2 * addons)?;
        let mut state = State::new(alloc, version, addons, texts)?;
        journal.push(state.open());
        Ok(EnvCore {
            state,
            journal,
            awaited: None,
            root_room: RootRoom::new(alloc),
        })
    }

    /// Makes a call of the innermost frame, which stands. `step` is the number of the ask in its frame, from 0 to 65,535.
    ///
    /// An accepted call of a function enters the function's frame, whose `end` will have the call's reply. A shared call is handed to the
    /// hub: until [`EnvCore::settle`] or [`EnvCore::unsettle`] no other step is taken, and the only memory that it takes is that for the
    /// root of a new thread-safe function. Every other call answers at once.
    #[inline(never)]
    pub fn step(&mut self, step: u32, call: &Call) -> Stepped
        requires standing { self.old.env.frames ≢ [] }
        requires idle { self.old.awaited ≡ None }
        requires ask { step ≡ asks_made self.old.env.frames }
        requires within { step < most_asks }

        // A reply is the machine's answer; its entry stands in the journal, and the environment is the one after it.
        ensures reply { IfReply result (λ reply. Replies self.old call.now reply self.new) }

        // A frame that is entered is that of the function, which nothing refused; its begin stands in the journal.
        ensures enter { IfEnter result (λ target gifts. Enters self.old call.now target gifts self.new) }

        // A refusal changes nothing, but that its entry stands in the journal, its status is noted and its ask is counted;
        // at the depth limit an exception is pending besides.
        ensures refused { (s : Status) → refusal_before_depth self.old.env call.now ≡ Some s
            → IfReply result (λ reply. RefusedAs self.old call.now s self.old.env reply self.new) }
        ensures depth_limit { (s : Status) → refusal_before_depth self.old.env call.now ≡ None → depth_refusal self.old.env.frames call.now ≡ Some s
            → IfReply result (λ reply. RefusedAs self.old call.now s (with_depth_error self.old.env) reply self.new) }

        // A call that stops changes nothing. A local one says why it stopped: a refusal comes before a growth that finds no memory. Where it
        // finds no room it stops as `TraceFull`.
        ensures stop { IfStop result (λ status. self.new ≡ self.old) }
        ensures cause { is_shared call.now ≡ false → IfStop result (λ status. StopsBy self.old.env (room_in self.old) call.now status) }
        ensures full { is_shared call.now ≡ false → IsTrue (is_full (room_in self.old) call.now) → result ≡ Stepped.Stop Status.TraceFull }

        // Exactly a shared call is handed to the hub.
        ensures local { is_shared call.now ≡ false → IsLocal result }
        ensures shared { is_shared call.now ≡ true → IsHandedOver self.old call.now result self.new }
    {
        if call.facts().group.is_shared() {
            return self.hand_over(step, call);
        }
        match call {
            Call::CallFunction(receiver, function, args) => {
                self.call_function(step, *receiver, *function, args)
            }
            _ => self.step_at_once(step, call),
        }
    }

    /// A call that is answered at once, with a copy of its reply.
    fn step_at_once(&mut self, step: u32, call: &Call) -> Stepped
        requires standing { self.old.env.frames ≢ [] }
        requires idle { self.old.awaited ≡ None }
        requires local { is_shared call.now ≡ false }
        requires at_once { is_calling call.now ≡ false }
        requires ask { step ≡ asks_made self.old.env.frames }
        requires within { step < most_asks }
        ensures reply { IfReply result (λ reply. Replies self.old call.now reply self.new) }
        ensures stop { IfStop result (λ status. self.new ≡ self.old) }
        ensures cause { IfStop result (λ status. StopsBy self.old.env (room_in self.old) call.now status) }
        ensures full { IsTrue (is_full (room_in self.old) call.now) → result ≡ Stepped.Stop Status.TraceFull }
        ensures at_once { IsAtOnce result }
    {
        match self.answer(step, call) {
            Ok(()) => match self.last_reply() {
                Some(reply) => Stepped::Reply(*reply),
                None => unreachable!(),
            },
            Err(status) => Stepped::Stop(status),
        }
    }

    /// Makes a call of the innermost frame, which stands, that is answered at once: one that is neither shared nor of a function. It does what
    /// [`EnvCore::step`] does for such a call, and hands out no copy of the reply: [`EnvCore::last_reply`] lends it. `step` is the number of the
    /// ask in its frame, from 0 to 65,535.
    ///
    /// A call that stops, with `NoMemory` or `TraceFull`, left no entry and changed nothing.
    pub fn answer(&mut self, step: u32, call: &Call) -> Result<(), Status>
        requires standing { self.old.env.frames ≢ [] }
        requires idle { self.old.awaited ≡ None }
        requires local { is_shared call.now ≡ false }
        requires at_once { is_calling call.now ≡ false }
        requires ask { step ≡ asks_made self.old.env.frames }
        requires within { step < most_asks }
        ensures reply { OnOk result (OnLastReply self.new.journal (λ reply. Replies self.old call.now reply self.new)) }
        ensures stop { OnErr result (self.new ≡ self.old) }
        ensures cause { IfErr result (λ status. StopsBy self.old.env (room_in self.old) call.now status) }
        ensures full { IsTrue (is_full (room_in self.old) call.now) → result ≡ Err Status.TraceFull }
    {
        let facts = call.facts();
        if facts.group.is_of_values() {
            self.answer_on_values(step, call)
        } else {
            self.answer_other(step, call, facts)
        }
    }

    /// The reply of the journal's last entry, where there is one.
    pub fn last_reply(&self) -> Option<&Reply>
        ensures { option_copied result ≡ last_reply self.now.journal }
    {
        self.journal.last_reply()
    }

    /// A call on values, properties or elements. It has a place for its entry.
    fn answer_on_values(&mut self, step: u32, call: &Call) -> Result<(), Status>
        requires standing { self.old.env.frames ≢ [] }
        requires idle { self.old.awaited ≡ None }
        requires local { is_shared call.now ≡ false }
        requires at_once { is_calling call.now ≡ false }
        requires value_call { is_value_call call.now ≡ true }
        requires ask { step ≡ asks_made self.old.env.frames }
        requires within { step < most_asks }
        ensures reply { OnOk result (OnLastReply self.new.journal (λ reply. Replies self.old call.now reply self.new)) }
        ensures stop { OnErr result (self.new ≡ self.old) }
        ensures cause { IfErr result (λ status. StopsBy self.old.env (room_in self.old) call.now status) }
        ensures full { IsTrue (is_full (room_in self.old) call.now) → result ≡ Err Status.TraceFull }
    {
        if let Err(status) = self.journal.promise(1) {
            return Err(status);
        }
        let depth = self.state.depth();
        match &self.state.call_on_values(call) {
            Ok((status, out)) => {
                self.journal
                    .push_plain_call(depth, step, call, *status, out);
                Ok(())
            }
            Err(NoMemory) => {
                self.journal.give_back(1);
                Err(Status::NoMemory)
            }
        }
    }

    /// A call that is neither on values nor of a function. It has the places that its facts tell.
    #[inline(never)]
    fn answer_other(&mut self, step: u32, call: &Call, facts: Facts) -> Result<(), Status>
        requires standing { self.old.env.frames ≢ [] }
        requires facts { AreFactsOf facts call.now }
        requires idle { self.old.awaited ≡ None }
        requires local { is_shared call.now ≡ false }
        requires at_once { is_calling call.now ≡ false }
        requires other { is_value_call call.now ≡ false }
        requires ask { step ≡ asks_made self.old.env.frames }
        requires within { step < most_asks }
        ensures reply { OnOk result (OnLastReply self.new.journal (λ reply. Replies self.old call.now reply self.new)) }
        ensures stop { OnErr result (self.new ≡ self.old) }
        ensures cause { IfErr result (λ status. StopsBy self.old.env (room_in self.old) call.now status) }
        ensures full { IsTrue (is_full (room_in self.old) call.now) → result ≡ Err Status.TraceFull }
    {
        let places = facts.places;
        if let Err(status) = self.journal.promise(places) {
            return Err(status);
        }
        let depth = self.state.depth();
        match &self.state.call(call, facts.group) {
            Ok(reply) => {
                self.journal.push_call(depth, step, call, reply);
                // A duty that was made keeps the places of its frame, and one that was withdrawn gives them back.
                let kept = frame_places(reply.made);
                let freed = frame_places(reply.dropped);
                self.journal.give_back(places - 1 - kept + freed);
                Ok(())
            }
            Err(NoMemory) => {
                self.journal.give_back(places);
                Err(Status::NoMemory)
            }
        }
    }

    /// A call of a function. It has a place for its entry, or two for the begin and the end of its frame.
    fn call_function(
        &mut self,
        step: u32,
        receiver: Option<HandleId>,
        function: HandleId,
        args: &Args,
    ) -> Stepped
        requires standing { self.old.env.frames ≢ [] }
        requires idle { self.old.awaited ≡ None }
        requires ask { step ≡ asks_made self.old.env.frames }
        requires within { step < most_asks }
        ensures reply { IfReply result (λ reply. Replies self.old (call_of.CallFunction receiver function args.now) reply self.new) }
        ensures enter { IfEnter result (λ target gifts. EntersBy self.old receiver function args.now target gifts self.new) }
        ensures stop { IfStop result (λ status. self.new ≡ self.old) }
        ensures cause { let call = call_of.CallFunction receiver function args.now in
            IfStop result (λ status. StopsBy self.old.env (room_in self.old) call status) }
        ensures full { IsTrue (is_full (room_in self.old) (call_of.CallFunction receiver function args.now)) → result ≡ Stepped.Stop Status.TraceFull }
        ensures local { IsLocal result }
    {
        if let Err(status) = self.journal.promise(2) {
            return Stepped::Stop(status);
        }
        let depth = self.state.depth();
        match self.state.call_function(receiver, function, args) {
            Ok(Called::Refused(reply)) => {
                let call = Call::CallFunction(receiver, function, *args);
                self.journal.push_call(depth, step, &call, &reply);
                self.journal.give_back(1);
                Stepped::Reply(reply)
            }
            Ok(Called::Entered(target, gifts)) => {
                self.journal.push(host_entry(
                    HostStep::Begin,
                    Out::Begin(Cause::Call, target.addon, target.entry, None),
                ));
                Stepped::Enter(target, gifts)
            }
            Err(NoMemory) => {
                self.journal.give_back(2);
                Stepped::Stop(Status::NoMemory)
            }
        }
    }

    /// Begins the init frame of the next addon, which runs its entry 0. It takes no memory.
    ///
    /// It may be called in any phase: that init frames come before `go` is for the crate that runs frames to keep.
    pub fn begin_init(&mut self, addon: u32)
        requires alone { self.old.env.frames ≡ [] }
        requires next { addon ≡ self.old.env.inits }
        requires there { addon < self.old.env.addons }
        ensures { self.new ≡ after_change (init_change addon self.old.env) self.old }
    {
        let entry = self.state.begin_init();
        self.journal.push(entry);
    }

    /// Begins the frame of the next ticket, and hands out what it tells. `None` exactly where no ticket is next. In the loop and after
    /// `finals` the lowest that is due is next, in `Hooks` that of the hook that was added last, and in every other phase none is. It
    /// takes no memory.
    ///
    /// In the loop no ticket begins once exit was asked.
    pub fn next_local(&mut self) -> Option<Due>
        requires alone { self.old.env.frames ≡ [] }
        requires unasked { self.old.env.phase ≡ Phase.Live → self.old.env.exit_asked ≡ false }
        ensures none { (result ≡ None) ↔ (next_ticket self.old.env ≡ None) }
        ensures stays { result ≡ None → self.new ≡ self.old }
        ensures begun { IfSome result (λ due. BeginsTicket self.old due self.new) }
    {
        let (begin, due) = self.state.begin_ticket()?;
        self.journal.push(begin);
        Some(due)
    }

    /// Whether a ticket is next: whether [`EnvCore::next_local`] would begin one; in `Hooks` whether a hook waits, and in the loop
    /// whether or not exit was asked.
    pub fn has_local(&self) -> bool
        ensures { result ≡ is_some (next_ticket self.now.env) }
    {
        self.state.has_local()
    }

    /// Ends the frame of a ticket, which stands alone, cut or not. Nobody is told the reply of its `end`. It takes no memory. The frame of
    /// a duty of the hub ends by [`EnvCore::leave_hub_frame`].
    pub fn end_duty(&mut self, begun: Begun, cut: Option<Why>)
        requires duty { duty_of self.old.env.frames ≡ Some begun.duty }
        requires idle { self.old.awaited ≡ None }
        requires local { is_hub_duty (Some begun.duty) ≡ false }
        requires alone { tail self.old.env.frames ≡ [] }
        requires outermost { cause_of self.old.env.frames ≢ cause.Call }
        requires asks { cut ≡ Some Why.Asks → asks_made self.old.env.frames ≡ most_asks }
        ensures ended { self.new ≡ after_change (end_change None cut self.old.env) self.old }
    {
        let entry = self.state.end_duty(begun, cut);
        self.journal.push(entry);
    }

    /// Ends the innermost frame, which no duty began, cut or not, and answers the reply of its `end`. It takes no memory.
    ///
    /// A frame is cut as `Asks` only after its 65,536th ask. The frame of a call leaves the value of a handle to its caller, where it
    /// was not cut and no exception is pending; an init frame leaves its value to nobody, so `value` changes nothing.
    pub fn leave(&mut self, value: Option<HandleId>, cut: Option<Why>) -> Reply
        requires standing { self.old.env.frames ≢ [] }
        requires idle { self.old.awaited ≡ None }
        requires plain { duty_of self.old.env.frames ≡ None }
        requires asks { cut ≡ Some Why.Asks → asks_made self.old.env.frames ≡ most_asks }
        ensures reply { result ≡ (end_change value cut self.old.env).entry.reply }
        ensures ended { self.new ≡ after_change (end_change value cut self.old.env) self.old }
    {
        let entry = self.state.leave(value, cut);
        self.journal.push(entry);
        entry.reply
    }

    /// Moves to the next phase. In `Finals` every ticket that is registered is due. `position` is the length of the history just
    /// after the hub's event that starts it. For `Gone` the entry `gone` is written, and the position is left unused. It takes no
    /// memory.
    ///
    /// `Live` may come before all addons had their init frame: that it does not is for the crate that runs frames to keep.
    pub fn advance(&mut self, phase: Phase, position: u64)
        requires alone { self.old.env.frames ≡ [] }
        requires next { next_phase self.old.env.phase ≡ Some phase }
        ensures { self.new ≡ after_phase phase position self.old }
    {
        match phase {
            Phase::Gone => {
                let entry = self.state.gone();
                self.journal.push(entry);
            }
            _ => {
                self.state.enter(phase);
                self.journal.note(position);
            }
        }
    }

    /// Whether exit was asked. The loop ends then as soon as no frame stands.
    pub fn exit_asked(&self) -> bool
        ensures { result ≡ self.now.env.exit_asked }
    {
        self.state.exit_asked()
    }

    /// How far the environment has come.
    pub fn phase(&self) -> Phase
        ensures { result ≡ self.now.env.phase }
    {
        self.state.phase()
    }

    /// The innermost frame. The places that the journal owes, the end of each frame among them, are within its limit.
    pub fn frame(&self) -> Option<StandingFrame>
        ensures frame { option_map machine_frame result ≡ head self.now.env.frames }
        ensures room { (room_in self.now).occupied ≤ self.now.limit }
    {
        self.state.frame()
    }

    /// The addon whose init frame is next, `None` exactly where every addon had its init frame.
    pub fn next_init(&self) -> Option<u32>
        ensures { result ≡ next_init self.now.env }
    {
        self.state.next_init()
    }

    /// How many frames stand.
    pub fn depth(&self) -> u32
        ensures { result ≡ length self.now.env.frames }
    {
        self.state.depth()
    }

    /// The journal.
    pub fn journal(&self) -> &[Local]
        ensures { result.now ≡ self.now.journal }
    {
        self.journal.entries()
    }

    /// Hands out the journal.
    pub fn into_journal(self) -> LocalList
        ensures { result ≡ self.journal }
    {
        let EnvCore { journal, .. } = self;
        journal.into_entries()
    }

    /// How many places of the journal are left, the reserved ones left aside.
    pub fn room(&self) -> u32
        ensures { result + (room_in self.now).occupied ≡ (room_in self.now).limit }
    {
        self.journal.room()
    }
}

/// The teardown's steps see this of a core, and nothing else.
impl Phased for EnvCore {
    ghost phase = { λ core. core.env.phase };

    ghost has_local = { λ core. is_some (next_ticket core.env) };

    ghost stands = { λ core. is_some (head core.env.frames) };

    ghost advances = { λ core to position new. new ≡ after_phase to position core };

    ghost waiting = { λ core. waiting_hooks core.env };

    ghost finishes = { λ core id position new. new ≡ after_finish id.0 position core };

    ghost moves = { λ core position new. new ≡ at_position position core };

    ghost abandons = { λ core position new. new ≡ after_abandon position core };

    fn phase(&self) -> Phase {
        EnvCore::phase(self)
    }

    fn has_local(&self) -> bool {
        EnvCore::has_local(self)
    }

    fn waiting(&self) -> u64 {
        self.state.waiting_hooks()
    }

    fn advance(&mut self, to: Phase, position: u64) {
        EnvCore::advance(self, to, position);
    }

    fn function_finished(&mut self, id: TsfnId, position: u64) {
        self.state.drop_root(id);
        self.journal.note(position);
    }

    fn moved(&mut self, position: u64) {
        self.journal.note(position);
    }

    fn abandoned(&mut self, position: u64) {
        self.state.abandon_hooks();
        self.journal.note(position);
    }
}

/// The places of a duty's frame, its begin and its end, where there is a duty.
fn frame_places(duty: Option<Duty>) -> u32
    ensures { result ≡ 2 * one_if (is_some duty) }
{
    match duty {
        Some(_) => 2,
        None => 0,
    }
}
