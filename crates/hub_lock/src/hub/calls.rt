//! The calls of threads.
ghost use Rattle.std.specs.Prelude.{◌≡◌, false, true};
ghost use Rattle.napi_types.specs.declared.call.Call.TheVariants as call_of;
ghost use Rattle.napi_types.specs.hub.HubCalls.{is_thread_call};
ghost use Rattle.hub_lock.specs.SeenTurns.{IsOfThread, HasNoEnd};
ghost use Rattle.hub_lock.specs.LockedCalls.{AfterTry, CalledAtLock};

use super::Hub;
use async_work::Job;
use napi_types::{Call, Mode, Out, Release, Reply, TsfnId};
use shared_hub::{Naming, ThreadTried};
use std::sync::Wait;
use turn_lock::Pass;

impl<J: Job, N: Naming> Hub<J, N> {
    /// A thread calls a function: the manual's `napi_call_threadsafe_function`. It waits until `go`, and while the queue is full and the mode
    /// blocks. `step` is the number of the operation in the thread's script, from 0.
    ///
    /// The call's entry is the last row of the pass's own. At `TraceFull` and `NoMemory` there is none.
    ///
    /// It is for embedders whose threads are no scripts. `runner` does not use it: there a call that stops and the thread's end are one turn.
    pub fn call_tsfn<R: Wait>(
        &self,
        rt: &R,
        pass: &mut Pass,
        step: u32,
        id: TsfnId,
        payload: u64,
        mode: Mode,
    ) -> Reply
        requires lock { pass.old.lock ≡ self.now.lock }
        requires free { pass.old.holds ≡ false }
        requires thread { IsOfThread N.numbers pass.old }
        requires going_on { HasNoEnd pass.old.own }
        ensures { CalledAtLock N.numbers pass.old step (call_of.CallThreadsafeFunction id payload mode) result pass.new }
    {
        self.make_call(
            rt,
            pass,
            step,
            &Call::CallThreadsafeFunction(id, payload, mode),
        )
    }

    /// One thread more holds a function: the manual's `napi_acquire_threadsafe_function`. It waits until `go`. See [`Hub::call_tsfn`]: `runner`
    /// does not use it either.
    pub fn acquire_tsfn<R: Wait>(&self, rt: &R, pass: &mut Pass, step: u32, id: TsfnId) -> Reply
        requires lock { pass.old.lock ≡ self.now.lock }
        requires free { pass.old.holds ≡ false }
        requires thread { IsOfThread N.numbers pass.old }
        requires going_on { HasNoEnd pass.old.own }
        ensures { CalledAtLock N.numbers pass.old step (call_of.AcquireThreadsafeFunction id) result pass.new }
    {
        self.make_call(rt, pass, step, &Call::AcquireThreadsafeFunction(id))
    }

    /// One thread less holds a function: the manual's `napi_release_threadsafe_function`. It waits until `go`. See [`Hub::call_tsfn`]: `runner`
    /// does not use it either.
    pub fn release_tsfn<R: Wait>(
        &self,
        rt: &R,
        pass: &mut Pass,
        step: u32,
        id: TsfnId,
        mode: Release,
    ) -> Reply
        requires lock { pass.old.lock ≡ self.now.lock }
        requires free { pass.old.holds ≡ false }
        requires thread { IsOfThread N.numbers pass.old }
        requires going_on { HasNoEnd pass.old.own }
        ensures { CalledAtLock N.numbers pass.old step (call_of.ReleaseThreadsafeFunction id mode) result pass.new }
    {
        self.make_call(rt, pass, step, &Call::ReleaseThreadsafeFunction(id, mode))
    }

    /// A call of a thread, which waits until `go`, and while the queue is full and the mode blocks.
    fn make_call<R: Wait>(&self, rt: &R, pass: &mut Pass, step: u32, call: &Call) -> Reply
        requires lock { pass.old.lock ≡ self.now.lock }
        requires free { pass.old.holds ≡ false }
        requires thread { IsOfThread N.numbers pass.old }
        requires going_on { HasNoEnd pass.old.own }
        requires kind { is_thread_call call.now ≡ true }
        ensures { CalledAtLock N.numbers pass.old step call.now result pass.new }
    {
        for _ in rt.forever() {
            match self.try_call(rt, pass, step, call) {
                ThreadTried::Reply(reply) => return reply,
                ThreadTried::Stop(status) => return Reply::plain(status, Out::Nothing),
                ThreadTried::Wait => self.sleep(rt, pass.number()),
            }
        }
        unreachable!()
    }

    /// One turn of such a call.
    fn try_call<R: Wait>(&self, rt: &R, pass: &mut Pass, step: u32, call: &Call) -> ThreadTried
        requires lock { pass.old.lock ≡ self.now.lock }
        requires free { pass.old.holds ≡ false }
        requires thread { IsOfThread N.numbers pass.old }
        requires going_on { HasNoEnd pass.old.own }
        requires kind { is_thread_call call.now ≡ true }
        ensures { AfterTry N.numbers pass.old step call.now result pass.new }
    {
        let number = pass.number();
        let mut held = self.take(rt, pass);
        held.value.invariant();
        let tried = held.value.call(number, step, call);
        self.give(pass, held);
        tried
    }
}
