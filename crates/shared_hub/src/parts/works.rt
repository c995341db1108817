//! What the hub answers to the calls on works.
ghost use Rattle.std.specs.Prelude.{◌≡◌, ◌+◌, ◌<◌, ◌^◌, false, length, true, IfOk, OnErr};
ghost use Rattle.napi_types.specs.declared.call.Call.TheVariants as call_of;
ghost use Rattle.napi_types.specs.declared.entry.Actor.{Actor};
ghost use Rattle.napi_types.specs.declared.entry.Given.{Given};
ghost use Rattle.napi_types.specs.hub.Hub.{Hub};
ghost use Rattle.napi_types.specs.plain.CallFacts.{group_of};
ghost use Rattle.napi_types.specs.plain.Guards.{is_growing};
ghost use Rattle.shared_hub.specs.HubParts.{hub_with, ArePartsWithin, MayQueue, AnswersWith, WouldAccept};

use super::SharedParts;
use async_work::Job;
use napi_types::{Call, CallGroup, Duty, Given, JobSpec, NoMemory, Out, Reply, Status, WorkId};

impl<J: Job> SharedParts<J> {
    /// The hub's answer to a call that makes, deletes, cancels or queues a work.
    pub(super) fn answer_on_works(&mut self, given: &Given, call: &Call) -> Result<Reply, NoMemory>
        requires on_works { group_of call.now ≡ CallGroup.OnWorks }
        requires within { ArePartsWithin self.old }
        requires queueing { MayQueue call.now self.old }
        ensures ok { (who : Actor) → IfOk result (λ reply. AnswersWith self.old who given.now call.now reply self.new) }
        ensures grows { OnErr result (is_growing call.now ≡ true) }
        ensures accepted { (who : Actor) → OnErr result ((h : Hub) → WouldAccept (hub_with self.old h) who given.now call.now) }
        ensures err { OnErr result (self.new ≡ self.old) }
    {
        match call {
            Call::CreateAsyncWork(spec, entry, payload) => {
                self.create_work(given, *spec, *entry, *payload)
            }
            Call::DeleteAsyncWork(id) => Ok(self.delete_work(*id)),
            Call::CancelAsyncWork(id) => Ok(self.cancel_work(*id)),
            Call::QueueAsyncWork(id) => Ok(self.queue_work(*id)),
            _ => unreachable!(),
        }
    }

    /// The answer to `create_async_work`.
    fn create_work(
        &mut self,
        given: &Given,
        spec: JobSpec,
        entry: u32,
        payload: u64,
    ) -> Result<Reply, NoMemory>
        requires { length self.old.pool.issued + 2 < 2 ^ 48 }
        ensures ok { (who : Actor) → IfOk result (λ reply. AnswersWith self.old who given.now (call_of.CreateAsyncWork spec entry payload) reply self.new) }
        ensures err { OnErr result (self.new ≡ self.old) }
    {
        let id = self.pool.create(spec, given.addon, entry, payload)?;
        Ok(Reply::plain(Status::Ok, Out::Work(id)))
    }

    /// The answer to `delete_async_work`.
    fn delete_work(&mut self, id: WorkId) -> Reply
        ensures { (who : Actor) → (g : Given) → AnswersWith self.old who g (call_of.DeleteAsyncWork id) result self.new }
    {
        match self.pool.delete(id) {
            Ok(()) => Reply::plain(Status::Ok, Out::Nothing),
            Err(status) => Reply::plain(status, Out::Nothing),
        }
    }

    /// The answer to `cancel_async_work`.
    fn cancel_work(&mut self, id: WorkId) -> Reply
        ensures { (who : Actor) → (g : Given) → AnswersWith self.old who g (call_of.CancelAsyncWork id) result self.new }
    {
        match self.pool.cancel(id) {
            Ok(()) => Reply::plain(Status::Ok, Out::Nothing),
            Err(status) => Reply::plain(status, Out::Nothing),
        }
    }

    /// The answer to `queue_async_work`, which makes the duty of the work's completion.
    fn queue_work(&mut self, id: WorkId) -> Reply
        requires { self.old.pool.closing ≡ false }
        ensures { (who : Actor) → (g : Given) → AnswersWith self.old who g (call_of.QueueAsyncWork id) result self.new }
    {
        match self.pool.queue(id) {
            Ok(number) => Reply {
                status: Status::Ok,
                out: Out::Nothing,
                dropped: None,
                made: Some(Duty::Work(number)),
            },
            Err(status) => Reply::plain(status, Out::Nothing),
        }
    }
}
