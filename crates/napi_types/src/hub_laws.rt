//! What the machine's definitions come to over all runs in which threads and workers take part, as laws: each function does nothing, and its
//! contract states a law.
ghost use Rattle.napi_types.specs.hub.ActorLaws.{ThreadsGoOn, ThreadsStandAsOthersGoOn, WorkersGoOn, WorkersStandAsOthersGoOn, WorkersStandAsTheHubSays};
ghost use Rattle.napi_types.specs.hub.HistoryLaws.{PrefixesReplay, OthersKeepTheHub, OthersLowerNothing, OthersOccupyNoLess, CallsStayPressed, PoolsCloseAtTheDrain, WorkersEndAfterTheDrain, ExecutingWorkersAreThere, HubsAreWithin, NoCallWaitsFromTheDrainOn, EndedThreadsHaveNoneLeft, WorkersTakeTurns, RunningStaysRunning};
ghost use Rattle.napi_types.specs.all_runs.HubLaws.{PrefixesJoin, OthersJoin, HistoriesLeadToTheirHub, AddonsAreTheScripts, ScriptsStayAsOthersGoOn, PrefixesKeepScripts, ThreadsKeepAsOthersGoOn, PrefixesOfThreadsKeep, ThreadsComeToTheirEnd};
ghost use Rattle.napi_types.specs.all_runs.AcceptedCalls.{AcceptedCallsTellTheirDuty};
ghost use Rattle.napi_types.specs.all_runs.Goings.{NextEventsMayCome, SomebodyAlwaysGoesOn, RunsNeverStandStill};
ghost use Rattle.napi_types.specs.runs.LoopEnds.{LoopsEndForTheReason, LoopsEndIdleOrQuiet};
ghost use Rattle.napi_types.specs.environment.MadeTickets.{UnrefusedCallsMakeTheirTicket};
ghost use Rattle.napi_types.specs.hub.MadeDuties.{AnswersMakeTheirDuty, NoWorkRefusalAccepts};
ghost use Rattle.napi_types.specs.environment.SharedCalls.{SharedEntriesAreHanded, SharedRefusals};

/// The environment sees a prefix of the history. Where its journal and that prefix are a run, the whole history replays at the hub, and behind the prefix stand
/// entries of other actors alone, the environment and the hub are joined.
pub fn prefixes_join()
    ensures { PrefixesJoin }
{}

/// The environment sees a prefix of the history. Where its journal and that prefix are a run, and other actors went on behind it, the journal
/// and the whole history are a run, which leaves the environment and the registers as they were.
pub fn others_join()
    ensures { OthersJoin }
{}

/// Every hub to which a run comes is the one to which its history leads.
pub fn histories_lead_to_their_hub()
    ensures { HistoriesLeadToTheirHub }
{}

/// Each prefix of a history that replays at the hub replays too. What stands behind it replays from there on, and leads to the same hub.
pub fn prefixes_replay()
    ensures { PrefixesReplay }
{}

/// At every moment of a run the addons of frames, functions, tickets, works and thread-safe functions are those of the script.
pub fn addons_are_the_scripts()
    ensures { AddonsAreTheScripts }
{}

/// A history that keeps the script of a thread keeps it as other actors go on.
pub fn scripts_stay_as_others_go_on()
    ensures { ScriptsStayAsOthersGoOn }
{}

/// So does each prefix of it.
pub fn prefixes_keep_scripts()
    ensures { PrefixesKeepScripts }
{}

/// An entry of a thread or a worker keeps how far the hub is, the duty whose frame stands, and how many threads and workers there are. Where works
/// and functions are of the script's addons they stay so.
pub fn others_keep_the_hub()
    ensures { OthersKeepTheHub }
{}

/// No entry of a thread or a worker lowers the sum of the history's entries and reserved places.
pub fn others_lower_nothing()
    ensures { OthersLowerNothing }
{}

/// So the places of a history that are taken do not become fewer as others go on.
pub fn others_occupy_no_less()
    ensures { OthersOccupyNoLess }
{}

/// A call that is full there stays full as others go on, and one that may want memory still may.
pub fn calls_stay_pressed()
    ensures { CallsStayPressed }
{}

/// Over every history that replays at the hub the pool is closing from the drain on.
pub fn pools_close_at_the_drain()
    ensures { PoolsCloseAtTheDrain }
{}

/// Over every history that replays at the hub no worker has ended before the drain, and a worker that executes a work has not ended.
pub fn workers_end_after_the_drain()
    ensures early { WorkersEndAfterTheDrain }
    ensures executing { ExecutingWorkersAreThere }
{}

/// No more works were created, no more were queued, no more functions made and no more items accepted than the history has entries.
pub fn hubs_are_within()
    ensures { HubsAreWithin }
{}

/// Over every history that replays at the hub a worker starts and finishes works by turns, and then ends: no entry of it comes out of turn, and
/// none after its end.
pub fn workers_take_turns()
    ensures { WorkersTakeTurns }
{}

/// While a worker executes a work, no entry of another actor changes that: it executes the same work, which is there as it was, with its value.
pub fn running_stays_running()
    ensures { RunningStaysRunning }
{}

/// Where a thread stands after a history: what it made and which of its calls are left. With its next entry behind the history, a call or its end, it stands
/// one further, and entries of other actors leave it where it stands.
pub fn threads_go_on()
    ensures next { ThreadsGoOn }
    ensures others { ThreadsStandAsOthersGoOn }
{}

/// Where a worker stands after a history: free, with a work, or ended. Its next entry alone moves it, and over every history that replays at the hub that is
/// where the hub says that it stands.
pub fn workers_go_on()
    ensures next { WorkersGoOn }
    ensures others { WorkersStandAsOthersGoOn }
    ensures hub { WorkersStandAsTheHubSays }
{}

/// Where each thread keeps its script, each still does after entries of workers and of the environment.
pub fn threads_keep_as_others_go_on()
    ensures { ThreadsKeepAsOthersGoOn }
{}

/// So each does at each prefix of the history.
pub fn prefixes_of_threads_keep()
    ensures { PrefixesOfThreadsKeep }
{}

/// Over every history that replays at the hub a thread has ended exactly where none of its calls is left to speak of.
pub fn ended_threads_have_none_left()
    ensures { EndedThreadsHaveNoneLeft }
{}

/// In every run to its end each thread has come to its end.
pub fn threads_come_to_their_end()
    ensures { ThreadsComeToTheirEnd }
{}

/// At every moment of a run where no frame stands the event that is next may come: no event of the environment's is ever refused.
pub fn next_events_may_come()
    ensures { NextEventsMayCome }
{}

/// Over every history that replays at the hub, until `finals`: where the hub has no event a thread or a worker goes on, which has not ended and does not
/// wait. So in the loop and after the drain not all that are left wait.
pub fn somebody_always_goes_on()
    ensures { SomebodyAlwaysGoesOn }
{}

/// Until the environment is gone, where no frame stands and the environment has no event, a thread or a worker goes on, and may make an entry.
pub fn runs_never_stand_still()
    ensures { RunsNeverStandStill }
{}

/// Over every history that replays at the hub no call of a thread-safe function waits from the drain on. So no thread stands still in one.
pub fn no_call_waits_from_the_drain_on()
    ensures { NoCallWaitsFromTheDrainOn }
{}

/// The machine's choice ends the loop for the reason that one word of the hub gives. Where the hub has no move that is idle, or else quiet.
pub fn loops_end_for_the_reason()
    ensures reason { LoopsEndForTheReason }
    ensures quiet { LoopsEndIdleOrQuiet }
{}

/// A shared call is handed to the hub as one record, which has all that its entry tells. The environment refuses such a call with 1 or with 9, where it
/// refuses it.
pub fn shared_calls_are_handed()
    ensures entries { SharedEntriesAreHanded }
    ensures refusals { SharedRefusals }
{}

/// A call that registers makes its duty where nothing refuses it: the next ticket, the next number of a work, the next item of a function, or the finalizer of
/// the next function. The hub's answer makes one exactly where its status is 0, and no refusal of a call on a work is 0.
pub fn accepted_calls_make_their_duty()
    ensures tickets { UnrefusedCallsMakeTheirTicket }
    ensures duties { AnswersMakeTheirDuty }
    ensures works { NoWorkRefusalAccepts }
{}

/// In every run the entry of an accepted call that registers tells the duty that it makes.
pub fn accepted_calls_tell_their_duty()
    ensures { AcceptedCallsTellTheirDuty }
{}
