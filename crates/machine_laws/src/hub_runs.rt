//! Worked runs of works, thread-safe functions, threads and workers, each as a law: its two lists are a run to its end,
//! with its text, and near misses are no run.
ghost use Rattle.napi_types.specs.all_runs.HubLaws.{ThreadsKeep};
ghost use Rattle.machine_laws.specs.LegalRuns.{EndsOnItsLists};
ghost use Rattle.machine_laws.specs.RealisticAddon as realistic_addon;
ghost use Rattle.machine_laws.specs.CancelBeforeStart as cancel_before_start;
ghost use Rattle.machine_laws.specs.CancelAfterStart as cancel_after_start;
ghost use Rattle.machine_laws.specs.CancelBehindFinished as cancel_behind_finished;
ghost use Rattle.machine_laws.specs.DrainBehindFinished as drain_behind_finished;
ghost use Rattle.machine_laws.specs.WorkWithoutWorkers as work_without_workers;
ghost use Rattle.machine_laws.specs.TwoWorks as two_works;
ghost use Rattle.machine_laws.specs.FullQueue as full_queue;
ghost use Rattle.machine_laws.specs.Abort as abort;
ghost use Rattle.machine_laws.specs.TornWithoutEntry as torn_without_entry;
ghost use Rattle.machine_laws.specs.ReleaseToZero as release_to_zero;
ghost use Rattle.machine_laws.specs.TwoFunctions as two_functions;
ghost use Rattle.machine_laws.specs.ExitInTheMiddle as exit_in_the_middle;
ghost use Rattle.machine_laws.specs.DutyMisses.{OnceOfTheHubIsStrict, ItemOrderIsStrict, CompletionsAreStrict, CancelsAreStrict};
ghost use Rattle.machine_laws.specs.PlaceMisses.{PlacesAreStrict};

/// A realistic addon: a work, a thread-safe function that two threads call, and a finalizer.
pub fn realistic_addon_runs()
    ensures ends { EndsOnItsLists realistic_addon.setting realistic_addon.journal realistic_addon.history }
    ensures actors { realistic_addon.ActInOrder }
    ensures prints { realistic_addon.Prints }
    ensures sums { realistic_addon.SumsUp }
    ensures registers { realistic_addon.Keeps }
    ensures strict { realistic_addon.IsStrict }
{}

/// A work is cancelled before it starts: it completes as cancelled.
pub fn cancel_before_start_runs()
    ensures ends { EndsOnItsLists cancel_before_start.setting cancel_before_start.journal cancel_before_start.history }
    ensures prints { cancel_before_start.Prints }
    ensures sums { cancel_before_start.SumsUp }
    ensures registers { cancel_before_start.Keeps }
    ensures strict { cancel_before_start.IsStrict }
{}

/// A work is cancelled after its start: the call is refused, and the work completes with its value.
pub fn cancel_after_start_runs()
    ensures ends { EndsOnItsLists cancel_after_start.setting cancel_after_start.journal cancel_after_start.history }
    ensures prints { cancel_after_start.Prints }
    ensures registers { cancel_after_start.Keeps }
    ensures strict { cancel_after_start.IsStrict }
{}

/// A work is cancelled while another one is finished: its completion begins behind that one's.
pub fn cancel_behind_finished_runs()
    ensures ends { EndsOnItsLists cancel_behind_finished.setting cancel_behind_finished.journal cancel_behind_finished.history }
    ensures prints { cancel_behind_finished.Prints }
    ensures strict { cancel_behind_finished.IsStrict }
{}

/// The drain cancels a work while another one is finished: its completion begins behind that one's.
pub fn drain_behind_finished_runs()
    ensures ends { EndsOnItsLists drain_behind_finished.setting drain_behind_finished.journal drain_behind_finished.history }
    ensures prints { drain_behind_finished.Prints }
    ensures strict { drain_behind_finished.IsStrict }
{}

/// A work is queued where there is no worker: the loop ends, and the drain cancels it.
pub fn work_without_workers_runs()
    ensures ends { EndsOnItsLists work_without_workers.setting work_without_workers.journal work_without_workers.history }
    ensures prints { work_without_workers.Prints }
    ensures strict { work_without_workers.IsStrict }
{}

/// Two works start in the order of queueing, each at a worker of its own.
pub fn two_works_start_in_order()
    ensures { two_works.IsStrict }
{}

/// A full queue: no call on it is accepted, and a thread's has no answer.
pub fn full_queue_runs()
    ensures ends { EndsOnItsLists full_queue.setting full_queue.journal full_queue.history }
    ensures threads { ThreadsKeep full_queue.setting full_queue.scripts full_queue.history }
    ensures prints { full_queue.Prints }
    ensures sums { full_queue.SumsUp }
    ensures strict { full_queue.IsStrict }
{}

/// A thread-safe function is aborted: its items are torn, and then its finalizer begins.
pub fn abort_runs()
    ensures ends { EndsOnItsLists abort.setting abort.journal abort.history }
    ensures prints { abort.Prints }
    ensures sums { abort.SumsUp }
    ensures strict { abort.IsStrict }
{}

/// A thread-safe function without a call-js entry is aborted: the frames of its items ask nothing, and its function lives until it finishes.
pub fn torn_without_entry_runs()
    ensures ends { EndsOnItsLists torn_without_entry.setting torn_without_entry.journal torn_without_entry.history }
    ensures prints { torn_without_entry.Prints }
    ensures strict { torn_without_entry.IsStrict }
{}

/// A thread-safe function is released to 0: its items are delivered in their order, and then it closes.
pub fn release_to_zero_runs()
    ensures ends { EndsOnItsLists release_to_zero.setting release_to_zero.journal release_to_zero.history }
    ensures prints { release_to_zero.Prints }
    ensures strict { release_to_zero.IsStrict }
{}

/// Two thread-safe functions: which delivers first, and for which the loop waits.
pub fn two_functions_run()
    ensures ends { EndsOnItsLists two_functions.setting two_functions.journal two_functions.history }
    ensures threads { ThreadsKeep two_functions.setting two_functions.scripts two_functions.history }
    ensures prints { two_functions.Prints }
    ensures registers { two_functions.Keeps }
    ensures strict { two_functions.IsStrict }
{}

/// Exit is asked in the middle: the hooks run, then what waits is completed and torn, and the end waits for the thread and the worker.
pub fn exit_in_the_middle_runs()
    ensures ends { EndsOnItsLists exit_in_the_middle.setting exit_in_the_middle.journal exit_in_the_middle.history }
    ensures actors { exit_in_the_middle.ActInOrder }
    ensures prints { exit_in_the_middle.Prints }
    ensures strict { exit_in_the_middle.IsStrict }
{}

/// What becomes of the duties of the hub in some of these runs, and in entries that differ from them in one duty.
pub fn duties_of_the_hub()
    // Each is once. It is not where an item begins twice, nor where a function's finalizer never begins.
    ensures once { OnceOfTheHubIsStrict }

    // Items begin in the order in which they were accepted. They do not where one begins before an earlier one, or twice.
    ensures items { ItemOrderIsStrict }

    // A completion tells whether its work started, and a work that is cancelled never starts. It is not so with 11 of a work that started, with 0 of
    // one that did not or whose cancelling was accepted, nor where a work starts behind its cancelling.
    ensures completions { CompletionsAreStrict }

    // An accepted cancel cancels the work that was last queued under its id. It is not so where that work completes with 0 or starts, where no work was
    // queued under the id, or only behind the cancel.
    ensures cancels { CancelsAreStrict }
{}

/// Where the entries of the journal stand. A local call that stands behind an entry of a thread leaves a run, and it does not stand in its place.
pub fn places_of_the_journal()
    ensures { PlacesAreStrict }
{}
