//! What becomes of each duty over all runs, whatever threads and workers do, as laws: each function does nothing, and its contract states a law.
ghost use Rattle.napi_types.specs.all_runs.OnceLaws.{EachDutyHasOnePlace, NoPlaceIsLeft, OnePlaceGivesOnce, WorksStandOnce, CompletionsTellStarts, CancelledWorksNeverStart, AcceptedCancelsCancel, CancelsAreTold, ItemsBeginInOrder, WorkersFinishWhatTheyStart, NoRefusalAccepts};

/// After each entry of every run, whatever threads and workers do, a duty that was made and not withdrawn has exactly one place, or its frame began
/// once. A place is: queued, executed or finished in the pool; an item in its function's list; a finalizer that its function still owes; registered
/// or due in the book.
pub fn each_duty_has_one_place()
    ensures { EachDutyHasOnePlace }
{}

/// Once the environment is gone no duty has a place.
pub fn no_place_is_left()
    ensures { NoPlaceIsLeft }
{}

/// A duty that has one place at most, and of which none is left, is once.
pub fn one_place_gives_once()
    ensures { OnePlaceGivesOnce }
{}

/// Over every history that replays at the hub no work stands twice among those that are queued, executed and finished.
pub fn works_stand_once()
    ensures { WorksStandOnce }
{}

/// In every run to its end the completion of a work begins as cancelled exactly where the work never starts.
pub fn completions_tell_starts()
    ensures { CompletionsTellStarts }
{}

/// A work that at any moment is finished as a cancelled one, by an accepted cancel or by the drain, never starts, and its completion begins as
/// cancelled, once.
pub fn cancelled_works_never_start()
    ensures { CancelledWorksNeverStart }
{}

/// Each accepted `cancel_async_work` comes where its work has a number. That work never starts, and its completion begins as cancelled, once.
pub fn accepted_cancels_cancel()
    ensures { AcceptedCancelsCancel }
{}

/// So it is of each accepted `cancel_async_work` by the entries alone: the work is the one that the last accepted queueing of its id before it queued.
pub fn cancels_are_told()
    ensures { CancelsAreTold }
{}

/// The items of each thread-safe function are numbered from 1 as they are accepted, and begin in that order.
pub fn items_begin_in_order()
    ensures { ItemsBeginInOrder }
{}

/// Along every run to its end each worker starts works and finishes them, by turns, and has ended.
pub fn workers_finish_what_they_start()
    ensures { WorkersFinishWhatTheyStart }
{}

/// No call is refused with the status of an accepted one.
pub fn no_refusal_accepts()
    ensures { NoRefusalAccepts }
{}
