//! What the machine's definitions come to over all runs, as laws: each function does nothing, and its contract states a law.
ghost use Rattle.napi_types.specs.all_runs.AbandonedHooks.{HooksAreSettled};
ghost use Rattle.napi_types.specs.all_runs.SettledPromises.{PromisesAreSettled};
ghost use Rattle.napi_types.specs.all_runs.BufferLives.{BuffersOutliveViews};
ghost use Rattle.napi_types.specs.all_runs.SharedBytes.{ViewsShareBytes};
ghost use Rattle.napi_types.specs.all_runs.Laws.{RoomSuffices, CollectionsKeepWhatIsReached, TicketsAreOnce, WithdrawnByTheirCalls, EveryDutyIsOnce, TicketsBeginInOrder, TicketsAreCounted};

/// Where the limits have room for the events that every run has, entries and reserved places stay within them at the end
/// of every run, and so at every moment; once the environment is gone no place is left reserved in either list. Among those
/// events is the end of each thread and of each worker.
pub fn room_suffices()
    ensures { RoomSuffices }
{}

/// Each collection of a run keeps exactly the values that the roots reach, empties the references to the others, takes away what is attached to them,
/// and tells how many it freed. The registered tickets of their finalizers fall due.
pub fn collections_keep_what_is_reached()
    ensures { CollectionsKeepWhatIsReached }
{}

/// In every run to its end each finalizer, each hook and each reaction that is made and not withdrawn begins exactly once; one that is withdrawn was made,
/// and never begins; and no other ticket begins. So it is whatever the addons do.
pub fn tickets_are_once()
    ensures { TicketsAreOnce }
{}

/// Only an accepted `remove_wrap`, `set_instance_data`, `remove_env_cleanup_hook` or `remove_async_cleanup_hook` withdraws a duty.
pub fn duties_are_withdrawn_by_their_calls()
    ensures { WithdrawnByTheirCalls }
{}

/// In every run to its end, whatever threads and workers do, each duty that is made and not withdrawn begins exactly once, and one that is withdrawn
/// never. One is withdrawn by an accepted `remove_wrap`,
/// `set_instance_data`, `remove_env_cleanup_hook` or `remove_async_cleanup_hook` alone.
pub fn every_duty_is_once()
    ensures { EveryDutyIsOnce }
{}

/// In every run of a script the frames of cleanup hooks begin in the reverse of the order in which the hooks were added. What was left to the end
/// begins in the order of registration: after `finals` each frame of a ticket begins before those of all higher tickets.
pub fn tickets_begin_in_order()
    ensures { TicketsBeginInOrder }
{}

/// The tickets that calls make count from 1, so a ticket tells the order of registration.
pub fn tickets_are_counted()
    ensures { TicketsAreCounted }
{}

/// In every run each asynchronous cleanup hook has a number of its own. Hooks are abandoned once at most, where at least one began and was not removed, and
/// the result of `abandon` is how many did. Where the drain comes each asynchronous hook that began was removed by an accepted
/// `remove_async_cleanup_hook`, or was one of those that `abandon` counted.
pub fn asynchronous_hooks_are_settled()
    ensures { HooksAreSettled }
{}

/// In every run to its end each deferred is settled once at most, and each reaction that is added to a promise begins: after the reactions of that promise
/// that were added before it, with the state with which the promise was settled before, and with state 0, of a promise that was not settled, only once
/// `finals` came. The value that its frame is told is the one that settled the promise.
pub fn promises_are_settled()
    ensures { PromisesAreSettled }
{}

/// In every run of a script all views of an array buffer share its bytes. An accepted `get_view` gives the number whose bytes, the least first, are those that
/// were last written at its places by an accepted `set_view` through any view of the same buffer, and 0 where none was. A view lies in its buffer, and an
/// element is below its view's length. A buffer is detached once at most; then it has no bytes, and none is read or written through a view of it.
pub fn views_share_bytes()
    ensures { ViewsShareBytes }
{}

/// In every run of a script a buffer lives as long as each view of it: a view is made of a buffer that lives, and a collection that leaves the view leaves the
/// buffer. The finalizer of an external buffer begins only once a collection left the buffer out, or `finals` came.
pub fn buffers_outlive_their_views()
    ensures { BuffersOutliveViews }
{}
