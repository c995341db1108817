//! Laws of the event that comes next where no frame stands, and a worked run of two addons.
ghost use Rattle.machine_laws.specs.LegalRuns.{EndsAsTold};
ghost use Rattle.machine_laws.specs.Choices.{NoneIsChosenInFrames, OthersComeWhereTheyAre, BeginsTellTheirFrames, OwnEventsComeFirst, HubEventsComeLast};
ghost use Rattle.machine_laws.specs.Choices.{GoComesAfterInitFrames, GoneComesAfterFinals, HubIsInPhase};
ghost use Rattle.machine_laws.specs.Choices.{GoComesOnlyAfterInitFrames, AbandonComesOnlyWhereHooksWait, DrainComesNextAfterAbandon};
ghost use Rattle.machine_laws.specs.Choices.{DrainComesOnlyAfterHooks, FinalsComeOnlyOnceAllEnded, GoneComesOnlyAfterFinals};
ghost use Rattle.machine_laws.specs.Choices.{LowestDueTicketComesFirst, LastHookComesFirst, TicketsBeginAtTheirMoments, LowestDueIsLowest};
ghost use Rattle.machine_laws.specs.TwoAddons as two_addons;

/// Who makes the next event, and what it tells.
pub fn next_event()
    // Where a frame stands no event is chosen: what comes of the environment is a call, the begin of a call's frame, or the end of a frame.
    ensures frames { NoneIsChosenInFrames }

    // At any moment only threads and workers that have not ended make entries of their own. A thread calls, acquires and releases thread-safe
    // functions, a worker starts and finishes works, and each ends.
    ensures others { OthersComeWhereTheyAre }

    // A begin tells of the frame that it leaves innermost why it began, its addon, its entry and its duty.
    ensures begins { BeginsTellTheirFrames }

    // An event that the environment decides alone comes next, whatever the hub is. It ends the loop only where that is the hub's next event.
    ensures own { OwnEventsComeFirst }

    // Where the environment does not decide alone the hub's event comes next of it, and nothing where the hub has none either.
    ensures hub { HubEventsComeLast }

    // At every moment of a run the hub is as far as the environment's phase says.
    ensures phase { HubIsInPhase }
{}

/// When the great events come: where one is chosen, and where it stands in a run.
pub fn great_events()
    // `go` comes only once each addon had its init frame.
    ensures go { GoComesAfterInitFrames }

    // `gone` comes only after `finals`.
    ensures gone { GoneComesAfterFinals }

    // In a run `go` comes in the phase of the init frames alone, once each addon had its frame.
    ensures go_only { GoComesOnlyAfterInitFrames }

    // In a run `abandon` comes after the end of the loop alone, once each hook has begun or was removed, while an asynchronous one waits. The hub then
    // has no move, and nobody is left who could give it one. It tells how many wait, and did not come before.
    ensures abandon_only { AbandonComesOnlyWhereHooksWait }

    // Behind `abandon` nothing comes of the environment before `drain`.
    ensures abandon_last { DrainComesNextAfterAbandon }

    // In a run `drain` comes after the end of the loop alone, once each hook has begun or was removed, and no asynchronous one waits.
    ensures drain_only { DrainComesOnlyAfterHooks }

    // In a run `finals` comes after `drain` alone, once every thread and every worker has ended, no work runs, and the hub has no move left.
    ensures finals_only { FinalsComeOnlyOnceAllEnded }

    // In a run `gone` comes after `finals` alone, once the hub has made its last event and each finalizer and each hook has begun or was withdrawn.
    ensures gone_only { GoneComesOnlyAfterFinals }
{}

/// Which duty begins, and when.
pub fn moments_of_duties()
    // In the loop until exit is asked, and after `finals`, the lowest ticket that is due comes first, before the event of the hub and before `gone`.
    ensures lowest { LowestDueTicketComesFirst }

    // The lowest ticket that is due is due, and none below it is.
    ensures least { LowestDueIsLowest }

    // Between the end of the loop and `drain` the hook that was added last comes first: before what the hub delivers, before `abandon` and `drain`, and
    // before every ticket that is due.
    ensures hook { LastHookComesFirst }

    // A duty begins a frame where no frame stands. In the loop while exit was not asked, and after `finals`, it is the lowest ticket that is due.
    // Between the end of the loop and `drain` it is the hook that was added last. What the hub delivers begins where the environment decides nothing
    // alone: before the end of the loop, between `drain` and `finals`, and between the two while an asynchronous hook waits. Everywhere else duties wait.
    ensures moments { TicketsBeginAtTheirMoments }
{}

/// Two addons that ask nothing.
pub fn two_addons_run()
    ensures ends { EndsAsTold two_addons.setting two_addons.trace }

    // `go` does not come before the second addon's frame, which is that of no other addon.
    ensures strict { two_addons.IsStrict }
{}
