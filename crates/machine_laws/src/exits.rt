//! Laws of `exit` over all runs, and worked runs in which it is asked.
ghost use Rattle.machine_laws.specs.LegalRuns.{EndsAsTold};
ghost use Rattle.machine_laws.specs.ExitLaws.{ExitIsAskedByItsCall, TheLoopEndsByItsReason, TheLoopEndsByExitOrIdle, WhatIsDueWaitsForFinalsOnceExitWasAsked};
ghost use Rattle.machine_laws.specs.ExitBeforeDue as exit_before_due;
ghost use Rattle.machine_laws.specs.ExitInInitAndInAFinalizer as exit_in_init_and_in_a_finalizer;

/// What comes of `exit`.
pub fn exit_ends_the_loop()
    // At every moment of a run exit was asked exactly where a call of `exit` stands in the run. So nothing takes it back.
    ensures asked { ExitIsAskedByItsCall }

    // In a run `loop_end` tells `exit` exactly where a call of `exit` stands before it, else `idle` where the hub is, and else `quiet`. But for
    // `exit` the loop ends only where no ticket is due and the hub has no move, and it is idle or quiet.
    ensures reason { TheLoopEndsByItsReason }

    // In a run in which no call on a work or on a thread-safe function stands `loop_end` tells `exit` exactly where a call of `exit` stands before
    // it, and else `idle`.
    ensures alone { TheLoopEndsByExitOrIdle }

    // In a run in which a call of `exit` stands no ticket begins in the loop: what is due then waits for `finals`, and hooks alone begin before. What
    // the hub delivers waits for `drain`, or comes before it where no hook is left to begin and an asynchronous one waits.
    ensures waits { WhatIsDueWaitsForFinalsOnceExitWasAsked }
{}

/// Exit is asked while one ticket is due and another is registered.
pub fn exit_before_due_runs()
    ensures ends { EndsAsTold exit_before_due.setting exit_before_due.trace }
    ensures prints { exit_before_due.Prints }

    // The loop ends by `exit` and for no other reason, no ticket begins in it, and both begin after `finals`, in the order of their tickets.
    ensures strict { exit_before_due.IsStrict }
{}

/// Exit is asked in the first of two init frames, and in a finalizer.
pub fn exit_in_init_and_in_a_finalizer_runs()
    ensures ends { EndsAsTold exit_in_init_and_in_a_finalizer.setting exit_in_init_and_in_a_finalizer.trace }
    ensures prints { exit_in_init_and_in_a_finalizer.Prints }

    // The frame that asks to exit goes on, the second init frame begins before `go`, and the finalizer begins before the environment is gone.
    ensures strict { exit_in_init_and_in_a_finalizer.IsStrict }
{}
