//! Worked runs of promises, deferreds and reactions, each as laws.
ghost use Rattle.machine_laws.specs.LegalRuns.{EndsAsTold};
ghost use Rattle.machine_laws.specs.PromiseCollected as promise_collected;
ghost use Rattle.machine_laws.specs.PromisePending as promise_pending;
ghost use Rattle.machine_laws.specs.PromiseResolved as promise_resolved;
ghost use Rattle.machine_laws.specs.PromiseRun as promise_made;

/// A promise whose deferred is settled twice.
pub fn promise_run()
    ensures ends { EndsAsTold promise_made.setting promise_made.trace }
    ensures prints { promise_made.Prints }

    // The first register keeps the deferred, and the second the promise's handle.
    ensures registers { promise_made.Keeps }

    // The first settling is not refused, and the second one is. The deferred has a number above 0 and the promise a new handle, and both settlings name that
    // number.
    ensures strict { promise_made.IsStrict }
{}

/// A promise that its deferred alone keeps, and collections before and after the settling.
pub fn promise_collected_runs()
    ensures ends { EndsAsTold promise_collected.setting promise_collected.trace }
    ensures prints { promise_collected.Prints }

    // A deferred that is not settled keeps its promise, and one that is settled does not.
    ensures strict { promise_collected.IsStrict }
{}

/// A promise with two reactions that is resolved, and then rejected.
pub fn promise_resolved_runs()
    ensures ends { EndsAsTold promise_resolved.setting promise_resolved.trace }
    ensures prints { promise_resolved.Prints }

    // Each reaction is given its own data, and the state of its promise.
    ensures gives { promise_resolved.Gives }

    // The registers keep the deferred, the handles, and the number that the second reaction was told.
    ensures registers { promise_resolved.Keeps }

    // No reaction begins before the frame has ended that resolves the promise, nor before the loop. They begin in the order of adding, each once, and are told
    // what resolved it. The second settling is refused.
    ensures strict { promise_resolved.IsStrict }
{}

/// A promise with a reaction that is never settled.
pub fn promise_pending_runs()
    ensures ends { EndsAsTold promise_pending.setting promise_pending.trace }
    ensures prints { promise_pending.Prints }

    // The reaction is given its data, and that its promise is pending.
    ensures gives { promise_pending.Gives }

    // The registers keep the deferred and the promise's handle, and no value.
    ensures registers { promise_pending.Keeps }

    // The reaction begins after `finals`, once, and not before. It is told no value.
    ensures strict { promise_pending.IsStrict }
{}
