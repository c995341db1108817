//! Worked runs of cleanup hooks, plain and asynchronous, of instance data and of version 10, each as laws.
ghost use Rattle.machine_laws.specs.LegalRuns.{EndsAsTold, EndsOnItsLists};
ghost use Rattle.machine_laws.specs.DoubledHooks as doubled_hooks;
ghost use Rattle.machine_laws.specs.HookAbandoned as abandoned_hook;
ghost use Rattle.machine_laws.specs.HookRemovedByCompletion as removed_hook;
ghost use Rattle.machine_laws.specs.InstanceDataRun as instance_data;
ghost use Rattle.machine_laws.specs.SettleMisses.{SettlingIsStrict};
ghost use Rattle.machine_laws.specs.TicketDueInHooks as ticket_due;
ghost use Rattle.machine_laws.specs.VersionTen as version_ten;

/// Hooks that are added twice and removed twice.
pub fn doubled_hooks_run()
    ensures ends { EndsAsTold doubled_hooks.setting doubled_hooks.trace }
    ensures prints { doubled_hooks.Prints }
    ensures sums { doubled_hooks.SumsUp }

    // The hook that stays begins alone, once, after the loop and before `drain`. What is doubled is refused, and in the hook no other one is added.
    ensures strict { doubled_hooks.IsStrict }
{}

/// Two asynchronous hooks, of which one removes itself and the other is removed by the completion of a work.
pub fn hook_removed_by_completion_runs()
    ensures ends { EndsOnItsLists removed_hook.setting removed_hook.journal removed_hook.history }
    ensures prints { removed_hook.Prints }

    // The hook that was added last begins first, and removes itself by the number that it is given. While the other one waits neither `abandon` nor
    // `drain` comes, whether the work is queued, runs or is finished. Its completion removes that hook, and then the drain comes, and no `abandon`.
    ensures strict { removed_hook.IsStrict }
{}

/// Two asynchronous hooks that are alike, of which one is removed before it begins and the other is abandoned.
pub fn hook_abandoned_runs()
    ensures ends { EndsAsTold abandoned_hook.setting abandoned_hook.trace }
    ensures prints { abandoned_hook.Prints }
    ensures sums { abandoned_hook.SumsUp }

    // The second hook is not refused as doubled, and has a number of its own. Removed before it begins it is withdrawn, and never begins; it is removed
    // once. The other one begins once and waits, so that `drain` does not come before `abandon`, which tells one hook and comes once.
    ensures strict { abandoned_hook.IsStrict }
{}

/// In the runs of the two functions above the asynchronous hooks are settled. They are not where the drain comes though a hook that began was neither removed
/// nor abandoned, where the removal was refused or removed another hook, where `abandon` tells a wrong number, comes too early, without a hook that waits, or
/// twice, nor where two hooks have one number.
pub fn hooks_are_settled_strictly()
    ensures { SettlingIsStrict }
{}

/// A finalizer that falls due in the frame of an asynchronous hook, which is abandoned.
pub fn ticket_due_in_hooks_runs()
    ensures ends { EndsAsTold ticket_due.setting ticket_due.trace }
    ensures prints { ticket_due.Prints }

    // No ticket begins while the hook waits, and none in place of `abandon`, of `drain` or of `finals`. The finalizer begins behind `finals`.
    ensures strict { ticket_due.IsStrict }
{}

/// Instance data that is set twice, each time with a finalizer.
pub fn instance_data_runs()
    ensures ends { EndsAsTold instance_data.setting instance_data.trace }
    ensures prints { instance_data.Prints }

    // What was set last is told. The first finalizer is withdrawn and never begins, and the second begins once, after `finals`.
    ensures strict { instance_data.IsStrict }
{}

/// References to a number, and a guarded call in a hook, at version 10.
pub fn version_ten_run()
    ensures ends { EndsAsTold version_ten.setting version_ten.trace }
    ensures prints { version_ten.Prints }

    // A number is referred to, a strong reference keeps it and a weak one does not, and the guarded call in the hook is told that no JavaScript can run. The
    // same entries are no run at version 9.
    ensures strict { version_ten.IsStrict }
{}
