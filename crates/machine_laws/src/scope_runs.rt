//! Worked runs of handles and scopes, each as laws: that it is a run to its end, its text, and that near misses are no run.
ghost use Rattle.machine_laws.specs.LegalRuns.{EndsAsTold};
ghost use Rattle.machine_laws.specs.FirstRun as first_run;
ghost use Rattle.machine_laws.specs.OrderOfScopes as order_of_scopes;
ghost use Rattle.machine_laws.specs.HandleAfterScope as handle_after_scope;
ghost use Rattle.machine_laws.specs.EscapeTwice as escape_twice;
ghost use Rattle.machine_laws.specs.StaleHandle as stale_handle;
ghost use Rattle.machine_laws.specs.NextHandle as next_handle;

/// The first run.
pub fn first_run_runs()
    ensures ends { EndsAsTold first_run.setting first_run.trace }
    ensures prints { first_run.Prints }

    // What the addon of the first run keeps in its registers.
    ensures registers { first_run.Keeps }

    // Each entry of the first run stands on its list: `go` not in the journal, the end of the init frame not in the history.
    ensures parted { first_run.IsPartedSo }

    // The reply to a call goes to a register where the environment made its entry, and to none where a thread made one that looks like it.
    ensures replies { first_run.KeepsOwnReplies }

    // Entries that differ from the first run in one place are no run of its script.
    ensures strict { first_run.IsStrict }
{}

/// The order of scopes.
pub fn order_of_scopes_runs()
    ensures ends { EndsAsTold order_of_scopes.setting order_of_scopes.trace }
    ensures prints { order_of_scopes.Prints }

    // A refused close has no other status.
    ensures strict { order_of_scopes.IsStrict }
{}

/// A handle used after its scope closed.
pub fn handle_after_scope_runs()
    ensures ends { EndsAsTold handle_after_scope.setting handle_after_scope.trace }
    ensures prints { handle_after_scope.Prints }

    // The call with that handle has no other status, and tells no kind.
    ensures strict { handle_after_scope.IsStrict }
{}

/// A handle that escapes twice.
pub fn escape_twice_runs()
    ensures ends { EndsAsTold escape_twice.setting escape_twice.trace }
    ensures prints { escape_twice.Prints }

    // The first escape gives the next handle and the second none, and after the close the handle that escaped alone is good.
    ensures strict { escape_twice.IsStrict }
{}

/// A handle that is read after its scope closed, and the last status after that.
pub fn stale_handle_runs()
    ensures ends { EndsAsTold stale_handle.setting stale_handle.trace }
    ensures prints { stale_handle.Prints }

    // The refused call has no other status, and it is the last one, also after it was asked for.
    ensures strict { stale_handle.IsStrict }
{}

/// A handle that is made after the scope of another closed.
pub fn next_handle_runs()
    ensures ends { EndsAsTold next_handle.setting next_handle.trace }
    ensures prints { next_handle.Prints }

    // The handle has the next number, and not again that of the one before.
    ensures strict { next_handle.IsStrict }
{}
