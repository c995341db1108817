//! Worked runs of exceptions and of calls of functions, each as laws.
ghost use Rattle.machine_laws.specs.LegalRuns.{EndsAsTold};
ghost use Rattle.machine_laws.specs.PendingException as pending_exception;
ghost use Rattle.machine_laws.specs.CallAndError as call_and_error;
ghost use Rattle.machine_laws.specs.Depth as depth_limit;

/// Calls while an exception is pending.
pub fn pending_exception_runs()
    ensures ends { EndsAsTold pending_exception.setting pending_exception.trace }
    ensures prints { pending_exception.Prints }

    // A guarded call has no other status, the exception stays pending, what is taken is what was thrown, and then none is pending.
    ensures strict { pending_exception.IsStrict }

    // An init frame that ends uncut while an exception is pending tells that it was not caught, and nothing else.
    ensures uncaught { pending_exception.IsUncaught }
{}

/// A function that is called and returns its argument, and an error that is not caught.
pub fn call_and_error_runs()
    ensures ends { EndsAsTold call_and_error.setting call_and_error.trace }
    ensures prints { call_and_error.Prints }
    ensures sums { call_and_error.SumsUp }

    // The call's frame is of no other entry, its end has no other status and handle, the value is what was returned, and the error is not caught.
    ensures strict { call_and_error.IsStrict }
{}

/// A function that calls itself until no further frame may stand.
pub fn depth_runs()
    ensures ends { EndsAsTold depth_limit.setting depth_limit.trace }

    // No frame begins where 64 stand, the call there has no other status, and its error stays pending until the outermost frame ends.
    ensures strict { depth_limit.IsStrict }
{}
