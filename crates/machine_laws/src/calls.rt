//! Laws over all calls in all environments.
ghost use Rattle.machine_laws.specs.CallLaws.{RefusesUnknownHandles, RefusesUnknownInEachRow, TakesKnownHandles, ExternalsAreTaggedOnly, OnlyExternalsAreRead};
ghost use Rattle.machine_laws.specs.CallLaws.{OnlyFunctionsAreServed, EachDutyHasPlaces, RegisteringCallsGrow, NeedsAndGrowth};
ghost use Rattle.machine_laws.specs.CallLaws.{EveryCallHasARow, RefusedCallsChangeNothing, ErrorNamesAreFixed, ReferencesAreNamedAlone, HooksAreNamedAlone};
ghost use Rattle.machine_laws.specs.CallLaws.{AsyncHooksAreKnownByNumber, ExitChangesNothingElse};

/// What refuses a call, and what a refused call changes.
pub fn refusals()
    // A refused call answers the first refusal that applies and changes nothing, but that the depth limit leaves its error pending.
    ensures nothing { RefusedCallsChangeNothing }

    // A handle that no open scope holds is an invalid argument, and each call that names it changes nothing.
    ensures unknown { RefusesUnknownHandles }
    ensures rows { RefusesUnknownInEachRow }

    // A call of which all handles and texts are known is not refused for one.
    ensures known { TakesKnownHandles }

    // A call that names a reference names no handle and no text, so that the order of their refusals shows nowhere.
    ensures references { ReferencesAreNamedAlone }

    // A call on hooks names no reference, no handle and no text, so that the order of its refusals shows nowhere.
    ensures hooks { HooksAreNamedAlone }

    // An asynchronous hook is known by its number alone: none is refused as doubled, no call on plain hooks finds one, and none is removed twice.
    ensures numbers { AsyncHooksAreKnownByNumber }
{}

/// Which kinds of values calls take.
pub fn kinds()
    // An external is no object: only a type tag may be on it.
    ensures tagged { ExternalsAreTaggedOnly }

    // It is read as an external, and a number is not.
    ensures read { OnlyExternalsAreRead }

    // A thread-safe function is made of a function, or of none with a call-js entry, where a thread holds it. It is not made of a number, with
    // neither, or held by none.
    ensures served { OnlyFunctionsAreServed }
{}

/// What calls need, and which of them grow.
pub fn needs()
    // A local call that registers something has places for its frame.
    ensures places { EachDutyHasPlaces }

    // Each call that registers grows, but the one that queues a work.
    ensures memory { RegisteringCallsGrow }

    // What calls on works and on thread-safe functions need, and which calls grow.
    ensures shared { NeedsAndGrowth }
{}

/// Which group of calls answers a call.
pub fn rows()
    // Each call but that of a function, which enters a frame, is answered by exactly one group of calls.
    ensures one { EveryCallHasARow }

    // An error's properties are named by the texts `message` and `code`.
    ensures names { ErrorNamesAreFixed }
{}

/// `exit` is never refused and ends no frame. It changes nothing but that exit was asked, the last status and the count of asks.
pub fn exit_changes_nothing_else()
    ensures { ExitChangesNothingElse }
{}
