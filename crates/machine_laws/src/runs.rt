//! Laws over all runs, and over all stores.
ghost use Rattle.machine_laws.specs.TsfnRoots.{NewFunctionsKeepTheirValue, FunctionsKeepUntilTheyFinish, FinishedFunctionsKeepNone};
ghost use Rattle.machine_laws.specs.RunLaws.{PrefixesAreRuns, RunsAreComputed, EntriesCountOnTheirList, OthersLeaveRegisters, ReachIsLeast};

/// What a run is made of.
pub fn runs()
    // A run, and what computes to be one, are the same.
    ensures computed { RunsAreComputed }

    // What came of a run up to any moment is a run.
    ensures prefixes { PrefixesAreRuns }

    // Each entry is counted on the list on which it stands, and on no other.
    ensures lists { EntriesCountOnTheirList }

    // Entries of threads and workers ask nothing of an addon and change no register.
    ensures registers { OthersLeaveRegisters }
{}

/// What roots reach is the least set of the numbers of values that has each root and each child of its members.
pub fn reach_is_least()
    ensures { ReachIsLeast }
{}

/// A new thread-safe function keeps the value of its function, where it has one. It keeps it until it finishes, and then it keeps none. What it keeps
/// is a root.
pub fn functions_keep_their_value()
    ensures new { NewFunctionsKeepTheirValue }
    ensures kept { FunctionsKeepUntilTheyFinish }
    ensures finished { FinishedFunctionsKeepNone }
{}
