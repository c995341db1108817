//! Laws of handles: with values and frames they fit together at every moment of a run, and each gives one value throughout.
ghost use Rattle.machine_laws.specs.ConsistencyMisses.{IsStrict};
ghost use Rattle.machine_laws.specs.HandleLaws.{EnvironmentsAreConsistent, AcceptedHandlesAreOpen, HandlesAreStable};

/// Handles, values, references, promises, buffers and frames fit together.
pub fn environments_are_consistent()
    // At every moment of a run handles, values, references, promises, buffers and frames fit together.
    ensures runs { EnvironmentsAreConsistent }

    // Environments that miss one fact of a consistent one are not consistent, and those that they are made of are.
    ensures strict { IsStrict }
{}

/// What a handle gives.
pub fn handles_are_stable()
    // A handle that an accepted call names lies in an open scope.
    ensures open { AcceptedHandlesAreOpen }

    // At any two moments of a run at which an open scope holds a handle, it gives the same value.
    ensures stable { HandlesAreStable }
{}
