//! Worked runs of finalizers, each as laws.
ghost use Rattle.machine_laws.specs.LegalRuns.{EndsAsTold};
ghost use Rattle.machine_laws.specs.Cycle as cycle;
ghost use Rattle.machine_laws.specs.WrapTwice as wrap_twice;
ghost use Rattle.machine_laws.specs.ExternalsTagsFinalizers as externals_tags_finalizers;
ghost use Rattle.machine_laws.specs.OnceMisses.{OnceIsStrict};

/// Two wrapped objects that name each other and are collected together.
pub fn cycle_runs()
    ensures ends { EndsAsTold cycle.setting cycle.trace }
    ensures prints { cycle.Prints }

    // Both are freed, and their finalizers begin once each, in the order of their tickets, before the loop ends.
    ensures strict { cycle.IsStrict }
{}

/// A wrap whose finalizer is withdrawn, and another one.
pub fn wrap_twice_runs()
    ensures ends { EndsAsTold wrap_twice.setting wrap_twice.trace }
    ensures prints { wrap_twice.Prints }

    // The refused wrap registers nothing, the removed one's finalizer is withdrawn and never begins, and the new one's begins once.
    ensures strict { wrap_twice.IsStrict }

    // In that run each duty is made and begins once, or is withdrawn. It is not so where one begins twice, never, though withdrawn or though not
    // made, nor where one is made twice, or withdrawn by a call that may not, or is refused.
    ensures once { OnceIsStrict }
{}

/// Finalizers that are left to the end, and a guarded call in each.
pub fn externals_tags_finalizers_run()
    ensures ends { EndsAsTold externals_tags_finalizers.setting externals_tags_finalizers.trace }
    ensures prints { externals_tags_finalizers.Prints }

    // The finalizers begin after `finals` in the order of their tickets, all before the environment is gone; each is given its data, and its guarded
    // call is refused.
    ensures strict { externals_tags_finalizers.IsStrict }
{}
