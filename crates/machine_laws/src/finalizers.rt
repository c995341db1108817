//! Laws of finalizers and hooks over all runs.
ghost use Rattle.machine_laws.specs.FinalizerLaws.{OnlyTheOutermostFrameHasADuty, NoneIsRegisteredFromFinalsOn};
ghost use Rattle.machine_laws.specs.FinalizerLaws.{FinalizersBeginInTheLoopOrAtTheEnd, HooksBeginAfterTheLoop};

/// When finalizers and hooks begin, and from when on none is registered.
pub fn finalizers_and_hooks()
    // At every moment of a run only the outermost frame is one that no call began. So no duty runs inside another frame.
    ensures outermost { OnlyTheOutermostFrameHasADuty }

    // At every moment of a run from `finals` on no ticket is registered.
    ensures registered { NoneIsRegisteredFromFinalsOn }

    // In a run a finalizer begins in the loop while exit was not asked, or after `finals`, where no frame stands, and is the lowest ticket that is
    // due. Else it waits. That of a thread-safe function is no ticket, and begins as the hub's other duties.
    ensures finalizers { FinalizersBeginInTheLoopOrAtTheEnd }

    // In a run a hook begins between the end of the loop and `drain`, where no frame stands, and is the one that was added last.
    ensures hooks { HooksBeginAfterTheLoop }
{}
