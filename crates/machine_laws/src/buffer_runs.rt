//! Worked runs of array buffers and their views, each as laws.
ghost use Rattle.machine_laws.specs.LegalRuns.{EndsAsTold};
ghost use Rattle.machine_laws.specs.BufferCollected as buffer_collected;
ghost use Rattle.machine_laws.specs.BufferRun as buffer_viewed;

/// A buffer with two views that is detached.
pub fn buffer_run()
    ensures ends { EndsAsTold buffer_viewed.setting buffer_viewed.trace }
    ensures prints { buffer_viewed.Prints }

    // The registers keep the handles, the byte that was read last, the size, and that the buffer is detached.
    ensures registers { buffer_viewed.Keeps }

    // What one view writes the other reads, the least byte first. Nothing is read past the end of a view, and nothing of a detached buffer.
    ensures strict { buffer_viewed.IsStrict }
{}

/// An external buffer with a finalizer, which a reference to a view of it keeps.
pub fn buffer_collected_runs()
    ensures ends { EndsAsTold buffer_collected.setting buffer_collected.trace }
    ensures prints { buffer_collected.Prints }

    // The finalizer is given the buffer's data and its hint.
    ensures gives { buffer_collected.Gives }

    // The reference keeps the view and with it the buffer. No finalizer begins in the loop while it does.
    ensures strict { buffer_collected.IsStrict }
{}
