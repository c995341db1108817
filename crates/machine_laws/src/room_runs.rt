//! Worked runs over the hub where the journal or the history has little room, each as a law.
ghost use Rattle.napi_types.specs.all_runs.HubLaws.{ThreadsKeep};
ghost use Rattle.machine_laws.specs.LegalRuns.{EndsOnItsLists};
ghost use Rattle.machine_laws.specs.ThreadCutFull as thread_cut_full;
ghost use Rattle.machine_laws.specs.FrameCutFull as frame_cut_full;
ghost use Rattle.machine_laws.specs.FrameCutForMemory as frame_cut_for_memory;
ghost use Rattle.machine_laws.specs.FrameCutInJournal as frame_cut_in_journal;
ghost use Rattle.machine_laws.specs.PlacesOfWorks as places_of_works;
ghost use Rattle.machine_laws.specs.PlacesAlong.{OweInOrder};

/// A thread is cut where the history has no room for its call.
pub fn thread_cut_full_runs()
    ensures ends { EndsOnItsLists thread_cut_full.setting thread_cut_full.journal thread_cut_full.history }
    ensures threads { ThreadsKeep thread_cut_full.setting thread_cut_full.scripts thread_cut_full.history }
    ensures prints { thread_cut_full.Prints }
    ensures strict { thread_cut_full.IsStrict }
{}

/// Frames of items are cut where the history has no room for their calls.
pub fn frame_cut_full_runs()
    ensures ends { EndsOnItsLists frame_cut_full.setting frame_cut_full.journal frame_cut_full.history }
    ensures prints { frame_cut_full.Prints }
    ensures strict { frame_cut_full.IsStrict }
{}

/// A frame's shared call finds no memory: its end tells that, also where others have filled the history since.
pub fn frame_cut_for_memory()
    ensures { frame_cut_for_memory.Cuts }
{}

/// The frame of an item is cut where the journal has no room for its local call; its end stands in the history.
pub fn frame_cut_in_journal_runs()
    ensures ends { EndsOnItsLists frame_cut_in_journal.setting frame_cut_in_journal.journal frame_cut_in_journal.history }
    ensures prints { frame_cut_in_journal.Prints }
    ensures strict { frame_cut_in_journal.IsStrict }
{}

/// The places that works take: to the last of thirteen, but that of `abandon`, and how many a cancelled one gives back.
pub fn places_of_works_run()
    ensures ends { EndsOnItsLists places_of_works.setting places_of_works.journal places_of_works.history }
    ensures actors { places_of_works.ActInOrder }
    ensures strict { places_of_works.IsStrict }
{}

/// The places that the history still owes after each entry of six runs, in which works, items and functions come and go, and hooks are abandoned.
pub fn places_are_owed_along_runs()
    ensures { OweInOrder }
{}
