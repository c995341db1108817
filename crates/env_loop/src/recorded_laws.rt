//! What a recorded run comes to as the environment and others go on at the hub, as laws: each function does nothing, and its contract states a law.
ghost use Rattle.env_loop.specs.FollowedRuns.{FittingRunsStand, OthersAreTakenIn, OthersMayAdd};
ghost use Rattle.env_loop.specs.OpenedAndGone.{GoneRunsHaveEnded, OpenedRunsAreFollowed, OpenedRunsFit};
ghost use Rattle.env_loop.specs.RunsOverRows.{FittingRunsStandOverRows, RunsAreFollowedOverRows};
ghost use Rattle.env_loop.specs.SharedEntries.{SharedEntriesAreRecorded};

/// A run that is recorded over a prefix of the history, with entries of other actors alone behind it, is recorded over the whole history. Only the position
/// moves, to its length.
pub fn others_are_taken_in()
    ensures { OthersAreTakenIn }
{}

/// It stays so as others add entries.
pub fn others_may_add()
    ensures { OthersMayAdd }
{}

/// So it stays, by the rows that the turn lock counts, as rows of other passes than the environment's come; and so it fits with the hub.
pub fn runs_are_followed_over_rows()
    ensures followed { RunsAreFollowedOverRows }
    ensures fitting { FittingRunsStandOverRows }
{}

/// A run fits with its hub still once another actor has added an entry.
pub fn fitting_runs_stand()
    ensures { FittingRunsStand }
{}

/// An entry of the environment that may come next goes into the history of a recorded run.
pub fn shared_entries_are_recorded()
    ensures { SharedEntriesAreRecorded }
{}

/// A run that opened is followed over the empty history, and fits with a hub that opens.
pub fn opened_runs_are_followed()
    ensures followed { OpenedRunsAreFollowed }
    ensures fitting { OpenedRunsFit }
{}

/// A run that is followed and whose environment is gone came to its end.
pub fn gone_runs_have_ended()
    ensures { GoneRunsHaveEnded }
{}
