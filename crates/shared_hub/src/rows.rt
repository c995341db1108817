//! What the rows of a history come to, which the turn lock counts, as laws: each function does nothing, and its contract states a law.
ghost use Rattle.shared_hub.specs.HubRows.{RowsAreAsMany, RowsGoOn, HistoriesGoOnAsRows, OtherRowsAreOfOthers};

/// There are as many rows as entries, and they go on exactly as the history does.
pub fn rows_go_on_as_histories()
    ensures many { RowsAreAsMany }
    ensures forth { RowsGoOn }
    ensures back { HistoriesGoOnAsRows }
{}

/// Rows of other passes than the first are entries of threads and workers.
pub fn other_rows_are_of_others()
    ensures { OtherRowsAreOfOthers }
{}
