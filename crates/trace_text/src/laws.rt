//! Traces with their texts and summaries, as laws on the definitions.
ghost use Rattle.trace_text.specs.Examples.{Examples};
ghost use Rattle.trace_text.specs.SummaryLaws.{SummariesHaveNoOrder, Summaries};

/// It does nothing: its contract says what three small traces are written as.
pub fn examples()
    ensures { Examples }
{}

/// No number of a summary depends on the order of the entries.
pub fn summaries()
    ensures order { SummariesHaveNoOrder }
    ensures examples { Summaries }
{}
