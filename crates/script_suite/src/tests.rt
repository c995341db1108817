//! Tests by their subjects. What finds no memory ends its test.
mod asks;
mod events;
mod limits;
mod results;
mod sinks;
mod traces;
