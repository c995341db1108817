//! Threads and workers sleep at the hub, and are rung.

mod actors;
mod environment;
mod rung;

use napi_types::TsfnId;

/// The first function that is made.
const FUNCTION: TsfnId = TsfnId(1);

/// The second.
const OTHER: TsfnId = TsfnId(2);

/// A while, in milliseconds, and a longer one.
const WHILE: u64 = 50;

const LONG: u64 = 200;
