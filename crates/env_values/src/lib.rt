//! The calls on values, properties and elements, over a store of values and the handle scopes.
//! Contracts see the two as the machine's heap (`specs/SeenValues.antt`), and each call as the machine's answer there.
//! The environment, which knows frames and the other calls, stands above.
#![tactic(auto)]

mod errors;
mod known;
mod linked;
mod makes;
mod names;
mod properties;
mod reads;
mod step;
mod stop;
mod values;

pub use errors::{error_value, thrown_value};
pub use known::{HandleValue, invariant, or_undefined, value_of_handle};
pub use linked::{BUFFER_TAG, PROMISE_TAG, VIEW_TAG, make_linked, settle_with};
pub use makes::make_held;
pub use step::value_step;
