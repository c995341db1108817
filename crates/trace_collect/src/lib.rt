//! The collection: it frees the values of a store that the roots do not reach.
//! Contracts see what the roots reach as the machine's definition tells it (`Reach` in `napi_types`), over the value graph that the
//! store's state stands for (`specs/Collects.antt`). The environment, which knows the roots, stands above.
#![tactic(auto)]

mod collection;
mod marks;

pub use collection::collect;
