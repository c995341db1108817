//! The values of the environment: a map from numbers to values, each with a body, properties in the order in which their names
//! were first set, and elements. Contracts see a `Store` as that map, with the numbers that it has issued (`StoreState` in
//! `napi_types`), and each call by what it changes of the map (`specs/StoreChanges.antt`). A store's state stands for the machine's
//! value graph. The crates of values, of collection and of the environment stand above it.
#![tactic(auto)]

mod children;
mod contents;
mod elements;
mod info;
mod ordered;
mod parts;
mod properties;
mod record;
mod records;
mod store;
mod walk;

pub use children::Children;
pub use info::ValueInfo;
pub use napi_types::Body;
pub use store::Store;
pub use walk::PropertyWalk;
