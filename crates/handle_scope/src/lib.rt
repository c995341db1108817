//! Handle scopes: which handles are good, and which values they stand for.
//! Contracts see the scopes as a list of frames, each with its own scope and the scopes opened in it
//! (`specs/HandleScopes.antt`). The environment, which opens, closes and looks up by its calls, stands above.
#![tactic(auto)]

mod scopes;

pub use napi_types::ScopeKind;
pub use scopes::Scopes;
