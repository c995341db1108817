//! What a hook is known by.

/// A plain hook is known by its addon, its entry and its argument: no two plain hooks of an environment have all three alike. An
/// asynchronous one has its number as well, and no other hook has that.
#[derive(Clone, Copy, PartialEq, Eq, PartialOrd, Ord)]
pub(crate) struct HookKey {
    pub(crate) addon: u32,
    pub(crate) entry: u32,
    pub(crate) argument: u64,
    pub(crate) number: Option<u64>,
}
