//! The numbers that name things, of which 0 is never issued, and the kinds of scopes.

/// A handle, the manual's `napi_value`. Handles count from 1 over the whole run.
#[derive(Clone, Copy, Debug, PartialEq, Eq)]
pub struct HandleId(pub u64);

/// A handle scope, the manual's `napi_handle_scope`: any number that was never issued before.
#[derive(Clone, Copy, Debug, PartialEq, Eq)]
pub struct ScopeId(pub u64);

/// What a scope that a call opens is for.
#[derive(Clone, Copy, Debug, PartialEq, Eq)]
pub enum ScopeKind {
    /// The manual's `napi_handle_scope`.
    Plain,
    /// The manual's `napi_escapable_handle_scope`, from which one handle may escape into the scope around it.
    Escapable,
}

/// A reference, the manual's `napi_ref`: any number that was never issued before.
#[derive(Clone, Copy, Debug, PartialEq, Eq)]
pub struct RefId(pub u64);

/// An asynchronous cleanup hook, the manual's `napi_async_cleanup_hook_handle`: any number that was never issued before.
#[derive(Clone, Copy, Debug, PartialEq, Eq)]
pub struct AsyncHookId(pub u64);

/// A deferred, the manual's `napi_deferred`: any number that was never issued before.
#[derive(Clone, Copy, Debug, PartialEq, Eq)]
pub struct DeferredId(pub u64);

/// An asynchronous work, the manual's `napi_async_work`: any number that was never issued before.
#[derive(Clone, Copy, Debug, PartialEq, Eq)]
pub struct WorkId(pub u64);

/// A thread-safe function, the manual's `napi_threadsafe_function`. They count from 1.
#[derive(Clone, Copy, Debug, PartialEq, Eq)]
pub struct TsfnId(pub u64);

/// A finalizer, a hook or a reaction that was registered. Tickets count from 1.
#[derive(Clone, Copy, Debug, PartialEq, Eq)]
pub struct Ticket(pub u64);

/// A value as the store names it: any number that was never issued before.
#[derive(Clone, Copy, Debug, PartialEq, Eq)]
pub struct ValueId(pub u64);

/// A text of the script's text table, counted from 0.
#[derive(Clone, Copy, Debug, PartialEq, Eq)]
pub struct TextNo(pub u32);
