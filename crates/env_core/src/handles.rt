//! The values of handles.
ghost use Rattle.std.specs.Prelude.{◌≡◌, IfOk, OnOk};
ghost use Rattle.std.specs.Result.{result_err};
ghost use Rattle.napi_types.specs.parts.FunctionCalls.{left_value};
ghost use Rattle.napi_types.specs.parts.Graph.{IsLive, IsSoundStore, number_in};
ghost use Rattle.napi_types.specs.parts.Heap.{handle_value, handle_body};
ghost use Rattle.env_core.specs.Attaching.{is_accepted, target_refusal};
ghost use Rattle.env_core.specs.Looking.{IsLookedUp};
ghost use Rattle.env_values.specs.SeenValues.{heap_of, HoldsLive};

use env_values::{or_undefined, value_of_handle};
use handle_scope::Scopes;
use napi_types::{Body, HandleId, Status, ValueId};
use value_store::Store;

/// The value of a handle, undefined where no open scope holds it.
pub fn value_of(store: &Store, scopes: &Scopes, handle: HandleId) -> ValueId
    requires { HoldsLive store.now scopes.now }
    ensures live { IsLive store.now result.0 }
    ensures number { number_in store.now result.0 ≡ handle_value (heap_of store.now scopes.now) handle.0 }
{
    or_undefined(store, scopes.look(handle))
}

/// What the value of a handle is.
#[tactic(auto, using(crate::proofs::Looking::looked_body))]
pub fn body_of(store: &Store, scopes: &Scopes, handle: HandleId) -> Body
    requires { HoldsLive store.now scopes.now }
    ensures body { result ≡ handle_body (heap_of store.now scopes.now) handle.0 }
    ensures sound { IsSoundStore store.now }
{
    match store.get(value_of(store, scopes, handle)) {
        Some(value) => value.body(),
        None => unreachable!(),
    }
}

/// A handle, and what one look tells of it.
#[derive(Clone, Copy)]
pub struct LookedUp {
    pub handle: HandleId,
    /// Whether an open scope holds it.
    pub held: bool,
    /// What its value is: undefined where no open scope holds it.
    pub body: Body,
}

/// Looks a handle up once.
#[tactic(auto, using(crate::proofs::Looking::looked_body))]
pub fn look_up(store: &Store, scopes: &Scopes, handle: HandleId) -> LookedUp
    requires { HoldsLive store.now scopes.now }
    ensures handle { result.handle ≡ handle }
    ensures seen { IsLookedUp (heap_of store.now scopes.now) result }
{
    let found = scopes.look(handle);
    let held = found.is_some();
    match store.get(or_undefined(store, found)) {
        Some(value) => LookedUp {
            handle,
            held,
            body: value.body(),
        },
        None => unreachable!(),
    }
}

/// The value that a frame leaves, undefined where it leaves none.
pub fn left_by(store: &Store, scopes: &Scopes, value: Option<HandleId>) -> ValueId
    requires { HoldsLive store.now scopes.now }
    ensures live { IsLive store.now result.0 }
    ensures number { number_in store.now result.0 ≡ left_value (heap_of store.now scopes.now) value }
{
    match value {
        Some(handle) => value_of(store, scopes, handle),
        None => or_undefined(store, None),
    }
}

/// The kinds of value to which a call attaches something, or of which it reads what is attached.
#[derive(Clone, Copy, Debug, PartialEq, Eq)]
pub enum Attachable {
    /// An object or a function, as a wrap does.
    Objects,
    /// These, and an external, as a type tag does.
    ObjectsAndExternals,
}

impl Attachable {
    /// Whether a value is of such a kind.
    fn accepts(self, body: Body) -> bool
        ensures { result ≡ is_accepted self body }
    {
        match body {
            Body::Object { .. } | Body::Linked { .. } | Body::Function { .. } => true,
            Body::External(_) => self == Attachable::ObjectsAndExternals,
            _ => false,
        }
    }
}

/// The value of a handle, for a call that takes values of these kinds. It is refused where no open scope holds the handle, and
/// where the value is of another kind.
pub fn target(
    store: &Store,
    scopes: &Scopes,
    handle: HandleId,
    takes: Attachable,
) -> Result<ValueId, Status>
    requires { HoldsLive store.now scopes.now }
    ensures live { IfOk result (λ v. IsLive store.now v.0) }
    ensures number { IfOk result (λ v. number_in store.now v.0 ≡ handle_value (heap_of store.now scopes.now) handle.0) }
    ensures refusal { result_err result ≡ target_refusal takes (heap_of store.now scopes.now) handle }
    ensures sound { OnOk result (IsSoundStore store.now) }
{
    let value = value_of_handle(store, scopes, handle)?;
    if !takes.accepts(value.body) {
        return Err(Status::ObjectExpected);
    }
    Ok(value.id)
}
