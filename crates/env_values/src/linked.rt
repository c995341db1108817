//! The values that have a hidden child, or may get one: one is made, and a promise gets the value that settles it.
ghost use Rattle.std.specs.Prelude.{◌≡◌, ◌+◌, Some, option_map, IfOk, IfSome, OnErr};
ghost use Rattle.napi_types.specs.parts.Graph.{IsLive, number_in, value_of};
ghost use Rattle.napi_types.specs.parts.HeapChanges.{with_handle, with_linked};
ghost use Rattle.napi_types.specs.parts.Values.{linked_value};
ghost use Rattle.napi_types.specs.environment.PromiseCalls.{with_settler};
ghost use Rattle.env_values.specs.KeepingHeaps.{CanMake, KeepsHeap};
ghost use Rattle.env_values.specs.SeenValues.{heap_of, HoldsLive, IsPromiseIn};

use crate::known::invariant;
use handle_scope::Scopes;
use napi_types::{HandleId, NoMemory, ValueId};
use value_store::Store;

/// The tag of a value that is a promise: `promise_tag` of the definitions.
pub const PROMISE_TAG: u8 = 1;

/// The tag of a value that is a view of an array buffer: `view_tag` of the definitions.
pub const VIEW_TAG: u8 = 2;

/// The tag of a value that is an array buffer: `buffer_tag` of the definitions.
pub const BUFFER_TAG: u8 = 3;

/// Makes a linked value, with this hidden child or with none yet: the number under which the store has it, and a handle of it. The
/// place of the handle is taken first, so that a value is made only where its handle can be.
pub fn make_linked(
    store: &mut Store,
    scopes: &mut Scopes,
    tag: u8,
    to: Option<ValueId>,
) -> Result<(ValueId, HandleId), NoMemory>
    requires able { CanMake 1 store.old scopes.old }
    requires child { IfSome to (λ c. IsLive store.old c.0) }
    ensures value { IfOk result (λ made. value_of store.new made.0.0 ≡ Some (linked_value (store.old.made + 1) tag (option_map (λ c. c.0) to))) }
    ensures live { IfOk result (λ made. IsLive store.new made.0.0) }
    ensures number { IfOk result (λ made. number_in store.new made.0.0 ≡ store.old.made + 1) }
    ensures handle { IfOk result (λ made. made.1.0 ≡ scopes.old.handles + 1) }
    ensures heap { let child = option_map (λ c. number_in store.old c.0) to in
        IfOk result (λ _. heap_of store.new scopes.new ≡ with_handle (store.old.made + 1) (with_linked tag child (heap_of store.old scopes.old))) }
    ensures err { OnErr result (heap_of store.new scopes.new ≡ heap_of store.old scopes.old) }
    ensures keeps { KeepsHeap store.old scopes.old store.new scopes.new }
{
    scopes.reserve()?;
    // A value that a scope holds has another number than a new one.
    invariant(store);
    let value = store.make_linked(tag, to)?;
    Ok((value, scopes.issue_reserved(value)))
}

/// A value settles a promise: it is the promise's hidden child from then on.
///
/// Constant time, and it takes no memory.
pub fn settle_with(store: &mut Store, scopes: &Scopes, promise: ValueId, value: ValueId)
    requires promise { IsPromiseIn store.old promise.0 }
    requires live { IsLive store.old value.0 }
    requires held { HoldsLive store.old scopes.now }
    ensures heap { let before = heap_of store.old scopes.now in
        heap_of store.new scopes.now ≡ with_settler (number_in store.old promise.0) (number_in store.old value.0) before }
    ensures keeps { KeepsHeap store.old scopes.now store.new scopes.now }
{
    let _ = scopes;
    store.link(promise, value);
}
