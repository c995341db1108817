//! Errors: what makes one of values, and the call that does.
ghost use Rattle.std.specs.Prelude.{◌≡◌, ℕ, ◌≢◌, ◌+◌, ◌<◌, ◌^◌, ◌++◌, [], ◌∷◌, length, option_map, IfSome, IfOk, OnOk, OnErr};
ghost use Rattle.napi_types.specs.parts.Graph.{IsLive, number_in, graph_of};
ghost use Rattle.napi_types.specs.parts.HeapChanges.{new_error};
ghost use Rattle.napi_types.specs.parts.NewValues.{error_of, thrown_strings, thrown_of};
ghost use Rattle.value_store.specs.StoreChanges.{MakesValue};
ghost use Rattle.env_values.specs.KeepingHeaps.{CanMake, KeepsHeap};
ghost use Rattle.env_values.specs.SeenValues.{heap_of, KeepsValues};
ghost use Rattle.env_values.specs.ValueSteps.{Comes, GivesHandle};

use crate::known::{invariant, text, value_of_handle};
use crate::stop::Stop;
use handle_scope::Scopes;
use napi_types::{Call, HandleId, NoMemory, Out, TextNo, ValueId};
use value_store::Store;

/// Makes an error of the value that is its message and, where one is given, the value that is its code. What was live stays live,
/// under its number.
///
/// Near constant time.
pub fn error_value(
    store: &mut Store,
    code: Option<ValueId>,
    message: ValueId,
) -> Result<ValueId, NoMemory>
    requires values { store.old.made + 2 < 2 ^ 48 }
    requires code { IfSome code (λ c. IsLive store.old c.0) }
    requires message { IsLive store.old message.0 }
    ensures made { let error = error_of (store.old.made + 1) (option_map (λ c. c.0) code) message.0 in
        IfOk result (λ id. MakesValue store.old store.new id.0 error) }
    ensures graph { let error = error_of (store.old.made + 1) (option_map (λ c. number_in store.old c.0) code) (number_in store.old message.0) in
        OnOk result (graph_of store.new ≡ graph_of store.old ++ error ∷ []) }
    ensures kept { KeepsValues store.old store.new }
    ensures err { OnErr result (store.new ≡ store.old) }
{
    // A value that is live has another number than a new one.
    invariant(store);
    store.make_error(code, message)
}

/// Makes a string of each of these texts and then an error of them, all or none. What was live stays live, under its number.
///
/// Near constant time.
pub fn thrown_value(
    store: &mut Store,
    code: Option<TextNo>,
    message: TextNo,
) -> Result<ValueId, NoMemory>
    requires { store.old.made + 4 < 2 ^ 48 }
    ensures live { IfOk result (λ id. IsLive store.new id.0) }
    ensures number { IfOk result (λ id. number_in store.new id.0 ≡ store.old.made + length (thrown_strings code message) + 1) }
    ensures made { OnOk result (store.new.made ≡ store.old.made + length (thrown_strings code message) + 1) }
    ensures graph { OnOk result (graph_of store.new ≡ graph_of store.old ++ thrown_of store.old.made code message) }
    ensures kept { KeepsValues store.old store.new }
    ensures err { OnErr result (store.new ≡ store.old) }
{
    // A value that is live has another number than a new one.
    invariant(store);
    store.make_thrown(code, message)
}

/// A new error, and its handle. The place of the handle is taken first, so that an error is made only where its handle can be.
fn give_error(
    store: &mut Store,
    scopes: &mut Scopes,
    code: Option<ValueId>,
    message: ValueId,
) -> Result<Out, NoMemory>
    requires able { CanMake 1 store.old scopes.old }
    requires code { IfSome code (λ c. IsLive store.old c.0) }
    requires message { IsLive store.old message.0 }
    ensures gives { let before = heap_of store.old scopes.old in
        let answer = new_error (option_map (λ c. number_in store.old c.0) code) (number_in store.old message.0) before in
        GivesHandle answer before result (heap_of store.new scopes.new) }
    ensures keeps { KeepsHeap store.old scopes.old store.new scopes.new }
{
    scopes.reserve()?;
    invariant(store);
    let error = error_value(store, code, message)?;
    Ok(Out::Handle(scopes.issue_reserved(error)))
}

/// `create_error`: an error, whose message is a string, and its code where there is one.
pub(crate) fn create_error(
    store: &mut Store,
    scopes: &mut Scopes,
    code: Option<HandleId>,
    message: HandleId,
) -> Result<Out, Stop>
    requires able { CanMake 1 store.old scopes.old }
    ensures comes { (texts : ℕ) → Comes texts (heap_of store.old scopes.old) (Call.CreateError code message) result (heap_of store.new scopes.new) }
    ensures keeps { KeepsHeap store.old scopes.old store.new scopes.new }
{
    match code {
        None => {
            let message = value_of_handle(store, scopes, message)?;
            let _ = text(message.body)?;
            Ok(give_error(store, scopes, None, message.id)?)
        }
        Some(code) => {
            let code = value_of_handle(store, scopes, code)?;
            let message = value_of_handle(store, scopes, message)?;
            let _ = text(code.body)?;
            let _ = text(message.body)?;
            Ok(give_error(store, scopes, Some(code.id), message.id)?)
        }
    }
}
