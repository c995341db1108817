//! The roots of a collection.
ghost use Rattle.std.specs.Prelude.{◌≡◌, ◌++◌, option_map, IfOk, OnOk, IfSome};
ghost use Rattle.napi_types.specs.plain.Lists.{HaveSameNumbers};
ghost use Rattle.napi_types.specs.parts.Graph.{IsLive};
ghost use Rattle.napi_types.specs.parts.References.{strong_values};
ghost use Rattle.std.specs.Option.{option_to_list};
ghost use Rattle.value_store.specs.StoreChanges.{numbers_of};
ghost use Rattle.napi_reference.specs.ReferencePlaces.{map_of};
ghost use Rattle.env_values.specs.SeenValues.{HoldsLive};
ghost use Rattle.env_core.specs.TsfnRooting.{RootsAreLive};
ghost use Rattle.env_core.specs.Promising.{PromisesAreLive};
ghost use Rattle.env_core.specs.Referring.{RefersToLive};
ghost use Rattle.env_core.specs.Rooting.{AreRoots, AreStarting, held_values};

use crate::tsfn_roots::TsfnRoots;
use env_registry::Registry;
use handle_scope::Scopes;
use napi_reference::Refs;
use napi_types::{NoMemory, ValueId};
use std::alloc::Global;
use value_store::Store;

/// The roots: the starting values, the values of handles in open scopes, those of strong references, those that thread-safe
/// functions keep, the pending exception, and the promises whose deferred is not settled or which have a reaction.
///
/// It takes time linear in the handle places, for each of them logarithmic in the open scopes, in the places of references, in
/// the roots of functions, and in the promises.
pub fn roots_of(
    alloc: Global,
    store: &Store,
    scopes: &Scopes,
    references: &Refs,
    functions: &TsfnRoots,
    pending: Option<ValueId>,
    registry: &Registry,
) -> Result<Vec<ValueId>, NoMemory>
    requires held { HoldsLive store.now scopes.now }
    requires referred { RefersToLive store.now (map_of references.now) }
    requires rooted { RootsAreLive store.now functions.now }
    requires pending { IfSome pending (λ v. IsLive store.now v.0) }
    requires promised { PromisesAreLive store.now registry.now.parts.promises }
    ensures { let thrown = option_map (λ v. v.0) pending in
        let promises = registry.now.parts.promises in
        IfOk result (λ roots. AreRoots store.now scopes.now (map_of references.now) functions.now thrown promises (numbers_of roots.items)) }
{
    let mut roots = starting(alloc, store)?;
    push_held(&mut roots, scopes)?;
    push_strong(&mut roots, references)?;
    functions.push_values(&mut roots)?;
    push(&mut roots, pending)?;
    registry.push_promise_roots(&mut roots)?;
    Ok(roots)
}

/// The starting values.
fn starting(alloc: Global, store: &Store) -> Result<Vec<ValueId>, NoMemory>
    ensures { IfOk result (λ roots. AreStarting store.now (numbers_of roots.items)) }
{
    let values = [
        store.starting(0),
        store.starting(1),
        store.starting(2),
        store.starting(3),
        store.starting(4),
    ];
    Ok(Vec::from_array(alloc, values)?)
}

/// Adds the values of the handles in open scopes.
fn push_held(roots: &mut Vec<ValueId>, scopes: &Scopes) -> Result<(), NoMemory>
    ensures { OnOk result (numbers_of roots.new.items ≡ numbers_of roots.old.items ++ held_values scopes.now) }
{
    for at in 0..scopes.held() {
        push(roots, scopes.held_at(at))?;
    }
    Ok(())
}

/// Adds the values that strong references keep, in the order of their places.
fn push_strong(roots: &mut Vec<ValueId>, references: &Refs) -> Result<(), NoMemory>
    ensures { OnOk result (HaveSameNumbers (numbers_of roots.new.items) (numbers_of roots.old.items ++ strong_values (map_of references.now))) }
{
    for at in 0..references.rows() {
        push(roots, references.strong_at(at))?;
    }
    Ok(())
}

/// Adds a value, where there is one.
fn push(roots: &mut Vec<ValueId>, value: Option<ValueId>) -> Result<(), NoMemory>
    ensures { OnOk result (numbers_of roots.new.items ≡ numbers_of roots.old.items ++ option_to_list (option_map (λ v. v.0) value)) }
{
    if let Some(value) = value {
        roots.push(value)?;
    }
    Ok(())
}
