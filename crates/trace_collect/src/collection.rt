//! What the roots do not reach is found, and then freed.
ghost use Rattle.std.specs.Prelude.{◌≡◌, false, map, length, IfOk, OnOk, OnErr};
ghost use Rattle.std.specs.List.{All};
ghost use Rattle.std.specs.List.Sorted.{IsPermutation, IsNonDecreasingBy, IsStrictlyIncreasing};
ghost use Rattle.napi_types.specs.plain.Lists.{has_number};
ghost use Rattle.napi_types.specs.parts.Graph.{graph_of, number_in, IsLive};
ghost use Rattle.napi_types.specs.parts.Values.{those_of, all_but};
ghost use Rattle.value_store.specs.StoreChanges.{numbers_of, Frees, CanFree};
ghost use Rattle.trace_collect.specs.Collects.{reached, HoldsStarting, AreUnreached};

use crate::marks;
use napi_types::{NoMemory, ValueId};
use std::alloc::Global;
use value_store::Store;

/// Frees the values that the roots do not reach, and answers with their numbers, which rise. The roots are live, and the five
/// starting values are among them.
///
/// All memory is taken before the first value is freed: a bit for each place of the store, a place to follow each live value,
/// and the list. The time is linear in a 64th of the places, the roots, the live values, and what they name. Where the list does
/// not rise as it is found, its sort comes beside. A chain of values may be of any length: nothing recurs.
pub fn collect(
    alloc: Global,
    store: &mut Store,
    roots: &[ValueId],
) -> Result<Vec<ValueId>, NoMemory>
    requires live { All (IsLive store.old) (numbers_of roots.now) }
    requires starting { HoldsStarting store.old (numbers_of roots.now) }
    ensures rising { IfOk result (λ list. IsStrictlyIncreasing (numbers_of list.items)) }
    ensures freed { IfOk result (λ list. AreUnreached store.old (numbers_of roots.now) (numbers_of list.items)) }
    ensures roots { IfOk result (λ list. All (λ root. has_number root (numbers_of list.items) ≡ false) (numbers_of roots.now)) }
    ensures frees { IfOk result (λ list. Frees store.old store.new (numbers_of list.items)) }
    ensures graph { OnOk result (graph_of store.new ≡ those_of (reached store.old (numbers_of roots.now)) (graph_of store.old)) }
    ensures count { IfOk result (λ list. length list.items ≡ length (all_but (reached store.old (numbers_of roots.now)) (graph_of store.old))) }
    ensures err { OnErr result (store.new ≡ store.old) }
{
    let list = unreached(alloc, store, roots)?;
    store.free(&list);
    Ok(list)
}

/// The numbers of the values that the roots do not reach, rising. They may be freed.
fn unreached(alloc: Global, store: &Store, roots: &[ValueId]) -> Result<Vec<ValueId>, NoMemory>
    requires live { All (IsLive store.now) (numbers_of roots.now) }
    requires starting { HoldsStarting store.now (numbers_of roots.now) }
    ensures rising { IfOk result (λ list. IsStrictlyIncreasing (numbers_of list.items)) }
    ensures unreached { IfOk result (λ list. AreUnreached store.now (numbers_of roots.now) (numbers_of list.items)) }
    ensures roots { IfOk result (λ list. All (λ root. has_number root (numbers_of list.items) ≡ false) (numbers_of roots.now)) }
    ensures can_free { IfOk result (λ list. CanFree store.now (numbers_of list.items)) }
    ensures kept { IfOk result (λ list. all_but (map (number_in store.now) (numbers_of list.items)) (graph_of store.now) ≡ those_of (reached store.now (numbers_of roots.now)) (graph_of store.now)) }
    ensures count { IfOk result (λ list. length list.items ≡ length (all_but (reached store.now (numbers_of roots.now)) (graph_of store.now))) }
{
    let marks = marks::reached(alloc, store, roots)?;
    let list = marks::unmarked(alloc, store, &marks)?;
    Ok(sorted(list))
}

/// These numbers, sorted. Where they rise already, it looks at each of them once.
fn sorted(mut list: Vec<ValueId>) -> Vec<ValueId>
    ensures permutation { IsPermutation list.items result.items }
    ensures sorted { IsNonDecreasingBy (λ id. id.0) result.items }
{
    if !list.is_sorted_by_key(|id| id.0) {
        list.sort_unstable_by_key(|id| id.0);
    }
    list
}
