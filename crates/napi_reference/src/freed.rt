//! Whether a value is among those that were freed.
ghost use Rattle.std.specs.Prelude.{◌≡◌, map};
ghost use Rattle.napi_types.specs.plain.Lists.{has_number};
ghost use Rattle.napi_reference.specs.Freed.{IsInOrder};

use napi_types::ValueId;

/// How values lie in a list.
#[derive(Clone, Copy)]
pub(crate) enum Order {
    /// Their numbers rise.
    Rising,
    /// In any order.
    Any,
}

/// The order of values.
pub(crate) fn order_of(values: &[ValueId]) -> Order
    ensures { IsInOrder result values.now }
{
    if values.is_sorted_by_key(|value| value.0) {
        Order::Rising
    } else {
        Order::Any
    }
}

/// Whether a value is among others, which lie in this order. Where their numbers rise it takes time logarithmic in how many
/// they are, else linear.
pub(crate) fn is_among(values: &[ValueId], order: Order, value: ValueId) -> bool
    requires { IsInOrder order values.now }
    ensures { result ≡ has_number value.0 (map (λ v. v.0) values.now) }
{
    match order {
        Order::Rising => values
            .binary_search_by_key(&value.0, |other| other.0)
            .is_ok(),
        Order::Any => values.iter().any(|other| other.0 == value.0),
    }
}
