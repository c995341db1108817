//! In which order a store has its values, and the children of one. No clause tells it.
ghost use Rattle.std.specs.Prelude.{◌≡◌, ◌+◌, ◌<◌, ◌≤◌, ◌^◌};
ghost use Rattle.napi_types.specs.parts.Bodies.{NamesNoChild, is_object_like as has_properties, is_linked as has_link};
ghost use Rattle.napi_types.specs.parts.Properties.{most_index};
ghost use Rattle.value_store.specs.StoreChanges.{IsNew};

use super::ample;
use napi_types::{Body, TextNo, ValueId};
use std::process::Abort;
use value_store::Store;

/// What stands at a place: a value with its number.
type Standing = Option<(ValueId, Body)>;

fn standing(store: &Store, place: usize) -> Standing {
    if place < store.places() {
        let id = store.at_place(place)?;
        Some((id, store.get(id)?.body()))
    } else {
        None
    }
}

/// What stands at ten places, from that of the global object on.
fn ten_standing(store: &Store) -> [Standing; 10] {
    let mut found = [None; 10];
    for at in 0..10 {
        found[at] = standing(store, at + 4);
    }
    found
}

/// A number is made and freed. Then come a list of two strings, an error of two, and an error of one.
fn fill(rt: &impl Abort, store: &mut Store)
    requires { IsNew store.old }
{
    let freed = ample(rt, store.make(Body::Number(7)));
    store.free(&[freed]);
    ample(
        rt,
        store.make_list(&[Body::Str(TextNo(9)), Body::Str(TextNo(2))]),
    );
    ample(rt, store.make_thrown(Some(TextNo(7)), TextNo(9)));
    ample(rt, store.make_thrown(None, TextNo(2)));
}

pub(super) const PLAIN: Body = Body::Object {
    array: false,
    error: false,
};

const ARRAY: Body = Body::Object {
    array: true,
    error: false,
};

const ERROR: Body = Body::Object {
    array: false,
    error: true,
};

/// The place that was freed is used again, under a number of its next generation. Strings stand before the list or the error that
/// has them.
const STANDING: [Standing; 10] = [
    Some((ValueId(5), PLAIN)),
    Some((ValueId(0x1_0000_0000_0006), Body::Str(TextNo(9)))),
    Some((ValueId(7), Body::Str(TextNo(2)))),
    Some((ValueId(8), ARRAY)),
    Some((ValueId(9), Body::Str(TextNo(9)))),
    Some((ValueId(10), Body::Str(TextNo(7)))),
    Some((ValueId(11), ERROR)),
    Some((ValueId(12), Body::Str(TextNo(2)))),
    Some((ValueId(13), ERROR)),
    None,
];

#[test]
fn values_stand_in_the_order_of_making(rt: HostRuntime) {
    let mut store = ample(&rt, Store::new(rt.alloc()));
    fill(&rt, &mut store);
    assert_eq!(rt; (store.places(), ten_standing(&store)), (13, STANDING));
}

/// Makes a value and frees it, and answers with the number that it had.
fn make_and_free(rt: &impl Abort, store: &mut Store, body: Body) -> ValueId
    requires started { 5 ≤ store.old.made }
    requires room { store.old.made + 2 < 2 ^ 48 }
    requires alone { NamesNoChild body }
    ensures { store.new.made ≡ store.old.made + 1 }
{
    let id = ample(rt, store.make(body));
    store.free(&[id]);
    id
}

/// What these numbers name, if anything.
fn three_named(store: &Store, ids: [ValueId; 3]) -> [Option<Body>; 3] {
    let mut found = [None; 3];
    for at in 0..3 {
        if let Some(value) = store.get(ids[at]) {
            found[at] = Some(value.body());
        }
    }
    found
}

#[test]
fn a_place_has_two_generations_and_no_third(rt: HostRuntime) {
    let mut store = ample(&rt, Store::with_generations(rt.alloc(), 1));
    let first = make_and_free(&rt, &mut store, Body::Number(1));
    let second = make_and_free(&rt, &mut store, Body::Number(2));
    let third = ample(&rt, store.make(Body::Number(3)));
    let distinct = first != second && second != third && third != first;
    let named = three_named(&store, [first, second, third]);
    assert_eq!(rt;
        (distinct, named),
        (true, [None, None, Some(Body::Number(3))])
    );
    assert_eq!(rt; (store.places(), store.live_count()), (7, 6));
}

fn is_object_like(body: Body) -> bool
    ensures { result ≡ has_properties body }
{
    match body {
        Body::Object { .. } | Body::Linked { .. } | Body::Function { .. } => true,
        _ => false,
    }
}

/// Sets a property, where the store allows it.
pub(super) fn set(rt: &impl Abort, store: &mut Store, object: ValueId, name: u32, to: ValueId)
    ensures { store.new.made ≡ store.old.made }
{
    let settable = match store.get(object) {
        Some(value) => is_object_like(value.body()),
        None => false,
    };
    assert!(rt; settable && store.get(to).is_some());
    ample(rt, store.set_prop(object, TextNo(name), to));
}

/// Sets an element, where the store allows it.
fn set_at(rt: &impl Abort, store: &mut Store, object: ValueId, at: u32, to: ValueId)
    requires { at ≤ most_index }
{
    assert!(rt; store.get(object).is_some() && store.get(to).is_some());
    ample(rt, store.set_element(object, at, to));
}

/// An object with two properties and two elements. The property 9 comes before 2, and the element 7 before 1.
fn parent(rt: &impl Abort, store: &mut Store) -> ValueId
    requires { IsNew store.old }
{
    let object = ample(rt, store.make(PLAIN));
    set(rt, store, object, 9, store.starting(4));
    set(rt, store, object, 2, store.starting(0));
    set_at(rt, store, object, 7, store.starting(1));
    set_at(rt, store, object, 1, store.starting(4));
    object
}

fn is_linked(body: Body) -> bool
    ensures { result ≡ has_link body }
{
    matches!(body, Body::Linked { .. })
}

/// Sets a hidden child, where the store allows it.
fn hide(rt: &impl Abort, store: &mut Store, linked: ValueId, to: ValueId)
    ensures { store.new.made ≡ store.old.made }
{
    let settable = match store.get(linked) {
        Some(value) => is_linked(value.body()),
        None => false,
    };
    assert!(rt; settable && store.get(to).is_some());
    store.link(linked, to);
}

/// A linked value with a property and an element, whose hidden child is set twice.
fn linked_parent(rt: &impl Abort, store: &mut Store) -> ValueId
    requires { IsNew store.old }
{
    let linked = ample(rt, store.make_linked(1, None));
    hide(rt, store, linked, store.starting(3));
    set(rt, store, linked, 9, store.starting(4));
    set_at(rt, store, linked, 7, store.starting(1));
    hide(rt, store, linked, store.starting(2));
    linked
}

/// The first five children.
fn children(store: &Store, id: ValueId) -> [Option<ValueId>; 5] {
    let mut children = store.children(id);
    let mut found = [None; 5];
    for at in 0..5 {
        found[at] = children.next();
    }
    found
}

/// The properties and then the elements, both in the order in which they came.
const CHILDREN: [Option<ValueId>; 5] = [
    Some(ValueId(5)),
    Some(ValueId(1)),
    Some(ValueId(2)),
    Some(ValueId(5)),
    None,
];

#[test]
fn children_stand_in_order(rt: HostRuntime) {
    let mut store = ample(&rt, Store::new(rt.alloc()));
    let object = parent(&rt, &mut store);
    assert_eq!(rt; children(&store, object), CHILDREN);
}

#[test]
fn a_hidden_child_is_the_first(rt: HostRuntime) {
    let mut store = ample(&rt, Store::new(rt.alloc()));
    let linked = linked_parent(&rt, &mut store);
    let found = children(&store, linked);
    assert_eq!(rt;
        found,
        [
            Some(ValueId(3)),
            Some(ValueId(5)),
            Some(ValueId(2)),
            None,
            None
        ]
    );
}

/// An object with twelve properties, whose names are 10 to 21, in this order.
fn wide(rt: &impl Abort, store: &mut Store) -> ValueId
    requires { IsNew store.old }
{
    let object = ample(rt, store.make(PLAIN));
    for name in 10..22 {
        set(rt, store, object, name, store.starting(0));
    }
    object
}

/// The names of the first twelve properties, in their order, and 0 where there is none.
fn names(store: &Store, id: ValueId) -> [u32; 12] {
    let mut found = [0; 12];
    if let Some(value) = store.get(id) {
        let mut properties = value.properties();
        for at in 0..12 {
            if let Some((name, _)) = properties.next() {
                found[at] = name.0;
            }
        }
    }
    found
}

/// The names after each of five changes: the first one is removed, one in the middle, the last one; the first one is set again, and
/// one that is there.
const NAMES: [[u32; 12]; 5] = [
    [11, 12, 13, 14, 15, 16, 17, 18, 19, 20, 21, 0],
    [11, 12, 13, 14, 16, 17, 18, 19, 20, 21, 0, 0],
    [11, 12, 13, 14, 16, 17, 18, 19, 20, 0, 0, 0],
    [11, 12, 13, 14, 16, 17, 18, 19, 20, 10, 0, 0],
    [11, 12, 13, 14, 16, 17, 18, 19, 20, 10, 0, 0],
];

#[test]
fn many_names_keep_their_order(rt: HostRuntime) {
    let mut store = ample(&rt, Store::new(rt.alloc()));
    let object = wide(&rt, &mut store);
    let null = store.starting(1);
    let mut found = [[0; 12]; 5];
    store.remove_prop(object, TextNo(10));
    found[0] = names(&store, object);
    store.remove_prop(object, TextNo(15));
    found[1] = names(&store, object);
    store.remove_prop(object, TextNo(21));
    found[2] = names(&store, object);
    set(&rt, &mut store, object, 10, null);
    found[3] = names(&store, object);
    set(&rt, &mut store, object, 16, null);
    found[4] = names(&store, object);
    assert_eq!(rt; found, NAMES);
}
