//! Many tickets, hooks, references and wraps, and many finalizers of one value: that each is accepted where there is memory, also after
//! 65,535 others, and that a long chain of tickets, or of lines that were seen, is let go and falls due within the stack. So is a long chain
//! of objects, and of hidden children, kept and freed. No clause says so. Three references whose place is used again are tried too.
ghost use Rattle.std.specs.Prelude.{◌≡◌, ◌+◌, ◌<◌, ◌≤◌, ◌^◌, [], length};
ghost use Rattle.std.specs.List.{All};
ghost use Rattle.napi_types.specs.parts.Attachments.{no_attachments};
ghost use Rattle.napi_types.specs.parts.Graph.{IsLive};
ghost use Rattle.trace_collect.specs.Collects.{HoldsStarting};
ghost use Rattle.value_store.specs.StoreChanges.{numbers_of, IsNew};

use super::ample;
use super::values::{PLAIN, set};
use cleanup_hooks::Hooks;
use finalizer_queue::{Book, NewDuty};
use napi_reference::Refs;
use napi_types::{Cause, RefId, SeenList, Status, Ticket, ValueId};
use std::alloc::Global;
use std::process::Abort;
use value_store::Store;
use wrap_tag::Wraps;

/// How many there are of each.
const MANY: u64 = 70_000;

/// How many finalizers one value has.
const FINALIZERS: u64 = 200_000;

/// How many objects a chain has.
const OBJECTS: usize = 200_000;

const VALUE: ValueId = ValueId(9);

/// A finalizer is registered.
fn register(rt: &impl Abort, book: &mut Book) -> Ticket
    requires { length book.old.book < 2 ^ 20 }
    ensures ticket { result.0 ≡ length book.new.book }
    ensures count { length book.new.book ≡ length book.old.book + 1 }
{
    ample(rt, book.reserve());
    book.register(NewDuty {
        cause: Cause::Finalize,
        addon: 1,
        entry: 2,
        payload: 3,
        hint: 4,
    })
}

/// Finalizers are registered, and each is withdrawn.
fn register_many(rt: &impl Abort, book: &mut Book)
    requires { book.old.book ≡ [] }
{
    for _number in 0..MANY {
        let ticket = register(rt, book);
        assert!(rt; book.is_registered(ticket));
        book.withdraw(ticket);
    }
}

/// A plain hook is added, whose argument is the number of those before it.
fn add_hook(rt: &impl Abort, hooks: &mut Hooks, argument: u64)
    requires few { argument < 2 ^ 20 }
    requires before { All (λ h. h.ticket ≤ argument) hooks.old.hooks }
    requires plain { hooks.old.async_hooks ≡ [] }
    ensures before { All (λ h. h.ticket ≤ argument + 1) hooks.new.hooks }
    ensures plain { hooks.new.async_hooks ≡ [] }
{
    assert!(rt; hooks.find(1, 2, argument).is_none());
    ample(rt, hooks.add(1, 2, argument, Ticket(argument + 1)));
}

/// An asynchronous hook is added behind so many hooks.
fn add_async_hook(rt: &impl Abort, hooks: &mut Hooks, before: u64)
    requires few { before < 2 ^ 20 }
    requires before { All (λ h. h.ticket ≤ before) hooks.old.hooks }
    requires others { All (λ h. h.ticket ≤ before) hooks.old.async_hooks }
    requires count { length hooks.old.async_hooks ≤ before }
    ensures before { All (λ h. h.ticket ≤ before + 1) hooks.new.hooks }
    ensures others { All (λ h. h.ticket ≤ before + 1) hooks.new.async_hooks }
    ensures count { length hooks.new.async_hooks ≤ before + 1 }
{
    ample(rt, hooks.add_async(1, 2, 3, Ticket(before + 1)));
}

/// As many plain hooks are added, and then as many asynchronous ones.
fn add_hooks(rt: &impl Abort, hooks: &mut Hooks)
    requires before { hooks.old.hooks ≡ [] }
    requires plain { hooks.old.async_hooks ≡ [] }
{
    for argument in 0..MANY {
        add_hook(rt, hooks, argument);
    }
    for number in 0..MANY {
        add_async_hook(rt, hooks, MANY + number);
    }
}

/// All hooks begin. How many asynchronous ones wait then, and how many once those are abandoned.
fn begin_hooks(hooks: &mut Hooks) -> [u64; 2] {
    for _number in 0..2 * MANY {
        let _ticket = hooks.take_last();
    }
    let waiting = hooks.waiting();
    hooks.abandon();
    [waiting, hooks.waiting()]
}

fn make_reference(rt: &impl Abort, references: &mut Refs)
    requires { length references.old.issued < 2 ^ 20 }
    ensures { length references.new.issued ≤ length references.old.issued + 1 }
{
    ample(rt, references.make(VALUE, 0));
}

fn make_references(rt: &impl Abort, references: &mut Refs)
    requires { references.old.issued ≡ [] }
{
    for _number in 0..MANY {
        make_reference(rt, references);
    }
}

/// As many values are wrapped, with their numbers.
fn wrap_many(rt: &impl Abort, wraps: &mut Wraps) {
    for number in 0..MANY {
        let value = ValueId(number);
        assert!(rt; wraps.wrapped(value).is_none());
        ample(rt, wraps.reserve());
        wraps.wrap(value, number, None);
    }
}

/// What comes of many: the next ticket, that of the last hook, how many hooks wait before and after they are abandoned, how many references
/// stand, and the payload of the last wrap.
type Found = (Ticket, Option<Ticket>, [u64; 2], usize, Option<u64>);

fn many(rt: &impl Abort, alloc: Global) -> Found {
    let mut book = ample(rt, Book::new(alloc));
    register_many(rt, &mut book);
    let mut hooks = Hooks::new(alloc);
    add_hooks(rt, &mut hooks);
    let mut references = ample(rt, Refs::new(alloc));
    make_references(rt, &mut references);
    let mut wraps = ample(rt, Wraps::new(alloc));
    wrap_many(rt, &mut wraps);
    (
        book.next(),
        hooks.last_added(),
        begin_hooks(&mut hooks),
        references.rows(),
        wraps.wrapped(ValueId(MANY - 1)),
    )
}

#[test]
fn many_are_accepted(rt: HostRuntime) {
    let want = (
        Ticket(MANY + 1),
        Some(Ticket(2 * MANY)),
        [MANY, 0],
        MANY as usize,
        Some(MANY - 1),
    );
    assert_eq!(rt; many(&rt, rt.alloc()), want);
}

/// A reference is made, and deleted at once. Its number.
fn make_and_delete(rt: &impl Abort, references: &mut Refs) -> RefId
    requires { length references.old.issued < 2 ^ 20 }
    ensures { length references.new.issued ≤ length references.old.issued + 1 }
{
    let reference = ample(rt, references.make(VALUE, 1));
    assert!(rt; references.delete(reference).is_ok());
    reference
}

/// Three are made and deleted in turn. Their numbers, and with what each is refused then.
fn in_turn(rt: &impl Abort, references: &mut Refs) -> ([RefId; 3], [Option<Status>; 3])
    requires { references.old.issued ≡ [] }
{
    let first = make_and_delete(rt, references);
    let second = make_and_delete(rt, references);
    let third = make_and_delete(rt, references);
    (
        [first, second, third],
        [
            references.value(first).err(),
            references.value(second).err(),
            references.value(third).err(),
        ],
    )
}

/// The numbers of three, where a place has two generations, and where it has many: the place of the first one is used again.
const IN_TURN: [[RefId; 3]; 2] = [
    [RefId(1), RefId(0x1_0000_0000_0001), RefId(2)],
    [
        RefId(1),
        RefId(0x1_0000_0000_0001),
        RefId(0x2_0000_0000_0001),
    ],
];

#[test]
fn a_place_is_used_again_and_no_number(rt: HostRuntime) {
    let mut twice = ample(&rt, Refs::with_generations(rt.alloc(), 1));
    let mut often = ample(&rt, Refs::new(rt.alloc()));
    let found = [in_turn(&rt, &mut twice), in_turn(&rt, &mut often)];
    let refused = [Some(Status::InvalidArg); 3];
    assert_eq!(rt; found, [(IN_TURN[0], refused), (IN_TURN[1], refused)]);
}

/// A finalizer of the value is registered and attached. No value is wrapped, and the book gave each ticket that is attached.
fn attach(rt: &impl Abort, book: &mut Book, wraps: &mut Wraps)
    requires few { length book.old.book < 2 ^ 20 }
    requires bare { wraps.old.attachments.wraps ≡ [] }
    requires given { All (λ t. (1 ≤ t.ticket) × (t.ticket ≤ length book.old.book)) wraps.old.attachments.tickets }
    ensures bare { wraps.new.attachments.wraps ≡ [] }
    ensures given { All (λ t. (1 ≤ t.ticket) × (t.ticket ≤ length book.new.book)) wraps.new.attachments.tickets }
    ensures count { length book.new.book ≡ length book.old.book + 1 }
{
    ample(rt, wraps.reserve());
    let ticket = register(rt, book);
    wraps.attach(VALUE, ticket);
}

/// Many finalizers of the value are registered and attached.
fn attach_many(rt: &impl Abort, book: &mut Book, wraps: &mut Wraps)
    requires blank { book.old.book ≡ [] }
    requires bare { wraps.old.attachments ≡ no_attachments }
    ensures bare { wraps.new.attachments.wraps ≡ [] }
    ensures given { All (λ t. (1 ≤ t.ticket) × (t.ticket ≤ length book.new.book)) wraps.new.attachments.tickets }
{
    for _number in 0..FINALIZERS {
        attach(rt, book, wraps);
    }
}

/// The value is freed. How many finalizers begin and are seen; the list of them is let go.
fn free(book: &mut Book, wraps: &mut Wraps) -> u64
    requires bare { wraps.old.attachments.wraps ≡ [] }
    requires given { All (λ t. (1 ≤ t.ticket) × (t.ticket ≤ length book.old.book)) wraps.old.attachments.tickets }
{
    wraps.gone(VALUE, book);
    let mut seen = SeenList::new();
    for _number in 0..FINALIZERS {
        if let Some(due) = book.take_due() {
            due.begin(&mut seen).end();
        }
    }
    seen.len()
}

/// A value gets many finalizers, and all that is attached is let go. The next ticket.
fn let_go(rt: &impl Abort, alloc: Global) -> Ticket {
    let mut book = ample(rt, Book::new(alloc));
    let mut wraps = ample(rt, Wraps::new(alloc));
    attach_many(rt, &mut book, &mut wraps);
    book.next()
}

/// A value gets many finalizers, and is freed. How many begin.
fn freed(rt: &impl Abort, alloc: Global) -> u64 {
    let mut book = ample(rt, Book::new(alloc));
    let mut wraps = ample(rt, Wraps::new(alloc));
    attach_many(rt, &mut book, &mut wraps);
    free(&mut book, &mut wraps)
}

#[test]
fn long_chains_take_no_stack(rt: HostRuntime) {
    let found = (let_go(&rt, rt.alloc()), freed(&rt, rt.alloc()));
    assert_eq!(rt; found, (Ticket(FINALIZERS + 1), FINALIZERS));
}

/// An object is made that names a value.
fn link(rt: &impl Abort, store: &mut Store, to: ValueId) -> ValueId
    requires { store.old.made < 2 ^ 20 }
    ensures { store.new.made ≡ store.old.made + 1 }
{
    let object = ample(rt, store.make(PLAIN));
    set(rt, store, object, 9, to);
    object
}

/// Objects are made, of which each names the one made just before it. The last of them.
fn chain(rt: &impl Abort, store: &mut Store) -> ValueId
    requires { IsNew store.old }
{
    let mut last = store.starting(0);
    for _number in 0..OBJECTS {
        last = link(rt, store, last);
    }
    last
}

/// A linked value is made that has a value as its hidden child.
fn hide_under_new(rt: &impl Abort, store: &mut Store, to: ValueId) -> ValueId
    requires { store.old.made < 2 ^ 20 }
    ensures { store.new.made ≡ store.old.made + 1 }
{
    assert!(rt; store.get(to).is_some());
    ample(rt, store.make_linked(1, Some(to)))
}

/// Linked values are made, of which each has the one made just before it as its hidden child. The last of them.
fn hidden_chain(rt: &impl Abort, store: &mut Store) -> ValueId
    requires { IsNew store.old }
{
    let mut last = store.starting(0);
    for _number in 0..OBJECTS {
        last = hide_under_new(rt, store, last);
    }
    last
}

/// The starting values.
fn starting(rt: &impl Abort, alloc: Global, store: &Store) -> Vec<ValueId>
    ensures live { All (IsLive store.now) (numbers_of result.items) }
    ensures starting { HoldsStarting store.now (numbers_of result.items) }
{
    let mut roots = Vec::new(alloc);
    for which in 0..5 {
        roots.push(store.starting(which)).expect(rt, "a place");
    }
    roots
}

/// How many values a collection frees, where the starting values and these others are its roots.
fn collected(rt: &impl Abort, alloc: Global, store: &mut Store, others: &[ValueId]) -> usize {
    let mut roots = starting(rt, alloc, store);
    for id in others {
        assert!(rt; store.get(*id).is_some());
        roots.push(*id).expect(rt, "a place");
    }
    ample(rt, trace_collect::collect(alloc, store, &roots)).len()
}

#[test]
fn a_chain_is_kept_by_its_last_object(rt: HostRuntime) {
    let mut store = ample(&rt, Store::new(rt.alloc()));
    let last = chain(&rt, &mut store);
    let found = (
        collected(&rt, rt.alloc(), &mut store, &[last]),
        collected(&rt, rt.alloc(), &mut store, &[]),
    );
    assert_eq!(rt; found, (0, OBJECTS));
}

#[test]
fn a_chain_of_hidden_children_is_kept_by_its_last_value(rt: HostRuntime) {
    let mut store = ample(&rt, Store::new(rt.alloc()));
    let last = hidden_chain(&rt, &mut store);
    let found = (
        collected(&rt, rt.alloc(), &mut store, &[last]),
        collected(&rt, rt.alloc(), &mut store, &[]),
    );
    assert_eq!(rt; found, (0, OBJECTS));
}
