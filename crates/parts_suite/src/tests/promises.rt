//! Many promises, and many reactions of one promise: that each is accepted where there is memory, also after 65,535 others, and that
//! settling, ending and going take time in proportion. No clause says so.
ghost use Rattle.std.specs.Prelude.{◌≡◌, ◌+◌, ◌<◌, ◌≤◌, ◌^◌, [], true, Some, length, IsSome};
ghost use Rattle.std.specs.List.{All};
ghost use Rattle.napi_types.specs.parts.Book.{is_at, is_registered};
ghost use Rattle.napi_types.specs.parts.Promises.{no_promises, promise_at, reactions_of, deferred_promise};

use super::ample;
use deferred::Deferreds;
use finalizer_queue::{Book, NewDuty};
use napi_types::{Cause, DeferredId, DueInfo, Duty, SeenList, Ticket, ValueId};
use std::alloc::Global;
use std::process::Abort;

/// How many promises there are, and how many reactions one has.
const MANY: u64 = 70_000;

const PROMISE: ValueId = ValueId(9);

/// A value becomes a promise, where none has a reaction.
fn make(rt: &impl Abort, deferreds: &mut Deferreds, value: ValueId) -> DeferredId
    requires few { length deferreds.old.promises.issued < 2 ^ 20 }
    requires bare { All (λ p. p.reactions ≡ []) deferreds.old.promises.promises }
    ensures bare { All (λ p. p.reactions ≡ []) deferreds.new.promises.promises }
    ensures count { length deferreds.new.promises.issued ≤ length deferreds.old.promises.issued + 1 }
{
    ample(rt, deferreds.make(value))
}

/// Many values become promises. Their deferreds.
fn make_many(rt: &impl Abort, deferreds: &mut Deferreds, made: &mut Vec<DeferredId>)
    requires { deferreds.old.promises ≡ no_promises }
    ensures { All (λ p. p.reactions ≡ []) deferreds.new.promises.promises }
{
    for value in 0..MANY {
        let id = make(rt, deferreds, ValueId(value));
        made.push(id).expect(rt, "a place");
    }
}

/// A promise is settled, where none has a reaction. Whether it was accepted.
fn settle(deferreds: &mut Deferreds, id: DeferredId, book: &mut Book) -> bool
    requires { All (λ p. p.reactions ≡ []) deferreds.old.promises.promises }
    ensures { All (λ p. p.reactions ≡ []) deferreds.new.promises.promises }
{
    deferreds.settle(id, 1, book).is_ok()
}

/// Each is settled. How many were accepted.
fn settle_many(deferreds: &mut Deferreds, made: &[DeferredId], book: &mut Book) -> usize
    requires { All (λ p. p.reactions ≡ []) deferreds.old.promises.promises }
{
    let mut accepted = 0;
    for id in made {
        if settle(deferreds, *id, book) {
            accepted += 1;
        }
    }
    accepted
}

/// How many are resolved and no root, as each goes, and how many are promises then.
fn go_many(deferreds: &mut Deferreds) -> (u64, u64) {
    let mut resolved = 0;
    let mut left = 0;
    for value in 0..MANY {
        if deferreds.state(ValueId(value)) == Some(1) && !deferreds.is_root(ValueId(value)) {
            resolved += 1;
        }
        deferreds.gone(ValueId(value));
        if deferreds.state(ValueId(value)).is_some() {
            left += 1;
        }
    }
    (resolved, left)
}

/// Many promises are made, settled, and go.
fn many_promises(rt: &impl Abort, alloc: Global) -> (usize, (u64, u64)) {
    let mut book = ample(rt, Book::new(alloc));
    let mut deferreds = ample(rt, Deferreds::new(alloc));
    let mut made = Vec::new(alloc);
    make_many(rt, &mut deferreds, &mut made);
    let settled = settle_many(&mut deferreds, &made, &mut book);
    (settled, go_many(&mut deferreds))
}

#[test]
fn many_promises_settle_and_go(rt: HostRuntime) {
    let found = many_promises(&rt, rt.alloc());
    assert_eq!(rt; found, (MANY as usize, (MANY, 0)));
}

/// A reaction is added to the promise.
fn react(rt: &impl Abort, deferreds: &mut Deferreds, book: &mut Book)
    requires few { length book.old.book < 2 ^ 20 }
    requires promise { IsSome (promise_at deferreds.old.promises 9) }
    requires registered { All (λ n. is_at is_registered book.old.book n ≡ true) (reactions_of deferreds.old.promises 9) }
    ensures count { length book.new.book ≡ length book.old.book + 1 }
    ensures promise { IsSome (promise_at deferreds.new.promises 9) }
    ensures deferreds { deferreds.new.promises.deferreds ≡ deferreds.old.promises.deferreds }
    ensures registered { All (λ n. is_at is_registered book.new.book n ≡ true) (reactions_of deferreds.new.promises 9) }
{
    ample(rt, book.reserve());
    let ticket = book.register(NewDuty {
        cause: Cause::Finalize,
        addon: 1,
        entry: 2,
        payload: 3,
        hint: 0,
    });
    assert!(rt; deferreds.promise_of(ticket).is_none());
    ample(rt, deferreds.react(PROMISE, ticket));
}

/// A promise with many reactions is made. Its deferred.
fn promise_with_many(rt: &impl Abort, deferreds: &mut Deferreds, book: &mut Book) -> DeferredId
    requires none { deferreds.old.promises ≡ no_promises }
    requires blank { book.old.book ≡ [] }
    ensures registered { All (λ n. is_at is_registered book.new.book n ≡ true) (reactions_of deferreds.new.promises 9) }
    ensures deferred { deferred_promise deferreds.new.promises result.0 ≡ Some 9 }
{
    let id = ample(rt, deferreds.make(PROMISE));
    for _number in 0..MANY {
        react(rt, deferreds, book);
    }
    id
}

/// Whether a duty is that of this ticket, with the state rejected as its hint.
fn is_rejected(told: DueInfo, ticket: Ticket) -> bool {
    told.duty == Duty::Ticket(ticket) && told.gifts[1] == 2
}

/// Each reaction that is due begins, and ends. How many do so in the order of their adding, with the state that settled the promise.
fn end_many(deferreds: &mut Deferreds, book: &mut Book) -> u64 {
    let mut seen = SeenList::new();
    let mut ended = 0;
    for number in 0..MANY {
        if let Some(due) = book.take_due() {
            let ticket = Ticket(number + 1);
            if is_rejected(due.begin(&mut seen).end(), ticket)
                && deferreds.promise_of(ticket) == Some(PROMISE)
            {
                ended += 1;
            }
            deferreds.ended(ticket);
        }
    }
    ended
}

/// One promise is settled with many reactions, and each ends.
fn many_reactions(rt: &impl Abort, alloc: Global) -> (bool, u64, bool) {
    let mut book = ample(rt, Book::new(alloc));
    let mut deferreds = ample(rt, Deferreds::new(alloc));
    let id = promise_with_many(rt, &mut deferreds, &mut book);
    let settled = deferreds.settle(id, 2, &mut book).is_ok();
    let ended = end_many(&mut deferreds, &mut book);
    (settled, ended, deferreds.is_root(PROMISE))
}

#[test]
fn many_reactions_fall_due_and_end(rt: HostRuntime) {
    let found = many_reactions(&rt, rt.alloc());
    assert_eq!(rt; found, (true, MANY, false));
}
