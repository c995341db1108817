//! Buffers up to the limit of all together, and views of each size of elements at their last index: that each is accepted where there is
//! memory, and that bytes which are detached or gone make room again. No clause says so.
ghost use Rattle.std.specs.Prelude.{◌≡◌, [], None};
ghost use Rattle.std.specs.List.{All};
ghost use Rattle.napi_types.specs.parts.Buffers.{IsElementSize};

use super::ample;
use array_buffers::Buffers;
use finalizer_queue::Book;
use napi_types::{ValueId, ViewInfo};
use std::alloc::Global;
use std::process::Abort;

/// How many bytes one buffer has at most, and all together.
const MOST: u32 = 1_048_576;

const TOGETHER: u64 = 268_435_456;

const BUFFER: ValueId = ValueId(1);

const VIEW: ValueId = ValueId(2);

const NUMBER: u64 = 0x1122_3344_5566_7788;

/// A buffer is made of a value that is none, where there is room. Whether it was.
fn make(rt: &impl Abort, buffers: &mut Buffers, value: ValueId) -> bool
    requires views { buffers.old.buffers.views ≡ [] }
    requires bare { All (λ r. r.ticket ≡ None) buffers.old.buffers.buffers }
    ensures views { buffers.new.buffers.views ≡ [] }
    ensures bare { All (λ r. r.ticket ≡ None) buffers.new.buffers.buffers }
{
    if buffers.total() > TOGETHER - MOST as u64 || buffers.length(value).is_some() {
        return false;
    }
    ample(rt, buffers.make(value, MOST, None));
    true
}

/// As many are made as there is room for. How many that are.
fn fill(rt: &impl Abort, buffers: &mut Buffers) -> u64
    requires views { buffers.old.buffers.views ≡ [] }
    requires bare { All (λ r. r.ticket ≡ None) buffers.old.buffers.buffers }
    ensures bare { All (λ r. r.ticket ≡ None) buffers.new.buffers.buffers }
    ensures views { buffers.new.buffers.views ≡ [] }
{
    let mut made = 0;
    for value in 0..300 {
        if make(rt, buffers, ValueId(value)) {
            made += 1;
        }
    }
    made
}

/// A buffer is detached, where it is one that is not.
fn detach(buffers: &mut Buffers, value: ValueId)
    requires views { buffers.old.buffers.views ≡ [] }
    requires bare { All (λ r. r.ticket ≡ None) buffers.old.buffers.buffers }
    ensures bare { All (λ r. r.ticket ≡ None) buffers.new.buffers.buffers }
    ensures views { buffers.new.buffers.views ≡ [] }
{
    if buffers.length(value).is_some() && !buffers.detached(value) {
        buffers.detach(value);
    }
}

/// A buffer is gone.
fn gone(buffers: &mut Buffers, value: ValueId, book: &mut Book)
    requires views { buffers.old.buffers.views ≡ [] }
    requires bare { All (λ r. r.ticket ≡ None) buffers.old.buffers.buffers }
    ensures bare { All (λ r. r.ticket ≡ None) buffers.new.buffers.buffers }
    ensures views { buffers.new.buffers.views ≡ [] }
{
    buffers.gone(value, book);
}

/// How many buffers there is room for, and the sum then; the sum once one is detached, and once another is gone; and how many more there is
/// room for then.
fn sums(rt: &impl Abort, alloc: Global) -> [u64; 5] {
    let mut book = ample(rt, Book::new(alloc));
    let mut buffers = ample(rt, Buffers::new(alloc));
    let made = fill(rt, &mut buffers);
    let full = buffers.total();
    detach(&mut buffers, ValueId(0));
    let detached = buffers.total();
    gone(&mut buffers, ValueId(1), &mut book);
    let left = buffers.total();
    [made, full, detached, left, fill(rt, &mut buffers)]
}

#[test]
fn bytes_make_room_again(rt: HostRuntime) {
    let found = sums(&rt, rt.alloc());
    let most = MOST as u64;
    assert_eq!(rt;
        found,
        [256, TOGETHER, TOGETHER - most, TOGETHER - 2 * most, 2]
    );
}

/// Whether a number is written at the last index of a view, and what is read there then, and behind it.
fn last(rt: &impl Abort, alloc: Global, size: u32) -> (bool, Option<u64>, Option<u64>)
    requires { IsElementSize size }
{
    let mut buffers = ample(rt, Buffers::new(alloc));
    ample(rt, buffers.make(BUFFER, 25, None));
    let about = ViewInfo {
        buffer: BUFFER,
        size,
        offset: 1,
        length: 3,
    };
    ample(rt, buffers.view(VIEW, about));
    let written = buffers.set(VIEW, 2, NUMBER);
    (written, buffers.get(VIEW, 2), buffers.get(VIEW, 3))
}

#[test]
fn views_keep_as_many_bytes_as_an_element_has(rt: HostRuntime) {
    let alloc = rt.alloc();
    let found = [
        last(&rt, alloc, 1),
        last(&rt, alloc, 2),
        last(&rt, alloc, 4),
        last(&rt, alloc, 8),
    ];
    let kept = [0x88, 0x7788, 0x5566_7788, NUMBER];
    assert_eq!(rt; found, kept.map(|number| (true, Some(number), None)));
}
