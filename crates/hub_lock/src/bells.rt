//! Bells: on each of them one actor sleeps until it is rung.

use napi_types::NoMemory;
use std::alloc::Global;
use std::sync::Wait;
use std::sync::atomic::{AtomicU64, Ordering};

/// So many bells, none of which rings.
pub(crate) fn bells_for(alloc: Global, many: u32) -> Result<Vec<AtomicU64>, NoMemory> {
    let mut bells = Vec::with_capacity(alloc, many as usize)?;
    for _ in 0..many {
        bells.push(AtomicU64::new(0))?;
    }
    Ok(bells)
}

/// Sleeps on the bell of this number until it rings, and takes the ring. A ring that came before is taken at once.
pub(crate) fn sleep_on<R: Wait>(rt: &R, bells: &[AtomicU64], number: u32) {
    let Some(bell) = bells.get(number as usize) else {
        return;
    };
    for _ in rt.forever() {
        if bell.swap(0, Ordering::SeqCst) > 0 {
            return;
        }
        bell.park(rt, 0);
    }
    unreachable!()
}

/// Rings the bells of these numbers, a bit for each. There are at most 64.
pub(crate) fn ring(bells: &[AtomicU64], rings: u64) {
    if rings == 0 {
        return;
    }
    for (number, bell) in bells.iter().enumerate() {
        if rings & (1 << (number % 64)) > 0 {
            bell.store(1, Ordering::SeqCst);
            bell.wake_all();
        }
    }
}
