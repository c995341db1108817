//! A hub may be shared among threads. The function does nothing but to ask for it.

use crate::hub::Hub;
use async_work::Job;
use shared_hub::Naming;

/// A value that threads may share.
fn shared<T: Sync>(_value: &T) {}

/// Threads may share a hub.
pub fn share_hub<J: Job, N: Naming + Send>(hub: &Hub<J, N>) {
    shared(hub)
}
