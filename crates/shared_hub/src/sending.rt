//! What may be handed to another thread: a hub's state, and the tokens that it hands out. Each function does nothing but to ask for it.
ghost use Rattle.std.specs.Prelude.{◌≡◌};

use crate::hub::HubState;
use crate::naming::Naming;
use async_work::{Job, Ran, Running};
use napi_types::{Begun, Due};

/// A value that may be handed to another thread.
fn handed<T: Send>(value: T) -> T
    ensures { result ≡ value }
{
    value
}

/// A hub's state may be handed to another thread.
pub fn hand_state<J: Job, N: Naming + Send>(state: HubState<J, N>) -> HubState<J, N>
    ensures { result ≡ state }
{
    handed(state)
}

/// So may a duty that is due.
pub fn hand_due(due: Due) -> Due
    ensures { result ≡ due }
{
    handed(due)
}

/// So may one that has begun.
pub fn hand_begun(begun: Begun) -> Begun
    ensures { result ≡ begun }
{
    handed(begun)
}

/// So may a work that a worker started.
pub fn hand_running<J: Job>(running: Running<J>) -> Running<J>
    ensures { result ≡ running }
{
    handed(running)
}

/// So may one that it executed.
pub fn hand_ran(ran: Ran) -> Ran
    ensures { result ≡ ran }
{
    handed(ran)
}
