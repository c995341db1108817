//! The pending exception, and the status of the last call.
ghost use Rattle.std.specs.Prelude.{◌≡◌, Some, None, option_map};
ghost use Rattle.exception_state.specs.Exceptions.{no_exception};

use napi_types::{Status, ValueId};
use std::marker::Model;

/// The value that is the pending exception, where one is pending, and the status of the last call.
#[derive(Drop)]
pub struct Exceptions {
    pending: Option<ValueId>,
    last: Status,
}

impl Model for Exceptions {
    ghost use Rattle.exception_state.specs.Exceptions.{ExceptionState};

    ghost Value = { ExceptionState };

    ghost use Rattle.std.specs.Prelude.{option_map as mapped};

    ghost view = { λ state. record {
      pending = mapped (λ value. value.0) state.pending;
      last = state.last;
    } };
}

impl Exceptions {
    /// No exception is pending, and the last status is `Ok`.
    pub fn new() -> Exceptions
        ensures { result ≡ no_exception }
    {
        Exceptions {
            pending: None,
            last: Status::Ok,
        }
    }

    /// The value that is the pending exception, where one is pending.
    pub fn pending(&self) -> Option<ValueId>
        ensures { option_map (λ value. value.0) result ≡ self.now.pending }
    {
        self.pending
    }

    /// The value is the pending exception from now on, in place of any other.
    pub fn set(&mut self, value: ValueId)
        ensures { self.new ≡ record self.old { pending = Some value.0 } }
    {
        self.pending = Some(value);
    }

    /// No exception is pending from now on. Answers the one that was.
    pub fn clear(&mut self) -> Option<ValueId>
        ensures was { option_map (λ value. value.0) result ≡ self.old.pending }
        ensures cleared { self.new ≡ record self.old { pending = None } }
    {
        self.pending.take()
    }

    /// The status of the last call.
    pub fn last(&self) -> Status
        ensures { result ≡ self.now.last }
    {
        self.last
    }

    /// The status is the last one from now on.
    pub fn note(&mut self, status: Status)
        ensures { self.new ≡ record self.old { last = status } }
    {
        self.last = status;
    }
}
