//! The book of finalizers and cleanup hooks (the manual's `napi_finalize` and cleanup hooks) and of reactions to promises: each that is
//! registered gets a ticket, counted from 1. Contracts see the book as the list of all that was registered, with how far each has come
//! (`specs/parts/Book.antt` in `napi_types`), and how many may be registered without memory. The environment, whose calls register
//! and whose frames are what is due, stands above.
#![tactic(auto)]

mod book;
mod rows;

pub use book::Book;
pub use rows::NewDuty;
