//! Array buffers (the manual's `napi_create_arraybuffer`) and their views (`napi_create_typedarray`). Views of one buffer read and write the
//! same bytes. Contracts see two finite maps (`Buffers` in `napi_types`). The environment, which makes buffers and views of values and frees
//! them, stands above.
#![tactic(auto)]

mod buffers;
mod row;
mod rows;
mod zeros;

pub use buffers::Buffers;
pub use zeros::Zeros;
