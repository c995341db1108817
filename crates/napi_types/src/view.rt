//! Where a view of an array buffer lies.

use crate::ValueId;

/// Where a view lies, the manual's `napi_create_typedarray`: its buffer, how many bytes an element has (1, 2, 4 or 8), and in bytes where
/// it begins; and how many elements it has.
#[derive(Clone, Copy, Debug, PartialEq, Eq)]
pub struct ViewInfo {
    pub buffer: ValueId,
    pub size: u32,
    pub offset: u32,
    pub length: u32,
}
