//! Where a view lies that a call asks for.
ghost use Rattle.std.specs.Prelude.{◌≡◌};
ghost use Rattle.napi_types.specs.environment.BufferCalls.{element_size as size_of_kind, view_asked as view_that_is_asked};

use env_registry::Registry;
use napi_types::{ValueId, ViewInfo};

/// How many bytes an element of a type has, by the manual's number of the type. `None` exactly for a type that is none of the four.
fn element_size(kind: u64) -> Option<u32>
    ensures { result ≡ size_of_kind kind }
{
    match kind {
        1 => Some(1),
        4 => Some(2),
        6 => Some(4),
        10 => Some(8),
        _ => None,
    }
}

/// Where the view lies that is asked for, where the type is one of the four, and the view lies in its buffer and begins at a multiple of
/// its elements' size.
pub fn view_asked(
    registry: &Registry,
    kind: u64,
    buffer: ValueId,
    offset: u64,
    length: u64,
) -> Option<ViewInfo>
    ensures { result ≡ view_that_is_asked registry.now.parts.buffers kind buffer.0 offset length }
{
    let size = element_size(kind)?;
    let bytes = u64::from(registry.buffer_length(buffer)?);
    let size_wide = u64::from(size);
    let end = length.checked_mul(size_wide)?.checked_add(offset)?;
    if offset % size_wide != 0 || end > bytes {
        return None;
    }
    Some(ViewInfo {
        buffer,
        size,
        offset: offset as u32,
        length: length as u32,
    })
}
