//! The weak references to a value that calls on it may want.
ghost use Rattle.std.specs.Prelude.{◌≡◌, ◌+◌, ◌<◌, ◌^◌, length, IfOk, OnErr};
ghost use Rattle.napi_reference.specs.ReferencePlaces.{map_of};
ghost use Rattle.env_core.specs.Referring.{wants_alone as wants_alone_of, RefersIf};

use napi_reference::Refs;
use napi_types::{NoMemory, Out, ValueId};

/// Whether a call wants a reference to a value, and names no finalizer of it.
pub fn wants_alone(finalizer: Option<u32>, wanted: bool) -> bool
    ensures { result ≡ wants_alone_of finalizer wanted }
{
    finalizer.is_none() && wanted
}

/// Makes a weak reference to a value, where one is wanted, and gives the result that tells it.
pub fn refer_if(references: &mut Refs, value: ValueId, wanted: bool) -> Result<Out, NoMemory>
    requires { length references.old.issued + 2 < 2 ^ 48 }
    ensures ok { IfOk result (λ out. RefersIf wanted value.0 (map_of references.old) out (map_of references.new)) }
    ensures err { OnErr result (references.new ≡ references.old) }
{
    if !wanted {
        return Ok(Out::Nothing);
    }
    let reference = references.make(value, 0)?;
    Ok(Out::Ref(reference))
}
