//! Reading a source to its end.
ghost use Rattle.std.specs.Prelude.{◌≡◌, ◌≢◌, ◌<◌, ◌≤◌, IfOk, IfSome, OnOk, length, vec_len};
ghost use Rattle.std.specs.Io.KnownBytes.{prepend_known, IsAtEnd};
ghost use Rattle.napi_types.specs.plain.Edge.{HasRisen};
ghost use Rattle.outside.specs.Reading.{longest_source, GavePrefix, GaveTooMany};

use napi_types::Source;
use std::alloc::Global;

/// The most bytes that a source may give.
const LONGEST_SOURCE: usize = 4_194_304;

/// How many bytes one read asks for.
const PIECE: usize = 4096;

/// Why a source was not read to its end.
#[derive(Clone, Copy)]
pub(crate) enum ReadError {
    /// There was no memory for its bytes.
    NoMemory,
    /// A read failed.
    Fault,
    /// It gave more bytes than a source may.
    Long,
}

/// All that a source gives up to its end, which is at most 4,194,304 bytes.
///
/// Reading stops at the first fault and at the first byte too many.
pub(crate) fn read_all<S: Source>(alloc: Global, source: &mut S) -> Result<Vec<u8>, ReadError>
    ensures whole { IfOk result
        (λ bytes. S.left source.old ≡ prepend_known bytes.items (S.left source.new)) }
    ensures end { OnOk result (IsAtEnd (S.left source.new)) }
    ensures all { IfOk result (λ bytes. IfSome (S.left source.old) (λ given. bytes.items ≡ given)) }
    ensures within { IfOk result (λ bytes. vec_len bytes ≤ longest_source) }
    ensures long { result ≡ Err ReadError.Long
        → GaveTooMany (S.left source.old) (S.left source.new) }
    ensures too_long { result ≡ Err ReadError.Long
        → IfSome (S.left source.old) (λ given. longest_source < length given) }
    ensures fault { result ≡ Err ReadError.Fault
        → HasRisen (S.faults source.old) (S.faults source.new) }
    ensures counted { result ≢ Err ReadError.Fault → S.faults source.new ≡ S.faults source.old }
    ensures prefix { GavePrefix (S.left source.old) (S.left source.new) }
    ensures faults { S.faults source.old ≤ S.faults source.new }
{
    let mut bytes = Vec::new(alloc);
    let mut piece = [0; PIECE];
    while bytes.len() <= LONGEST_SOURCE {
        let room = PIECE.min(LONGEST_SOURCE + 1 - bytes.len());
        let Ok(count) = source.read(&mut piece[..room]) else {
            return Err(ReadError::Fault);
        };
        if count == 0 {
            return Ok(bytes);
        }
        if bytes.extend_from_slice(&piece[..count]).is_err() {
            return Err(ReadError::NoMemory);
        }
    }
    Err(ReadError::Long)
}
