//! Operations by their names: those with names of one length together.
#![tactic(auto, unfolding(napi_types::specs::scripts::ScriptOperations::named))]

ghost use Rattle.std.specs.Prelude.{◌≡◌, Some, None, bytes_eq, cond};
ghost use Rattle.napi_types.specs.scripts.ScriptOperations.{named, operations};
ghost use Rattle.script_read.specs.Lengths.{operations_of_length, last_letter};

use napi_types::{JobSpec, Mode, Op, Regs, Release, TextNo};

/// The last letter of a name.
fn last_letter(name: &str) -> u8
    ensures { result ≡ last_letter name.now }
{
    match name.as_bytes() {
        [.., last] => *last,
        [] => 0,
    }
}

/// Whether a name is a known one. Names of one length that differ mostly differ in their last letters.
#[tactic(auto, using(crate::proofs::ByLength::other_last_letter))]
fn is(name: &str, known: &str) -> bool
    ensures { result ≡ bytes_eq known.now name.now }
{
    last_letter(name) == last_letter(known) && name == known
}

/// An operation where the name is the known one.
pub(crate) fn if_named(name: &str, known: &str, operation: Op) -> Option<Op>
    ensures { result ≡ cond (bytes_eq known.now name.now) (Some operation) None }
{
    if is(name, known) {
        Some(operation)
    } else {
        None
    }
}

/// The kind of a name of four letters.
fn of_four(name: &str) -> Option<Op>
    ensures { result ≡ named name.now (operations_of_length 4) }
{
    match name {
        _ if is(name, "exit") => Some(Op::Exit),
        _ if is(name, "wrap") => Some(Op::Wrap(0, 0, None, 0, None)),
        _ => None,
    }
}

/// The kind of a name of six letters.
fn of_six(name: &str) -> Option<Op>
    ensures { result ≡ named name.now (operations_of_length 6) }
{
    match name {
        _ if is(name, "return") => Some(Op::Return(None)),
        _ if is(name, "typeof") => Some(Op::Typeof(0, 0)),
        _ if is(name, "unwrap") => Some(Op::Unwrap(0, 0)),
        _ => None,
    }
}

/// The kind of a name of eight letters.
fn of_eight(name: &str) -> Option<Op>
    ensures { result ≡ named name.now (operations_of_length 8) }
{
    match name {
        _ if is(name, "get_null") => Some(Op::GetNull(0)),
        _ if is(name, "get_view") => Some(Op::GetView(0, 0, 0)),
        _ if is(name, "set_view") => Some(Op::SetView(0, 0, 0)),
        _ if is(name, "is_array") => Some(Op::IsArray(0, 0)),
        _ if is(name, "is_error") => Some(Op::IsError(0, 0)),
        _ => None,
    }
}

/// The kind of a name of ten letters.
fn of_ten(name: &str) -> Option<Op>
    ensures { result ≡ named name.now (operations_of_length 10) }
{
    match name {
        _ if is(name, "get_global") => Some(Op::GetGlobal(0)),
        _ if is(name, "is_promise") => Some(Op::IsPromise(0, 0)),
        _ => None,
    }
}

/// The kind of a name of eleven letters.
fn of_eleven(name: &str) -> Option<Op>
    ensures { result ≡ named name.now (operations_of_length 11) }
{
    match name {
        _ if is(name, "get_version") => Some(Op::GetVersion(0)),
        _ if is(name, "remove_wrap") => Some(Op::RemoveWrap(0, 0)),
        _ if is(name, "get_boolean") => Some(Op::GetBoolean(false, 0)),
        _ if is(name, "set_element") => Some(Op::SetElement(0, 0, 0)),
        _ if is(name, "get_element") => Some(Op::GetElement(0, 0, 0)),
        _ if is(name, "has_element") => Some(Op::HasElement(0, 0, 0)),
        _ if is(name, "throw_error") => Some(Op::ThrowError(None, TextNo(0))),
        _ => None,
    }
}

/// The kind of a name of twelve letters.
fn of_twelve(name: &str) -> Option<Op>
    ensures { result ≡ named name.now (operations_of_length 12) }
{
    match name {
        _ if is(name, "create_array") => Some(Op::CreateArray(0)),
        _ if is(name, "create_int64") => Some(Op::CreateInt64(0, 0)),
        _ if is(name, "create_error") => Some(Op::CreateError(None, 0, 0)),
        _ if is(name, "add_reaction") => Some(Op::AddReaction(0, 0, 0)),
        _ => None,
    }
}

/// The kind of a name of thirteen letters.
fn of_thirteen(name: &str) -> Option<Op>
    ensures { result ≡ named name.now (operations_of_length 13) }
{
    match name {
        _ if is(name, "get_undefined") => Some(Op::GetUndefined(0)),
        _ if is(name, "create_object") => Some(Op::CreateObject(0)),
        _ if is(name, "reference_ref") => Some(Op::ReferenceRef(0, 0)),
        _ if is(name, "create_symbol") => Some(Op::CreateSymbol(None, 0)),
        _ if is(name, "strict_equals") => Some(Op::StrictEquals(0, 0, 0)),
        _ if is(name, "escape_handle") => Some(Op::EscapeHandle(0, 0, 0)),
        _ if is(name, "call_function") => Some(Op::CallFunction(
            None,
            0,
            Regs {
                count: 0,
                regs: [0; 4],
            },
            0,
        )),
        _ if is(name, "add_finalizer") => Some(Op::AddFinalizer(0, 0, 0, 0, None)),
        _ => None,
    }
}

/// The kind of a name of fourteen letters.
fn of_fourteen(name: &str) -> Option<Op>
    ensures { result ≡ named name.now (operations_of_length 14) }
{
    match name {
        _ if is(name, "create_promise") => Some(Op::CreatePromise(0, 0)),
        _ if is(name, "is_arraybuffer") => Some(Op::IsArraybuffer(0, 0)),
        _ if is(name, "get_value_bool") => Some(Op::GetValueBool(0, 0)),
        _ => None,
    }
}

/// The kind of a name of fifteen letters.
fn of_fifteen(name: &str) -> Option<Op>
    ensures { result ≡ named name.now (operations_of_length 15) }
{
    match name {
        _ if is(name, "reject_deferred") => Some(Op::RejectDeferred(0, 0)),
        _ if is(name, "get_value_int64") => Some(Op::GetValueInt64(0, 0)),
        _ if is(name, "reference_unref") => Some(Op::ReferenceUnref(0, 0)),
        _ if is(name, "create_function") => Some(Op::CreateFunction(0, 0, 0)),
        _ if is(name, "type_tag_object") => Some(Op::TypeTagObject(0, 0, 0)),
        _ if is(name, "create_external") => Some(Op::CreateExternal(0, None, 0, 0)),
        _ if is(name, "delete_property") => Some(Op::DeleteProperty(0, TextNo(0), 0)),
        _ => None,
    }
}

/// The kind of a name of sixteen letters.
fn of_sixteen(name: &str) -> Option<Op>
    ensures { result ≡ named name.now (operations_of_length 16) }
{
    match name {
        _ if is(name, "delete_reference") => Some(Op::DeleteReference(0)),
        _ if is(name, "resolve_deferred") => Some(Op::ResolveDeferred(0, 0)),
        _ if is(name, "queue_async_work") => Some(Op::QueueAsyncWork(0)),
        _ if is(name, "get_array_length") => Some(Op::GetArrayLength(0, 0)),
        _ if is(name, "create_reference") => Some(Op::CreateReference(0, 0, 0)),
        _ => None,
    }
}

/// The kind of a name of seventeen letters.
fn of_seventeen(name: &str) -> Option<Op>
    ensures { result ≡ named name.now (operations_of_length 17) }
{
    match name {
        _ if is(name, "open_handle_scope") => Some(Op::OpenHandleScope(0)),
        _ if is(name, "get_instance_data") => Some(Op::GetInstanceData(0)),
        _ if is(name, "create_typedarray") => Some(Op::CreateTypedarray(0, 0, 0, 0, 0)),
        _ if is(name, "delete_async_work") => Some(Op::DeleteAsyncWork(0)),
        _ if is(name, "cancel_async_work") => Some(Op::CancelAsyncWork(0)),
        _ if is(name, "set_instance_data") => Some(Op::SetInstanceData(0, None, 0)),
        _ if is(name, "create_async_work") => Some(Op::CreateAsyncWork(JobSpec::Sum(0), 0, 0, 0)),
        _ => None,
    }
}

/// The kind of a name of eighteen letters.
fn of_eighteen(name: &str) -> Option<Op>
    ensures { result ≡ named name.now (operations_of_length 18) }
{
    match name {
        _ if is(name, "close_handle_scope") => Some(Op::CloseHandleScope(0)),
        _ if is(name, "create_arraybuffer") => Some(Op::CreateArraybuffer(0, 0)),
        _ if is(name, "detach_arraybuffer") => Some(Op::DetachArraybuffer(0)),
        _ if is(name, "get_value_external") => Some(Op::GetValueExternal(0, 0)),
        _ if is(name, "get_reaction_value") => Some(Op::GetReactionValue(0)),
        _ if is(name, "get_property_names") => Some(Op::GetPropertyNames(0, 0)),
        _ if is(name, "create_string_utf8") => Some(Op::CreateStringUtf8(TextNo(0), 0)),
        _ if is(name, "set_named_property") => Some(Op::SetNamedProperty(0, TextNo(0), 0)),
        _ if is(name, "get_named_property") => Some(Op::GetNamedProperty(0, TextNo(0), 0)),
        _ if is(name, "has_named_property") => Some(Op::HasNamedProperty(0, TextNo(0), 0)),
        _ => None,
    }
}

/// The kind of a name of nineteen letters.
fn of_nineteen(name: &str) -> Option<Op>
    ensures { result ≡ named name.now (operations_of_length 19) }
{
    match name {
        _ if is(name, "get_last_error_info") => Some(Op::GetLastErrorInfo(0)),
        _ if is(name, "get_reference_value") => Some(Op::GetReferenceValue(0, 0)),
        _ if is(name, "create_bigint_int64") => Some(Op::CreateBigintInt64(0, 0)),
        _ => None,
    }
}

/// The kind of a name of twenty letters.
fn of_twenty(name: &str) -> Option<Op>
    ensures { result ≡ named name.now (operations_of_length 20) }
{
    match name {
        _ if is(name, "is_exception_pending") => Some(Op::IsExceptionPending(0)),
        _ if is(name, "get_arraybuffer_info") => Some(Op::GetArraybufferInfo(0, 0)),
        _ if is(name, "add_env_cleanup_hook") => Some(Op::AddEnvCleanupHook(0, 0)),
        _ => None,
    }
}

/// The kind of a name of twenty-one letters.
fn of_twenty_one(name: &str) -> Option<Op>
    ensures { result ≡ named name.now (operations_of_length 21) }
{
    match name {
        _ if is(name, "get_value_string_utf8") => Some(Op::GetValueStringUtf8(0, 0)),
        _ if is(name, "check_object_type_tag") => Some(Op::CheckObjectTypeTag(0, 0, 0, 0)),
        _ => None,
    }
}

/// The kind of a name of twenty-two letters.
fn of_twenty_two(name: &str) -> Option<Op>
    ensures { result ≡ named name.now (operations_of_length 22) }
{
    match name {
        _ if is(name, "get_value_bigint_int64") => Some(Op::GetValueBigintInt64(0, 0)),
        _ if is(name, "add_async_cleanup_hook") => Some(Op::AddAsyncCleanupHook(0, 0, 0)),
        _ => None,
    }
}

/// The kind of a name of twenty-three letters.
fn of_twenty_three(name: &str) -> Option<Op>
    ensures { result ≡ named name.now (operations_of_length 23) }
{
    match name {
        _ if is(name, "ref_threadsafe_function") => Some(Op::RefThreadsafeFunction(0)),
        _ if is(name, "remove_env_cleanup_hook") => Some(Op::RemoveEnvCleanupHook(0, 0)),
        _ if is(name, "is_detached_arraybuffer") => Some(Op::IsDetachedArraybuffer(0, 0)),
        _ => None,
    }
}

/// The kind of a name of twenty-five letters.
fn of_twenty_five(name: &str) -> Option<Op>
    ensures { result ≡ named name.now (operations_of_length 25) }
{
    match name {
        _ if is(name, "remove_async_cleanup_hook") => Some(Op::RemoveAsyncCleanupHook(0)),
        _ if is(name, "unref_threadsafe_function") => Some(Op::UnrefThreadsafeFunction(0)),
        _ => None,
    }
}

/// The kind of a name of twenty-seven letters.
fn of_twenty_seven(name: &str) -> Option<Op>
    ensures { result ≡ named name.now (operations_of_length 27) }
{
    match name {
        _ if is(name, "open_escapable_handle_scope") => Some(Op::OpenEscapableHandleScope(0)),
        _ if is(name, "create_external_arraybuffer") => {
            Some(Op::CreateExternalArraybuffer(0, 0, 0, 0, 0))
        }
        _ if is(name, "acquire_threadsafe_function") => Some(Op::AcquireThreadsafeFunction(0)),
        _ if is(name, "release_threadsafe_function") => Some(Op::ReleaseThreadsafeFunction(
            0,
            Release::Release,
        )),
        _ => None,
    }
}

/// The kind of a name of twenty-eight letters.
fn of_twenty_eight(name: &str) -> Option<Op>
    ensures { result ≡ named name.now (operations_of_length 28) }
{
    match name {
        _ if is(name, "get_and_clear_last_exception") => Some(Op::GetAndClearLastException(0)),
        _ if is(name, "close_escapable_handle_scope") => Some(Op::CloseEscapableHandleScope(0)),
        _ => None,
    }
}

/// The kind that has a name of this length.
fn of_length(name: &str, length: usize) -> Option<Op>
    ensures { result ≡ named name.now (operations_of_length length) }
{
    match length {
        4 => of_four(name),
        5 => if_named(name, "throw", Op::Throw(0)),
        6 => of_six(name),
        7 => if_named(name, "collect", Op::Collect(0)),
        8 => of_eight(name),
        10 => of_ten(name),
        11 => of_eleven(name),
        12 => of_twelve(name),
        13 => of_thirteen(name),
        14 => of_fourteen(name),
        15 => of_fifteen(name),
        16 => of_sixteen(name),
        17 => of_seventeen(name),
        18 => of_eighteen(name),
        19 => of_nineteen(name),
        20 => of_twenty(name),
        21 => of_twenty_one(name),
        22 => of_twenty_two(name),
        23 => of_twenty_three(name),
        24 => if_named(
            name,
            "call_threadsafe_function",
            Op::CallThreadsafeFunction(0, 0, Mode::Nonblocking),
        ),
        25 => of_twenty_five(name),
        26 => if_named(
            name,
            "create_threadsafe_function",
            Op::CreateThreadsafeFunction(None, None, 0, 0, None, 0, 0),
        ),
        27 => of_twenty_seven(name),
        28 => of_twenty_eight(name),
        31 => if_named(
            name,
            "get_threadsafe_function_context",
            Op::GetThreadsafeFunctionContext(0, 0),
        ),
        _ => None,
    }
}

/// The kind of operation that has a name, as an operation of that kind with any arguments.
#[tactic(auto, using(crate::proofs::ByLength::by_length))]
pub(crate) fn kind_named(name: &str) -> Option<Op>
    ensures { result ≡ named name.now operations }
{
    of_length(name, name.len())
}
