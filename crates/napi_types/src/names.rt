//! The words of a trace for calls, steps of the host, kinds of values, causes and ends.
ghost use Rattle.std.specs.Prelude.{◌≡◌};
ghost use Rattle.napi_types.specs.scripts.Names.{call_name, host_name, what_name, kind_name, cause_name, loop_end_name, why_name};

use crate::{Call, Cause, HostStep, Kind, LoopEnd, What, Why};

impl Call {
    /// The name that the Node-API manual gives the call, without `napi_`. `collect` and `exit` are calls of this environment's own.
    pub fn name(self) -> &'static str
        ensures { result.now ≡ call_name self }
    {
        match self {
            Call::GetUndefined => "get_undefined",
            Call::GetNull => "get_null",
            Call::GetGlobal => "get_global",
            Call::GetBoolean(_) => "get_boolean",
            Call::CreateInt64(_) => "create_int64",
            Call::CreateBigintInt64(_) => "create_bigint_int64",
            Call::CreateStringUtf8(_) => "create_string_utf8",
            Call::CreateSymbol(_) => "create_symbol",
            Call::CreateObject => "create_object",
            Call::CreateArray => "create_array",
            Call::CreateFunction(..) => "create_function",
            Call::CreateExternal(..) => "create_external",
            Call::CreateError(..) => "create_error",
            Call::Typeof(_) => "typeof",
            Call::IsArray(_) => "is_array",
            Call::IsError(_) => "is_error",
            Call::GetValueInt64(_) => "get_value_int64",
            Call::GetValueBigintInt64(_) => "get_value_bigint_int64",
            Call::GetValueBool(_) => "get_value_bool",
            Call::GetValueStringUtf8(_) => "get_value_string_utf8",
            Call::GetValueExternal(_) => "get_value_external",
            Call::GetArrayLength(_) => "get_array_length",
            Call::StrictEquals(..) => "strict_equals",
            Call::SetNamedProperty(..) => "set_named_property",
            Call::GetNamedProperty(..) => "get_named_property",
            Call::HasNamedProperty(..) => "has_named_property",
            Call::DeleteProperty(..) => "delete_property",
            Call::GetPropertyNames(_) => "get_property_names",
            Call::SetElement(..) => "set_element",
            Call::GetElement(..) => "get_element",
            Call::HasElement(..) => "has_element",
            Call::OpenHandleScope => "open_handle_scope",
            Call::OpenEscapableHandleScope => "open_escapable_handle_scope",
            Call::CloseHandleScope(_) => "close_handle_scope",
            Call::CloseEscapableHandleScope(_) => "close_escapable_handle_scope",
            Call::EscapeHandle(..) => "escape_handle",
            Call::CreateReference(..) => "create_reference",
            Call::DeleteReference(_) => "delete_reference",
            Call::ReferenceRef(_) => "reference_ref",
            Call::ReferenceUnref(_) => "reference_unref",
            Call::GetReferenceValue(_) => "get_reference_value",
            Call::Wrap(..) => "wrap",
            Call::Unwrap(_) => "unwrap",
            Call::RemoveWrap(_) => "remove_wrap",
            Call::TypeTagObject(..) => "type_tag_object",
            Call::CheckObjectTypeTag(..) => "check_object_type_tag",
            Call::AddFinalizer(..) => "add_finalizer",
            Call::CallFunction(..) => "call_function",
            Call::Throw(_) => "throw",
            Call::ThrowError(..) => "throw_error",
            Call::IsExceptionPending => "is_exception_pending",
            Call::GetAndClearLastException => "get_and_clear_last_exception",
            Call::GetLastErrorInfo => "get_last_error_info",
            Call::SetInstanceData(..) => "set_instance_data",
            Call::GetInstanceData => "get_instance_data",
            Call::AddEnvCleanupHook(..) => "add_env_cleanup_hook",
            Call::RemoveEnvCleanupHook(..) => "remove_env_cleanup_hook",
            Call::AddAsyncCleanupHook(..) => "add_async_cleanup_hook",
            Call::RemoveAsyncCleanupHook(_) => "remove_async_cleanup_hook",
            Call::CreatePromise => "create_promise",
            Call::ResolveDeferred(..) => "resolve_deferred",
            Call::RejectDeferred(..) => "reject_deferred",
            Call::IsPromise(_) => "is_promise",
            Call::AddReaction(..) => "add_reaction",
            Call::GetReactionValue => "get_reaction_value",
            Call::CreateArraybuffer(_) => "create_arraybuffer",
            Call::CreateExternalArraybuffer(..) => "create_external_arraybuffer",
            Call::IsArraybuffer(_) => "is_arraybuffer",
            Call::IsDetachedArraybuffer(_) => "is_detached_arraybuffer",
            Call::GetArraybufferInfo(_) => "get_arraybuffer_info",
            Call::DetachArraybuffer(_) => "detach_arraybuffer",
            Call::CreateTypedarray(..) => "create_typedarray",
            Call::GetView(..) => "get_view",
            Call::SetView(..) => "set_view",
            Call::CreateAsyncWork(..) => "create_async_work",
            Call::DeleteAsyncWork(_) => "delete_async_work",
            Call::CancelAsyncWork(_) => "cancel_async_work",
            Call::QueueAsyncWork(_) => "queue_async_work",
            Call::CreateThreadsafeFunction(..) => "create_threadsafe_function",
            Call::CallThreadsafeFunction(..) => "call_threadsafe_function",
            Call::AcquireThreadsafeFunction(_) => "acquire_threadsafe_function",
            Call::ReleaseThreadsafeFunction(..) => "release_threadsafe_function",
            Call::RefThreadsafeFunction(_) => "ref_threadsafe_function",
            Call::UnrefThreadsafeFunction(_) => "unref_threadsafe_function",
            Call::GetThreadsafeFunctionContext(_) => "get_threadsafe_function_context",
            Call::GetVersion => "get_version",
            Call::Collect => "collect",
            Call::Exit => "exit",
        }
    }
}

impl HostStep {
    /// The name of the event in a trace.
    pub fn name(self) -> &'static str
        ensures { result.now ≡ host_name self }
    {
        match self {
            HostStep::Opened => "opened",
            HostStep::Begin => "begin",
            HostStep::End => "end",
            HostStep::Go => "go",
            HostStep::LoopEnd => "loop_end",
            HostStep::Abandon => "abandon",
            HostStep::CloseTsfn => "close_tsfn",
            HostStep::FinishTsfn => "finish_tsfn",
            HostStep::Drain => "drain",
            HostStep::Finals => "finals",
            HostStep::Gone => "gone",
            HostStep::Start => "start",
            HostStep::Finish => "finish",
            HostStep::ActorEnd => "actor_end",
        }
    }
}

impl What {
    /// The name in a trace of what happened.
    pub fn name(self) -> &'static str
        ensures { result.now ≡ what_name self }
    {
        match self {
            What::Call(call) => call.name(),
            What::Host(step) => step.name(),
        }
    }
}

impl Kind {
    /// The kind's word in a trace, in lower case.
    pub fn name(self) -> &'static str
        ensures { result.now ≡ kind_name self }
    {
        match self {
            Kind::Undefined => "undefined",
            Kind::Null => "null",
            Kind::Boolean => "boolean",
            Kind::Number => "number",
            Kind::String => "string",
            Kind::Symbol => "symbol",
            Kind::Object => "object",
            Kind::Function => "function",
            Kind::External => "external",
            Kind::Bigint => "bigint",
        }
    }
}

impl Cause {
    /// The cause's word in a trace.
    pub fn name(self) -> &'static str
        ensures { result.now ≡ cause_name self }
    {
        match self {
            Cause::Init => "init",
            Cause::Call => "call",
            Cause::Finalize => "finalize",
            Cause::Complete => "complete",
            Cause::Item => "item",
            Cause::Torn => "torn",
            Cause::Hook => "hook",
            Cause::Reaction => "reaction",
        }
    }
}

impl LoopEnd {
    /// The word in a trace for how the loop ended.
    pub fn name(self) -> &'static str
        ensures { result.now ≡ loop_end_name self }
    {
        match self {
            LoopEnd::Exit => "exit",
            LoopEnd::Idle => "idle",
            LoopEnd::Quiet => "quiet",
        }
    }
}

impl Why {
    /// The word in a trace for why a frame or a thread was cut.
    pub fn name(self) -> &'static str
        ensures { result.now ≡ why_name self }
    {
        match self {
            Why::Memory => "memory",
            Why::Full => "full",
            Why::Asks => "asks",
        }
    }
}
