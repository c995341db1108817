//! Calls of the environment, by their names in the Node-API manual, and what an addon asks.
ghost use Rattle.std.specs.Prelude.{◌≡◌, ◌&&◌, not};
ghost use Rattle.napi_types.specs.plain.CallFacts.{AreFactsOf};
ghost use Rattle.napi_types.specs.plain.CallKinds.{is_entering_group, is_value_group};
ghost use Rattle.napi_types.specs.plain.Guards.{is_shared_group};

use crate::{AsyncHookId, DeferredId, HandleId, RefId, ScopeId, TextNo, TsfnId, WorkId};

/// What an asynchronous work computes.
#[derive(Clone, Copy, Debug, PartialEq, Eq)]
pub enum JobSpec {
    /// The sum of the whole numbers up to this one.
    Sum(u64),
    /// A number, mixed so many times.
    Mix(u64, u64),
}

/// Whether a call of a thread-safe function may wait where its queue is full.
#[derive(Clone, Copy, Debug, PartialEq, Eq)]
pub enum Mode {
    Nonblocking,
    Blocking,
}

/// How a thread-safe function is released: by one, or with all that still hold it.
#[derive(Clone, Copy, Debug, PartialEq, Eq)]
pub enum Release {
    Release,
    Abort,
}

/// The arguments of a call of a function, at most four. A count above 4 is read as 4, and unused places are 0.
#[derive(Clone, Copy, Debug, PartialEq, Eq)]
pub struct Args {
    pub count: u8,
    pub handles: [HandleId; 4],
}

/// A call of an addon, with its arguments in the order of the table of calls, without the register that keeps the result.
///
/// `wrap` and `add_finalizer` tell in its place whether a reference is asked for.
#[derive(Clone, Copy)]
pub enum Call {
    // Values.
    GetUndefined,
    GetNull,
    GetGlobal,
    GetBoolean(bool),
    CreateInt64(i64),
    CreateBigintInt64(i64),
    CreateStringUtf8(TextNo),
    /// The description, where there is one.
    CreateSymbol(Option<HandleId>),
    CreateObject,
    CreateArray,
    /// The entry and the payload.
    CreateFunction(u32, u64),
    /// The payload, the finalizer's entry and its hint.
    CreateExternal(u64, Option<u32>, u64),
    /// The code and the message.
    CreateError(Option<HandleId>, HandleId),
    Typeof(HandleId),
    IsArray(HandleId),
    IsError(HandleId),
    GetValueInt64(HandleId),
    GetValueBigintInt64(HandleId),
    GetValueBool(HandleId),
    GetValueStringUtf8(HandleId),
    GetValueExternal(HandleId),
    GetArrayLength(HandleId),
    StrictEquals(HandleId, HandleId),

    // Properties and elements: the object, the name or the index, the value.
    SetNamedProperty(HandleId, TextNo, HandleId),
    GetNamedProperty(HandleId, TextNo),
    HasNamedProperty(HandleId, TextNo),
    DeleteProperty(HandleId, TextNo),
    GetPropertyNames(HandleId),
    SetElement(HandleId, u64, HandleId),
    GetElement(HandleId, u64),
    HasElement(HandleId, u64),

    // Scopes.
    OpenHandleScope,
    OpenEscapableHandleScope,
    CloseHandleScope(ScopeId),
    CloseEscapableHandleScope(ScopeId),
    EscapeHandle(ScopeId, HandleId),

    // References.
    /// The value and the first count.
    CreateReference(HandleId, u32),
    DeleteReference(RefId),
    ReferenceRef(RefId),
    ReferenceUnref(RefId),
    GetReferenceValue(RefId),

    // Wraps, type tags and finalizers.
    /// The object, the payload, the finalizer's entry and its hint, and whether a reference is asked for.
    Wrap(HandleId, u64, Option<u32>, u64, bool),
    Unwrap(HandleId),
    RemoveWrap(HandleId),
    /// The object, and the tag's lower and upper half.
    TypeTagObject(HandleId, u64, u64),
    CheckObjectTypeTag(HandleId, u64, u64),
    /// The object, the payload, the finalizer's entry and its hint, and whether a reference is asked for.
    AddFinalizer(HandleId, u64, u32, u64, bool),

    // Functions and exceptions.
    /// The receiver, the function and the arguments.
    CallFunction(Option<HandleId>, HandleId, Args),
    Throw(HandleId),
    /// The code and the message.
    ThrowError(Option<TextNo>, TextNo),
    IsExceptionPending,
    GetAndClearLastException,
    GetLastErrorInfo,

    // Instance data and cleanup hooks.
    /// The payload, the finalizer's entry and its hint.
    SetInstanceData(u64, Option<u32>, u64),
    GetInstanceData,
    /// The hook's entry and its argument.
    AddEnvCleanupHook(u32, u64),
    RemoveEnvCleanupHook(u32, u64),
    /// The hook's entry and its argument.
    AddAsyncCleanupHook(u32, u64),
    RemoveAsyncCleanupHook(AsyncHookId),

    // Promises.
    CreatePromise,
    /// The deferred and the value.
    ResolveDeferred(DeferredId, HandleId),
    RejectDeferred(DeferredId, HandleId),
    IsPromise(HandleId),
    /// The promise, the reaction's entry and its payload. This call and the next are this project's own.
    AddReaction(HandleId, u32, u64),
    GetReactionValue,

    // Array buffers and their views.
    /// The length in bytes.
    CreateArraybuffer(u64),
    /// The length in bytes, the payload, the finalizer's entry and its hint.
    CreateExternalArraybuffer(u64, u64, u32, u64),
    IsArraybuffer(HandleId),
    IsDetachedArraybuffer(HandleId),
    GetArraybufferInfo(HandleId),
    DetachArraybuffer(HandleId),
    /// The type by the manual's number, the buffer, the offset in bytes, and the length in elements.
    CreateTypedarray(u64, HandleId, u64, u64),
    /// The view and the index. This call and the next are this project's own.
    GetView(HandleId, u64),
    /// The view, the index and the number.
    SetView(HandleId, u64, u64),

    // Asynchronous works.
    /// The job, the completion's entry and the payload.
    CreateAsyncWork(JobSpec, u32, u64),
    DeleteAsyncWork(WorkId),
    CancelAsyncWork(WorkId),
    QueueAsyncWork(WorkId),

    // Thread-safe functions.
    /// The function, the entry that makes the calls, the queue's maximum (0 for none), the initial thread count, the
    /// finalizer's entry, and the context.
    CreateThreadsafeFunction(Option<HandleId>, Option<u32>, u32, u32, Option<u32>, u64),
    /// The function, the payload and the mode.
    CallThreadsafeFunction(TsfnId, u64, Mode),
    AcquireThreadsafeFunction(TsfnId),
    ReleaseThreadsafeFunction(TsfnId, Release),
    RefThreadsafeFunction(TsfnId),
    UnrefThreadsafeFunction(TsfnId),
    GetThreadsafeFunctionContext(TsfnId),

    // Others. `collect` and `exit` are this project's own.
    GetVersion,
    Collect,
    Exit,
}

/// The groups of calls: each call is of one.
#[derive(Clone, Copy)]
pub enum CallGroup {
    OnValues,
    OnProperties,
    OnFunctions,
    OnScopes,
    OnReferences,
    OnWraps,
    OnExternals,
    OnEntering,
    OnExceptions,
    OnInstances,
    OnHooks,
    OnPromises,
    OnBuffers,
    OnWorks,
    OnTsfns,
    OnVersion,
    OnCollection,
    OnExit,
}

impl CallGroup {
    /// Whether values and the handles to them tell all of a call of the group: it is on values, properties or elements, or makes a function.
    pub fn is_of_values(self) -> bool
        ensures { result ≡ is_value_group self }
    {
        matches!(
            self,
            CallGroup::OnValues | CallGroup::OnProperties | CallGroup::OnFunctions
        )
    }

    /// Whether the hub answers a call of the group, whose entry stands in the history.
    pub fn is_shared(self) -> bool
        ensures { result ≡ is_shared_group self }
    {
        matches!(self, CallGroup::OnWorks | CallGroup::OnTsfns)
    }

    /// Whether a call of the group is answered at once: it is neither shared, nor does it enter a frame.
    pub fn is_answered_at_once(self) -> bool
        ensures { result ≡ (not (is_shared_group self) && not (is_entering_group self)) }
    {
        !self.is_shared() && !matches!(self, CallGroup::OnEntering)
    }
}

/// What is known of a call before it is made.
#[derive(Clone, Copy)]
pub struct Facts {
    pub group: CallGroup,
    /// Whether the call is refused while an exception is pending, and in the teardown.
    pub guarded: bool,
    /// Whether it registers something to be done later, and so is refused in the teardown.
    pub registers: bool,
    /// How many places it needs in the list of its entry, counted as if it were accepted.
    pub places: u32,
}

impl Call {
    /// The call's row in the table of calls: its group, whether it is guarded, whether it registers, and how many places it needs.
    #[inline(always)]
    pub fn facts(&self) -> Facts
        ensures { AreFactsOf result self.now }
    {
        let (group, guarded, registers, places) = match self {
            Call::GetUndefined
            | Call::GetNull
            | Call::GetGlobal
            | Call::GetBoolean(_)
            | Call::CreateInt64(_)
            | Call::CreateBigintInt64(_)
            | Call::CreateStringUtf8(_)
            | Call::CreateSymbol(_)
            | Call::CreateObject
            | Call::CreateArray
            | Call::CreateError(..)
            | Call::Typeof(_)
            | Call::IsArray(_)
            | Call::IsError(_)
            | Call::GetValueInt64(_)
            | Call::GetValueBigintInt64(_)
            | Call::GetValueBool(_)
            | Call::GetValueStringUtf8(_)
            | Call::GetValueExternal(_)
            | Call::GetArrayLength(_)
            | Call::IsPromise(_) => (CallGroup::OnValues, false, false, 1),
            Call::StrictEquals(..) => (CallGroup::OnValues, true, false, 1),
            Call::SetNamedProperty(..)
            | Call::GetNamedProperty(..)
            | Call::HasNamedProperty(..)
            | Call::DeleteProperty(..)
            | Call::GetPropertyNames(_)
            | Call::SetElement(..)
            | Call::GetElement(..)
            | Call::HasElement(..) => (CallGroup::OnProperties, true, false, 1),
            Call::CreateFunction(..) => (CallGroup::OnFunctions, true, false, 1),
            Call::OpenHandleScope
            | Call::OpenEscapableHandleScope
            | Call::CloseHandleScope(_)
            | Call::CloseEscapableHandleScope(_)
            | Call::EscapeHandle(..) => (CallGroup::OnScopes, false, false, 1),
            Call::CreateReference(..)
            | Call::DeleteReference(_)
            | Call::ReferenceRef(_)
            | Call::ReferenceUnref(_)
            | Call::GetReferenceValue(_) => (CallGroup::OnReferences, false, false, 1),
            Call::Wrap(_, _, Some(_), _, _) => (CallGroup::OnWraps, true, true, 3),
            Call::Wrap(_, _, None, _, _)
            | Call::Unwrap(_)
            | Call::RemoveWrap(_)
            | Call::TypeTagObject(..)
            | Call::CheckObjectTypeTag(..) => (CallGroup::OnWraps, true, false, 1),
            Call::AddFinalizer(..) => (CallGroup::OnWraps, false, true, 3),
            Call::CreateExternal(_, Some(_), _) => (CallGroup::OnExternals, false, true, 3),
            Call::CreateExternal(_, None, _) => (CallGroup::OnExternals, false, false, 1),
            Call::CallFunction(..) => (CallGroup::OnEntering, true, false, 2),
            Call::Throw(_) | Call::ThrowError(..) => (CallGroup::OnExceptions, true, false, 1),
            Call::IsExceptionPending | Call::GetAndClearLastException | Call::GetLastErrorInfo => (
                CallGroup::OnExceptions,
                false,
                false,
                1,
            ),
            Call::SetInstanceData(_, Some(_), _) => (CallGroup::OnInstances, false, true, 3),
            Call::SetInstanceData(_, None, _) | Call::GetInstanceData => {
                (CallGroup::OnInstances, false, false, 1)
            }
            Call::AddEnvCleanupHook(..) | Call::AddAsyncCleanupHook(..) => {
                (CallGroup::OnHooks, false, true, 3)
            }
            Call::RemoveEnvCleanupHook(..) | Call::RemoveAsyncCleanupHook(_) => {
                (CallGroup::OnHooks, false, false, 1)
            }
            Call::CreatePromise | Call::ResolveDeferred(..) | Call::RejectDeferred(..) => {
                (CallGroup::OnPromises, true, false, 1)
            }
            Call::AddReaction(..) => (CallGroup::OnPromises, true, true, 3),
            Call::GetReactionValue => (CallGroup::OnPromises, false, false, 1),
            Call::CreateArraybuffer(_)
            | Call::IsArraybuffer(_)
            | Call::IsDetachedArraybuffer(_)
            | Call::GetArraybufferInfo(_)
            | Call::DetachArraybuffer(_)
            | Call::GetView(..)
            | Call::SetView(..) => (CallGroup::OnBuffers, false, false, 1),
            Call::CreateExternalArraybuffer(..) => (CallGroup::OnBuffers, false, true, 3),
            Call::CreateTypedarray(..) => (CallGroup::OnBuffers, true, false, 1),
            Call::CreateAsyncWork(..) => (CallGroup::OnWorks, false, true, 1),
            Call::DeleteAsyncWork(_) | Call::CancelAsyncWork(_) => {
                (CallGroup::OnWorks, false, false, 1)
            }
            Call::QueueAsyncWork(_) => (CallGroup::OnWorks, false, true, 5),
            Call::CreateThreadsafeFunction(_, _, _, _, Some(_), _) => {
                (CallGroup::OnTsfns, false, true, 5)
            }
            Call::CreateThreadsafeFunction(_, _, _, _, None, _)
            | Call::CallThreadsafeFunction(..) => (CallGroup::OnTsfns, false, true, 3),
            Call::AcquireThreadsafeFunction(_)
            | Call::ReleaseThreadsafeFunction(..)
            | Call::RefThreadsafeFunction(_)
            | Call::UnrefThreadsafeFunction(_)
            | Call::GetThreadsafeFunctionContext(_) => (CallGroup::OnTsfns, false, false, 1),
            Call::GetVersion => (CallGroup::OnVersion, false, false, 1),
            Call::Collect => (CallGroup::OnCollection, false, false, 1),
            Call::Exit => (CallGroup::OnExit, false, false, 1),
        };
        Facts {
            group,
            guarded,
            registers,
            places,
        }
    }
}

/// What an addon answers when its frame asks it for the next step.
#[derive(Clone, Copy)]
pub enum Ask {
    /// Make this call.
    Do(Call),
    /// Leave the frame, with the value of a handle where one is given.
    Leave(Option<HandleId>),
}
