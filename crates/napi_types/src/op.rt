//! Operations of a script: calls whose arguments stand in registers.
ghost use Rattle.std.specs.Prelude.{◌≡◌};
ghost use Rattle.napi_types.specs.scripts.ScriptOperations.{operation_name};

use crate::{Ask, JobSpec, Mode, Release, TextNo};

/// A list of at most four registers. A count above 4 is read as 4.
#[derive(Clone, Copy, Debug, PartialEq, Eq)]
pub struct Regs {
    pub count: u8,
    pub regs: [u8; 4],
}

/// One operation of a script: a call with its arguments in the order of `Call`, where each handle, scope, reference, work
/// and function is a register that holds its number, from 0 to 31. Where the call has a result, the last register keeps it.
#[derive(Clone, Copy)]
pub enum Op {
    GetUndefined(u8),
    GetNull(u8),
    GetGlobal(u8),
    GetBoolean(bool, u8),
    CreateInt64(i64, u8),
    CreateBigintInt64(i64, u8),
    CreateStringUtf8(TextNo, u8),
    CreateSymbol(Option<u8>, u8),
    CreateObject(u8),
    CreateArray(u8),
    CreateFunction(u32, u64, u8),
    CreateExternal(u64, Option<u32>, u64, u8),
    CreateError(Option<u8>, u8, u8),
    Typeof(u8, u8),
    IsArray(u8, u8),
    IsError(u8, u8),
    GetValueInt64(u8, u8),
    GetValueBigintInt64(u8, u8),
    GetValueBool(u8, u8),
    GetValueStringUtf8(u8, u8),
    GetValueExternal(u8, u8),
    GetArrayLength(u8, u8),
    StrictEquals(u8, u8, u8),
    SetNamedProperty(u8, TextNo, u8),
    GetNamedProperty(u8, TextNo, u8),
    HasNamedProperty(u8, TextNo, u8),
    DeleteProperty(u8, TextNo, u8),
    GetPropertyNames(u8, u8),
    SetElement(u8, u64, u8),
    GetElement(u8, u64, u8),
    HasElement(u8, u64, u8),
    OpenHandleScope(u8),
    OpenEscapableHandleScope(u8),
    CloseHandleScope(u8),
    CloseEscapableHandleScope(u8),
    EscapeHandle(u8, u8, u8),
    CreateReference(u8, u32, u8),
    DeleteReference(u8),
    ReferenceRef(u8, u8),
    ReferenceUnref(u8, u8),
    GetReferenceValue(u8, u8),
    Wrap(u8, u64, Option<u32>, u64, Option<u8>),
    Unwrap(u8, u8),
    RemoveWrap(u8, u8),
    TypeTagObject(u8, u64, u64),
    CheckObjectTypeTag(u8, u64, u64, u8),
    AddFinalizer(u8, u64, u32, u64, Option<u8>),
    CallFunction(Option<u8>, u8, Regs, u8),
    Throw(u8),
    ThrowError(Option<TextNo>, TextNo),
    IsExceptionPending(u8),
    GetAndClearLastException(u8),
    GetLastErrorInfo(u8),
    SetInstanceData(u64, Option<u32>, u64),
    GetInstanceData(u8),
    AddEnvCleanupHook(u32, u64),
    RemoveEnvCleanupHook(u32, u64),
    AddAsyncCleanupHook(u32, u64, u8),
    RemoveAsyncCleanupHook(u8),
    /// Two registers keep the result: the first the deferred, the second the handle of the promise.
    CreatePromise(u8, u8),
    ResolveDeferred(u8, u8),
    RejectDeferred(u8, u8),
    IsPromise(u8, u8),
    AddReaction(u8, u32, u64),
    GetReactionValue(u8),
    CreateArraybuffer(u64, u8),
    CreateExternalArraybuffer(u64, u64, u32, u64, u8),
    IsArraybuffer(u8, u8),
    IsDetachedArraybuffer(u8, u8),
    GetArraybufferInfo(u8, u8),
    DetachArraybuffer(u8),
    CreateTypedarray(u64, u8, u64, u64, u8),
    GetView(u8, u64, u8),
    SetView(u8, u64, u64),
    CreateAsyncWork(JobSpec, u32, u64, u8),
    DeleteAsyncWork(u8),
    CancelAsyncWork(u8),
    QueueAsyncWork(u8),
    CreateThreadsafeFunction(Option<u8>, Option<u32>, u32, u32, Option<u32>, u64, u8),
    CallThreadsafeFunction(u8, u64, Mode),
    AcquireThreadsafeFunction(u8),
    ReleaseThreadsafeFunction(u8, Release),
    RefThreadsafeFunction(u8),
    UnrefThreadsafeFunction(u8),
    GetThreadsafeFunctionContext(u8, u8),
    GetVersion(u8),
    Collect(u8),
    Exit,
    /// Leaves the frame, with the handle in a register where one is named.
    Return(Option<u8>),
    /// A script thread's call of a thread-safe function: the function's number itself, the payload and the mode.
    ThreadCall(u64, u64, Mode),
    ThreadAcquire(u64),
    ThreadRelease(u64, Release),
}

impl Op {
    /// The name by which a script asks the operation: that of its call, and `return`.
    pub fn name(&self) -> &'static str
        ensures { result.now ≡ operation_name self.now }
    {
        match self.fill(&[0; 32]) {
            Ask::Do(call) => call.name(),
            Ask::Leave(_) => "return",
        }
    }
}
