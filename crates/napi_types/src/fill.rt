//! How an operation of a script is filled from registers, and what a register keeps of its result.
ghost use Rattle.std.specs.Prelude.{◌≡◌, option_map};
ghost use Rattle.napi_types.specs.scripts.Registers.{register_at as number_in_register, handle_in, arguments_in, operation_ask, one_or_two, result_registers, register_values};

use crate::{
    Args, Ask, AsyncHookId, Call, DeferredId, HandleId, Op, Out, RefId, Regs, ScopeId, TsfnId,
    WorkId,
};

/// The number in a register, 0 past the last one.
fn register_at(regs: &[u64; 32], at: u8) -> u64
    ensures { result ≡ number_in_register regs.now at }
{
    regs.get(at as usize).copied().unwrap_or(0)
}

/// The handle whose number is in a register.
fn handle_at(regs: &[u64; 32], at: u8) -> HandleId
    ensures { result ≡ handle_in regs.now at }
{
    HandleId(register_at(regs, at))
}

/// The handle whose number is in a register, where one is named.
fn optional_handle_at(regs: &[u64; 32], at: Option<u8>) -> Option<HandleId>
    ensures { result ≡ option_map (handle_in regs.now) at }
{
    at.map(|at| handle_at(regs, at))
}

/// The arguments whose handles are in registers.
fn arguments_at(regs: &[u64; 32], list: Regs) -> Args
    ensures { result ≡ arguments_in regs.now list }
{
    let count = list.count.min(4);
    let [first, second, third, fourth] = list.regs;
    let argument = |place: u8, at: u8| {
        if place < count {
            handle_at(regs, at)
        } else {
            HandleId(0)
        }
    };
    Args {
        count,
        handles: [
            argument(0, first),
            argument(1, second),
            argument(2, third),
            argument(3, fourth),
        ],
    }
}

impl Op {
    /// What an addon with these registers asks by this operation. A register above 31 reads as 0.
    pub fn fill(&self, regs: &[u64; 32]) -> Ask
        ensures { result ≡ operation_ask self.now regs.now }
    {
        let call = match *self {
            Op::GetUndefined(_) => Call::GetUndefined,
            Op::GetNull(_) => Call::GetNull,
            Op::GetGlobal(_) => Call::GetGlobal,
            Op::GetBoolean(flag, _) => Call::GetBoolean(flag),
            Op::CreateInt64(number, _) => Call::CreateInt64(number),
            Op::CreateBigintInt64(number, _) => Call::CreateBigintInt64(number),
            Op::CreateStringUtf8(text, _) => Call::CreateStringUtf8(text),
            Op::CreateSymbol(description, _) => Call::CreateSymbol(optional_handle_at(
                regs,
                description,
            )),
            Op::CreateObject(_) => Call::CreateObject,
            Op::CreateArray(_) => Call::CreateArray,
            Op::CreateFunction(entry, payload, _) => Call::CreateFunction(entry, payload),
            Op::CreateExternal(payload, entry, hint, _) => Call::CreateExternal(
                payload, entry, hint,
            ),
            Op::CreateError(code, message, _) => Call::CreateError(
                optional_handle_at(regs, code),
                handle_at(regs, message),
            ),
            Op::Typeof(value, _) => Call::Typeof(handle_at(regs, value)),
            Op::IsArray(value, _) => Call::IsArray(handle_at(regs, value)),
            Op::IsError(value, _) => Call::IsError(handle_at(regs, value)),
            Op::GetValueInt64(value, _) => Call::GetValueInt64(handle_at(regs, value)),
            Op::GetValueBigintInt64(value, _) => Call::GetValueBigintInt64(handle_at(regs, value)),
            Op::GetValueBool(value, _) => Call::GetValueBool(handle_at(regs, value)),
            Op::GetValueStringUtf8(value, _) => Call::GetValueStringUtf8(handle_at(regs, value)),
            Op::GetValueExternal(value, _) => Call::GetValueExternal(handle_at(regs, value)),
            Op::GetArrayLength(value, _) => Call::GetArrayLength(handle_at(regs, value)),
            Op::StrictEquals(left, right, _) => Call::StrictEquals(
                handle_at(regs, left),
                handle_at(regs, right),
            ),
            Op::SetNamedProperty(object, name, value) => Call::SetNamedProperty(
                handle_at(regs, object),
                name,
                handle_at(regs, value),
            ),
            Op::GetNamedProperty(object, name, _) => Call::GetNamedProperty(
                handle_at(regs, object),
                name,
            ),
            Op::HasNamedProperty(object, name, _) => Call::HasNamedProperty(
                handle_at(regs, object),
                name,
            ),
            Op::DeleteProperty(object, name, _) => Call::DeleteProperty(
                handle_at(regs, object),
                name,
            ),
            Op::GetPropertyNames(object, _) => Call::GetPropertyNames(handle_at(regs, object)),
            Op::SetElement(object, index, value) => Call::SetElement(
                handle_at(regs, object),
                index,
                handle_at(regs, value),
            ),
            Op::GetElement(object, index, _) => Call::GetElement(handle_at(regs, object), index),
            Op::HasElement(object, index, _) => Call::HasElement(handle_at(regs, object), index),
            Op::OpenHandleScope(_) => Call::OpenHandleScope,
            Op::OpenEscapableHandleScope(_) => Call::OpenEscapableHandleScope,
            Op::CloseHandleScope(scope) => Call::CloseHandleScope(ScopeId(register_at(
                regs, scope,
            ))),
            Op::CloseEscapableHandleScope(scope) => Call::CloseEscapableHandleScope(ScopeId(
                register_at(regs, scope),
            )),
            Op::EscapeHandle(scope, value, _) => Call::EscapeHandle(
                ScopeId(register_at(regs, scope)),
                handle_at(regs, value),
            ),
            Op::CreateReference(value, count, _) => Call::CreateReference(
                handle_at(regs, value),
                count,
            ),
            Op::DeleteReference(reference) => Call::DeleteReference(RefId(register_at(
                regs, reference,
            ))),
            Op::ReferenceRef(reference, _) => Call::ReferenceRef(RefId(register_at(
                regs, reference,
            ))),
            Op::ReferenceUnref(reference, _) => Call::ReferenceUnref(RefId(register_at(
                regs, reference,
            ))),
            Op::GetReferenceValue(reference, _) => Call::GetReferenceValue(RefId(register_at(
                regs, reference,
            ))),
            Op::Wrap(object, payload, entry, hint, result) => Call::Wrap(
                handle_at(regs, object),
                payload,
                entry,
                hint,
                result.is_some(),
            ),
            Op::Unwrap(object, _) => Call::Unwrap(handle_at(regs, object)),
            Op::RemoveWrap(object, _) => Call::RemoveWrap(handle_at(regs, object)),
            Op::TypeTagObject(object, lower, upper) => Call::TypeTagObject(
                handle_at(regs, object),
                lower,
                upper,
            ),
            Op::CheckObjectTypeTag(object, lower, upper, _) => Call::CheckObjectTypeTag(
                handle_at(regs, object),
                lower,
                upper,
            ),
            Op::AddFinalizer(object, payload, entry, hint, result) => Call::AddFinalizer(
                handle_at(regs, object),
                payload,
                entry,
                hint,
                result.is_some(),
            ),
            Op::CallFunction(receiver, function, arguments, _) => Call::CallFunction(
                optional_handle_at(regs, receiver),
                handle_at(regs, function),
                arguments_at(regs, arguments),
            ),
            Op::Throw(error) => Call::Throw(handle_at(regs, error)),
            Op::ThrowError(code, message) => Call::ThrowError(code, message),
            Op::IsExceptionPending(_) => Call::IsExceptionPending,
            Op::GetAndClearLastException(_) => Call::GetAndClearLastException,
            Op::GetLastErrorInfo(_) => Call::GetLastErrorInfo,
            Op::SetInstanceData(payload, entry, hint) => Call::SetInstanceData(
                payload, entry, hint,
            ),
            Op::GetInstanceData(_) => Call::GetInstanceData,
            Op::AddEnvCleanupHook(entry, argument) => Call::AddEnvCleanupHook(entry, argument),
            Op::RemoveEnvCleanupHook(entry, argument) => Call::RemoveEnvCleanupHook(
                entry, argument,
            ),
            Op::AddAsyncCleanupHook(entry, argument, _) => Call::AddAsyncCleanupHook(
                entry, argument,
            ),
            Op::RemoveAsyncCleanupHook(hook) => Call::RemoveAsyncCleanupHook(AsyncHookId(
                register_at(regs, hook),
            )),
            Op::CreatePromise(..) => Call::CreatePromise,
            Op::ResolveDeferred(deferred, value) => Call::ResolveDeferred(
                DeferredId(register_at(regs, deferred)),
                handle_at(regs, value),
            ),
            Op::RejectDeferred(deferred, value) => Call::RejectDeferred(
                DeferredId(register_at(regs, deferred)),
                handle_at(regs, value),
            ),
            Op::IsPromise(value, _) => Call::IsPromise(handle_at(regs, value)),
            Op::AddReaction(promise, entry, payload) => Call::AddReaction(
                handle_at(regs, promise),
                entry,
                payload,
            ),
            Op::GetReactionValue(_) => Call::GetReactionValue,
            Op::CreateArraybuffer(length, _) => Call::CreateArraybuffer(length),
            Op::CreateExternalArraybuffer(length, payload, entry, hint, _) => {
                Call::CreateExternalArraybuffer(length, payload, entry, hint)
            }
            Op::IsArraybuffer(value, _) => Call::IsArraybuffer(handle_at(regs, value)),
            Op::IsDetachedArraybuffer(value, _) => {
                Call::IsDetachedArraybuffer(handle_at(regs, value))
            }
            Op::GetArraybufferInfo(buffer, _) => Call::GetArraybufferInfo(handle_at(regs, buffer)),
            Op::DetachArraybuffer(buffer) => Call::DetachArraybuffer(handle_at(regs, buffer)),
            Op::CreateTypedarray(kind, buffer, offset, length, _) => Call::CreateTypedarray(
                kind,
                handle_at(regs, buffer),
                offset,
                length,
            ),
            Op::GetView(view, index, _) => Call::GetView(handle_at(regs, view), index),
            Op::SetView(view, index, value) => Call::SetView(handle_at(regs, view), index, value),
            Op::CreateAsyncWork(job, entry, payload, _) => Call::CreateAsyncWork(
                job, entry, payload,
            ),
            Op::DeleteAsyncWork(work) => Call::DeleteAsyncWork(WorkId(register_at(regs, work))),
            Op::CancelAsyncWork(work) => Call::CancelAsyncWork(WorkId(register_at(regs, work))),
            Op::QueueAsyncWork(work) => Call::QueueAsyncWork(WorkId(register_at(regs, work))),
            Op::CreateThreadsafeFunction(function, entry, maximum, count, finalizer, context, _) =>
                Call::CreateThreadsafeFunction(
                    optional_handle_at(regs, function),
                    entry,
                    maximum,
                    count,
                    finalizer,
                    context,
                ),
            Op::CallThreadsafeFunction(function, payload, mode) => Call::CallThreadsafeFunction(
                TsfnId(register_at(regs, function)),
                payload,
                mode,
            ),
            Op::AcquireThreadsafeFunction(function) => Call::AcquireThreadsafeFunction(TsfnId(
                register_at(regs, function),
            )),
            Op::ReleaseThreadsafeFunction(function, mode) => Call::ReleaseThreadsafeFunction(
                TsfnId(register_at(regs, function)),
                mode,
            ),
            Op::RefThreadsafeFunction(function) => Call::RefThreadsafeFunction(TsfnId(register_at(
                regs, function,
            ))),
            Op::UnrefThreadsafeFunction(function) => Call::UnrefThreadsafeFunction(TsfnId(
                register_at(regs, function),
            )),
            Op::GetThreadsafeFunctionContext(function, _) => Call::GetThreadsafeFunctionContext(
                TsfnId(register_at(regs, function)),
            ),
            Op::GetVersion(_) => Call::GetVersion,
            Op::Collect(_) => Call::Collect,
            Op::Exit => Call::Exit,
            Op::Return(value) => return Ask::Leave(optional_handle_at(regs, value)),
            Op::ThreadCall(function, payload, mode) => {
                Call::CallThreadsafeFunction(TsfnId(function), payload, mode)
            }
            Op::ThreadAcquire(function) => Call::AcquireThreadsafeFunction(TsfnId(function)),
            Op::ThreadRelease(function, mode) => {
                Call::ReleaseThreadsafeFunction(TsfnId(function), mode)
            }
        };
        Ask::Do(call)
    }

    /// The registers that keep the result: the first, and the second where there is one. `None` exactly for an operation that keeps none.
    pub fn result_registers(&self) -> Option<(u8, Option<u8>)>
        ensures { one_or_two result ≡ result_registers self.now }
    {
        match *self {
            Op::CreatePromise(deferred, promise) => Some((deferred, Some(promise))),
            Op::GetUndefined(result)
            | Op::GetNull(result)
            | Op::GetGlobal(result)
            | Op::GetBoolean(_, result)
            | Op::CreateInt64(_, result)
            | Op::CreateBigintInt64(_, result)
            | Op::CreateStringUtf8(_, result)
            | Op::CreateSymbol(_, result)
            | Op::CreateObject(result)
            | Op::CreateArray(result)
            | Op::CreateFunction(_, _, result)
            | Op::CreateExternal(_, _, _, result)
            | Op::CreateError(_, _, result)
            | Op::Typeof(_, result)
            | Op::IsArray(_, result)
            | Op::IsError(_, result)
            | Op::GetValueInt64(_, result)
            | Op::GetValueBigintInt64(_, result)
            | Op::GetValueBool(_, result)
            | Op::GetValueStringUtf8(_, result)
            | Op::GetValueExternal(_, result)
            | Op::GetArrayLength(_, result)
            | Op::StrictEquals(_, _, result)
            | Op::GetNamedProperty(_, _, result)
            | Op::HasNamedProperty(_, _, result)
            | Op::DeleteProperty(_, _, result)
            | Op::GetPropertyNames(_, result)
            | Op::GetElement(_, _, result)
            | Op::HasElement(_, _, result)
            | Op::OpenHandleScope(result)
            | Op::OpenEscapableHandleScope(result)
            | Op::EscapeHandle(_, _, result)
            | Op::CreateReference(_, _, result)
            | Op::ReferenceRef(_, result)
            | Op::ReferenceUnref(_, result)
            | Op::GetReferenceValue(_, result)
            | Op::Unwrap(_, result)
            | Op::RemoveWrap(_, result)
            | Op::CheckObjectTypeTag(_, _, _, result)
            | Op::CallFunction(_, _, _, result)
            | Op::IsExceptionPending(result)
            | Op::GetAndClearLastException(result)
            | Op::GetLastErrorInfo(result)
            | Op::GetInstanceData(result)
            | Op::AddAsyncCleanupHook(_, _, result)
            | Op::CreateAsyncWork(_, _, _, result)
            | Op::CreateThreadsafeFunction(_, _, _, _, _, _, result)
            | Op::GetThreadsafeFunctionContext(_, result)
            | Op::GetVersion(result)
            | Op::IsPromise(_, result)
            | Op::GetReactionValue(result)
            | Op::CreateArraybuffer(_, result)
            | Op::CreateExternalArraybuffer(_, _, _, _, result)
            | Op::IsArraybuffer(_, result)
            | Op::IsDetachedArraybuffer(_, result)
            | Op::GetArraybufferInfo(_, result)
            | Op::CreateTypedarray(_, _, _, _, result)
            | Op::GetView(_, _, result)
            | Op::Collect(result) => Some((result, None)),
            Op::Wrap(_, _, _, _, result) | Op::AddFinalizer(_, _, _, _, result) => {
                Some((result?, None))
            }
            Op::SetNamedProperty(..)
            | Op::SetElement(..)
            | Op::CloseHandleScope(_)
            | Op::CloseEscapableHandleScope(_)
            | Op::DeleteReference(_)
            | Op::TypeTagObject(..)
            | Op::Throw(_)
            | Op::ThrowError(..)
            | Op::SetInstanceData(..)
            | Op::AddEnvCleanupHook(..)
            | Op::RemoveEnvCleanupHook(..)
            | Op::RemoveAsyncCleanupHook(_) => None,
            Op::ResolveDeferred(..)
            | Op::RejectDeferred(..)
            | Op::AddReaction(..)
            | Op::DetachArraybuffer(_)
            | Op::SetView(..)
            | Op::DeleteAsyncWork(_)
            | Op::CancelAsyncWork(_)
            | Op::QueueAsyncWork(_)
            | Op::CallThreadsafeFunction(..)
            | Op::AcquireThreadsafeFunction(_)
            | Op::ReleaseThreadsafeFunction(..)
            | Op::RefThreadsafeFunction(_)
            | Op::UnrefThreadsafeFunction(_)
            | Op::Exit
            | Op::Return(_)
            | Op::ThreadCall(..)
            | Op::ThreadAcquire(_)
            | Op::ThreadRelease(..) => None,
        }
    }
}

impl Out {
    /// The numbers that registers keep of this result: the first, and the second where there is one. `None` exactly for a result that is
    /// no value of a call.
    ///
    /// A signed number is kept modulo 2^64, a flag as 0 or 1, no handle as 0, and everything else by its number.
    pub fn register_values(&self) -> Option<(u64, Option<u64>)>
        ensures { one_or_two result ≡ register_values self.now }
    {
        match *self {
            Out::Promise(deferred, promise) => Some((deferred.0, Some(promise.0))),
            Out::Handle(HandleId(number)) => Some((number, None)),
            Out::NoHandle => Some((0, None)),
            Out::Scope(ScopeId(number)) => Some((number, None)),
            Out::Ref(reference) => Some((reference.0, None)),
            Out::AsyncHook(hook) => Some((hook.0, None)),
            Out::Work(work) => Some((work.0, None)),
            Out::Function(function) => Some((function.0, None)),
            Out::Signed(number) => Some((number.cast_unsigned(), None)),
            Out::Unsigned(number) => Some((number, None)),
            Out::Flag(flag) => Some((flag as u64, None)),
            Out::Text(text) => Some((text.0 as u64, None)),
            Out::Kind(kind) => Some((kind.number() as u64, None)),
            _ => None,
        }
    }
}
