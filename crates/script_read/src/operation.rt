//! The operation that a value is, in an addon.
ghost use Rattle.std.specs.Prelude.{◌≡◌, IfOk, option_map};
ghost use Rattle.serde_json.specs.View.{view, items_view};
ghost use Rattle.napi_types.specs.scripts.ScriptOperations.{numbered, with_string, with_object_and_name, with_name, thrown_with, with_error_texts, with_texts, text_operation, operation_of, operation_named, operation_in};

use crate::arguments::{register, text, text_or_none};
use crate::forms::plain_operation;
use crate::named::kind_named;
use crate::texts::TextTable;
use napi_types::{NoMemory, Op, TextNo};
use serde_json::Value;
use std::alloc::Global;

/// The operation that makes a string of a text.
#[tactic(auto, unfolding(napi_types::specs::scripts::ScriptOperations::with_string))]
fn with_string(
    alloc: Global,
    table: &mut TextTable,
    a: &Value,
    b: &Value,
) -> Result<Option<Op>, NoMemory>
    ensures found { IfOk result (λ found. option_map (numbered table.new) found ≡ with_string table.old (view a.now) (view b.now)) }
{
    let Some(x) = text(a) else {
        return Ok(None);
    };
    let Some(y) = register(b) else {
        return Ok(None);
    };
    Ok(Some(Op::CreateStringUtf8(table.take(alloc, x)?, y)))
}

/// The operation of a register, the number of a text and a register.
#[tactic(auto, unfolding(napi_types::specs::scripts::ScriptOperations::with_object_and_name))]
fn with_property(kind: Op, x: u8, y: TextNo, z: u8) -> Option<Op>
    ensures { result ≡ with_object_and_name kind x y z }
{
    match kind {
        Op::SetNamedProperty(..) => Some(Op::SetNamedProperty(x, y, z)),
        Op::GetNamedProperty(..) => Some(Op::GetNamedProperty(x, y, z)),
        Op::HasNamedProperty(..) => Some(Op::HasNamedProperty(x, y, z)),
        Op::DeleteProperty(..) => Some(Op::DeleteProperty(x, y, z)),
        _ => None,
    }
}

/// The operation of a register, a text and a register.
#[tactic(auto, unfolding(napi_types::specs::scripts::ScriptOperations::with_name))]
fn with_name(
    alloc: Global,
    table: &mut TextTable,
    kind: Op,
    a: &Value,
    b: &Value,
    c: &Value,
) -> Result<Option<Op>, NoMemory>
    ensures found { IfOk result (λ found. option_map (numbered table.new) found ≡ with_name table.old kind (view a.now) (view b.now) (view c.now)) }
{
    let Some(x) = register(a) else {
        return Ok(None);
    };
    let Some(y) = text(b) else {
        return Ok(None);
    };
    let Some(z) = register(c) else {
        return Ok(None);
    };
    let number = TextNo(table.number(y));
    let Some(operation) = with_property(kind, x, number, z) else {
        return Ok(None);
    };
    table.keep(alloc, y)?;
    Ok(Some(operation))
}

/// An error's operation: its code, or none, and its message, whose text comes after the code's.
#[tactic(auto, unfolding(napi_types::specs::scripts::ScriptOperations::thrown_with, napi_types::specs::scripts::ScriptOperations::thrown))]
fn thrown_with(
    alloc: Global,
    table: &mut TextTable,
    code: Option<&str>,
    message: &str,
) -> Result<Op, NoMemory>
    ensures { IfOk result (λ operation. numbered table.new operation ≡ thrown_with table.old (option_map (λ t. t.now) code.entry) message.now) }
{
    match code {
        Some(code) => {
            let number = table.take(alloc, code)?;
            Ok(Op::ThrowError(Some(number), table.take(alloc, message)?))
        }
        None => Ok(Op::ThrowError(None, table.take(alloc, message)?)),
    }
}

/// The operation that throws an error of a code, which is a text or none, and a message.
#[tactic(auto, unfolding(napi_types::specs::scripts::ScriptOperations::with_error_texts))]
fn with_error_texts(
    alloc: Global,
    table: &mut TextTable,
    a: &Value,
    b: &Value,
) -> Result<Option<Op>, NoMemory>
    ensures found { IfOk result (λ found. option_map (numbered table.new) found ≡ with_error_texts table.old (view a.now) (view b.now)) }
{
    let Some(code) = text_or_none(a) else {
        return Ok(None);
    };
    let Some(message) = text(b) else {
        return Ok(None);
    };
    Ok(Some(thrown_with(alloc, table, code, message)?))
}

/// The operation of two arguments of which one is a text.
#[tactic(auto, unfolding(napi_types::specs::scripts::ScriptOperations::with_texts))]
fn with_texts(
    alloc: Global,
    table: &mut TextTable,
    kind: Op,
    a: &Value,
    b: &Value,
) -> Result<Option<Op>, NoMemory>
    ensures found { IfOk result (λ found. option_map (numbered table.new) found ≡ with_texts table.old kind (view a.now) (view b.now)) }
{
    match kind {
        Op::CreateStringUtf8(..) => with_string(alloc, table, a, b),
        Op::ThrowError(..) => with_error_texts(alloc, table, a, b),
        _ => Ok(None),
    }
}

/// The operation of a kind with these arguments, where one of them is a text.
#[tactic(auto, unfolding(napi_types::specs::scripts::ScriptOperations::text_operation))]
fn text_operation(
    alloc: Global,
    table: &mut TextTable,
    kind: Op,
    args: &[Value],
) -> Result<Option<Op>, NoMemory>
    ensures found { IfOk result (λ found. option_map (numbered table.new) found ≡ text_operation table.old kind (items_view args.now)) }
{
    match args {
        [a, b] => with_texts(alloc, table, kind, a, b),
        [a, b, c] => with_name(alloc, table, kind, a, b, c),
        _ => Ok(None),
    }
}

/// The operation of a kind with these arguments.
#[tactic(auto, unfolding(napi_types::specs::scripts::ScriptOperations::operation_of))]
fn operation_of(
    alloc: Global,
    entries: u32,
    table: &mut TextTable,
    kind: Op,
    args: &[Value],
) -> Result<Option<Op>, NoMemory>
    ensures found { IfOk result (λ found. option_map (numbered table.new) found ≡ operation_of entries table.old kind (items_view args.now)) }
{
    match plain_operation(entries, kind, args) {
        Some(operation) => Ok(Some(operation)),
        None => text_operation(alloc, table, kind, args),
    }
}

/// The operation of a name with these arguments.
#[tactic(auto, unfolding(napi_types::specs::scripts::ScriptOperations::operation_named))]
fn operation_named(
    alloc: Global,
    entries: u32,
    table: &mut TextTable,
    name: &str,
    args: &[Value],
) -> Result<Option<Op>, NoMemory>
    ensures found { IfOk result (λ found. option_map (numbered table.new) found ≡ operation_named entries table.old name.now (items_view args.now)) }
{
    match kind_named(name) {
        Some(kind) => operation_of(alloc, entries, table, kind, args),
        None => Ok(None),
    }
}

/// The operation that a value is, in an addon with so many entries, and its texts in the table.
#[tactic(auto, unfolding(napi_types::specs::scripts::ScriptOperations::operation_in))]
pub(crate) fn operation_in(
    alloc: Global,
    entries: u32,
    table: &mut TextTable,
    value: &Value,
) -> Result<Option<Op>, NoMemory>
    ensures found { IfOk result (λ found. option_map (numbered table.new) found ≡ operation_in entries table.old (view value.now)) }
{
    match value {
        Value::Array(items) => match items.as_slice() {
            [Value::String(name), args @ ..] => operation_named(
                alloc,
                entries,
                table,
                name.as_str(),
                args,
            ),
            _ => Ok(None),
        },
        _ => Ok(None),
    }
}
