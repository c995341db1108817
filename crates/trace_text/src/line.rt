//! The line of an entry, piece by piece.
ghost use Rattle.std.specs.Prelude.{◌≡◌, ◌<◌, ℕ, List, ◌++◌, ◌||◌, codes, decimal, is_some, IfSome};
ghost use Rattle.std.specs.Char.{digit_char};
ghost use Rattle.std.specs.Fmt.{signed_decimal};
ghost use Rattle.std.specs.List.{flat_map};
ghost use Rattle.napi_types.specs.plain.Numbers.{status_number};
ghost use Rattle.napi_types.specs.scripts.Names.{cause_name, kind_name};
ghost use Rattle.napi_types.specs.scripts.Text.{actor_text, duty_text, marked, flag_text, escaped, quoted, text_at, out_text, line};
ghost use Rattle.trace_text.specs.LineEnds.{line_end};
ghost use Rattle.trace_text.specs.Writing.{Adds, stand};

use crate::number::LineNumber;
use crate::pending::{Pending, add, add_line_number, add_word};
use itoa::{Buffer, Integer};
use napi_types::{Actor, Cause, Duty, Entry, Kind, Out, Reply, Sink, Status, TextNo, Texts};

/// Adds a number in decimal.
#[inline(never)]
pub fn add_number<K: Sink, I: Integer>(sink: &mut K, pending: &mut Pending, n: I)
    ensures { Adds (stand (K.taken sink.old) (K.faults sink.old) pending.old) (I.text n)
        (stand (K.taken sink.new) (K.faults sink.new) pending.new) }
{
    let mut buffer = Buffer::new();
    add(sink, pending, buffer.format(n).as_bytes());
}

/// Adds a count in decimal. One digit is a word.
#[inline(always)]
fn add_count<K: Sink>(sink: &mut K, pending: &mut Pending, n: u64)
    ensures { Adds (stand (K.taken sink.old) (K.faults sink.old) pending.old) (decimal n)
        (stand (K.taken sink.new) (K.faults sink.new) pending.new) }
{
    if n < 10 {
        add_word(sink, pending, &[b'0' + n as u8]);
        return;
    }
    add_number(sink, pending, n);
}

/// Adds a signed number in decimal.
#[inline(always)]
fn add_signed<K: Sink>(sink: &mut K, pending: &mut Pending, n: i64)
    ensures { Adds (stand (K.taken sink.old) (K.faults sink.old) pending.old) (signed_decimal n)
        (stand (K.taken sink.new) (K.faults sink.new) pending.new) }
{
    if n >= 0 {
        add_count(sink, pending, n as u64);
        return;
    }
    add_number(sink, pending, n);
}

/// Adds an actor between two spaces.
fn add_actor<K: Sink>(sink: &mut K, pending: &mut Pending, actor: Actor)
    ensures { Adds (stand (K.taken sink.old) (K.faults sink.old) pending.old) (codes " " ++ actor_text actor ++ codes " ")
        (stand (K.taken sink.new) (K.faults sink.new) pending.new) }
{
    match actor {
        Actor::Env => add_word(sink, pending, b" env "),
        Actor::Thread(n) => {
            add_word(sink, pending, b" t");
            add_number(sink, pending, n);
            add_word(sink, pending, b" ");
        }
        Actor::Worker(n) => {
            add_word(sink, pending, b" w");
            add_number(sink, pending, n);
            add_word(sink, pending, b" ");
        }
    }
}

fn add_duty<K: Sink>(sink: &mut K, pending: &mut Pending, duty: Duty)
    ensures { Adds (stand (K.taken sink.old) (K.faults sink.old) pending.old) (duty_text duty)
        (stand (K.taken sink.new) (K.faults sink.new) pending.new) }
{
    match duty {
        Duty::Ticket(ticket) => {
            add_word(sink, pending, b"#");
            add_count(sink, pending, ticket.0);
        }
        Duty::Work(n) => {
            add_word(sink, pending, b"j");
            add_number(sink, pending, n);
        }
        Duty::Item(function, n) => {
            add_word(sink, pending, b"f");
            add_number(sink, pending, function.0);
            add_word(sink, pending, b".");
            add_number(sink, pending, n);
        }
        Duty::Function(function) => {
            add_word(sink, pending, b"f");
            add_number(sink, pending, function.0);
        }
    }
}

/// Adds a duty behind a sign, and nothing where there is none.
fn add_marked<K: Sink>(sink: &mut K, pending: &mut Pending, sign: &[u8], duty: Option<Duty>)
    ensures { Adds (stand (K.taken sink.old) (K.faults sink.old) pending.old) (marked sign.now duty)
        (stand (K.taken sink.new) (K.faults sink.new) pending.new) }
{
    match duty {
        Some(duty) => {
            add(sink, pending, sign);
            add_duty(sink, pending, duty);
        }
        None => {}
    }
}

/// The hexadecimal digit of a number below 16.
fn hex_digit(digit: u8) -> u8
    requires { digit < 16 }
    ensures { result ≡ digit_char digit }
{
    if digit < 10 {
        b'0' + digit
    } else {
        b'a' + (digit - 10)
    }
}

fn add_escaped<K: Sink>(sink: &mut K, pending: &mut Pending, byte: u8)
    ensures { Adds (stand (K.taken sink.old) (K.faults sink.old) pending.old) (escaped byte)
        (stand (K.taken sink.new) (K.faults sink.new) pending.new) }
{
    if byte == b'"' || byte == b'\\' {
        add(sink, pending, &[b'\\', byte]);
    } else if byte < 32 {
        let high = hex_digit(byte / 16);
        let low = hex_digit(byte % 16);
        add(sink, pending, &[b'\\', b'u', b'0', b'0', high, low]);
    } else {
        add(sink, pending, &[byte]);
    }
}

fn add_all_escaped<K: Sink>(sink: &mut K, pending: &mut Pending, text: &[u8])
    ensures { Adds (stand (K.taken sink.old) (K.faults sink.old) pending.old) (flat_map escaped text.now)
        (stand (K.taken sink.new) (K.faults sink.new) pending.new) }
{
    for byte in text {
        add_escaped(sink, pending, *byte);
    }
}

fn add_quoted<K: Sink>(sink: &mut K, pending: &mut Pending, text: &[u8])
    ensures { Adds (stand (K.taken sink.old) (K.faults sink.old) pending.old) (quoted text.now)
        (stand (K.taken sink.new) (K.faults sink.new) pending.new) }
{
    add_word(sink, pending, b"\"");
    add_all_escaped(sink, pending, text);
    add_word(sink, pending, b"\"");
}

/// Adds the text of a number in quotation marks: the empty text where the number is past the end of the table.
fn add_text<K: Sink>(sink: &mut K, pending: &mut Pending, texts: &Texts, no: TextNo)
    ensures { Adds (stand (K.taken sink.old) (K.faults sink.old) pending.old) (quoted (text_at texts.now no.0))
        (stand (K.taken sink.new) (K.faults sink.new) pending.new) }
{
    match texts.get(no) {
        Some(text) => add_quoted(sink, pending, text.bytes()),
        None => add_quoted(sink, pending, b""),
    }
}

/// Adds a cause and a colon.
#[inline(always)]
fn add_cause<K: Sink>(sink: &mut K, pending: &mut Pending, cause: Cause)
    ensures { Adds (stand (K.taken sink.old) (K.faults sink.old) pending.old) (cause_name cause ++ codes ":")
        (stand (K.taken sink.new) (K.faults sink.new) pending.new) }
{
    match cause {
        Cause::Init => add_word(sink, pending, b"init:"),
        Cause::Call => add_word(sink, pending, b"call:"),
        Cause::Finalize => add_word(sink, pending, b"finalize:"),
        Cause::Complete => add_word(sink, pending, b"complete:"),
        Cause::Item => add_word(sink, pending, b"item:"),
        Cause::Torn => add_word(sink, pending, b"torn:"),
        Cause::Hook => add_word(sink, pending, b"hook:"),
        Cause::Reaction => add_word(sink, pending, b"reaction:"),
    }
}

#[inline(always)]
fn add_begin<K: Sink>(
    sink: &mut K,
    pending: &mut Pending,
    cause: Cause,
    addon: u32,
    entry: u32,
    duty: Option<Duty>,
)
    ensures { Adds (stand (K.taken sink.old) (K.faults sink.old) pending.old) (cause_name cause ++ codes ":" ++ decimal addon ++ codes "." ++ decimal entry ++ marked (codes ":") duty)
        (stand (K.taken sink.new) (K.faults sink.new) pending.new) }
{
    add_cause(sink, pending, cause);
    add_count(sink, pending, addon as u64);
    add_word(sink, pending, b".");
    add_count(sink, pending, entry as u64);
    add_marked(sink, pending, b":", duty);
}

fn add_out<K: Sink>(sink: &mut K, pending: &mut Pending, texts: &Texts, out: Out)
    ensures { Adds (stand (K.taken sink.old) (K.faults sink.old) pending.old) (out_text texts.now out)
        (stand (K.taken sink.new) (K.faults sink.new) pending.new) }
{
    match out {
        Out::Nothing => add_word(sink, pending, b"-"),
        Out::Handle(_) => add_word(sink, pending, b"handle"),
        Out::NoHandle => add_word(sink, pending, b"none"),
        Out::Scope(_) => add_word(sink, pending, b"scope"),
        Out::Ref(_) => add_word(sink, pending, b"ref"),
        Out::AsyncHook(_) => add_word(sink, pending, b"hook"),
        Out::Promise(..) => add_word(sink, pending, b"promise"),
        Out::Work(_) => add_word(sink, pending, b"work"),
        Out::Function(function) => add_duty(sink, pending, Duty::Function(function)),
        Out::Signed(n) => add_signed(sink, pending, n),
        Out::Unsigned(n) => add_count(sink, pending, n),
        Out::Flag(true) => add_word(sink, pending, b"true"),
        Out::Flag(false) => add_word(sink, pending, b"false"),
        Out::Text(no) => add_text(sink, pending, texts, no),
        Out::Kind(kind) => add(sink, pending, kind.name().as_bytes()),
        Out::Duty(duty) => add_duty(sink, pending, duty),
        Out::Begin(cause, addon, entry, duty) => {
            add_begin(sink, pending, cause, addon, entry, duty);
        }
        Out::Ended(end) => add(sink, pending, end.name().as_bytes()),
        Out::Uncaught => add_word(sink, pending, b"uncaught"),
        Out::Cut(why) => {
            add_word(sink, pending, b"cut:");
            add(sink, pending, why.name().as_bytes());
        }
    }
}

/// Adds a status between two spaces.
fn add_status<K: Sink>(sink: &mut K, pending: &mut Pending, status: Status)
    ensures { Adds (stand (K.taken sink.old) (K.faults sink.old) pending.old) (codes " " ++ decimal (status_number status) ++ codes " ")
        (stand (K.taken sink.new) (K.faults sink.new) pending.new) }
{
    if let Status::Ok = status {
        add_word(sink, pending, b" 0 ");
        return;
    }
    add_word(sink, pending, b" ");
    add_number(sink, pending, status.number());
    add_word(sink, pending, b" ");
}

/// Adds the end of a line from behind its name on, of what was accepted and tells a kind.
#[inline(always)]
fn add_end_of_kind<K: Sink>(sink: &mut K, pending: &mut Pending, kind: Kind)
    ensures { Adds (stand (K.taken sink.old) (K.faults sink.old) pending.old) (codes " 0 " ++ kind_name kind ++ codes "\n")
        (stand (K.taken sink.new) (K.faults sink.new) pending.new) }
{
    match kind {
        Kind::Undefined => add_word(sink, pending, b" 0 undefined\n"),
        Kind::Null => add_word(sink, pending, b" 0 null\n"),
        Kind::Boolean => add_word(sink, pending, b" 0 boolean\n"),
        Kind::Number => add_word(sink, pending, b" 0 number\n"),
        Kind::String => add_word(sink, pending, b" 0 string\n"),
        Kind::Symbol => add_word(sink, pending, b" 0 symbol\n"),
        Kind::Object => add_word(sink, pending, b" 0 object\n"),
        Kind::Function => add_word(sink, pending, b" 0 function\n"),
        Kind::External => add_word(sink, pending, b" 0 external\n"),
        Kind::Bigint => add_word(sink, pending, b" 0 bigint\n"),
    }
}

/// Adds the end of a line from behind its name on, of what was accepted and neither withdraws nor makes a duty, piece by piece.
#[inline(never)]
fn add_end_by_pieces<K: Sink>(sink: &mut K, pending: &mut Pending, texts: &Texts, out: &Out)
    ensures { Adds (stand (K.taken sink.old) (K.faults sink.old) pending.old) (codes " 0 " ++ out_text texts.now out.now ++ codes "\n")
        (stand (K.taken sink.new) (K.faults sink.new) pending.new) }
{
    add_word(sink, pending, b" 0 ");
    add_out(sink, pending, texts, *out);
    add_word(sink, pending, b"\n");
}

/// Adds the end of a line from behind its name on, of what was accepted and neither withdraws nor makes a duty. Where there are few texts each is one word.
#[inline(always)]
fn add_end_of_out<K: Sink>(sink: &mut K, pending: &mut Pending, texts: &Texts, out: &Out)
    ensures { Adds (stand (K.taken sink.old) (K.faults sink.old) pending.old) (codes " 0 " ++ out_text texts.now out.now ++ codes "\n")
        (stand (K.taken sink.new) (K.faults sink.new) pending.new) }
{
    match *out {
        Out::Nothing => add_word(sink, pending, b" 0 -\n"),
        Out::Handle(_) => add_word(sink, pending, b" 0 handle\n"),
        Out::NoHandle => add_word(sink, pending, b" 0 none\n"),
        Out::Scope(_) => add_word(sink, pending, b" 0 scope\n"),
        Out::Ref(_) => add_word(sink, pending, b" 0 ref\n"),
        Out::Work(_) => add_word(sink, pending, b" 0 work\n"),
        Out::Flag(true) => add_word(sink, pending, b" 0 true\n"),
        Out::Flag(false) => add_word(sink, pending, b" 0 false\n"),
        Out::Kind(kind) => add_end_of_kind(sink, pending, kind),
        Out::Begin(cause, addon, entry, duty) => {
            add_word(sink, pending, b" 0 ");
            add_begin(sink, pending, cause, addon, entry, duty);
            add_word(sink, pending, b"\n");
        }
        _ => add_end_by_pieces(sink, pending, texts, out),
    }
}

/// Whether a duty was withdrawn or made.
fn tells_duty(reply: &Reply) -> bool
    ensures { result ≡ (is_some reply.now.dropped || is_some reply.now.made) }
{
    reply.dropped.is_some() || reply.made.is_some()
}

/// Adds the end of a line from behind its name on, piece by piece.
#[inline(never)]
fn add_long_end<K: Sink>(sink: &mut K, pending: &mut Pending, texts: &Texts, reply: &Reply)
    ensures { Adds (stand (K.taken sink.old) (K.faults sink.old) pending.old) (line_end texts.now reply.now)
        (stand (K.taken sink.new) (K.faults sink.new) pending.new) }
{
    add_status(sink, pending, reply.status);
    add_out(sink, pending, texts, reply.out);
    add_marked(sink, pending, b" -", reply.dropped);
    add_marked(sink, pending, b" +", reply.made);
    add_word(sink, pending, b"\n");
}

/// Adds the end of a line from behind its name on.
#[inline(always)]
fn add_end<K: Sink>(sink: &mut K, pending: &mut Pending, texts: &Texts, reply: &Reply)
    ensures { Adds (stand (K.taken sink.old) (K.faults sink.old) pending.old) (line_end texts.now reply.now)
        (stand (K.taken sink.new) (K.faults sink.new) pending.new) }
{
    if tells_duty(reply) {
        add_long_end(sink, pending, texts, reply);
        return;
    }
    match reply.status {
        Status::Ok => add_end_of_out(sink, pending, texts, &reply.out),
        _ => add_long_end(sink, pending, texts, reply),
    }
}

/// Adds the line of an entry.
pub fn add_line<K: Sink>(
    sink: &mut K,
    pending: &mut Pending,
    texts: &Texts,
    number: &LineNumber,
    entry: &Entry,
)
    ensures { Adds (stand (K.taken sink.old) (K.faults sink.old) pending.old) (line texts.now number.now entry.now)
        (stand (K.taken sink.new) (K.faults sink.new) pending.new) }
{
    add_line_number(sink, pending, number);
    add_actor(sink, pending, entry.actor);
    add(sink, pending, entry.what.name().as_bytes());
    add_end(sink, pending, texts, &entry.reply);
}
