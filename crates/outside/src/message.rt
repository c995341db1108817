//! The lines that stand in place of a text.
ghost use Rattle.std.specs.Prelude.{◌≡◌, ◌≤◌, OnOk, OnErr};
ghost use Rattle.std.specs.Io.KnownBytes.{append_known};
ghost use Rattle.napi_types.specs.plain.Edge.{HasRisen, TookPrefix};
ghost use Rattle.outside.specs.Words.{line_text, line_status, limit_line, shape_line};

use napi_types::{Failed, LimitName, Sink, Text};
use trace_text::put_all;

/// A line that the program writes in place of a text.
#[derive(Drop)]
pub enum Message {
    /// The words are no command line.
    Usage,
    /// The bytes are no JSON text.
    NotJson,
    /// They are a JSON text, and the part at this path has the wrong form.
    Shape(Text),
    /// They are a JSON text with more of something than a script may have.
    Limit(LimitName),
    /// The script names more addons than were handed in.
    TooManyAddons,
    /// It has no schedule, and one is demanded.
    Schedule,
    /// There was no memory before the text began.
    NoMemory,
    /// The source failed.
    ReadFault,
    /// The source gave more bytes than it may.
    TooLong,
}

/// The line of a limit, with its newline.
fn limit_line(which: LimitName) -> &'static str
    ensures { result.now ≡ limit_line which }
{
    match which {
        LimitName::Workers => "refused limit workers\n",
        LimitName::Addons => "refused limit addons\n",
        LimitName::Entries => "refused limit entries\n",
        LimitName::Operations => "refused limit operations\n",
        LimitName::Threads => "refused limit threads\n",
        LimitName::Schedule => "refused limit schedule\n",
    }
}

impl Message {
    /// Writes the line, with its newline.
    pub(crate) fn write<K: Sink>(&self, sink: &mut K) -> Result<(), Failed>
        ensures ok { OnOk result (K.taken sink.new ≡ append_known (K.taken sink.old) (line_text self.now)) }
        ensures err { OnErr result (TookPrefix (K.taken sink.old) (line_text self.now) (K.taken sink.new)) }
        ensures failed { OnErr result (HasRisen (K.faults sink.old) (K.faults sink.new)) }
        ensures faults { K.faults sink.old ≤ K.faults sink.new }
    {
        match self {
            Message::Shape(path) => put_path(sink, path),
            Message::Limit(which) => put_text(sink, limit_line(*which)),
            Message::Usage => put_text(sink, "usage: napi_host run | summary | load NUMBER\n"),
            Message::NotJson => put_text(sink, "refused json\n"),
            Message::TooManyAddons => put_text(sink, limit_line(LimitName::Addons)),
            Message::Schedule => put_text(sink, "refused schedule\n"),
            Message::NoMemory => put_text(sink, "out of memory\n"),
            Message::ReadFault => put_text(sink, "read fault\n"),
            Message::TooLong => put_text(sink, "refused length\n"),
        }
    }

    /// The status with which the program ends that writes the line.
    pub fn status(&self) -> u8
        ensures { result ≡ line_status self.now }
    {
        match self {
            Message::Usage => 2,
            Message::NotJson
            | Message::Shape(_)
            | Message::Limit(_)
            | Message::TooManyAddons
            | Message::Schedule => 3,
            Message::ReadFault => 4,
            Message::NoMemory => 6,
            Message::TooLong => 7,
        }
    }
}

/// Writes a text, which a sink may cut off.
fn put_text<K: Sink>(sink: &mut K, text: &str) -> Result<(), Failed>
    ensures ok { OnOk result (K.taken sink.new ≡ append_known (K.taken sink.old) text.now) }
    ensures err { OnErr result (TookPrefix (K.taken sink.old) text.now (K.taken sink.new)) }
    ensures failed { OnErr result (HasRisen (K.faults sink.old) (K.faults sink.new)) }
    ensures faults { K.faults sink.old ≤ K.faults sink.new }
{
    put_all(sink, text.as_bytes())
}

/// Writes a path, which a sink may cut off.
fn put_name<K: Sink>(sink: &mut K, path: &Text) -> Result<(), Failed>
    ensures ok { OnOk result (K.taken sink.new ≡ append_known (K.taken sink.old) path.now) }
    ensures err { OnErr result (TookPrefix (K.taken sink.old) path.now (K.taken sink.new)) }
    ensures failed { OnErr result (HasRisen (K.faults sink.old) (K.faults sink.new)) }
    ensures faults { K.faults sink.old ≤ K.faults sink.new }
{
    put_all(sink, path.bytes())
}

/// Writes the line of a path, with its newline.
fn put_path<K: Sink>(sink: &mut K, path: &Text) -> Result<(), Failed>
    ensures ok { OnOk result (K.taken sink.new ≡ append_known (K.taken sink.old) (shape_line path.now)) }
    ensures err { OnErr result (TookPrefix (K.taken sink.old) (shape_line path.now) (K.taken sink.new)) }
    ensures failed { OnErr result (HasRisen (K.faults sink.old) (K.faults sink.new)) }
    ensures faults { K.faults sink.old ≤ K.faults sink.new }
{
    put_text(sink, "refused shape ")?;
    put_name(sink, path)?;
    put_text(sink, "\n")?;
    Ok(())
}
