//! What an addon that tells no plan is asked and told, in order. No clause says it, since a contract knows nothing of such an addon.
ghost use Rattle.std.specs.Prelude.{None};

use super::*;
use napi_types::{AddonPlan, Ask, Begun, Call, Due, Duty, Reply};
use std::alloc::AllocError;
use std::cell::RefCell;
use std::rc::Rc;

/// An addon that follows its script and tells no plan. It writes a line of what it is asked and told into a text that it shares.
#[derive(Drop)]
struct Listener {
    follower: ScriptAddon,
    number: u32,
    heard: Rc<RefCell<String>>,
}

/// Adds a line: the addon, what it is told, the entry or at the load how many there are, and other numbers.
fn add_line(
    text: &mut String,
    addon: u32,
    what: &str,
    entry: u64,
    numbers: &[u64],
) -> Result<(), AllocError> {
    write!(text, "{addon} {what} {entry}")?;
    for number in numbers {
        write!(text, " {number}")?;
    }
    write!(text, "\n")
}

/// The number of a duty, whatever it is.
fn number_of(duty: Duty) -> u64 {
    match duty {
        Duty::Ticket(ticket) => ticket.0,
        Duty::Work(number) | Duty::Item(_, number) => number,
        Duty::Function(function) => function.0,
    }
}

impl Listener {
    /// Writes a line of what it is told.
    fn write_line(&self, what: &str, entry: u64, numbers: &[u64]) {
        if let Ok(mut heard) = self.heard.try_borrow_mut() {
            // Where there is no memory the text is too short, and the test fails.
            let _ = add_line(&mut heard, self.number, what, entry, numbers);
        }
    }
}

/// The entry whose frames never leave.
const ENDLESS: u32 = 7;

impl Addon for Listener {
    ghost plan = { λ _. None };

    ghost regs = { λ addon. ⟦<ScriptAddon as Addon>⟧.regs addon.follower };

    ghost seen = { λ addon. ⟦<ScriptAddon as Addon>⟧.seen addon.follower };

    fn load(&mut self, given: AddonPlan) {
        let entries = given.entries.items().len();
        self.follower.load(given);
        self.write_line("load", entries as u64, &[]);
    }

    fn enter(&mut self, entry: u32, gifts: &[u64; 8]) {
        self.follower.enter(entry, gifts);
        self.write_line("enter", entry as u64, gifts);
    }

    fn begin(&mut self, due: Due) -> Begun {
        let info = *due.info();
        let begun = self.follower.begin(due);
        let status = info.status.number() as u64;
        let about = [info.addon as u64, status, info.runs as u64];
        self.write_line("duty", number_of(info.duty), &about);
        self.write_line(info.cause.name(), info.entry as u64, &info.gifts);
        begun
    }

    fn ask(&mut self, entry: u32, step: u32) -> Ask {
        self.write_line("ask", entry as u64, &[step as u64]);
        match self.follower.ask(entry, step) {
            Ask::Leave(_) if entry == ENDLESS => Ask::Do(Call::IsExceptionPending),
            ask => ask,
        }
    }

    fn note(&mut self, entry: u32, step: u32, reply: &Reply) {
        self.follower.note(entry, step, reply);
        let status = reply.status.number() as u64;
        self.write_line("note", entry as u64, &[step as u64, status]);
    }
}

/// Three addons that write what they are told into this text. The scripts have two, so the third one is told nothing.
fn listeners<R: Abort>(rt: &R, alloc: Global, text: &Rc<RefCell<String>>) -> Vec<Box<dyn Addon>> {
    let mut addons: Vec<Box<dyn Addon>> = Vec::new(alloc);
    for number in 0..3 {
        let listener = Listener {
            follower: ScriptAddon::blank(alloc),
            number,
            heard: given(rt, text.clone()),
        };
        let addon = given(rt, Box::new(alloc, listener));
        given(rt, addons.push(addon));
    }
    addons
}

/// The status of a run of a script with three addons that write what they are told into this text.
fn status_of_listeners<R: Abort + Threads + Wait + Sync>(
    rt: &R,
    alloc: Global,
    script: &[u8],
    text: &Rc<RefCell<String>>,
) -> u8 {
    let mut addons = listeners(rt, alloc, text);
    let (status, _) = run_of(rt, alloc, script, &mut addons);
    status
}

/// The status of a run of a script with three addons, and what they are told in it.
fn heard<R: Abort + Threads + Wait + Sync>(rt: &R, alloc: Global, script: &[u8]) -> (u8, String) {
    let text = given(rt, Rc::new(alloc, RefCell::new(String::new(alloc))));
    let status = status_of_listeners(rt, alloc, script, &text);
    let cell = given(rt, Rc::into_inner(text).ok_or("an addon is left"));
    (status, cell.into_inner())
}

/// Adds a text in which the line `endless` stands for 65,536 asks of the first addon's entry that never leaves, each with its reply.
fn add_expanded(whole: &mut String, text: &str) -> Result<(), AllocError> {
    for line in text.lines() {
        if line == "endless" {
            for step in 0..65_536 {
                write!(whole, "0 ask 7 {step}\n0 note 7 {step} 0\n")?;
            }
        } else {
            write!(whole, "{line}\n")?;
        }
    }
    Ok(())
}

/// Such a text with its lines.
fn expanded<R: Abort>(rt: &R, alloc: Global, text: &str) -> String {
    let mut whole = String::new(alloc);
    given(rt, add_expanded(&mut whole, text));
    whole
}

/// A handle that is unknown, a call of what is no function, and a guarded call while an exception is pending: each refusal is told, and
/// the next ask has the next step.
const REFUSED: (&[u8], &str) = (
    br#"{"version":9,"workers":0,"addons":[{"name":"a","entries":[[["create_object",0],["get_named_property",9,"x",1],["call_function",-1,0,[],1],["throw",0],["create_function",1,70,1],["get_and_clear_last_exception",1]],[]]},{"name":"b","entries":[]}],"threads":[]}"#,
    "0 load 2
1 load 0
0 ask 0 0
0 note 0 0 0
0 ask 0 1
0 note 0 1 1
0 ask 0 2
0 note 0 2 1
0 ask 0 3
0 note 0 3 0
0 ask 0 4
0 note 0 4 10
0 ask 0 5
0 note 0 5 0
0 ask 0 6
1 ask 0 0
",
);

/// A function of entry 3 calls one of entry 5, which throws: both calls fail. The functions have the handles 1 and 2, and the first call
/// names no receiver, so that is handle 3.
const FAILED: (&[u8], &str) = (
    br#"{"version":9,"workers":0,"addons":[{"name":"a","entries":[[["create_function",3,70,0],["create_function",5,80,1],["call_function",-1,0,[1,0],2],["get_and_clear_last_exception",2]],[],[],[["call_function",0,1,[],3]],[],[["throw",0],["get_undefined",4],["return",4]]]},{"name":"b","entries":[]}],"threads":[]}"#,
    "0 load 6
1 load 0
0 ask 0 0
0 note 0 0 0
0 ask 0 1
0 note 0 1 0
0 ask 0 2
0 enter 3 2 2 1 0 0 3 70 0
0 ask 3 0
0 enter 5 0 0 0 0 0 1 80 0
0 ask 5 0
0 note 5 0 0
0 ask 5 1
0 note 5 1 0
0 ask 5 2
0 note 3 0 10
0 ask 3 1
0 note 0 2 10
0 ask 0 3
0 note 0 3 0
0 ask 0 4
1 ask 0 0
",
);

/// The frame of a call is cut, for it never leaves. Its caller is told the status 9 and goes on.
const CUT: (&[u8], &str) = (
    br#"{"version":9,"workers":0,"addons":[{"name":"a","entries":[[["create_function",7,70,0],["call_function",0,0,[],1],["get_last_error_info",1]],[],[],[],[],[],[],[]]},{"name":"b","entries":[]}],"threads":[]}"#,
    "0 load 8
1 load 0
0 ask 0 0
0 note 0 0 0
0 ask 0 1
0 enter 7 0 0 0 0 0 1 70 0
endless
0 note 0 1 9
0 ask 0 2
0 note 0 2 0
0 ask 0 3
1 ask 0 0
",
);

/// The second addon calls a function of the first one, handle 4, with a function of its own, handle 5, as the argument, and with the global
/// object, handle 3, as the receiver. The first addon calls that one, with four arguments and no receiver, which is handle 6.
const BETWEEN: (&[u8], &str) = (
    br#"{"version":9,"workers":0,"addons":[{"name":"a","entries":[[["get_global",0],["create_function",3,70,1],["set_named_property",0,"f",1]],[],[],[["call_function",-1,25,[29,29,25,29],6],["return",6]]]},{"name":"b","entries":[[["get_global",0],["get_named_property",0,"f",1],["create_function",4,90,2],["call_function",0,1,[2],3],["typeof",3,4]],[],[],[],[["create_object",5],["return",5]]]}],"threads":[]}"#,
    "0 load 4
1 load 5
0 ask 0 0
0 note 0 0 0
0 ask 0 1
0 note 0 1 0
0 ask 0 2
0 note 0 2 0
0 ask 0 3
1 ask 0 0
1 note 0 0 0
1 ask 0 1
1 note 0 1 0
1 ask 0 2
1 note 0 2 0
1 ask 0 3
0 enter 3 1 5 0 0 0 3 70 0
0 ask 3 0
1 enter 4 4 3 3 5 3 6 90 0
1 ask 4 0
1 note 4 0 0
1 ask 4 1
0 note 3 0 0
0 ask 3 1
1 note 0 3 0
1 ask 0 4
1 note 0 4 0
1 ask 0 5
",
);

/// A finalizer of the first addon and one of the second begin after `finals`. The object has handle 1, and the second addon's external
/// has handle 2. In its frame the first finalizer asks a guarded call, which is refused, and one that is not. No end is told.
const FINALIZED: (&[u8], &str) = (
    br#"{"version":9,"workers":0,"addons":[{"name":"a","entries":[[["create_object",0],["add_finalizer",0,70,3,71,-1]],[],[],[["throw_error",-1,"m"],["get_null",1]]]},{"name":"b","entries":[[["create_external",80,1,81,0]],[["get_version",1]]]}],"threads":[]}"#,
    "0 load 4
1 load 2
0 ask 0 0
0 note 0 0 0
0 ask 0 1
0 note 0 1 0
0 ask 0 2
1 ask 0 0
1 note 0 0 0
1 ask 0 1
0 duty 1 0 0 1
0 finalize 3 70 71 0 0 0 0 0 0
0 ask 3 0
0 note 3 0 10
0 ask 3 1
0 note 3 1 0
0 ask 3 2
1 duty 2 1 0 1
1 finalize 1 80 81 0 0 0 0 0 0
1 ask 1 0
1 note 1 0 0
1 ask 1 1
",
);

#[test]
fn addons_are_told_each_begin_and_each_reply(rt: HostRuntime) {
    for (subject, (script, text)) in [
        ("refused calls", REFUSED),
        ("failed calls", FAILED),
        ("a callee that is cut", CUT),
        ("calls between addons", BETWEEN),
        ("finalizers", FINALIZED),
    ] {
        let found = heard(&rt, rt.alloc(), script);
        let expected = (0, expanded(&rt, rt.alloc(), text));
        assert_eq!(rt; found, expected, "{subject}");
    }
}
