//! Addons that tell no plan: they heed no script, and the environment runs them as any other.
ghost use Rattle.std.specs.Prelude.{None};

use super::*;
use napi_types::{AddonPlan, Args, Ask, Begun, Call, Due, HandleId, Reply, ScopeId, SeenList};
use std::alloc::AllocError;

/// A script of one addon, which has one entry.
const ONE: &[u8] =
    br#"{"version":9,"workers":0,"addons":[{"name":"a","entries":[[["get_null",0]]]}],"threads":[]}"#;

/// What an addon does, whatever its script says.
#[derive(Clone, Copy)]
enum Way {
    /// It makes one object and leaves.
    Brief,
    /// It asks for undefined without end.
    Stays,
    /// Its first entry makes a function of its second one, calls it, asks for the last status and leaves; the second one asks for
    /// undefined without end.
    CallsOneThatStays,
    /// Its first entry makes an object with two finalizers, collects it and leaves. The second entry, the first finalizer's, asks for
    /// undefined without end; the third one, the other's, asks for the version and leaves.
    RegistersOneThatStays,
}

/// An addon that tells no plan.
#[derive(Drop)]
struct Unplanned {
    registers: [u64; 32],
    seen: SeenList,
    way: Way,
}

/// What the first entry of the addon that registers asks. Its object has the handle 1, in the scope 1.
fn registering_ask(step: u32) -> Ask {
    match step {
        0 => Ask::Do(Call::OpenHandleScope),
        1 => Ask::Do(Call::CreateObject),
        2 => Ask::Do(Call::AddFinalizer(HandleId(1), 70, 1, 71, false)),
        3 => Ask::Do(Call::AddFinalizer(HandleId(1), 80, 2, 81, false)),
        4 => Ask::Do(Call::CloseHandleScope(ScopeId(1))),
        5 => Ask::Do(Call::Collect),
        _ => Ask::Leave(None),
    }
}

impl Addon for Unplanned {
    ghost plan = { λ _. None };

    ghost regs = { λ addon. addon.registers };

    ghost seen = { λ addon. addon.seen };

    fn load(&mut self, _given: AddonPlan) {
        self.registers = [0; 32];
    }

    fn enter(&mut self, _entry: u32, gifts: &[u64; 8]) {
        self.registers[24..].copy_from_slice(gifts);
    }

    fn begin(&mut self, due: Due) -> Begun {
        let info = *due.info();
        self.enter(info.entry, &info.gifts);
        due.begin(&mut self.seen)
    }

    fn ask(&mut self, entry: u32, step: u32) -> Ask {
        let none = Args {
            count: 0,
            handles: [HandleId(0); 4],
        };
        match (self.way, entry, step) {
            (Way::Brief, _, 0) => Ask::Do(Call::CreateObject),
            (Way::Brief, _, _) => Ask::Leave(None),
            (Way::CallsOneThatStays, 0, 0) => Ask::Do(Call::CreateFunction(1, 0)),
            (Way::CallsOneThatStays, 0, 1) => Ask::Do(Call::CallFunction(None, HandleId(1), none)),
            (Way::CallsOneThatStays, 0, 2) => Ask::Do(Call::GetLastErrorInfo),
            (Way::CallsOneThatStays, 0, _) => Ask::Leave(None),
            (Way::RegistersOneThatStays, 0, _) => registering_ask(step),
            (Way::RegistersOneThatStays, 2, 0) => Ask::Do(Call::GetVersion),
            (Way::RegistersOneThatStays, 2, _) => Ask::Leave(None),
            _ => Ask::Do(Call::GetUndefined),
        }
    }

    fn note(&mut self, _entry: u32, _step: u32, _reply: &Reply) {}
}

/// A line of a trace without its number and actor, and how many times it comes in a row.
type Line = (u32, &'static str);

/// A script that three addons of one kind are run with, and the lines of its trace.
#[derive(Clone, Copy)]
struct Case {
    subject: &'static str,
    way: Way,
    script: &'static [u8],
    lines: &'static [Line],
}

const CASES: &[Case] = &[
    Case {
        subject: "no addon of the script",
        way: Way::Brief,
        script: br#"{"version":9,"workers":0,"addons":[],"threads":[]}"#,
        lines: &[
            (1, "opened 0 9"),
            (1, "go 0 -"),
            (1, "loop_end 0 idle"),
            (1, "drain 0 0"),
            (1, "finals 0 -"),
            (1, "gone 0 -"),
        ],
    },
    Case {
        subject: "each addon of the script",
        way: Way::Brief,
        script: br#"{"version":9,"workers":0,"addons":[{"name":"a","entries":[]},{"name":"b","entries":[]},{"name":"c","entries":[]}],"threads":[]}"#,
        lines: &[
            (1, "opened 0 9"),
            (1, "begin 0 init:0.0"),
            (1, "create_object 0 handle"),
            (1, "end 0 -"),
            (1, "begin 0 init:1.0"),
            (1, "create_object 0 handle"),
            (1, "end 0 -"),
            (1, "begin 0 init:2.0"),
            (1, "create_object 0 handle"),
            (1, "end 0 -"),
            (1, "go 0 -"),
            (1, "loop_end 0 idle"),
            (1, "drain 0 0"),
            (1, "finals 0 -"),
            (1, "gone 0 -"),
        ],
    },
    Case {
        subject: "an init frame that never leaves",
        way: Way::Stays,
        script: ONE,
        lines: &[
            (1, "opened 0 9"),
            (1, "begin 0 init:0.0"),
            (65_536, "get_undefined 0 handle"),
            (1, "end 0 cut:asks"),
            (1, "go 0 -"),
            (1, "loop_end 0 idle"),
            (1, "drain 0 0"),
            (1, "finals 0 -"),
            (1, "gone 0 -"),
        ],
    },
    Case {
        subject: "a call that never returns",
        way: Way::CallsOneThatStays,
        script: ONE,
        lines: &[
            (1, "opened 0 9"),
            (1, "begin 0 init:0.0"),
            (1, "create_function 0 handle"),
            (1, "begin 0 call:0.1"),
            (65_536, "get_undefined 0 handle"),
            (1, "end 9 cut:asks"),
            (1, "get_last_error_info 0 9"),
            (1, "end 0 -"),
            (1, "go 0 -"),
            (1, "loop_end 0 idle"),
            (1, "drain 0 0"),
            (1, "finals 0 -"),
            (1, "gone 0 -"),
        ],
    },
    Case {
        subject: "a finalizer that never leaves, and the next one",
        way: Way::RegistersOneThatStays,
        script: ONE,
        lines: &[
            (1, "opened 0 9"),
            (1, "begin 0 init:0.0"),
            (1, "open_handle_scope 0 scope"),
            (1, "create_object 0 handle"),
            (1, "add_finalizer 0 - +#1"),
            (1, "add_finalizer 0 - +#2"),
            (1, "close_handle_scope 0 -"),
            (1, "collect 0 1"),
            (1, "end 0 -"),
            (1, "go 0 -"),
            (1, "begin 0 finalize:0.1:#1"),
            (65_536, "get_undefined 0 handle"),
            (1, "end 0 cut:asks"),
            (1, "begin 0 finalize:0.2:#2"),
            (1, "get_version 0 10"),
            (1, "end 0 -"),
            (1, "loop_end 0 idle"),
            (1, "drain 0 0"),
            (1, "finals 0 -"),
            (1, "gone 0 -"),
        ],
    },
];

/// Adds the text of a trace with these lines.
fn add_trace(text: &mut String, lines: &[Line]) -> Result<(), AllocError> {
    let mut number = 0u64;
    for (times, line) in lines {
        for _ in 0..*times {
            number = number.saturating_add(1);
            write!(text, "{number} env {line}\n")?;
        }
    }
    Ok(())
}

/// The text of a trace with these lines.
fn trace_of<R: Abort>(rt: &R, alloc: Global, lines: &[Line]) -> String {
    let mut text = String::new(alloc);
    given(rt, add_trace(&mut text, lines));
    text
}

/// The status of the run of a case, and what it writes.
fn run_of_case<R: Abort + Threads + Wait + Sync>(
    rt: &R,
    alloc: Global,
    case: &Case,
) -> (u8, String) {
    let mut addons: Vec<Box<dyn Addon>> = Vec::new(alloc);
    for _ in 0..3 {
        let unplanned = Unplanned {
            registers: [0; 32],
            seen: SeenList::new(),
            way: case.way,
        };
        let addon = given(rt, Box::new(alloc, unplanned));
        given(rt, addons.push(addon));
    }
    run_of(rt, alloc, case.script, &mut addons)
}

#[test]
fn addons_without_a_plan_run_as_any_other(rt: HostRuntime) {
    let alloc = rt.alloc();
    for case in CASES {
        let expected = (0, trace_of(&rt, alloc, case.lines));
        assert_eq!(rt; run_of_case(&rt, alloc, case), expected, "{}", case.subject);
    }
}
