//! What a scripted addon keeps of a reply that no environment gives: a refusal with a result. The rows of `rows_suite` show the rest.
use addon_trait::Addon;
use napi_types::{AddonPlan, Ask, Call, HandleId, Listed, Op, Out, Reply, Status};
use script_addon::ScriptAddon;
use std::alloc::Global;
use std::process::Abort;

/// One entry: make an object and ask its kind.
fn plan(rt: &impl Abort, alloc: Global) -> AddonPlan {
    let operations = vec![in alloc; Op::CreateObject(1), Op::Typeof(1, 2)].expect(rt, "no memory");
    let entries = vec![in alloc; Listed::of(operations)].expect(rt, "no memory");
    AddonPlan {
        entries: Listed::of(entries),
    }
}

/// A refusal that has a handle is noted at the first step. What is asked at the second one.
fn asked_after_refusal(addon: &mut dyn Addon) -> Ask {
    let reply = Reply {
        status: Status::PendingException,
        out: Out::Handle(HandleId(9)),
        dropped: None,
        made: None,
    };
    addon.note(0, 0, &reply);
    addon.ask(0, 1)
}

#[test]
fn a_refused_call_keeps_nothing(rt: HostRuntime) {
    let mut addon = ScriptAddon::blank(rt.alloc());
    addon.load(plan(&rt, rt.alloc()));
    let ask = asked_after_refusal(&mut addon);
    assert!(rt; matches!(ask, Ask::Do(Call::Typeof(HandleId(0)))));
}
