//! The environment on the lock.
ghost use Rattle.std.specs.Prelude.{◌≡◌, ◌≤◌, true, false, [], length, map, drop};
ghost use Rattle.std.specs.List.{All, AllZip};
ghost use Rattle.napi_types.specs.scripts.Plans.{Plan};
ghost use Rattle.napi_types.specs.declared.entry.Actor.TheVariants as actor;
ghost use Rattle.addon_trait.specs.Addons.{TellSamePlans};
ghost use Rattle.shared_hub.specs.KeptHubs.{IsLedHub};
ghost use Rattle.hub_lock.specs.SeenTurns.{SamePass};
ghost use Rattle.env_loop.specs.OpenedAndGone.{IsOpenedRun};
ghost use Rattle.env_loop.specs.RecordedRuns.{Run, FitsHub};
ghost use Rattle.env_loop.specs.FollowedRuns.{FollowsOnAt};
ghost use Rattle.env_loop.specs.Recording.{AddonStates, states_of};
ghost use Rattle.env_loop.specs.Turns.{needs_hub};
ghost use Rattle.runner.specs.AtPasses.{HoldsAtPass};
ghost use Rattle.runner.specs.Environments.{HasFollowedOnAtPass};
ghost use Rattle.runner.specs.ActorsAtTheLock.{GrewByEntries, IsStray, IsUnstartedStray, IsSameStray, HasEndedStray};

use crate::strays::{Stray, end_strays, turn_strays};
use addon_trait::Addon;
use async_work::Job;
use env_loop::{EnvRun, HubTurn, LocalTurn};
use hub_lock::{Hub, Locked};
use napi_types::Phase;
use shared_hub::{HubState, Naming};
use std::sync::Wait;
use turn_lock::Pass;

/// The number of the environment's pass.
const ENVIRONMENT: u32 = 0;

/// How many events of the hub share a turn of the lock at most.
const MOST_EVENTS: u32 = 64;

/// Runs the environment until it is gone, while threads and workers make their entries. It sleeps where there is nothing to do.
///
/// The strays are threads and workers that no other thread runs. Each of them gets one turn whenever there is nothing to do, and all have ended in the end.
/// Their jobs are executed here.
///
/// An addon's `begin` of a duty of the hub runs while the turn is held, and so does its `note` of the reply to a shared call. Both have to be short. All else
/// that addons do runs without it.
pub fn run_env<J: Job, N: Naming, R: Wait>(
    rt: &R,
    hub: &Hub<J, N>,
    pass: &mut Pass,
    env: &mut EnvRun,
    addons: &mut Vec<Box<dyn Addon>>,
    strays: &mut Vec<Stray<J>>,
)
    requires lock { pass.old.lock ≡ hub.now.lock }
    requires free { pass.old.holds ≡ false }
    requires number { pass.old.number ≡ 0 }
    requires own { pass.old.own ≡ [] }
    requires opened { IsOpenedRun env.old }
    requires enough { env.old.core.env.addons ≤ length addons.old.items }
    requires strays { All (IsUnstartedStray N.numbers hub.now) strays.old.items }
    ensures plans { TellSamePlans (λ b. plan b) addons.old.items addons.new.items }
    ensures same { SamePass pass.old pass.new }
    ensures gone { env.new.core.env.phase ≡ Phase.Gone }

    // What was followed from the opening is followed still, over a history that the pass has seen. The addons that are no addons of the script keep
    // their registers.
    ensures ran { let before = states_of (λ b. regs b) (λ b. seen b) addons.old.items in
        let after = states_of (λ b. regs b) (λ b. seen b) addons.new.items in
        HasFollowedOnAtPass N.numbers (map (λ b. plan b) addons.old.items) env.old before pass.new env.new after }
    ensures others { let n = env.old.core.env.addons in
        drop n (map (λ b. regs b) addons.new.items) ≡ drop n (map (λ b. regs b) addons.old.items) }

    // Each stray has ended: a thread made its script's calls, or a prefix of them where one stopped, and a worker its starts and finishes.
    ensures strays { AllZip (HasEndedStray N.numbers) strays.old.items strays.new.items }
{
    for _ in rt.forever() {
        if turn(rt, hub, pass, env, addons, strays) {
            end_strays(rt, hub, strays);
            return;
        }
    }
    unreachable!()
}

/// The environment's turn: its own, and where it needs the hub then the one at the hub. It tells whether the environment was gone.
fn turn<J: Job, N: Naming, R: Wait>(
    rt: &R,
    hub: &Hub<J, N>,
    pass: &mut Pass,
    env: &mut EnvRun,
    addons: &mut Vec<Box<dyn Addon>>,
    strays: &mut Vec<Stray<J>>,
) -> bool
    requires lock { pass.old.lock ≡ hub.now.lock }
    requires free { pass.old.holds ≡ false }
    requires number { pass.old.number ≡ 0 }
    requires fits { HoldsAtPass N.numbers pass.old (FitsHub env.old) }
    requires enough { env.old.core.env.addons ≤ length addons.old.items }
    requires strays { All (IsStray N.numbers hub.now) strays.old.items }
    ensures plans { TellSamePlans (λ b. plan b) addons.old.items addons.new.items }
    ensures same { SamePass pass.old pass.new }
    ensures fits { HoldsAtPass N.numbers pass.new (FitsHub env.new) }
    ensures ran { let before = states_of (λ b. regs b) (λ b. seen b) addons.old.items in
        let after = states_of (λ b. regs b) (λ b. seen b) addons.new.items in
        let plans = map (λ b. plan b) addons.old.items in
        (first : Run) (start : AddonStates) → first.core.env.addons ≡ env.old.core.env.addons
        → HasFollowedOnAtPass N.numbers plans first start pass.old env.old before → HasFollowedOnAtPass N.numbers plans first start pass.new env.new after }
    ensures addons { env.new.core.env.addons ≡ env.old.core.env.addons }
    ensures others { let n = env.old.core.env.addons in
        drop n (map (λ b. regs b) addons.new.items) ≡ drop n (map (λ b. regs b) addons.old.items) }
    ensures strays { All (IsStray N.numbers hub.now) strays.new.items }
    ensures same_strays { AllZip IsSameStray strays.old.items strays.new.items }
    ensures gone { result ≡ true → env.new.core.env.phase ≡ Phase.Gone }
{
    match env.local_turn(addons) {
        LocalTurn::Made => false,
        LocalTurn::NeedsHub => {
            let turn = turn_at_the_lock(rt, hub, pass, env, addons);
            give_way(rt, hub, strays, turn);
            false
        }
        LocalTurn::Gone => true,
    }
}

/// Where the environment had nothing to do the strays get a turn each, and where they have nothing to do it sleeps.
fn give_way<J: Job, N: Naming, R: Wait>(
    rt: &R,
    hub: &Hub<J, N>,
    strays: &mut Vec<Stray<J>>,
    turn: HubTurn,
)
    requires { All (IsStray N.numbers hub.now) strays.old.items }
    ensures strays { All (IsStray N.numbers hub.now) strays.new.items }
    ensures same { AllZip IsSameStray strays.old.items strays.new.items }
{
    if turn != HubTurn::Nothing {
        return;
    }
    if !turn_strays(rt, hub, strays) {
        hub.sleep(rt, ENVIRONMENT);
    }
}

/// One turn of the lock.
fn turn_at_the_lock<J: Job, N: Naming, R: Wait>(
    rt: &R,
    hub: &Hub<J, N>,
    pass: &mut Pass,
    env: &mut EnvRun,
    addons: &mut Vec<Box<dyn Addon>>,
) -> HubTurn
    requires lock { pass.old.lock ≡ hub.now.lock }
    requires free { pass.old.holds ≡ false }
    requires number { pass.old.number ≡ 0 }
    requires fits { HoldsAtPass N.numbers pass.old (FitsHub env.old) }
    requires needs { needs_hub env.old }
    requires enough { env.old.core.env.addons ≤ length addons.old.items }
    ensures plans { TellSamePlans (λ b. plan b) addons.old.items addons.new.items }
    ensures same { SamePass pass.old pass.new }
    ensures fits { HoldsAtPass N.numbers pass.new (FitsHub env.new) }
    ensures ran { let before = states_of (λ b. regs b) (λ b. seen b) addons.old.items in
        let after = states_of (λ b. regs b) (λ b. seen b) addons.new.items in
        let plans = map (λ b. plan b) addons.old.items in
        (first : Run) (start : AddonStates) → first.core.env.addons ≡ env.old.core.env.addons
        → HasFollowedOnAtPass N.numbers plans first start pass.old env.old before → HasFollowedOnAtPass N.numbers plans first start pass.new env.new after }
    ensures addons { env.new.core.env.addons ≡ env.old.core.env.addons }
    ensures others { let n = env.old.core.env.addons in
        drop n (map (λ b. regs b) addons.new.items) ≡ drop n (map (λ b. regs b) addons.old.items) }
{
    let mut held = hub.take(rt, pass);
    held.value.invariant();
    let turn = turn_under_the_lock(&mut held.value, env, addons);
    hub.give(pass, held);
    turn
}

/// What it does while it holds the turn: a burst of the hub's events.
fn turn_under_the_lock<J: Job, N: Naming>(
    locked: &mut Locked<HubState<J, N>>,
    env: &mut EnvRun,
    addons: &mut Vec<Box<dyn Addon>>,
) -> HubTurn
    requires fits { FitsHub env.old locked.old.state.value }
    requires needs { needs_hub env.old }
    requires enough { env.old.core.env.addons ≤ length addons.old.items }
    ensures plans { TellSamePlans (λ b. plan b) addons.old.items addons.new.items }
    ensures grew { GrewByEntries actor.Env locked.old.state.value locked.new.state.value }
    ensures known { IsLedHub N.numbers locked.new.state.value }
    ensures fits { FitsHub env.new locked.new.state.value }
    ensures goes { let before = states_of (λ b. regs b) (λ b. seen b) addons.old.items in
        let after = states_of (λ b. regs b) (λ b. seen b) addons.new.items in
        FollowsOnAt N.numbers (map (λ b. plan b) addons.old.items) env.old locked.old.state.value.history before env.new locked.new.state.value.history after }
    ensures addons { env.new.core.env.addons ≡ env.old.core.env.addons }
    ensures others { let n = env.old.core.env.addons in
        drop n (map (λ b. regs b) addons.new.items) ≡ drop n (map (λ b. regs b) addons.old.items) }
{
    let burst = env.hub_burst(&mut locked.state, addons, MOST_EVENTS);
    locked.invariant();
    burst.last
}
