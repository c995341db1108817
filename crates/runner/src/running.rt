//! The run of all actors on threads of a scope.
ghost use Rattle.std.specs.Prelude.{◌≡◌, ◌≤◌, length, map, drop};
ghost use Rattle.addon_trait.specs.Addons.{TellSamePlans};
ghost use Rattle.env_loop.specs.Recording.{states_of};
ghost use Rattle.runner.specs.Crews.{IsCrew, HasStartRoom, IsLeft};

use crate::environment::run_env;
use crate::join::join_all;
use crate::start::start_all;
use crate::start_room::StartRoom;
use crate::unstarted::{Opened, Unstarted};
use addon_trait::Addon;
use async_work::Job;
use env_loop::EnvRun;
use hub_lock::Hub;
use napi_types::Gate;
use shared_hub::Naming;
use std::sync::Wait;
use std::sync::atomic::AtomicU64;
use std::thread;
use std::thread::{Scope, Threads};
use turn_lock::Pass;

/// What is left once the environment is gone and all actors have ended.
pub(crate) struct Left {
    pub(crate) env: EnvRun,
    pub(crate) addons: Vec<Box<dyn Addon>>,
    pub(crate) passes: Vec<Pass>,
}

/// Runs all on threads of a scope.
pub(crate) fn run_in_scope<J: Job, N: Naming + Send + Sync, R: Threads + Wait + Sync, G: Gate>(
    rt: &R,
    hub: &Hub<J, N>,
    words: &[AtomicU64],
    gate: &G,
    first: Pass,
    crew: Vec<Unstarted>,
    places: StartRoom<J, N>,
    env: Opened,
    addons: Vec<Box<dyn Addon>>,
) -> Left
    requires crew { IsCrew J N.numbers hub.now first crew.items }
    requires words { length words.now ≡ length crew.items }
    requires room { HasStartRoom (length crew.items) places }
    requires enough { env.core.env.addons ≤ length addons.items }
    ensures plans { TellSamePlans (λ b. plan b) addons.items result.addons.items }
    ensures left { let before = states_of (λ b. regs b) (λ b. seen b) addons.items in
        let after = states_of (λ b. regs b) (λ b. seen b) result.addons.items in
        IsLeft J N.numbers hub.now crew.items (map (λ b. plan b) addons.items) env before result.env result.passes.items after }
    ensures others { let n = env.core.env.addons in
        drop n (map (λ b. regs b) result.addons.items) ≡ drop n (map (λ b. regs b) addons.items) }
{
    thread::scope(
        thread::scope_env(),
        rt,
        move |scope| -> Left
            requires crew { IsCrew J N.numbers hub.now first crew.items }
            requires words { length words.now ≡ length crew.items }
            requires room { HasStartRoom (length crew.items) places }
            requires enough { env.core.env.addons ≤ length addons.items }
            ensures plans { TellSamePlans (λ b. plan b) addons.items result.addons.items }
            ensures left { let before = states_of (λ b. regs b) (λ b. seen b) addons.items in
                let after = states_of (λ b. regs b) (λ b. seen b) result.addons.items in
                IsLeft J N.numbers hub.entry.now crew.items (map (λ b. plan b) addons.items) env before result.env result.passes.items after }
            ensures others { let n = env.core.env.addons in
                drop n (map (λ b. regs b) result.addons.items) ≡ drop n (map (λ b. regs b) addons.items) }
        {
            run_all(
                rt, scope, hub, words, gate, first, crew, places, env, addons,
            )
        },
    )
}

/// Starts all actors, runs the environment, and joins all of them.
fn run_all<'s, E, J: Job + 's, N: Naming + Send + Sync + 's, R: Threads + Wait + Sync, G: Gate>(
    rt: &'s R,
    scope: &Scope<'s, E>,
    hub: &'s Hub<J, N>,
    words: &'s [AtomicU64],
    gate: &'s G,
    first: Pass,
    crew: Vec<Unstarted>,
    places: StartRoom<J, N>,
    env: Opened,
    addons: Vec<Box<dyn Addon>>,
) -> Left
    requires crew { IsCrew J N.numbers hub.now first crew.items }
    requires words { length words.now ≡ length crew.items }
    requires room { HasStartRoom (length crew.items) places }
    requires enough { env.core.env.addons ≤ length addons.items }
    ensures plans { TellSamePlans (λ b. plan b) addons.items result.addons.items }
    ensures left { let before = states_of (λ b. regs b) (λ b. seen b) addons.items in
        let after = states_of (λ b. regs b) (λ b. seen b) result.addons.items in
        IsLeft J N.numbers hub.now crew.items (map (λ b. plan b) addons.items) env before result.env result.passes.items after }
    ensures others { let n = env.core.env.addons in
        drop n (map (λ b. regs b) result.addons.items) ≡ drop n (map (λ b. regs b) addons.items) }
{
    let (mut children, mut strays, mut passes) = places.into_lists();
    let (mut first, mut env, mut addons) = (first, env.into_run(), addons);
    start_all(
        rt,
        scope,
        hub,
        gate,
        words,
        crew,
        &mut children,
        &mut strays,
    );
    run_env(rt, hub, &mut first, &mut env, &mut addons, &mut strays);
    passes.push_reserved(first);
    join_all(rt, hub, gate, children, strays, &mut passes);
    Left {
        env,
        addons,
        passes,
    }
}
