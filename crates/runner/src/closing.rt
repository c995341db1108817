//! The end of a run: the lock is closed, and its two lists are handed out.
ghost use Rattle.std.specs.Prelude.{◌≡◌, false, map, List};
ghost use Rattle.std.specs.List.{All, range_with_len};
ghost use Rattle.napi_types.specs.scripts.Plans.{Plan};
ghost use mathlib.Core.List.{IsPrefix};
ghost use Rattle.turn_lock.specs.Rows.{own_rows};
ghost use Rattle.shared_hub.specs.HubRows.{rows_of};
ghost use Rattle.shared_hub.specs.HubStates.{hub_seen};
ghost use Rattle.env_loop.specs.ActorTurns.{IsActorOf};
ghost use Rattle.env_loop.specs.OpenedAndGone.{EndsWhole};
ghost use Rattle.env_loop.specs.RecordedRuns.{Run};
ghost use Rattle.env_loop.specs.Recording.{AddonStates};
ghost use Rattle.env_loop.specs.RunsOverRows.{IsReplayed};
ghost use Rattle.env_loop.specs.declared.actor.ActorRun.{ActorRun};
ghost use Rattle.runner.specs.AtPasses.{IsAtPass};
ghost use Rattle.runner.specs.Environments.{HasFollowedOnAtPass, OfFirst};

use async_work::Job;
use env_loop::EnvRun;
use hub_lock::Hub;
use napi_types::{Phase, Record};
use shared_hub::Naming;
use turn_lock::Pass;

/// Closes the hub where all passes have come back, and hands out the journal of the environment, which is gone, and the whole history.
pub fn close<J: Job, N: Naming>(hub: Hub<J, N>, passes: Vec<Pass>, env: EnvRun) -> Record
    requires every { map (λ p. p.number) passes.items ≡ range_with_len 0 hub.passes }
    requires lock { All (λ p. p.lock ≡ hub.lock) passes.items }
    requires free { All (λ p. p.holds ≡ false) passes.items }
    requires gone { env.core.env.phase ≡ Phase.Gone }
    ensures journal { result.journal ≡ env.core.journal }

    // Each pass had seen a prefix of the rows, and has all its own rows.
    ensures seen { All (λ p. IsPrefix p.seen (rows_of N.numbers.threads result.history)) passes.items }
    ensures own { All (λ p. p.own ≡ own_rows p.number (rows_of N.numbers.threads result.history)) passes.items }
    ensures led { IsReplayed N.numbers (hub_seen N.numbers result.history) }

    // What the environment recorded stands over the whole history, and came to its end.
    ensures ended { (plans : List Plan) (first : Run) (before after : AddonStates)
        → OfFirst passes.items (λ p. HasFollowedOnAtPass N.numbers plans first before p env after) → EndsWhole N.numbers plans first before result after }

    // So does what each other actor did.
    ensures actors { All (λ p. (a : ActorRun J) → IsAtPass N.numbers p a → IsActorOf N.numbers (hub_seen N.numbers result.history) a) passes.items }
{
    let state = Box::into_inner(hub.close(passes));
    state.invariant();
    env.into_record(state)
}
