//! The frames of tickets, as they begin and as they end.
ghost use Rattle.std.specs.Prelude.{◌≡◌, ◌≢◌, ◌<◌, [], ◌∷◌, length, true, false, Some, None, IfSome, ◌↔◌};
ghost use Rattle.std.specs.Option.{is_some};
ghost use Rattle.napi_types.specs.declared.entry.HostStep.TheVariants as host;
ghost use Rattle.napi_types.specs.plain.Entries.{host_entry as entry_of};
ghost use Rattle.napi_types.specs.plain.Lists.{tail};
ghost use Rattle.napi_types.specs.parts.Book.{is_begun, is_at, lowest_due};
ghost use Rattle.napi_types.specs.parts.Frames.{most_frames, duty_of, frame_of_duty, begin_told, is_hub_duty};
ghost use Rattle.napi_types.specs.environment.Ends.{duty_ended, outermost_end_change};
ghost use Rattle.napi_types.specs.environment.Hooked.{IsHooked};
ghost use Rattle.napi_types.specs.environment.Tickets.{next_ticket};
ghost use Rattle.finalizer_queue.specs.KeptBook.{ticket_number};
ghost use Rattle.handle_scope.specs.HandleScopes.{with_frame_scopes};
ghost use Rattle.env_core.specs.Beginning.{BeginsFrame};

use super::{State, host_entry};
use crate::frames::{Frames, StandingFrame};
use handle_scope::Scopes;
use napi_types::{Begun, Due, DueInfo, Entry, HostStep, Out, Phase, Why};

impl State {
    /// Whether a ticket is next.
    pub fn has_local(&self) -> bool
        ensures { result ≡ is_some (next_ticket self.now) }
    {
        match self.phase {
            Phase::Live | Phase::Finals => self.registry.has_due(),
            Phase::Hooks => self.registry.has_hook(),
            _ => false,
        }
    }

    /// The frame of the next ticket begins, with a scope of its own: its entry, and what the ticket tells. It takes no memory.
    pub fn begin_ticket(&mut self) -> Option<(Entry, Due)>
        requires alone { self.old.frames ≡ [] }
        requires hooked { IsHooked self.old }
        ensures none { (result ≡ None) ↔ (next_ticket self.old ≡ None) }
        ensures stays { result ≡ None → self.new ≡ self.old }
        ensures begun { IfSome result (λ begin. BeginsFrame self.old begin.0 begin.1 self.new) }
    {
        match self.phase {
            Phase::Live | Phase::Finals => self.begin_due(),
            Phase::Hooks => self.begin_hook(),
            _ => None,
        }
    }

    /// The frame of the lowest ticket that is due begins, in a phase in which such do.
    fn begin_due(&mut self) -> Option<(Entry, Due)>
        requires alone { self.old.frames ≡ [] }
        requires phase { self.old.phase ≢ Phase.Hooks }
        requires next { next_ticket self.old ≡ lowest_due self.old.book }
        ensures none { (result ≡ None) ↔ (lowest_due self.old.book ≡ None) }
        ensures stays { result ≡ None → self.new ≡ self.old }
        ensures begun { IfSome result (λ begin. BeginsFrame self.old begin.0 begin.1 self.new) }
    {
        let due = self.registry.begin_due()?;
        let begin = begin_frame(&mut self.scopes, &mut self.frames, *due.info());
        Some((begin, due))
    }

    /// The frame of the hook that was added last begins: the hook is taken off the list, and its ticket falls due and begins.
    fn begin_hook(&mut self) -> Option<(Entry, Due)>
        requires alone { self.old.frames ≡ [] }
        requires phase { self.old.phase ≡ Phase.Hooks }
        requires hooked { IsHooked self.old }
        ensures none { (result ≡ None) ↔ (next_ticket self.old ≡ None) }
        ensures stays { result ≡ None → self.new ≡ self.old }
        ensures begun { IfSome result (λ begin. BeginsFrame self.old begin.0 begin.1 self.new) }
    {
        let due = self.registry.begin_hook()?;
        let begin = begin_frame(&mut self.scopes, &mut self.frames, *due.info());
        Some((begin, due))
    }

    /// The frame of a ticket ends, which stands alone, cut or not, and its scopes close. The ticket has ended, and an exception that
    /// is pending is cleared.
    pub fn end_duty(&mut self, begun: Begun, cut: Option<Why>) -> Entry
        requires duty { duty_of self.old.frames ≡ Some begun.duty }
        requires local { is_hub_duty (Some begun.duty) ≡ false }
        requires alone { tail self.old.frames ≡ [] }
        ensures entry { result ≡ (outermost_end_change cut self.old).entry }
        ensures after { self.new ≡ (outermost_end_change cut self.old).after }
    {
        let out = self.clear_at_end(cut);
        self.scopes.leave_frame();
        self.frames.pop();
        self.registry.end_ticket(begun);
        host_entry(HostStep::End, out)
    }
}

/// The frame of a duty begins, with a scope of its own: its entry.
pub(super) fn begin_frame(scopes: &mut Scopes, frames: &mut Frames, told: DueInfo) -> Entry
    requires scopes { length scopes.old.frames < most_frames }
    requires frames { length frames.old < most_frames }
    ensures entry { result ≡ entry_of host.Begin (begin_told (frame_of_duty told)) }
    ensures scopes { scopes.new ≡ with_frame_scopes scopes.old }
    ensures frames { frames.new ≡ frame_of_duty told ∷ frames.old }
{
    scopes.enter_frame();
    frames.push(StandingFrame {
        cause: told.cause,
        addon: told.addon,
        entry: told.entry,
        duty: Some(told.duty),
        makes_asks: told.runs,
        asks: 0,
    });
    host_entry(
        HostStep::Begin,
        Out::Begin(told.cause, told.addon, told.entry, Some(told.duty)),
    )
}
