//! The frames that stand.
ghost use Rattle.std.specs.Prelude.{◌≡◌, ◌<◌, ◌≤◌, [], ◌∷◌, length, IfOk, option_map};
ghost use Rattle.napi_types.specs.plain.Lists.{head, tail};
ghost use Rattle.napi_types.specs.parts.Frames.{most_frames, ask_counted, asks_made, most_asks};
ghost use Rattle.env_core.specs.Standing.{machine_frame};

use napi_types::{Cause, Duty, MOST_FRAMES, NoMemory};
use std::alloc::Global;
use std::marker::Model;

/// A frame: why it began, which entry of which addon it runs, the duty that began it where one did, whether it makes asks, and how
/// many it made. Its scopes stand beside it.
#[derive(Clone, Copy)]
pub struct StandingFrame {
    pub cause: Cause,
    pub addon: u32,
    pub entry: u32,
    pub duty: Option<Duty>,
    pub makes_asks: bool,
    pub asks: u32,
}

/// The frames that stand. The memory for all that may is there, so that a frame that begins takes none.
#[derive(Drop)]
pub struct Frames {
    // The innermost frame stands last.
    frames: Vec<StandingFrame>,
}

impl Model for Frames {
    ghost use Rattle.std.specs.Prelude.{List, map, reverse, vec_capacity};
    ghost use Rattle.napi_types.specs.parts.Frames.{Frame};
    ghost use Rattle.env_core.specs.Standing.{machine_frame as seen, IsStanding};

    ghost Value = { List Frame };

    ghost view = { λ s. map seen (reverse s.frames.items) };

    ghost invariant = { λ s. IsStanding s.frames.items (vec_capacity s.frames) };
}

impl Frames {
    /// No frame stands.
    pub fn new(alloc: Global) -> Result<Frames, NoMemory>
        ensures { IfOk result (λ frames. frames ≡ []) }
    {
        let frames = Vec::with_capacity(alloc, MOST_FRAMES as usize)?;
        Ok(Frames { frames })
    }

    /// A frame begins inside the innermost one. It takes no memory.
    pub fn push(&mut self, frame: StandingFrame)
        requires { length self.old < most_frames }
        ensures { self.new ≡ machine_frame frame ∷ self.old }
    {
        self.frames.push_reserved(frame);
    }

    /// The innermost frame is gone.
    pub fn pop(&mut self)
        ensures { self.new ≡ tail self.old }
    {
        let _ = self.frames.pop();
    }

    /// The innermost frame made one ask more.
    pub fn count_ask(&mut self)
        requires { asks_made self.old < most_asks }
        ensures { self.new ≡ ask_counted self.old }
    {
        if let Some(mut frame) = self.frames.pop() {
            frame.asks += 1;
            self.frames.push_reserved(frame);
        }
    }

    /// The innermost frame.
    pub fn innermost(&self) -> Option<StandingFrame>
        ensures { option_map machine_frame result ≡ head self.now }
    {
        self.frames.last().copied()
    }

    /// How many frames stand.
    pub fn depth(&self) -> u32
        ensures depth { result ≡ length self.now }
        ensures few { length self.now ≤ most_frames }
    {
        self.frames.len() as u32
    }
}
