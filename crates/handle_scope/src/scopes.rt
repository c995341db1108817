//! The scopes of all frames, as one stack of handles with marks where each scope and each frame begins.
ghost use Rattle.std.specs.Prelude.{ℕ, ◌≡◌, ◌≢◌, ◌+◌, ◌*◌, ◌<◌, ◌≤◌, ◌==◌, ◌&&◌, ◌^◌, [], ◌++◌, length, map, reverse, take, true, None, Some, IsTrue, IsOk, IfOk, IfSome, OnOk, OnErr, option_map, slice_index_or, vec_capacity};
ghost use Rattle.std.specs.Option.{is_some, option_to_list};
ghost use Rattle.std.specs.Result.{result_err};
ghost use Rattle.std.specs.List.{list_any};
ghost use Rattle.napi_types.specs.plain.Lists.{head};
ghost use Rattle.napi_types.specs.parts.Frames.{most_frames};
ghost use Rattle.napi_types.specs.parts.ScopeRefusals.{is_kind, closing, escaping};
ghost use Rattle.napi_types.specs.parts.Scopes.{gives, value_in, opened_scopes};
ghost use Rattle.handle_scope.specs.HandleScopes.{no_scopes, with_frame_scopes, with_call_scopes, without_frame_scopes, without_call_scopes, with_open_scope, without_innermost_scope, with_reserved_place, with_issued_handle, with_escaped_handle, handle_places, is_fresh_scope};
ghost use Rattle.handle_scope.specs.Marks.{Rises, AreAtMost, AreStartsWithin, ArePlaced, IsTracked, IsEscapable, held_of, scopes_above, places_marked, all_waiting, waiting_value, place_left, with_spare};

use napi_types::{HandleId, MOST_FRAMES, NoMemory, ScopeId, ScopeKind, Status, ValueId};
use std::alloc::Global;
use std::marker::Model;

/// A handle that an open scope holds, and its value.
#[derive(Clone, Copy)]
struct HeldHandle {
    handle: u64,
    value: ValueId,
}

/// A scope that a call opened, where in the stack it begins, and at which handle place.
#[derive(Clone, Copy)]
struct ScopeMark {
    number: u64,
    kind: ScopeKind,
    start: usize,
    place: usize,
    // The handle that escaped from it waits here until the scope closes, and then takes the place where the scope began.
    escaped: Option<HeldHandle>,
}

/// A frame: where in the stack its own scope begins, how many scopes calls had opened before it, and whether a call
/// entered it.
#[derive(Clone, Copy)]
struct FrameMark {
    start: usize,
    scopes: usize,
    by_call: bool,
}

/// A handle that escaped, and at which place of the marks the scope stands that it escaped from.
#[derive(Clone, Copy)]
struct Escape {
    handle: u64,
    scope: usize,
}

/// The handle scopes of all frames that stand.
#[derive(Drop)]
pub struct Scopes {
    // In the order of their issue, so the handles rise, and the innermost scope's stand last. It has the memory of a place
    // for each open scope and for each frame that a call entered.
    held: Vec<HeldHandle>,
    // The innermost scope stands last, and the numbers and places rise.
    scopes: Vec<ScopeMark>,
    // The innermost frame stands last. There is room for all frames that may stand.
    frames: Vec<FrameMark>,
    // Finds the mark where an escaped handle waits. The handles rise. Those of closed scopes may still stand here. With those
    // that may still escape they are at most one more than three times as many as the open scopes. It has the memory of an
    // escape from each open scope.
    escapes: Vec<Escape>,
    // How many handles and how many scope numbers were issued. Scope numbers count from 1.
    handles: u64,
    numbers: u64,
    // How many places of `held` were reserved and are not filled yet.
    spare: usize,
    // How many of the frames were entered by a call.
    calls: usize,
}

impl Model for Scopes {
    ghost use Rattle.handle_scope.specs.HandleScopes.{HandleScopes};

    ghost Value = { HandleScopes };

    ghost use Rattle.std.specs.Prelude.{map, reverse, vec_capacity};
    ghost use Rattle.napi_types.specs.plain.Lists.{up_to};
    ghost use Rattle.handle_scope.specs.Marks.{frames_of, FitsStack};

    ghost view = { λ s. record {
      frames = frames_of s.frames.items s.scopes.items s.held.items;
      by_call = map (λ f. f.by_call) (reverse s.frames.items);
      handles = s.handles;
      scope_numbers = up_to s.numbers;
      spare = s.spare;
    } };

    ghost invariant = { λ s. FitsStack s.frames.items s.scopes.items s.held.items s.escapes.items s.handles s.numbers s.spare s.calls (vec_capacity s.frames) (vec_capacity s.held) (vec_capacity s.escapes) };
}

impl Scopes {
    /// No frame stands, and nothing was issued. It reserves the memory for 64 frames, so that entering one takes none.
    pub fn new(alloc: Global) -> Result<Scopes, NoMemory>
        ensures { IfOk result (λ scopes. scopes ≡ no_scopes) }
    {
        let frames = Vec::with_capacity(alloc, MOST_FRAMES as usize)?;
        Ok(Scopes {
            held: Vec::new(alloc),
            scopes: Vec::new(alloc),
            frames,
            escapes: Vec::new(alloc),
            handles: 0,
            numbers: 0,
            spare: 0,
            calls: 0,
        })
    }

    /// A frame begins, inside those that stand, with a scope of its own. It takes no memory, and constant time.
    pub fn enter_frame(&mut self)
        requires { length self.old.frames < most_frames }
        ensures { self.new ≡ with_frame_scopes self.old }
    {
        self.frames.push_reserved(FrameMark {
            start: self.held.len(),
            scopes: self.scopes.len(),
            by_call: false,
        });
    }

    /// The innermost frame ends, and all its scopes close, with the handles in them. A frame that a call entered may end
    /// so too, where the call gives nothing. It takes no memory, and amortized time linear in what it closes.
    pub fn leave_frame(&mut self)
        requires { self.old.frames ≢ [] }
        ensures { self.new ≡ without_frame_scopes self.old }
    {
        self.leave(0);
    }

    /// A frame begins by a call of the innermost frame, as where a script calls a native function, and the caller's
    /// innermost scope has a place for the handle of what the call gives. It takes the memory of that place, and
    /// amortized constant time.
    pub fn enter_call(&mut self) -> Result<(), NoMemory>
        requires standing { self.old.frames ≢ [] }
        requires room { length self.old.frames < most_frames }
        ensures ok { OnOk result (self.new ≡ with_call_scopes self.old) }
        ensures err { OnErr result (self.new ≡ self.old) }
    {
        let more = self.scopes.len() + self.calls + self.spare + 1;
        self.held.reserve(more)?;
        self.frames.push_reserved(FrameMark {
            start: self.held.len(),
            scopes: self.scopes.len(),
            by_call: true,
        });
        self.calls += 1;
        Ok(())
    }

    /// The innermost frame, which a call entered, ends as by `leave_frame`. Where the call gives a value, the caller's
    /// innermost scope then holds the next handle, of that value, and this returns it. It takes no memory, and amortized
    /// time linear in what it closes.
    pub fn leave_call(&mut self, value: Option<ValueId>) -> Option<HandleId>
        requires called { head self.old.by_call ≡ Some true }
        requires handles { self.old.handles < 2 ^ 62 }
        ensures left { self.new ≡ without_call_scopes (option_map (λ value. value.0) value) self.old }
        ensures handle { option_map (λ handle. handle.0) result ≡ option_map (λ value. self.old.handles + 1) value }
    {
        match value {
            Some(value) => {
                self.leave(1);
                Some(self.issue_reserved(value))
            }
            None => {
                self.leave(0);
                None
            }
        }
    }

    /// Opens a scope inside the innermost one of the innermost frame: the manual's `napi_open_handle_scope`, or
    /// `napi_open_escapable_handle_scope`. Its number was never issued before, and is not 0. It takes the memory of a
    /// place for a handle that escapes from it, and amortized constant time.
    pub fn open_scope(&mut self, kind: ScopeKind) -> Result<ScopeId, NoMemory>
        requires standing { self.old.frames ≢ [] }
        requires numbers { length self.old.scope_numbers < 2 ^ 62 }
        ensures fresh { IfOk result (λ scope. IsTrue (is_fresh_scope scope.0 self.old)) }
        ensures ok { IfOk result (λ scope. self.new ≡ with_open_scope kind scope.0 self.old) }
        ensures err { OnErr result (self.new ≡ self.old) }
    {
        let more = self.scopes.len() + self.calls + self.spare + 1;
        make_room(&mut self.held, &mut self.scopes, &mut self.escapes, more)?;
        let number = self.numbers + 1;
        let mark = ScopeMark {
            number,
            kind,
            start: self.held.len(),
            place: self.held.len() + self.scopes.len(),
            escaped: None,
        };
        self.scopes.push_reserved(mark);
        self.numbers = number;
        Ok(ScopeId(number))
    }

    /// Closes the innermost scope that a call opened in the innermost frame, with the handles in it: the manual's
    /// `napi_close_handle_scope`, or `napi_close_escapable_handle_scope`. A handle that escaped from it stays.
    ///
    /// Refused with 13 where no call's scope is open in that frame, else with 1 where the number is none of theirs,
    /// else with 13 where it is not the innermost, or of the other kind. It takes no memory, and amortized time linear in
    /// the handles that it closes; a refusal takes time logarithmic in the frame's open scopes.
    pub fn close_scope(&mut self, scope: ScopeId, kind: ScopeKind) -> Result<(), Status>
        ensures refusal { result_err result ≡ closing scope.0 kind (opened_scopes self.old.frames) }
        ensures ok { OnOk result (self.new ≡ without_innermost_scope self.old) }
        ensures err { OnErr result (self.new ≡ self.old) }
    {
        if let Some(status) = self.why_not_closing(scope, kind) {
            return Err(status);
        }
        self.close_innermost();
        Ok(())
    }

    /// The next handle, of that value, escapes from a scope of the innermost frame: the manual's `napi_escape_handle`.
    /// The scope around that one holds it, so it stays when that one closes.
    ///
    /// Refused with 1 where the number is none of an escapable scope that is open in that frame, else with 12 where a
    /// handle has escaped from it before. It takes no memory, and time logarithmic in the frame's open scopes.
    pub fn escape(&mut self, scope: ScopeId, value: ValueId) -> Result<HandleId, Status>
        requires handles { self.old.handles < 2 ^ 62 }
        ensures refusal { result_err result ≡ escaping scope.0 (opened_scopes self.old.frames) }
        ensures handle { IfOk result (λ handle. handle.0 ≡ self.old.handles + 1) }
        ensures ok { OnOk result (self.new ≡ with_escaped_handle scope.0 value.0 self.old) }
        ensures err { OnErr result (self.new ≡ self.old) }
    {
        match innermost(&self.frames) {
            Some(frame) => match escapable_among(&self.scopes[frame.scopes..], scope.0) {
                Ok(at) => {
                    let handle = self.handles + 1;
                    let place = frame.scopes + at;
                    self.scopes[place].escaped = Some(HeldHandle { handle, value });
                    self.escapes.push_reserved(Escape {
                        handle,
                        scope: place,
                    });
                    self.handles = handle;
                    Ok(HandleId(handle))
                }
                Err(status) => Err(status),
            },
            None => Err(Status::InvalidArg),
        }
    }

    /// Puts the next handle, of that value, into the innermost scope of the innermost frame. It takes amortized constant time.
    pub fn issue(&mut self, value: ValueId) -> Result<HandleId, NoMemory>
        requires standing { self.old.frames ≢ [] }
        requires handles { self.old.handles < 2 ^ 62 }
        ensures handle { IfOk result (λ handle. handle.0 ≡ self.old.handles + 1) }
        ensures ok { OnOk result (self.new ≡ with_issued_handle value.0 self.old) }
        ensures err { OnErr result (self.new ≡ self.old) }
    {
        self.reserve()?;
        Ok(self.issue_reserved(value))
    }

    /// Takes the memory for one handle, so that `issue_reserved` can issue it later. A place that is spare already is
    /// enough, and then it takes none. It takes amortized constant time.
    pub fn reserve(&mut self) -> Result<(), NoMemory>
        ensures ok { OnOk result (self.new ≡ with_reserved_place self.old) }
        ensures err { OnErr result (self.new ≡ self.old) }
        ensures spare { 0 < self.old.spare → IsOk result }
    {
        if self.spare > 0 {
            return Ok(());
        }
        let more = self.scopes.len() + self.calls + 1;
        self.held.reserve(more)?;
        self.spare = 1;
        Ok(())
    }

    /// As `issue`, at a place that was reserved before. It takes no memory, and constant time.
    pub fn issue_reserved(&mut self, value: ValueId) -> HandleId
        requires standing { self.old.frames ≢ [] }
        requires handles { self.old.handles < 2 ^ 62 }
        requires spare { 0 < self.old.spare }
        ensures handle { result.0 ≡ self.old.handles + 1 }
        ensures issued { self.new ≡ with_issued_handle value.0 self.old }
    {
        let handle = self.handles + 1;
        self.held.push_reserved(HeldHandle { handle, value });
        self.handles = handle;
        self.spare -= 1;
        HandleId(handle)
    }

    /// The value of a handle, `None` exactly where no open scope of any frame holds it. It takes constant time where each later
    /// handle is still held, else time logarithmic in the handles that open scopes hold, and in the open scopes.
    pub fn look(&self, handle: HandleId) -> Option<ValueId>
        ensures { option_map (λ value. value.0) result ≡ gives self.now.frames handle.0 }
    {
        if let Some(value) = value_among(&self.held, handle.0) {
            return Some(value);
        }
        value_waiting(&self.escapes, &self.scopes, handle.0)
    }

    /// How many handle places all open scopes have: one for each handle that they hold, and one for each scope that a
    /// call opened and from which no handle escaped. It takes constant time.
    pub fn held(&self) -> usize
        ensures { result ≡ length (handle_places self.now.frames) }
    {
        self.held.len() + self.scopes.len()
    }

    /// The value at a handle place of the open scopes, counted from the outermost; `None` exactly where the place
    /// is not filled. It takes time logarithmic in the open scopes.
    pub fn held_at(&self, at: usize) -> Option<ValueId>
        requires { at < length (handle_places self.now.frames) }
        ensures { option_map (λ value. value.0) result ≡ slice_index_or (handle_places self.now.frames) at None }
    {
        value_at(&self.held, &self.scopes, at)
    }

    /// Why the scope of that number cannot be closed as one of this kind, `None` where it can.
    fn why_not_closing(&self, scope: ScopeId, kind: ScopeKind) -> Option<Status>
        ensures { result ≡ closing scope.0 kind (opened_scopes self.now.frames) }
    {
        match innermost(&self.frames) {
            Some(frame) => why_not_among(&self.scopes[frame.scopes..], scope.0, kind),
            None => Some(Status::HandleScopeMismatch),
        }
    }

    /// Closes the innermost scope.
    fn close_innermost(&mut self)
        requires { opened_scopes self.old.frames ≢ [] }
        ensures { self.new ≡ without_innermost_scope self.old }
    {
        if let Some(scope) = self.scopes.pop() {
            cut_back(&mut self.held, scope.start, scope.escaped);
            forget_closed(&mut self.escapes, &self.scopes);
        }
    }

    /// Leaves the innermost frame, and makes so many of the places spare that it leaves to its caller.
    fn leave(&mut self, spared: usize)
        requires { spared ≤ place_left self.old.by_call }
        ensures left { self.new ≡ with_spare spared (without_frame_scopes self.old) }
        ensures caller { 0 < spared → self.new.frames ≢ [] }
    {
        if let Some(frame) = self.frames.pop() {
            self.scopes.truncate(frame.scopes);
            self.held.truncate(frame.start);
            self.calls -= usize::from(frame.by_call);
            self.spare += spared;
            forget_closed(&mut self.escapes, &self.scopes);
        }
    }
}

/// The mark that stands last.
fn innermost<T: Copy>(marks: &[T]) -> Option<T>
    ensures { result ≡ head (reverse marks.now) }
{
    marks.last().copied()
}

/// Whether two kinds are the same.
fn is_same_kind(kind: ScopeKind, other: ScopeKind) -> bool
    ensures { result ≡ is_kind kind other }
{
    match kind {
        ScopeKind::Plain => matches!(other, ScopeKind::Plain),
        ScopeKind::Escapable => matches!(other, ScopeKind::Escapable),
    }
}

/// Whether a mark is that of the scope of this number and kind.
fn is_scope(mark: ScopeMark, number: u64, kind: ScopeKind) -> bool
    ensures { result ≡ ((mark.number == number) && is_kind mark.kind kind) }
{
    mark.number == number && is_same_kind(mark.kind, kind)
}

/// Why the scope of that number cannot be closed as one of this kind, where these are the scopes opened in the innermost
/// frame.
fn why_not_among(opened: &[ScopeMark], number: u64, kind: ScopeKind) -> Option<Status>
    requires { Rises (λ scope. scope.number) opened.now }
    ensures { result ≡ closing number kind (scopes_above 0 (reverse opened.now) []).opened }
{
    match innermost(opened) {
        None => Some(Status::HandleScopeMismatch),
        Some(mark) => {
            if is_scope(mark, number, kind) {
                None
            } else if is_opened(opened, number) {
                Some(Status::HandleScopeMismatch)
            } else {
                Some(Status::InvalidArg)
            }
        }
    }
}

/// Whether one of these scopes has the number.
fn is_opened(opened: &[ScopeMark], number: u64) -> bool
    requires { Rises (λ scope. scope.number) opened.now }
    ensures { result ≡ list_any (λ scope. scope.number == number) opened.now }
{
    opened
        .binary_search_by_key(&number, |scope| scope.number)
        .is_ok()
}

/// The place of the escapable scope of that number, or why no handle can escape from it, where these are the scopes
/// opened in the innermost frame.
fn escapable_among(opened: &[ScopeMark], number: u64) -> Result<usize, Status>
    requires { Rises (λ scope. scope.number) opened.now }
    ensures found { IfOk result (λ at. IsEscapable opened.now number at) }
    ensures refusal { result_err result ≡ escaping number (scopes_above 0 (reverse opened.now) []).opened }
{
    match opened.binary_search_by_key(&number, |scope| scope.number) {
        Ok(at) => {
            let mark = opened[at];
            if !is_same_kind(mark.kind, ScopeKind::Escapable) {
                Err(Status::InvalidArg)
            } else if mark.escaped.is_some() {
                Err(Status::EscapeCalledTwice)
            } else {
                Ok(at)
            }
        }
        Err(_) => Err(Status::InvalidArg),
    }
}

/// The value of a handle in a stack, `None` exactly where the handle is not in it.
fn value_among(held: &[HeldHandle], handle: u64) -> Option<ValueId>
    requires { Rises (λ held. held.handle) held.now }
    ensures { option_map (λ value. value.0) result ≡ value_in (map held_of held.now) handle }
{
    if let Some(value) = value_counted(held, handle) {
        return Some(value);
    }
    value_searched(held, handle)
}

/// The value of a handle that stands as many places before the last one as its number is less: the place of each handle since which
/// none is gone. `None` where another one stands there, and where there is no such place.
fn value_counted(held: &[HeldHandle], handle: u64) -> Option<ValueId>
    requires { Rises (λ held. held.handle) held.now }
    ensures { IfSome result (λ value. value_in (map held_of held.now) handle ≡ Some value.0) }
{
    let (last, before) = held.split_last()?;
    let less = last.handle.wrapping_sub(handle) as usize;
    let there = held.get(before.len().wrapping_sub(less))?;
    if there.handle == handle {
        Some(there.value)
    } else {
        None
    }
}

/// The value of a handle in a stack, found by halves, `None` exactly where the handle is not in it.
fn value_searched(held: &[HeldHandle], handle: u64) -> Option<ValueId>
    requires { Rises (λ held. held.handle) held.now }
    ensures { option_map (λ value. value.0) result ≡ value_in (map held_of held.now) handle }
{
    match held.binary_search_by_key(&handle, |held| held.handle) {
        Ok(at) => Some(held[at].value),
        Err(_) => None,
    }
}

/// The value of a handle that waits in a mark, `None` exactly where it waits in none.
fn value_waiting(escapes: &[Escape], scopes: &[ScopeMark], handle: u64) -> Option<ValueId>
    requires { IsTracked scopes.now escapes.now }
    ensures { option_map (λ value. value.0) result ≡ value_in (all_waiting (reverse scopes.now)) handle }
{
    match escapes.binary_search_by_key(&handle, |escape| escape.handle) {
        Ok(at) => value_of(scopes, escapes[at]),
        Err(_) => None,
    }
}

/// The value of a handle that escaped, `None` where it no longer waits in the mark of its scope.
fn value_of(scopes: &[ScopeMark], escape: Escape) -> Option<ValueId>
    ensures { option_map (λ value. value.0) result ≡ waiting_value scopes.now escape }
{
    let held = scopes.get(escape.scope)?.escaped?;
    if held.handle == escape.handle {
        Some(held.value)
    } else {
        None
    }
}

/// Whether a handle that escaped still waits in the mark of its scope.
fn is_waiting(scopes: &[ScopeMark], escape: Escape) -> bool
    ensures { result ≡ is_some (waiting_value scopes.now escape) }
{
    value_of(scopes, escape).is_some()
}

/// The value at a handle place, by the marks of all scopes.
fn value_at(held: &[HeldHandle], scopes: &[ScopeMark], at: usize) -> Option<ValueId>
    requires starts { AreStartsWithin (reverse scopes.now) (length held.now) }
    requires placed { ArePlaced (reverse scopes.now) }
    requires inside { at < length held.now + length scopes.now }
    ensures { option_map (λ value. value.0) result ≡ slice_index_or (places_marked (reverse scopes.now) (map held_of held.now)) at None }
{
    match scopes.binary_search_by_key(&at, |scope| scope.place) {
        Ok(mark) => Some(scopes[mark].escaped?.value),
        Err(before) => Some(held[at - before].value),
    }
}

/// Takes the memory for so many handles more, for a scope more, and for an escape from each scope.
fn make_room(
    held: &mut Vec<HeldHandle>,
    scopes: &mut Vec<ScopeMark>,
    escapes: &mut Vec<Escape>,
    more: usize,
) -> Result<(), NoMemory>
    ensures held { held.new.items ≡ held.old.items }
    ensures scopes { scopes.new.items ≡ scopes.old.items }
    ensures escapes { escapes.new.items ≡ escapes.old.items }
    ensures held_capacity { vec_capacity held.old ≤ vec_capacity held.new }
    ensures escapes_capacity { vec_capacity escapes.old ≤ vec_capacity escapes.new }
    ensures held_fits { OnOk result (length held.new.items + more ≤ vec_capacity held.new) }
    ensures scopes_fit { OnOk result (length scopes.new.items < vec_capacity scopes.new) }
    ensures escapes_fit { OnOk result (length escapes.new.items + (length scopes.new.items + 1) ≤ vec_capacity escapes.new) }
{
    held.reserve(more)?;
    escapes.reserve(scopes.len() + 1)?;
    scopes.reserve(1)?;
    Ok(())
}

/// Cuts the stack back to where a scope began, and puts the handle on it that escaped from the scope.
fn cut_back(held: &mut Vec<HeldHandle>, start: usize, escaped: Option<HeldHandle>)
    requires { start < vec_capacity held.old }
    ensures items { held.new.items ≡ take start held.old.items ++ option_to_list escaped }
    ensures capacity { vec_capacity held.new ≡ vec_capacity held.old }
{
    held.truncate(start);
    if let Some(last) = escaped {
        held.push_reserved(last);
    }
}

/// Drops the escapes whose handles no longer wait in a mark, once there are over twice as many escapes as open scopes. At
/// least half of them go, so this takes amortized constant time for each scope that closes.
fn forget_closed(escapes: &mut Vec<Escape>, scopes: &[ScopeMark])
    ensures tracked { IsTracked scopes.now escapes.old.items → IsTracked scopes.now escapes.new.items }
    ensures issued { (most : ℕ) → AreAtMost (λ e. e.handle) escapes.old.items most → AreAtMost (λ e. e.handle) escapes.new.items most }
    ensures shorter { length escapes.new.items ≤ length escapes.old.items }
    ensures few { Rises (λ e. e.handle) escapes.old.items → length escapes.new.items ≤ 2 * length scopes.now + 1 }
    ensures capacity { vec_capacity escapes.new ≡ vec_capacity escapes.old }
{
    if escapes.len() / 2 > scopes.len() {
        escapes.retain(|escape| is_waiting(scopes, *escape));
    }
}
