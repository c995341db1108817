//! The journal: the entries of the environment's local events, and the places that are promised to further ones.
ghost use Rattle.std.specs.Prelude.{◌≡◌, ℕ, ◌+◌, ◌-◌, ◌<◌, ◌≤◌, [], ◌∷◌, ◌++◌, length, min, IfOk, OnOk, OnErr, IfErr, ◌↔◌, ◌⊎◌, option_copied};
ghost use Rattle.napi_types.specs.plain.Replies.{plain as plain_reply};
ghost use Rattle.napi_types.specs.plain.Room.{first_places, most_entries};
ghost use Rattle.env_core.specs.Journal.{Exceeds, told_entry, last_reply};

use napi_types::{
    Actor, Call, Entry, Listed, Local, LocalList, NoMemory, Out, Reply, Status, What,
};
use std::alloc::Global;
use std::marker::Model;

/// How many places have their memory from the start.
const FIRST_PLACES: usize = 65536;

/// Entries, and a number of promised places whose memory is there, so that filling one cannot fail.
#[derive(Drop)]
pub struct Journal {
    entries: Vec<Local>,
    promised: u32,
    limit: u32,
    position: u64,
}

impl Model for Journal {
    ghost use Rattle.std.specs.Prelude.{◌≡◌, ◌+◌, ◌≤◌, length, vec_capacity, min};
    ghost use Rattle.env_core.specs.Journal.{JournalSeen, FitsJournal};

    ghost Value = { JournalSeen };

    ghost view = { λ journal. record {
      entries = journal.entries.items;
      promised = journal.promised;
      limit = journal.limit;
      position = journal.position;
    } };

    ghost invariant = { λ journal. FitsJournal (length journal.entries.items) journal.promised journal.limit (vec_capacity journal.entries) };
}

impl Journal {
    /// An empty journal with places promised; the memory of its first places is taken.
    pub fn new(alloc: Global, limit: u32, promised: u32) -> Result<Journal, NoMemory>
        requires room { promised ≤ limit }
        requires most { limit ≤ most_entries }
        ensures { IfOk result (λ journal. journal ≡ record { entries = []; promised = promised; limit = limit; position = 0 }) }
    {
        let first = FIRST_PLACES.min(limit as usize).max(promised as usize);
        let entries = Vec::with_capacity(alloc, first)?;
        Ok(Journal {
            entries,
            promised,
            limit,
            position: 0,
        })
    }

    /// Promises so many places more: `TraceFull` exactly where that passes the limit, `NoMemory` only where it passes the first
    /// places.
    pub fn promise(&mut self, places: u32) -> Result<(), Status>
        ensures ok { OnOk result (self.new ≡ record self.old { promised = self.old.promised + places }) }
        ensures err { OnErr result (self.new ≡ self.old) }
        ensures full { (result ≡ Err Status.TraceFull) ↔ Exceeds self.old places self.old.limit }
        ensures room { OnOk result (length self.old.entries + self.old.promised + places ≤ self.old.limit) }
        ensures cause { IfErr result (λ status. (status ≡ Status.TraceFull) ⊎ (status ≡ Status.NoMemory)) }
        ensures memory { result ≡ Err Status.NoMemory → Exceeds self.old places (min first_places self.old.limit) }
    {
        if self.room() < places {
            return Err(Status::TraceFull);
        }
        match self
            .entries
            .reserve(self.promised as usize + places as usize)
        {
            Ok(()) => {
                self.promised += places;
                Ok(())
            }
            Err(_) => Err(Status::NoMemory),
        }
    }

    /// Gives so many promised places back.
    pub fn give_back(&mut self, places: u32)
        requires { places ≤ self.old.promised }
        ensures { self.new ≡ record self.old { promised = self.old.promised - places } }
    {
        self.promised -= places;
    }

    /// Fills a promised place. The entry stands at the position noted last.
    pub fn push(&mut self, entry: Entry)
        requires { 0 < self.old.promised }
        ensures { self.new ≡ record self.old {
          entries = self.old.entries ++ record { at = self.old.position; entry = entry } ∷ [];
          promised = self.old.promised - 1;
        } }
    {
        self.entries.push_reserved(Local {
            at: self.position,
            entry,
        });
        self.promised -= 1;
    }

    /// Fills a promised place with the entry of a call of the environment: how many frames stand, the number of the ask in its frame, the call and its
    /// reply. It stands at the position noted last.
    // Not put into its callers: they have the reply as a whole then, and not in pieces.
    #[inline(never)]
    pub fn push_call(&mut self, depth: u32, step: u32, call: &Call, reply: &Reply)
        requires { 0 < self.old.promised }
        ensures { self.new ≡ record self.old {
          entries = self.old.entries ++ record { at = self.old.position; entry = told_entry depth step call.now reply.now } ∷ [];
          promised = self.old.promised - 1;
        } }
    {
        self.entries.push_reserved(Local {
            at: self.position,
            entry: Entry {
                actor: Actor::Env,
                depth,
                step,
                what: What::Call(*call),
                reply: *reply,
                given: None,
            },
        });
        self.promised -= 1;
    }

    /// The same for a call whose reply has this status and this result, and neither withdraws nor makes a duty.
    #[inline(never)]
    pub fn push_plain_call(&mut self, depth: u32, step: u32, call: &Call, status: Status, out: &Out)
        requires { 0 < self.old.promised }
        ensures { self.new ≡ record self.old {
          entries = self.old.entries ++ record { at = self.old.position; entry = told_entry depth step call.now (plain_reply status out.now) } ∷ [];
          promised = self.old.promised - 1;
        } }
    {
        self.entries.push_reserved(Local {
            at: self.position,
            entry: Entry {
                actor: Actor::Env,
                depth,
                step,
                what: What::Call(*call),
                reply: Reply::plain(status, *out),
                given: None,
            },
        });
        self.promised -= 1;
    }

    /// The reply of the last entry, where there is one.
    pub fn last_reply(&self) -> Option<&Reply>
        ensures { option_copied result ≡ last_reply self.now.entries }
    {
        match self.entries.last() {
            Some(local) => Some(&local.entry.reply),
            None => None,
        }
    }

    /// Notes the length of the history.
    pub fn note(&mut self, position: u64)
        ensures { self.new ≡ record self.old { position = position } }
    {
        self.position = position;
    }

    /// The length of the history, as it was noted last.
    pub fn position(&self) -> u64
        ensures { result ≡ self.now.position }
    {
        self.position
    }

    /// The entries in their order.
    pub fn entries(&self) -> &[Local]
        ensures { result.now ≡ self.now.entries }
    {
        &self.entries
    }

    /// Hands out the entries.
    pub fn into_entries(self) -> LocalList
        ensures { result ≡ self.entries }
    {
        let Journal {
            entries,
            promised: _,
            limit: _,
            position: _,
        } = self;
        Listed::of(entries)
    }

    /// How many places are neither filled nor promised.
    pub fn room(&self) -> u32
        ensures { result + length self.now.entries + self.now.promised ≡ self.now.limit }
    {
        self.limit - self.entries.len() as u32 - self.promised
    }
}
