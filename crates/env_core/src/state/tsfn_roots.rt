//! The roots of thread-safe functions.
ghost use Rattle.std.specs.Prelude.{◌≡◌, ◌≤◌, OnOk};
ghost use Rattle.napi_types.specs.environment.SharedCalls.{without_root};
ghost use Rattle.env_core.specs.TsfnRooting.{HasRootPlace, with_function_root};

use super::State;
use crate::handles::value_of;
use crate::tsfn_roots::RootRoom;
use napi_types::{HandleId, NoMemory, TsfnId};

impl State {
    /// Takes the memory for the root of one function more, where it is not there yet.
    ///
    /// Near constant time: now and then the room doubles.
    pub fn reserve_root(&self, room: &mut RootRoom) -> Result<(), NoMemory>
        ensures place { OnOk result (HasRootPlace room.new self.now) }
        ensures kept { room.old ≤ room.new }
    {
        room.reserve(self.tsfn_roots.places())
    }

    /// A function that was made keeps the value of a handle alive, until its root is dropped. It takes no memory: there is room.
    ///
    /// Near constant time: now and then the roots move.
    pub fn add_root(&mut self, room: &mut RootRoom, function: TsfnId, handle: HandleId)
        requires { HasRootPlace room.old self.old }
        ensures { self.new ≡ with_function_root function.0 handle self.old }
    {
        let value = value_of(&self.store, &self.scopes, handle);
        self.tsfn_roots.push(room, function, value);
    }

    /// A function keeps no value alive any more.
    ///
    /// In time logarithmic in how many functions do, and now and then linear.
    pub fn drop_root(&mut self, function: TsfnId)
        ensures { self.new ≡ without_root function.0 self.old }
    {
        self.tsfn_roots.remove(function);
    }
}
