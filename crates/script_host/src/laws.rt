//! What the definitions of the top call come to, as a law: the function does nothing, and its contract states it.
ghost use Rattle.script_host.specs.HostLaws.{CommandsAreOfOneKind};

/// A command with the bytes of the source is too long, refused or runnable, and of one kind alone. So where the bytes are told, `host` has a status for each.
pub fn commands_are_of_one_kind()
    ensures { CommandsAreOfOneKind }
{}
