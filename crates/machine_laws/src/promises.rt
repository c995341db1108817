//! Laws of promises, deferreds and reactions.
ghost use Rattle.machine_laws.specs.PromiseLaws.{PendingPromisesAreRoots, CollectionsKeepDeferreds, SettledPromisesAreNoRoots};
ghost use Rattle.machine_laws.specs.PromiseLaws.{ReactedPromisesAreRoots, CollectionsKeepReactions};
ghost use Rattle.machine_laws.specs.PromiseLaws.{ReactionsAreOfOnePromise, ReactionsBeginInTheLoopOrAtTheEnd};

/// What keeps a promise from being collected.
pub fn promises_are_kept()
    // A promise whose deferred is not settled is a root.
    ensures pending { PendingPromisesAreRoots }

    // A collection changes no deferred.
    ensures deferreds { CollectionsKeepDeferreds }

    // A promise with a reaction that has not ended is a root.
    ensures reacted { ReactedPromisesAreRoots }

    // A collection changes no reactions.
    ensures reactions { CollectionsKeepReactions }

    // Once its deferred is settled, a promise without reactions is a root no longer for being a promise.
    ensures settled { SettledPromisesAreNoRoots }
{}

/// Whose a reaction is, and when it begins.
pub fn reactions_begin_at_their_moments()
    // A reaction that has not ended is one of one promise.
    ensures own { ReactionsAreOfOnePromise }

    // In a run a reaction begins in the loop while exit was not asked, or after `finals`, where no frame stands, and is the lowest ticket that is due.
    ensures moments { ReactionsBeginInTheLoopOrAtTheEnd }
{}
