//! Laws of where a frame is cut.
ghost use Rattle.machine_laws.specs.Cuts.{CutsAtFirstCall, FullAtSecondCall, LeavesWhereFull, RegistersWithThreePlaces};
ghost use Rattle.machine_laws.specs.Cuts.{FramesStandInTheHub, HubDutiesStandInTheHub, CutAtLastAsk, NotBeforeLastAsk, OnlyLeavesWithoutAsks};

/// Where the journal has little room a frame is cut.
pub fn little_room_cuts()
    // In a tight journal a frame's first call has its place, and a call of a function has not and is cut. For want of memory the frame may be cut at
    // a call that grows, but not at `typeof`, which does not.
    ensures first { CutsAtFirstCall }

    // At the second call, whichever it is, the frame is cut as full.
    ensures second { FullAtSecondCall }

    // Where it leaves there, its frame ends without a cut: an end needs no place but its own.
    ensures leaves { LeavesWhereFull }

    // A call that registers needs three places: with two left its frame is cut as full, also where the call would be refused.
    ensures registers { RegistersWithThreePlaces }
{}

/// At every moment of a run the duty of the hub that began a frame is the one that stands in the hub, and no call began that frame. So every frame of a
/// run meets the premise of the laws that follow.
pub fn hub_frames_stand_in_the_hub()
    ensures duties { HubDutiesStandInTheHub }
    ensures frames { FramesStandInTheHub }
{}

/// How many asks a frame makes.
pub fn cuts_at_last_ask()
    // A frame that has made 65,536 asks is cut for that, and none is before.
    ensures last { CutAtLastAsk }
    ensures early { NotBeforeLastAsk }

    // A frame that makes no asks may only leave: it makes no call, enters no frame, and no call cuts it.
    ensures leaves { OnlyLeavesWithoutAsks }
{}
