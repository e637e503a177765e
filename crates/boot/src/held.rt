// What document 01 says of causes, refusals and sessions in its own numbers. Nothing is run here: each function's promise is a statement of specs/,
// so that a check fails where its proof is missing.
ghost use Rattle.boot.specs.Causes.{CauseNumbers};
ghost use Rattle.boot.specs.Firm.{LeavesFirm, RefusedMidway};
ghost use Rattle.boot.specs.Refusals.{FirstCauses, Refusals, SliceRefusals};
ghost use Rattle.boot.specs.Sessions.{Sessions};
ghost use Rattle.boot.specs.Stops.{Stops};

// The causes are numbered as the paper has them, from 0 for an accepted call to 5 for a board that is running.
pub fn cause_numbers()
    ensures { CauseNumbers }
{}

// A call is refused for the first of the five causes that holds, and for nothing else.
pub fn first_causes()
    ensures { FirstCauses }
{}

// A call that gives a number other than 0 has length 0 and leaves the session, the three memories and the reply buffer as they were.
pub fn refusals()
    ensures { Refusals }
{}

// The call of a slice that gives a number other than 0 has besides taken no byte.
pub fn slice_refusals()
    ensures { SliceRefusals }
{}

// The call of a slice takes exactly the bytes before the first that finds under 257 bytes of room left or is refused.
pub fn stops()
    ensures { Stops }
{}

// An accepted byte or frame leaves a sound session and memories of their lengths; power on leaves a sound session.
pub fn leaves_firm()
    ensures { LeavesFirm }
{}

// A slice that was not refused, and stops although 257 bytes of room are left, has met a board that runs.
pub fn refused_midway()
    ensures { RefusedMidway }
{}

// Each session that may follow another, number by number: at power on, connected, reset, gathering, idle, at a new speed, in a step, running.
pub fn sessions()
    ensures { Sessions }
{}
