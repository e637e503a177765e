// Input that a session only gathers, which may be taken at once.
ghost use Rattle.std.specs.Prelude.{◌≤◌, ◌<◌, T};
ghost use Rattle.boot.specs.Gathering.{Gathers, HearsFrames, SilentFrame};

use crate::Session;
use carriers::Carrier;

// How many of n bytes the session only gathers, given whether what is lent has its lengths: taking them at once is taking them one by one.
pub fn silent_bytes(session: Session, n: usize, ready: bool) -> usize
    ensures few { result ≤ n }
    ensures silent { 0 < result → Gathers session ready result }
{
    let gathers = ready & session.on(Carrier::Uart) & session.sound();
    if gathers {
        n.min(session.expected - session.taken - 1)
    } else {
        0
    }
}

// Whether the session is one on CAN that hears frames, given whether the memories have their lengths.
pub fn hears_frames(session: Session, right: bool) -> bool
    ensures { T result → HearsFrames session right }
{
    right & session.on(Carrier::Can) & session.sound()
}

// Whether a step of CAN only gathers a frame of an ID and so many data bytes.
pub fn silent_frame(step: u8, taken: usize, expected: usize, id: u16, dlc: usize) -> bool
    requires { taken ≤ expected }
    ensures { T result → SilentFrame step taken expected id dlc }
{
    let own = id == can::bears(step, id);
    own & (0 < dlc) & (dlc < expected - taken)
}
