// What an input decides: a connected session hears its carrier, another one only the call to connect.
ghost use Rattle.std.specs.Prelude.{◌≡◌, [], ◌∷◌, ◌≤◌, ◌<◌, T, length, get_or};
ghost use Rattle.board.specs.Quantities.{address_bytes};
ghost use Rattle.memories.specs.Effects.{fits};
ghost use Rattle.command.specs.Progress.{progress_at, progress_of};
ghost use Rattle.command.specs.Says.{sayable};
ghost use Rattle.frames.specs.Frames.{classic, counted_of};
ghost use Rattle.boot.specs.Session.{sound, gathered};
ghost use Rattle.boot.specs.Decide.{unconnected, decide_byte, decide_frame};

use crate::Session;
use board::View;
use carriers::Carrier;
use command::{Decision, FixedReply, Next, SoFar};
use frames::Counted;

// The byte that asks for a connection, and the ID.
const CONNECT_BYTE: u8 = 0x7F;

const CONNECT_ID: u16 = 0x79;

impl Session {
    // What is decided on an input whose carrier is not connected: only a call to connect is heard.
    fn unconnected(self, calls: bool) -> Decision
        ensures { result ≡ unconnected self calls }
    {
        let connects = self.on(Carrier::None) & calls;
        if connects {
            command::answer(FixedReply::Ack, Next::GoIdle)
        } else {
            command::answer(FixedReply::Silence, Next::Stay)
        }
    }

    // How far the session has come with its step, with what it has staged once an input's bytes are taken.
    fn so_far(self, taken: &Session) -> SoFar<'_>
        ensures { progress_of result ≡ progress_at self.taken self.expected self.address taken.now.staged }
    {
        SoFar {
            taken: self.taken,
            expected: self.expected,
            address: self.address,
            staged: &taken.staged,
        }
    }

    // What one UART byte decides, which can be said and carried out, given the session with the byte taken.
    pub(crate) fn decide_byte(self, byte: u8, taken: Session, view: View) -> Decision
        requires { T (sound self) × (taken ≡ gathered (byte ∷ []) self) × (get_or taken.staged 0 0 < 256) }
        ensures { (result ≡ decide_byte self view byte) × T (sayable result.reply) × T (fits result.change taken.staged) }
    {
        let here = self.on(Carrier::Uart);
        if here {
            uart_code::heard(self.step, self.so_far(&taken), view)
        } else {
            self.unconnected(byte == CONNECT_BYTE)
        }
    }

    // What one CAN frame decides, which can be said and carried out, given the session with its data bytes taken.
    pub(crate) fn decide_frame(self, frame: Counted<'_>, taken: Session, view: View) -> Decision
        requires { T (sound self) × (taken ≡ gathered frame.carried.now self) × (length frame.carried.now ≤ classic.largest)
            × (get_or frame.carried.now address_bytes 0 < 256) }
        ensures { (result ≡ decide_frame self view (counted_of frame.entry)) × T (sayable result.reply) × T (fits result.change taken.staged) }
    {
        let here = self.on(Carrier::Can);
        if here {
            can_code::heard(self.step, self.so_far(&taken), view, frame)
        } else {
            self.unconnected(frame.id == CONNECT_ID)
        }
    }
}
