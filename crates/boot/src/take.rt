// The two calls that take input: refused for the first cause that holds, or decided, said and carried out.
// Kept: two calls, since one over both would take what gathers, decides and says as three closures, whose contracts are what its body says.
ghost use Rattle.std.specs.Prelude.{◌≡◌, true, T, leb, length};
ghost use Rattle.memories.specs.Lent.{holds, had, has, Same};
ghost use Rattle.memories.specs.Memories.{lengths_right, proper};
ghost use Rattle.uart.specs.Conversation as UC;
ghost use Rattle.can.specs.Conversation as CC;
ghost use Rattle.frames.specs.Frames.{classic, is_frame};
ghost use Rattle.boot.specs.Session.{sound};
ghost use Rattle.boot.specs.Causes.{cause_of};
ghost use Rattle.boot.specs.Calls.{bears};
ghost use Rattle.boot.specs.Promise.{left, given_byte, given_frame, accepted_taken, unanswered_taken, Took};

use crate::{ACCEPTED, Cause, Session, Taken};
use carriers::Carrier;
use command::Decision;
use command::reason::NO_REASON;
use frames::Counted;
use memories::Lent;

// Whether flash, SRAM and USD have their lengths.
pub fn lengths_right(flash: usize, sram: usize, usd: usize) -> bool
    ensures { result ≡ lengths_right flash sram usd }
{
    memories::lengths_right(flash, sram, usd)
}

impl Session {
    // The cause of what only the session tells.
    #[tactic(auto, unfolding(crate::specs::Causes::cause_of))]
    fn own_cause(self) -> Result<(), Cause>
        ensures { result ≡ cause_of true true true self }
    {
        let sound = self.sound();
        if !sound {
            return Err(Cause::UnsoundSession);
        }
        let running = self.on(Carrier::Running);
        if running {
            return Err(Cause::BoardRunning);
        }
        Ok(())
    }

    // The first cause that holds.
    #[tactic(auto, unfolding(crate::specs::Causes::cause_of))]
    pub(crate) fn cause(self, memories: bool, room: bool, frame: bool) -> Result<(), Cause>
        ensures { result ≡ cause_of memories room frame self }
    {
        if !memories {
            return Err(Cause::WrongMemory);
        }
        if !room {
            return Err(Cause::ShortReply);
        }
        if !frame {
            return Err(Cause::BadFrame);
        }
        self.own_cause()
    }

    // Why a byte is refused, if it is, given the memories and the room that are lent.
    pub(crate) fn byte_cause(self, lent: &Lent<'_>, room: usize) -> Result<(), Cause>
        ensures { result ≡ cause_of (proper (holds lent.now)) (leb UC.uart_room room) true self }
    {
        self.cause(lent.lengths_right(), uart::has_room(room), true)
    }

    // Why a frame is refused, if it is, given the memories and the room that are lent.
    fn frame_cause(self, frame: &[u8], lent: &Lent<'_>, room: usize) -> Result<(), Cause>
        ensures { result ≡ cause_of (proper (holds lent.now)) (leb CC.can_room room) (is_frame classic frame.now) self }
    {
        self.cause(
            lent.lengths_right(),
            can::has_room(room),
            frames::is_frame(frame),
        )
    }

    // What is handed back where nothing is taken: the number of the cause or of none, no reply, no reason, and the session stays.
    pub(crate) fn unanswered(self, cause: Result<(), Cause>) -> Taken
        ensures { result ≡ unanswered_taken cause self }
    {
        let number = match cause {
            Ok(()) => ACCEPTED,
            Err(cause) => cause.number(),
        };
        Taken {
            number: number,
            length: 0,
            reason: NO_REASON,
            place: 0,
            session: self,
        }
    }

    // The ID that the replies to a frame bear.
    fn bears(self, id: u16) -> u16
        ensures { result ≡ bears self id }
    {
        let here = self.on(Carrier::Can);
        if here { can::bears(self.step, id) } else { id }
    }

    // An accepted call tells how long its reply is, the reason and the place of a NACK in it, and hands back the session that follows.
    fn accepted(self, carrier: Carrier, taken: Session, decision: Decision, length: usize) -> Taken
        requires { T (sound self) }
        ensures { result ≡ accepted_taken carrier self taken decision length }
    {
        let next = decision.next;
        let reply = decision.reply;
        let reason = reply.reason();
        Taken {
            number: ACCEPTED,
            length: length,
            reason: reason,
            place: self.place(carrier, reason),
            session: self.after(carrier, taken, next),
        }
    }

    // Takes one UART byte, with the memories and the reply buffer that are lent.
    pub fn take_byte(self, byte: u8, lent: &mut Lent<'_>, buffer: &mut [u8]) -> Taken
        ensures took { Took (given_byte self byte (had lent) buffer.old) (left result (has lent) buffer.new) }
        ensures same { Same lent }
    {
        if let Err(cause) = self.byte_cause(lent, buffer.len()) {
            return self.unanswered(Err(cause));
        }
        let taken = self.gather_byte(byte);
        let decision = self.decide_byte(byte, taken, lent.view());
        let reply = decision.reply;
        let change = decision.change;
        let length = reply::in_bytes::say(reply, lent.shown(), buffer);
        memories_code::carry_out(change, &taken.staged, lent);
        self.accepted(Carrier::Uart, taken, decision, length)
    }

    // Takes one CAN frame, with the memories and the reply buffer that are lent.
    pub fn take_frame(self, frame: &[u8], lent: &mut Lent<'_>, buffer: &mut [u8]) -> Taken
        ensures took { Took (given_frame self frame.now (had lent) buffer.old) (left result (has lent) buffer.new) }
        ensures same { Same lent }
    {
        if let Err(cause) = self.frame_cause(frame, lent, buffer.len()) {
            return self.unanswered(Err(cause));
        }
        let id = frames::id(frame);
        let carried = frames::carried(frame);
        let taken = self.gather(carried);
        let decision = self.decide_frame(Counted { id, carried }, taken, lent.view());
        let reply = decision.reply;
        let change = decision.change;
        let length = reply::in_frames::say(reply, self.bears(id), lent.shown(), buffer);
        memories_code::carry_out(change, &taken.staged, lent);
        self.accepted(Carrier::Can, taken, decision, length)
    }
}
