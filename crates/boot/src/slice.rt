// The call that takes a slice of UART bytes: document 02, Wish 4.
ghost use Rattle.std.specs.Prelude.{◌≡◌, ◌+◌, ◌≤◌, ◌<◌, ◌^◌, length, take};
ghost use Rattle.memories.specs.Lent.{holds, had, has, Same};
ghost use Rattle.memories.specs.Effects.{staged_bytes};
ghost use Rattle.boot.specs.Session.{gathered};
ghost use Rattle.boot.specs.Promise.{left, state_of};
ghost use Rattle.boot.specs.Slices.{taking, slice_cause, given_bytes, LeavesBytes, TookBytes, joined, TookFront};

use crate::{ACCEPTED, Cause, Session, Taken, gathering};
use command::reason::NO_REASON;
use memories::Lent;

// The front of a slice: how many of its bytes were only gathered, and what the call of the byte behind them handed back.
#[derive(Clone, Copy)]
pub struct Front {
    pub silent: usize,
    pub taken: Taken,
}

// What the call of a slice hands back: how many bytes it took, and the rest as a single call does.
#[derive(Clone, Copy)]
pub struct TakenBytes {
    pub count: usize,
    pub call: Taken,
}

impl Taken {
    // What this call and the next one hand back as one, with the number of this one.
    fn followed_by(self, next: Taken) -> Taken
        requires { self.length + next.length < 2 ^ 64 }
        ensures { result ≡ joined self next }
    {
        let session = next.session;
        let mut both = self;
        both.length = self.length + next.length;
        both.session = session;
        if next.reason != NO_REASON {
            both.reason = next.reason;
            both.place = next.place;
        }
        both
    }
}

impl Session {
    // The session with the first n bytes of a slice gathered, where there are any.
    fn gather_first(self, bytes: &[u8], n: usize) -> Session
        requires { (n ≤ length bytes.now) × (0 < n → (self.taken < self.expected) × (self.expected ≤ staged_bytes)) }
        ensures { result ≡ gathered (take n bytes.now) self }
    {
        if n == 0 {
            self
        } else {
            self.gather(&bytes[..n])
        }
    }

    // Takes the front of a slice: at once the bytes that are only gathered, and by a call of its own the byte behind them.
    pub fn take_front(self, bytes: &[u8], lent: &mut Lent<'_>, buffer: &mut [u8]) -> Front
        requires { 0 < length bytes.now }
        ensures took { TookFront (given_bytes self bytes.now (had lent) buffer.old) result.silent
            (left result.taken (has lent) buffer.new) }
        ensures same { Same lent }
    {
        let right = lent.lengths_right();
        let ready = right & uart::has_room(buffer.len());
        let silent = gathering::silent_bytes(self, bytes.len() - 1, ready);
        let here = self.gather_first(bytes, silent);
        let taken = here.take_byte(bytes[silent], lent, buffer);
        Front {
            silent: silent,
            taken: taken,
        }
    }

    // Takes the bytes of a slice, front by front, until one is refused: for a board that runs, or for the room that is left.
    fn take_on(self, bytes: &[u8], lent: &mut Lent<'_>, buffer: &mut [u8]) -> TakenBytes
        ensures leaves { LeavesBytes (taking (length buffer.old) bytes.now (state_of self (had lent)))
            buffer.old result.count (left result.call (has lent) buffer.new) }
        ensures same { Same lent }
    {
        let n = bytes.len();
        // Nothing is taken yet.
        let mut done = self.unanswered(Ok(()));
        let mut count = 0;
        // Kept: a turn takes several bytes; `while let [_, ..] = rest` would need count beside rest, which is handed back, and a split_at more.
        while count < n {
            let here = done.session;
            let at = done.length;
            let front = here.take_front(&bytes[count..], lent, &mut buffer[at..]);
            let taken = front.taken;
            let number = taken.number;
            done = done.followed_by(taken);
            count += front.silent;
            let refused = number != ACCEPTED;
            if refused {
                return TakenBytes {
                    count: count,
                    call: done,
                };
            }
            count += 1;
        }
        TakenBytes {
            count: count,
            call: done,
        }
    }

    // Why a slice is refused, if it is: as a byte that has room enough.
    #[tactic(auto, unfolding(crate::specs::Slices::slice_cause))]
    fn slice_cause(self, lent: &Lent<'_>) -> Result<(), Cause>
        ensures { result ≡ slice_cause (state_of self (holds lent.now)) }
    {
        self.byte_cause(lent, uart::ROOM)
    }

    // Takes a slice of UART bytes, with the memories and the buffer for all replies that are lent.
    pub fn take_bytes(self, bytes: &[u8], lent: &mut Lent<'_>, buffer: &mut [u8]) -> TakenBytes
        ensures took { TookBytes (given_bytes self bytes.now (had lent) buffer.old) result.count
            (left result.call (has lent) buffer.new) }
        ensures same { Same lent }
    {
        if let Err(cause) = self.slice_cause(lent) {
            return TakenBytes {
                count: 0,
                call: self.unanswered(Err(cause)),
            };
        }
        self.take_on(bytes, lent, buffer)
    }
}
