// A session as the bytes that it is lent in: reads it, writes it, and hands it on after a call.
#![tactic(auto)]

ghost use Rattle.std.specs.Prelude.{◌≡◌, length};
ghost use Rattle.words.specs.Lists.{part};
ghost use Rattle.memories.specs.Effects.{staged_bytes};
ghost use Rattle.boot.specs.Causes.{accepted, cause_no};
ghost use Rattle.session_bytes.specs.Sessions.{session_length, staged_place, session_bytes, held_in, no_session, session_in};
ghost use Rattle.session_bytes.specs.Promise.{HandsOn};

use boot::{ACCEPTED, Session, Taken};

// The number of a call that is refused for its session.
pub const UNSOUND_SESSION: u8 = boot::Cause::UnsoundSession as u8;

// How many bytes a session is lent in.
pub const LENGTH: usize = 280;

// Where each number stands.
const CARRIER: usize = 0;

const STEP: usize = 1;

const TAKEN: usize = 2;

const EXPECTED: usize = 10;

const ADDRESS: usize = 18;

const SPEED: usize = 22;

// Where the staged bytes begin.
pub const STAGED: usize = 23;

// A number that is no carrier's.
const NO_CARRIER: u8 = 4;

// The staged bytes.
fn staged_in(lent: &[u8]) -> [u8; memories::STAGED]
    requires { length lent.now ≡ session_length }
    ensures { result ≡ part staged_place staged_bytes lent.now }
{
    let mut staged = memories::none_staged();
    staged.copy_from_slice(&lent[STAGED..LENGTH]);
    staged
}

// The session whose bytes these are.
#[tactic(auto, unfolding(crate::specs::Sessions::held_in))]
fn held_in(lent: &[u8]) -> Session
    requires { length lent.now ≡ session_length }
    ensures { result ≡ held_in lent.now }
{
    Session {
        carrier: lent[CARRIER],
        step: lent[STEP],
        taken: numbers::long_at(lent, TAKEN),
        expected: numbers::long_at(lent, EXPECTED),
        address: numbers::short_at(lent, ADDRESS),
        speed: lent[SPEED],
        staged: staged_in(lent),
    }
}

// No session: fresh, but for its carrier.
fn no_session() -> Session
    ensures { result ≡ no_session }
{
    let mut session = Session::power_on();
    session.carrier = NO_CARRIER;
    session
}

// The session that a slice holds.
#[tactic(auto, unfolding(crate::specs::Sessions::session_in))]
pub fn read(lent: &[u8]) -> Session
    ensures { result ≡ session_in lent.now }
{
    if lent.len() == LENGTH {
        held_in(lent)
    } else {
        no_session()
    }
}

// Writes the bytes of a session, which are read as that session.
pub fn write(session: Session, lent: &mut [u8])
    requires { length lent.old ≡ session_length }
    ensures { (lent.new ≡ session_bytes session) × (session_in (session_bytes session) ≡ session) }
{
    lent[CARRIER] = session.carrier;
    lent[STEP] = session.step;
    numbers::put_long(lent, TAKEN, session.taken);
    numbers::put_long(lent, EXPECTED, session.expected);
    numbers::put_short(lent, ADDRESS, session.address);
    lent[SPEED] = session.speed;
    words::lay(lent, STAGED, &session.staged);
}

// Tells the number of a call, and hands its session on where it was accepted.
pub fn hand_on(taken: Taken, session: &mut [u8]) -> u8
    requires { taken.number ≡ cause_no accepted → length session.old ≡ session_length }
    ensures { (result ≡ taken.number) × HandsOn taken session.old session.new }
{
    let number = taken.number;
    let accepted = number == ACCEPTED;
    if accepted {
        let next = taken.session;
        write(next, session);
    }
    number
}
