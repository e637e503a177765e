// The calls of the board for programs in Rust and C, over slices of bytes that the caller lends.
// Kept: three memories and four numbers lent one by one, as include/oilthicket.h has them.
#![tactic(auto)]

ghost use Rattle.memories.specs.Lent.{were, are};
ghost use Rattle.boot.specs.Promise.{given_byte, given_frame, outcome};
ghost use Rattle.boot.specs.Slices.{given_bytes};
ghost use Rattle.session_bytes.specs.Sessions.{session_in};
ghost use Rattle.exports.specs.Promise.{PowersOn, Takes, TakesBytes};

use boot::Session;
use memories::Lent;

// Powers the board on: the session becomes a fresh one.
pub fn oilthicket_power_on(session: &mut [u8]) -> u8
    ensures { PowersOn session.old result session.new }
{
    if session.len() != session_bytes::LENGTH {
        return session_bytes::UNSOUND_SESSION;
    }
    session_bytes::write(Session::power_on(), session);
    boot::ACCEPTED
}

// Takes one UART byte, with the session, the memories and the reply buffer that are lent.
pub fn oilthicket_take_byte(
    session: &mut [u8],
    byte: u8,
    flash: &mut [u8],
    sram: &mut [u8],
    usd: &mut [u8],
    buffer: &mut [u8],
    length: &mut usize,
    reason: &mut u8,
    place: &mut u16,
) -> u8
    ensures { Takes (outcome (given_byte (session_in session.old) byte (were flash sram usd) buffer.old))
        buffer.old session.old result length.new reason.new place.new session.new (are flash sram usd)
        buffer.new }
{
    let mut lent = Lent { flash, sram, usd };
    let taken = session_bytes::read(session).take_byte(byte, &mut lent, buffer);
    *length = taken.length;
    *reason = taken.reason;
    *place = taken.place;
    session_bytes::hand_on(taken, session)
}

// Takes one CAN frame, with the session, the memories and the reply buffer that are lent.
pub fn oilthicket_take_frame(
    session: &mut [u8],
    frame: &[u8],
    flash: &mut [u8],
    sram: &mut [u8],
    usd: &mut [u8],
    buffer: &mut [u8],
    length: &mut usize,
    reason: &mut u8,
    place: &mut u16,
) -> u8
    ensures { Takes (outcome (given_frame (session_in session.old) frame.now (were flash sram usd) buffer.old))
        buffer.old session.old result length.new reason.new place.new session.new (are flash sram usd)
        buffer.new }
{
    let mut lent = Lent { flash, sram, usd };
    let taken = session_bytes::read(session).take_frame(frame, &mut lent, buffer);
    *length = taken.length;
    *reason = taken.reason;
    *place = taken.place;
    session_bytes::hand_on(taken, session)
}

// Takes a slice of UART bytes, with the session, the memories and the buffer for all replies that are lent.
pub fn oilthicket_take_bytes(
    session: &mut [u8],
    bytes: &[u8],
    flash: &mut [u8],
    sram: &mut [u8],
    usd: &mut [u8],
    buffer: &mut [u8],
    taken: &mut usize,
    length: &mut usize,
    reason: &mut u8,
    place: &mut u16,
) -> u8
    ensures { TakesBytes (given_bytes (session_in session.old) bytes.now (were flash sram usd) buffer.old)
        session.old result taken.new length.new reason.new place.new session.new (are flash sram usd)
        buffer.new }
{
    let mut lent = Lent { flash, sram, usd };
    let took = session_bytes::read(session).take_bytes(bytes, &mut lent, buffer);
    let call = took.call;
    *taken = took.count;
    *length = call.length;
    *reason = call.reason;
    *place = call.place;
    session_bytes::hand_on(call, session)
}
