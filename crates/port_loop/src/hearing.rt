// Takes UART bytes in, and says what is to be said to them.
ghost use Rattle.std.specs.Prelude.{◌≡◌, true, ◌+◌, ◌≤◌, ◌<◌, length, take};
ghost use Rattle.memories.specs.Lent.{had, has, Same};
ghost use Rattle.uart.specs.Conversation.{uart_room};
ghost use Rattle.boot.specs.Promise.{state_of};
ghost use Rattle.port_loop.specs.Port.{Hears};
ghost use Rattle.port_loop.specs.Turns.{read_bytes, out_bytes};

use crate::st;
use boot::Session;
use memories::Lent;

// The session after some bytes, how many they were, and how long what is said to them is.
#[derive(Clone, Copy)]
pub struct Heard {
    pub session: Session,
    pub count: usize,
    pub length: usize,
}

// Hears the front of some bytes: those that are only gathered, and the one behind them; in ST's dialect a single byte.
fn hear_front(
    session: Session,
    st: bool,
    bytes: &[u8],
    lent: &mut Lent<'_>,
    out: &mut [u8],
) -> Heard
    requires bytes_nonzero { (0 < length bytes.now) × (length bytes.now ≤ read_bytes) }
    requires bytes_len { st ≡ true → length bytes.now ≡ 1 }
    requires out_len { length out.old ≡ uart_room }
    ensures some { 0 < result.count }
    ensures within { result.count ≤ length bytes.now }
    ensures short { result.length ≤ uart_room }
    ensures heard { Hears st (take result.count bytes.now) (state_of session (had lent)) out.old
        result.length out.new (state_of result.session (has lent)) }
    ensures same { Same lent }
{
    let front = session.take_front(bytes, lent, out);
    let taken = front.taken;
    let next = taken.session;
    let length = taken.length;
    st::speak(st, session, &mut out[..length]);
    Heard {
        session: next,
        count: front.silent + 1,
        length: length,
    }
}

// Where the bytes end that are heard at once.
fn until(st: bool, i: usize, n: usize) -> usize
    requires { i < n }
    ensures some { i < result }
    ensures within { result ≤ n }
    ensures single { st ≡ true → result ≡ i + 1 }
{
    if st { i + 1 } else { n }
}

// Hears bytes, and says to them what is to be said, or in ST's dialect.
pub fn hear(session: Session, st: bool, bytes: &[u8], lent: &mut Lent<'_>, out: &mut [u8]) -> Heard
    requires bytes_len_bound { length bytes.now ≤ read_bytes }
    requires out_bytes_in_bounds { out_bytes ≤ length out.old }
    ensures within { result.length ≤ length out.old }
    ensures all { result.count ≡ length bytes.now }
    ensures heard { Hears st bytes.now (state_of session (had lent)) out.old
        result.length out.new (state_of result.session (has lent)) }
    ensures same { Same lent }
{
    let n = bytes.len();
    let mut here = session;
    let mut end = 0;
    let mut i = 0;
    // Kept: only `hear_front` tells how far a front goes, so no iterator gives the places (d).
    while i < n {
        let stop = until(st, i, n);
        let part = &mut out[end..end + uart::ROOM];
        let heard = hear_front(here, st, &bytes[i..stop], lent, part);
        let next = heard.session;
        here = next;
        end += heard.length;
        i += heard.count;
    }
    Heard {
        session: here,
        count: i,
        length: end,
    }
}
