// Says replies in ST's dialect.
ghost use Rattle.std.specs.Prelude.{◌≡◌, ◌-◌, get_or, set};
ghost use Rattle.port_loop.specs.St.{count_at, in_st};
ghost use Rattle.port_loop.specs.Port.{waits, spoken};

use boot::Session;
use carriers::Carrier;
use command::code;

// Where the count stands in a reply, and the product's two bytes.
const COUNT_AT: usize = 1;

const HIGH_AT: usize = 2;

const LOW_AT: usize = 3;

// The step of a session that waits for a command.
const IDLE: u8 = 0;

// The product that the host tools know.
const PRODUCT_HIGH: u8 = 0x04;

const PRODUCT_LOW: u8 = 0x12;

// Stores a byte in a reply that is as long.
fn store(reply: &mut [u8], at: usize, byte: u8)
    ensures { reply.new ≡ set reply.old at byte }
{
    if at < reply.len() {
        reply[at] = byte;
    }
}

// Makes the count one less in a reply that has one.
fn lessen(reply: &mut [u8])
    ensures { reply.new ≡ set reply.old count_at (get_or reply.old count_at 0 - 1) }
{
    if COUNT_AT < reply.len() {
        reply[COUNT_AT] = reply[COUNT_AT].saturating_sub(1);
    }
}

// Turns what a command is answered into ST's dialect.
#[tactic(auto, unfolding(crate::specs::St::in_st))]
fn turn(command: u8, reply: &mut [u8])
    ensures { reply.new ≡ in_st command reply.old }
{
    let commands = command == code::GET_COMMANDS;
    if commands {
        lessen(reply);
        return;
    }
    if command == code::GET_DEVICE_ID {
        store(reply, HIGH_AT, PRODUCT_HIGH);
        store(reply, LOW_AT, PRODUCT_LOW);
    }
}

// Whether a session waits for a command.
fn is_waiting(session: Session) -> bool
    ensures { result ≡ waits session }
{
    session.on(Carrier::Uart) & (session.step == IDLE)
}

// Turns a reply into ST's dialect, where that is spoken and the session to which it is given waited for a command.
#[tactic(auto, unfolding(crate::specs::Port::spoken))]
pub fn speak(st: bool, session: Session, reply: &mut [u8])
    ensures { reply.new ≡ spoken st session reply.old }
{
    let turned = st & is_waiting(session);
    if turned {
        turn(session.staged[0], reply);
    }
}
