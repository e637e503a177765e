// Judges what a board has answered.
// Kept: over one function, `acked::<3>(reply)` and `acked::<2>(reply)`, these two lines would be three functions.
ghost use Rattle.host.specs.Promise.{done_reply, erased_reply, Judges};

use reply::ACK;

// Whether a reply says that a write is done.
pub fn done(reply: &[u8]) -> bool
    ensures { Judges done_reply reply.now result }
{
    reply == [ACK, ACK, ACK].as_slice()
}

// Whether a reply says that an erase is done.
pub fn erased(reply: &[u8]) -> bool
    ensures { Judges erased_reply reply.now result }
{
    reply == [ACK, ACK].as_slice()
}
