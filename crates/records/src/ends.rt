// Where the lines of a text end.
ghost use Rattle.std.specs.Prelude.{◌≡◌, ◌==◌, ◌≤◌, ◌<◌, length, position};
ghost use Rattle.records.specs.Ends.{line_feed, feed_in, FirstFeed, Spans};

const LINE_FEED: u8 = b'\n';

const CARRIAGE_RETURN: u8 = b'\r';

// Where a line stops, and where the next one begins.
#[derive(Clone, Copy)]
pub struct Span {
    pub stop: usize,
    pub next: usize,
}

// The place of the first LF, if there is one.
fn first_feed(text: &[u8]) -> Option<usize>
    ensures { result ≡ position (λ c. c == line_feed) text.now }
{
    text.iter().position(|c| *c == LINE_FEED)
}

// How many characters stand before the first LF, or in all where there is none.
fn feed_in(text: &[u8]) -> usize
    ensures { (result ≡ feed_in text.now) × (result ≤ length text.now) }
{
    first_feed(text).unwrap_or(text.len())
}

// The place of the first LF from a place on, or the text's end.
fn feed_from(text: &[u8], at: usize) -> usize
    requires { at ≤ length text.now }
    ensures { FirstFeed text.now at result }
{
    at + feed_in(&text[at..])
}

// The line that begins at a place.
pub fn line_at(text: &[u8], at: usize) -> Span
    requires { at < length text.now }
    ensures { Spans text.now at result.stop result.next }
{
    let feed = feed_from(text, at);
    if text.len() <= feed {
        return Span {
            stop: feed,
            next: feed,
        };
    }
    let next = feed + 1;
    if feed <= at {
        return Span { stop: feed, next };
    }
    let before = text[feed - 1];
    let returned = before == CARRIAGE_RETURN;
    if returned {
        Span {
            stop: feed - 1,
            next,
        }
    } else {
        Span { stop: feed, next }
    }
}
