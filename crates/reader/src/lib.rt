// Reads a lent text line by line: a struct that holds the text and its place, and thin methods over it.
#![tactic(auto)]

pub mod held;

ghost use Rattle.std.specs.Prelude.{◌≡◌};
ghost use Rattle.reader.specs.Steps.{step_at, data_from};

use records::{Line, ends, reading};

// A text and a place in it where a line begins.
#[derive(Clone, Copy)]
pub struct Reader<'a> {
    pub text: &'a [u8],
    pub at: usize,
}

// What is found at a place: what the line says, where it stops and where the next one begins.
#[derive(Clone, Copy)]
pub struct Found {
    pub line: Option<Line>,
    pub stop: usize,
    pub next: usize,
}

// What is found at a place of a text; none at its end.
pub fn step_at(text: &[u8], at: usize) -> Option<Found>
    ensures { result ≡ step_at text.now at }
{
    if text.len() <= at {
        return None;
    }
    let span = ends::line_at(text, at);
    let line = reading::read(&text[at..span.stop]);
    Some(Found {
        line,
        stop: span.stop,
        next: span.next,
    })
}

// The hex digits of the data of the line at a place of a text, as a part of the text; none at the end.
pub fn data_at(text: &[u8], at: usize) -> &[u8]
    ensures { result.now ≡ data_from text.now at }
{
    if text.len() <= at {
        return &text[..0];
    }
    let span = ends::line_at(text, at);
    reading::data(&text[at..span.stop])
}

impl<'a> Reader<'a> {
    // A reader at a text's start.
    pub fn new(text: &'a [u8]) -> Reader<'a>
        ensures { (result.text ≡ text.entry) × (result.at ≡ 0) }
    {
        Reader { text, at: 0 }
    }

    // What a reader finds at its place; none at its text's end.
    pub fn next(self) -> Option<Found>
        ensures { result ≡ step_at self.entry.text.now self.entry.at }
    {
        step_at(self.text, self.at)
    }

    // The hex digits of the data of the line at a reader's place, as a part of its text.
    pub fn data(self) -> &'a [u8]
        ensures { result.now ≡ data_from self.entry.text.now self.entry.at }
    {
        data_at(self.text, self.at)
    }

    // The reader at another place.
    pub fn moved(self, at: usize) -> Reader<'a>
        ensures { (result.text ≡ self.entry.text) × (result.at ≡ at) }
    {
        Reader {
            text: self.text,
            at,
        }
    }
}

// What is found at a text's start.
pub fn first(text: &[u8]) -> Option<Found>
    ensures { result ≡ step_at text.now 0 }
{
    Reader::new(text).next()
}
