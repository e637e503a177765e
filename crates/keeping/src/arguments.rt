// The words of a program that keeps a board's memories: a flag of its own, and --keep and a file's name, each where it is wanted, in this order.
ghost use Rattle.std.specs.Prelude.{IfSome};
ghost use Rattle.io.specs.Counts.{IsPrefixLen};

use files::system::System;

// Behind the program's flag stand --keep and a file's name.
const KEEP_WORDS: usize = 2;

// Whether argument i is a word.
fn is_word<R: System>(rt: &R, i: usize, word: &[u8]) -> bool {
    let mut argument = io::buffer();
    match files::word(rt, i, &mut argument) {
        Some(length) => &argument[..length] == word,
        None => false,
    }
}

// How long the name of the file is, which stands behind the program's flag, if that is its first argument, and --keep, and is put into a room: 0
// where nothing stands there, and none where the words are others.
pub fn ask<R: System>(rt: &R, flag: bool, name: &mut [u8]) -> Option<usize>
    ensures { IfSome result (λ n. IsPrefixLen n name.new) }
{
    let i = if flag { 2 } else { 1 };
    let count = files::argument_count(rt);
    if count <= i {
        return Some(0);
    }
    if count - i != KEEP_WORDS || !is_word(rt, i, b"--keep") {
        return None;
    }
    files::word(rt, count - 1, name).filter(|length| 0 < *length)
}
