// The program desk: lines from standard input, answers to standard output, with reasons where --why asks for them; behind --keep FILE, the board's
// memories are kept in that file.
#![tactic(auto)]

use files::system::System;
use keeping::arguments;

fn main(rt: HostRuntime) {
    let mut word = io::buffer();
    let why = match files::word(&rt, 1, &mut word) {
        Some(length) => desk_loop::asks_why(&word[..length]),
        None => false,
    };
    let mut name = io::buffer();
    match arguments::ask(&rt, why, &mut name) {
        Some(n) => desk_loop::run(&rt, why, &name[..n], &mut rt.stdin(), &mut rt.stdout()),
        None => rt.complain(b"desk: it takes [--why] [--keep FILE]\n"),
    }
}
