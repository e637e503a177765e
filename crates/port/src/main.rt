// The program port: UART bytes from standard input, replies to standard output, two of them in ST's dialect where --st asks for it; behind --keep FILE,
// the board's memories are kept in that file.
#![tactic(auto)]

use files::system::System;
use keeping::arguments;

fn main(rt: HostRuntime) {
    let mut word = io::buffer();
    let st = match files::word(&rt, 1, &mut word) {
        Some(length) => port_loop::asks_st(&word[..length]),
        None => false,
    };
    let mut name = io::buffer();
    match arguments::ask(&rt, st, &mut name) {
        Some(n) => port_loop::run(&rt, st, &name[..n], &mut rt.stdin(), &mut rt.stdout()),
        None => rt.complain(b"port: it takes [--st] [--keep FILE]\n"),
    }
}
