// Runs port on each file that its arguments name, from the fresh board each time, and writes the replies to standard output; behind an argument that
// asks for ST's dialect, in it.
#![tactic(auto)]

use files::system::System;

// Runs port on a file, or says why it cannot.
fn run_file<R: System>(rt: &R, st: bool, name: &[u8]) {
    match files::open(rt, name) {
        Ok(mut file) => port_loop::run(rt, st, b"", &mut file, &mut std::io::writer(rt)),
        Err(error) => {
            let _ = files::fail(rt, name, &error);
        }
    }
}

// Runs port on the file that an argument names, unless that asks for ST's dialect, and tells whether it is spoken from then on.
fn follow<R: System>(rt: &R, i: usize, st: bool) -> bool {
    let mut argument = io::buffer();
    let length = files::word(rt, i, &mut argument).unwrap_or(0);
    let asks = port_loop::asks_st(&argument[..length]);
    if asks {
        return true;
    }
    run_file(rt, st, &argument[..length]);
    st
}

fn main(rt: HostRuntime) {
    let mut st = false;
    for i in 1..files::argument_count(&rt) {
        st = follow(&rt, i, st);
    }
}
