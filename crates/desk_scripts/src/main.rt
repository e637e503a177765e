// Runs desk on each file that its arguments name, from the fresh board each time, and writes the answers to standard output; behind an argument that
// asks for reasons, with them.
#![tactic(auto)]

use files::system::System;

// Runs desk on a file, or says why it cannot.
fn run_script<R: System>(rt: &R, why: bool, name: &[u8]) {
    match files::open(rt, name) {
        Ok(mut file) => desk_loop::run(rt, why, b"", &mut file, &mut std::io::writer(rt)),
        Err(error) => {
            let _ = files::fail(rt, name, &error);
        }
    }
}

// Runs desk on the file that an argument names, unless that asks for reasons, and tells whether reasons are asked for from then on.
fn follow<R: System>(rt: &R, i: usize, why: bool) -> bool {
    let mut argument = io::buffer();
    let length = files::word(rt, i, &mut argument).unwrap_or(0);
    let asks = desk_loop::asks_why(&argument[..length]);
    if asks {
        return true;
    }
    run_script(rt, why, &argument[..length]);
    why
}

fn main(rt: HostRuntime) {
    let mut why = false;
    for i in 1..files::argument_count(&rt) {
        why = follow(&rt, i, why);
    }
}
