// What the programs take of the system: files, arguments, standard output, and what std has as methods of the runtime itself.
use std::io::Write;
use std::process;
use std::rt::{Env, Files};

// The system's numbers of the errors that it does not find itself.
pub const INVALID_ARGUMENT: i32 = 22;

pub const NAME_TOO_LONG: i32 = 36;

// A name is no UTF-8, and std opens no other.
pub const NO_TEXT: i32 = 84;

pub trait System: Files + Env + Print {
    // Writes bytes to standard error, as far as it can.
    fn complain(&self, bytes: &[u8]);

    // The number of this process, which no other has while it runs.
    fn process_number(&self) -> u64;
}

impl System for HostRuntime {
    fn complain(&self, bytes: &[u8]) {
        let _ = self.stderr().write_all(bytes);
    }

    fn process_number(&self) -> u64 {
        u64::from(process::id(self.process()))
    }
}
