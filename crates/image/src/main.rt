// The program image: makes an image of an S-record file. Its arguments are FILE, NEW, SHIFT and, where there is one, OLD.
#![tactic(auto)]

use files::system::System;
use image_files::{arguments, making};
use std::env::FillError;

// Makes the image with a shift, from the old image that the last argument names, if it is there.
fn make<R: System>(rt: &R, file: &[u8], new: &[u8], shift: i16) {
    let mut old = io::buffer();
    match rt.arg(4, &mut old) {
        Ok(length) => making::make(rt, file, new, shift, &old[..length]),
        Err(FillError::NotPresent) => making::make(rt, file, new, shift, b""),
        Err(FillError::TooLong) => {
            files::fail(rt, b"OLD", &files::error_of(FillError::TooLong));
        }
    }
}

// Makes the image with the shift that an argument writes.
fn make_shifted<R: System>(rt: &R, file: &[u8], new: &[u8], number: &[u8]) {
    match arguments::shift(number) {
        Some(shift) => make(rt, file, new, shift),
        None => rt.complain(b"SHIFT: a whole number from -32768 to 32767\n"),
    }
}

fn main(rt: HostRuntime) {
    let mut file = io::buffer();
    let Ok(named) = files::argument(&rt, 1, b"FILE", &mut file) else {
        return; // why is said
    };
    let mut new = io::buffer();
    let Ok(made) = files::argument(&rt, 2, b"NEW", &mut new) else {
        return;
    };
    let mut number = io::buffer();
    let Ok(shift) = files::argument(&rt, 3, b"SHIFT", &mut number) else {
        return;
    };
    make_shifted(&rt, &file[..named], &new[..made], &number[..shift]);
}
