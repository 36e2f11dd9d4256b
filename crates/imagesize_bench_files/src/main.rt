//! Reads the sizes of the images in files, many times. Prints a digest of all results, and no times.
//!
//! The word is how many turns it takes. The lines of standard input are the names of the files, and each turn reads each of them.
#![tactic(auto)]

mod digest;

use crate::digest::Digest;
use imagesize::size;
use std::io::Input;
use std::rt::Files;
use std::{env, io};

fn main(rt: HostRuntime) -> io::Result<()> {
    let mut words = env::args(&rt)?;
    let _program = words.next();
    let turns = match words.next() {
        Some(word) => word.as_str().parse::<u64>().unwrap_or(0),
        None => 0,
    };
    let names = read_names(&rt)?;
    let mut digest = Digest::new();
    for _ in 0..turns {
        add_sizes(&rt, &names, &mut digest);
    }
    let (value, sizes, errors) = (digest.value(), digest.sizes(), digest.errors());
    println!(rt; "files {value:016x}, {sizes} sizes, {errors} errors")
}

// The lines of standard input.
fn read_names(rt: &(impl Input + AllocGlobal)) -> io::Result<Vec<String>> {
    let mut names = Vec::new(rt.alloc());
    for line in rt.lines(rt.alloc()) {
        names.push(line?)?;
    }
    Ok(names)
}

// Adds the size of the image in each of these files.
fn add_sizes(rt: &(impl Files + AllocGlobal), names: &[String], digest: &mut Digest) {
    for name in names {
        digest.add(&size(rt, rt.alloc(), name.as_str()));
    }
}
