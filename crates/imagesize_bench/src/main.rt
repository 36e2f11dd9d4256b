//! The jobs that users wait for, on inputs made from a seed. Prints a digest of all results, and no times.
//!
//! The words are a job, the seed, and how many turns it takes. In each turn every input of the job is changed by a few bytes
//! before each call, so no call sees an input twice. The job `all` runs each job with so many turns.
#![tactic(auto)]

mod digest;
mod images;
mod inputs;
mod jobs;
mod random;

use crate::digest::Digest;
use std::alloc::{AllocError, Global};
use std::{env, io};

fn main(rt: HostRuntime) -> io::Result<()> {
    let mut words = env::args(&rt)?;
    let _program = words.next();
    let Some(job) = words.next() else {
        return Ok(());
    };
    let seed = number(words.next().as_ref());
    let turns = number(words.next().as_ref());
    for name in jobs::NAMES {
        if job.as_str() == name || job.as_str() == "all" {
            let digest = run(rt.alloc(), name, seed, turns)?;
            let (value, sizes, errors) = (digest.value(), digest.sizes(), digest.errors());
            println!(rt; "{name} {value:016x}, {sizes} sizes, {errors} errors")?;
        }
    }
    Ok(())
}

// The number that a word is, or 0.
fn number(word: Option<&String>) -> u64 {
    match word {
        Some(word) => word.as_str().parse::<u64>().unwrap_or(0),
        None => 0,
    }
}

// The digest of a job's results.
fn run(alloc: Global, name: &str, seed: u64, turns: u64) -> Result<Digest, AllocError> {
    let mut digest = Digest::new();
    jobs::run(alloc, name, seed, turns, &mut digest)?;
    Ok(digest)
}
