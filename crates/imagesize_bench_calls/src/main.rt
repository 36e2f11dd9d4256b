//! Makes a public call many times on the bytes of a file. Prints its result, and no times.
//!
//! The words are the name of the call, how many times it is made, and the file. With `all` each call is made.
//! The last result is printed. The results before it are added to a checksum, which comes after it.
#![tactic(auto)]

mod calls;
mod results;

use crate::calls::{Buffers, CALLS, Call, Input, make};
use crate::results::{Checksum, Report};
use imagesize::image_type;
use std::rt::Files;
use std::{env, fs, io};

fn main(rt: HostRuntime) -> io::Result<()> {
    let mut words = env::args(&rt)?;
    let _program = words.next();
    let (Some(name), Some(times), Some(file)) = (words.next(), words.next(), words.next()) else {
        return eprintln!(rt; "usage: imagesize_bench_calls CALL TIMES FILE");
    };
    let times = times.as_str().parse::<u64>().unwrap_or(1);
    run(&rt, name.as_str(), times, file.as_str())
}

// Makes each call of this name so many times on a file, and prints its results.
fn run(
    rt: &(impl Files + Print + AllocGlobal),
    name: &str,
    times: u64,
    file: &str,
) -> io::Result<()> {
    let bytes = fs::read(rt, file)?;
    let input = Input {
        file,
        data: bytes.as_slice(),
        image: image_type(bytes.as_slice()).ok(),
    };
    let mut buffers = Buffers::new(rt.alloc());
    for (each, call) in CALLS {
        if name == each || name == "all" {
            let checksum = repeat(rt, call, &input, &mut buffers, times)?;
            let mut report = Report::new();
            make(rt, call, &input, &mut buffers, &mut report)?;
            report.print(rt, each, checksum.value())?;
        }
    }
    Ok(())
}

// Makes a call once less than so many times, and returns the checksum of its results.
fn repeat(
    rt: &(impl Files + AllocGlobal),
    call: Call,
    input: &Input,
    buffers: &mut Buffers,
    times: u64,
) -> io::Result<Checksum> {
    let mut checksum = Checksum::new();
    for _ in 1..times {
        make(rt, call, input, buffers, &mut checksum)?;
    }
    Ok(checksum)
}
