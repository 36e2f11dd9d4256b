//! Prints type and size of each named image file, or why it has none. With `--spans` it also prints the bytes that this
//! depends on.
#![tactic(auto)]

ghost use Rattle.std.specs.Prelude.{◌≡◌, ◌||◌, [], true, IsTrue, IfOk, IfErr, Option, None};
ghost use Rattle.std.specs.Io.Buffered.{writer_buffer};
ghost use Rattle.imagesize_probe.specs.Run.{Files, Loads, LoadsNone};
ghost use Rattle.imagesize_source.specs.Errors.{is_fault, is_memory};

#[cfg(test)]
mod fakes;
mod report;
mod run;

use imagesize::{ImageError, ImageResult, Reason};
use imagesize_io::FileReader;
use imagesize_io::file::{BLOCK, length_of};
use run::{Open, WHOLE, exit_code, run};
use std::io::{self, BufWriter, ErrorKind, Printer, Read};
use std::process::ExitCode;
use std::rt::Files;
use std::{env, fs, mem};

fn main(rt: HostRuntime) -> ExitCode {
    ExitCode::from(exit_code(run_arguments(&rt)))
}

// Writes the lines for the names in the arguments, and returns the program's status.
//
// Errors: the arguments could not be read, or standard output failed.
fn run_arguments(rt: &HostRuntime) -> io::Result<u8> {
    let mut arguments = env::args(rt)?;
    let _program = arguments.next();
    let arguments: Vec<String> = arguments.collect(rt.alloc())?;
    let mut output = buffered(rt, 8192);
    let mut memory = [0; BLOCK];
    let mut disk = Disk {
        rt,
        memory: &mut memory,
    };
    run(
        rt.alloc(),
        &arguments,
        &mut disk,
        &mut output,
        &mut rt.stderr(),
    )
}

// Standard output with a buffer of `capacity` bytes. If the buffer cannot be allocated, output is written at once.
fn buffered<R: Print + AllocGlobal>(rt: &R, capacity: usize) -> BufWriter<Printer<'_, R>>
    ensures { writer_buffer result ≡ [] }
{
    match BufWriter::with_capacity(rt.alloc(), capacity, io::writer(rt)) {
        Ok(output) => output,
        Err(_) => BufWriter::with_capacity(rt.alloc(), 0, io::writer(rt)).unwrap(),
    }
}

// Opens files.
#[derive(Drop)]
struct Disk<'a, R> {
    rt: &'a R,
    // The memory for the blocks of the next file. Empty while a reader has it.
    memory: &'a mut [u8],
}

impl<'a, R: Files + AllocGlobal> Open for Disk<'a, R> {
    type Reader = FileReader<'a, R::File>;

    ghost known = { λ _. None };

    fn open(&mut self, name: &str) -> ImageResult<FileReader<'a, R::File>>
        ensures opens { Unit {0} }
        ensures keeps { ◌≡◌ {A = Option Files} None None }
        ensures refuses { IfErr result (λ e. is_fault e ≡ true) }
    {
        let file = fs::open(self.rt, name)?;
        let length = length_of(&file);
        let memory = mem::replace(&mut self.memory, &mut []);
        Ok(FileReader::new(file, length, memory))
    }

    fn close(&mut self, reader: FileReader<'a, R::File>)
        ensures { ◌≡◌ {A = Option Files} None None }
    {
        self.memory = reader.into_memory();
    }

    fn load(&mut self, name: &str) -> ImageResult<Vec<u8>>
        ensures loads { IfOk result (λ bytes. Loads None name.now bytes.items) }
        ensures refuses { IfErr result (LoadsNone None name.now) }
        ensures keeps { ◌≡◌ {A = Option Files} None None }
        ensures fails { IfErr result (λ e. IsTrue (is_fault e || is_memory e)) }
    {
        let file = fs::open(self.rt, name)?;
        let mut bytes = Vec::new(self.rt.alloc());
        match file.take(WHOLE as u64 + 1).read_to_end(&mut bytes) {
            Ok(_) => Ok(bytes),
            Err(error) if error.kind() == ErrorKind::OutOfMemory => {
                Err(ImageError::IoError(Reason::Memory))
            }
            Err(error) => Err(ImageError::from(error)),
        }
    }
}
