//! Test vectors over slices and over many readers. The program prints the size of each named file. For a table of test
//! vectors it prints each row that does not have the expected result everywhere.
#![tactic(auto)]

#[cfg(test)]
mod calls;
mod checks;
#[cfg(test)]
mod counts;
#[cfg(test)]
mod failures;
#[cfg(test)]
mod files;
mod inputs;
#[cfg(test)]
mod parts;
#[cfg(test)]
mod queries;
#[cfg(test)]
mod strange;
mod table;
pub mod told;
#[cfg(test)]
mod types;

use crate::checks::check;
use crate::inputs::is_named;
use crate::table::{Wrong, row_of};
use imagesize::{ImageSize, ImageType, size};
use std::alloc::Global;
use std::rt::Files;
use std::{env, fs, io};

// Prints what is found in each named file.
fn main(rt: HostRuntime) -> io::Result<()> {
    let mut names = env::args(&rt)?;
    let _program = names.next();
    for name in names {
        if name.as_str().ends_with(".tsv") {
            print_table(&rt, name.as_str())?;
        } else {
            print_size(&rt, name.as_str())?;
        }
    }
    Ok(())
}

// Prints the size of a file, or why it has none.
fn print_size(rt: &(impl Files + Print + AllocGlobal), name: &str) -> io::Result<()> {
    match size(rt, rt.alloc(), name) {
        Ok(ImageSize { width, height }) => println!(rt; "{width}x{height}"),
        Err(error) => println!(rt; "{error}"),
    }
}

// Prints each row of a table that fails, each type without a row, and the numbers of rows and of those that tests name.
fn print_table(rt: &(impl Files + Print + AllocGlobal), name: &str) -> io::Result<()> {
    let text = fs::read_to_string(rt, name)?;
    let mut at = 0u64;
    let mut rows = 0u64;
    let mut named = 0u64;
    for line in text.as_str().lines() {
        at = at.saturating_add(1);
        if line.starts_with('#') {
            continue;
        }
        rows = rows.saturating_add(1);
        match check_line(rt.alloc(), line) {
            Ok(is_named) => named = named.saturating_add(is_named as u64),
            Err(wrong) => println!(rt; "{name}, line {at}: {wrong}")?,
        }
    }
    print_lacking(rt, text.as_str())?;
    println!(rt; "{rows} worked inputs, of which tests name {named}")
}

// Prints each type that has no row in a table.
fn print_lacking(rt: &impl Print, table: &str) -> io::Result<()> {
    for image in ImageType::all() {
        let name = image.name();
        if !table.lines().any(|line| is_of_type(line, name)) {
            println!(rt; "no worked input of {name}")?;
        }
    }
    Ok(())
}

// Whether the row of a line has the type with this name, whatever its compression.
fn is_of_type(line: &str, name: &str) -> bool {
    match line.split('\t').nth(2) {
        Some(kind) => kind.split('(').next() == Some(name),
        None => false,
    }
}

// Checks the test vector of a line, and returns whether a test names it.
fn check_line(alloc: Global, line: &str) -> Result<bool, Wrong> {
    let row = row_of(alloc, line)?;
    check(alloc, &row)?;
    Ok(is_named(&row.bytes))
}
