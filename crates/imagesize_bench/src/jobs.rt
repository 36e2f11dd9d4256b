//! The jobs.

mod chunks;
mod ranges;
mod slices;

use crate::digest::Digest;
use crate::images::Image;
use crate::inputs::{documents, gallery, strangers, textures};
use crate::random::Random;
use std::alloc::{AllocError, Global};

/// The names of the jobs.
pub const NAMES: [&str; 6] = [
    "gallery",
    "uploads",
    "ranges",
    "documents",
    "packs",
    "strangers",
];

/// Runs so many turns of a job on the inputs of a seed, and adds the results to the digest.
pub fn run(
    alloc: Global,
    name: &str,
    seed: u64,
    turns: u64,
    digest: &mut Digest,
) -> Result<(), AllocError> {
    let mut random = Random::new(seed);
    let mut images = match name {
        "documents" => documents(alloc, &mut random)?,
        "packs" => textures(alloc, &mut random)?,
        "strangers" => strangers(alloc, &mut random)?,
        _ => gallery(alloc, &mut random)?,
    };
    let mut stamp = random.next();
    for turn in 0..turns {
        for image in &mut images {
            run_on(alloc, name, image, &mut stamp, digest)?;
            if name == "gallery" && turn % 4 == 0 {
                slices::probe_buffered(alloc, changed(image, &mut stamp), digest)?;
            }
        }
    }
    Ok(())
}

// One turn of a job on one input.
fn run_on(
    alloc: Global,
    name: &str,
    image: &mut Image,
    stamp: &mut u64,
    digest: &mut Digest,
) -> Result<(), AllocError> {
    match name {
        "gallery" => {
            slices::size(changed(image, stamp), digest);
            slices::reader_size_of(changed(image, stamp), digest);
        }
        "uploads" => {
            chunks::gate(changed(image, stamp), 1_400, digest);
            chunks::gate(changed(image, stamp), 16_384, digest);
            chunks::push(changed(image, stamp), 65_536, digest);
        }
        "ranges" => {
            ranges::remote(changed(image, stamp), digest);
            ranges::blocks(changed(image, stamp), 4_096, digest);
            ranges::front(changed(image, stamp), 4_096, digest);
        }
        "documents" => {
            slices::size(changed(image, stamp), digest);
            slices::reader_size_of(changed(image, stamp), digest);
            slices::probe_buffered(alloc, changed(image, stamp), digest)?;
            chunks::push(changed(image, stamp), 1_400, digest);
            slices::trace(alloc, changed(image, stamp), digest)?;
        }
        "packs" => {
            slices::kind(changed(image, stamp), digest);
            slices::size(changed(image, stamp), digest);
            slices::reader_size_of(changed(image, stamp), digest);
            slices::trace(alloc, changed(image, stamp), digest)?;
            slices::spans(changed(image, stamp), digest);
        }
        _ => {
            slices::size(changed(image, stamp), digest);
            slices::reader_size_of(changed(image, stamp), digest);
            chunks::push(changed(image, stamp), 1_400, digest);
            slices::trace(alloc, changed(image, stamp), digest)?;
            ranges::blocks(changed(image, stamp), 4_096, digest);
        }
    }
    Ok(())
}

// The bytes of an input, changed to some that no call has seen.
fn changed<'a>(image: &'a mut Image, stamp: &mut u64) -> &'a [u8] {
    *stamp = stamp.wrapping_add(1);
    image.change(*stamp);
    image.bytes.as_slice()
}
