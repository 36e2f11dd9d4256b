//! The inputs of each job.

use crate::images::{
    Image, avif, bmp, camera_jpeg, exr, gif, hdr, icon, other, phone_heic, pnm, psd, strange,
    texture, tiff, web_jpeg, webp,
};
use crate::random::Random;
use std::alloc::{AllocError, Global};

/// The files of a gallery: half of them are JPEGs.
pub fn gallery(alloc: Global, random: &mut Random) -> Result<Vec<Image>, AllocError> {
    let mut images = Vec::new(alloc);
    for _ in 0..4 {
        for _ in 0..4 {
            images.push(camera_jpeg(alloc, random)?)?;
            images.push(web_jpeg(alloc, random)?)?;
        }
        images.push(phone_heic(alloc, random)?)?;
        images.push(avif(alloc, random)?)?;
        images.push(tiff(alloc, random)?)?;
        images.push(webp(alloc, random)?)?;
        images.push(webp(alloc, random)?)?;
        images.push(gif(alloc, random)?)?;
        images.push(psd(alloc, random)?)?;
        let entries = random.between(1, 11);
        images.push(icon(alloc, random, entries)?)?;
        images.push(bmp(alloc, random)?)?;
        images.push(other(alloc, random)?)?;
    }
    Ok(images)
}

/// Images whose size is written in texts.
pub fn documents(alloc: Global, random: &mut Random) -> Result<Vec<Image>, AllocError> {
    let mut images = Vec::new(alloc);
    for _ in 0..16 {
        images.push(pnm(alloc, random)?)?;
        images.push(hdr(alloc, random)?)?;
        images.push(exr(alloc, random)?)?;
    }
    Ok(images)
}

/// The textures of a pack.
pub fn textures(alloc: Global, random: &mut Random) -> Result<Vec<Image>, AllocError> {
    let mut images = Vec::new(alloc);
    for which in 0..40 {
        images.push(texture(alloc, random, which)?)?;
    }
    Ok(images)
}

/// The inputs of strangers, of many records each. The seed changes how many.
pub fn strangers(alloc: Global, random: &mut Random) -> Result<Vec<Image>, AllocError> {
    let mut images = Vec::new(alloc);
    for which in 0..8 {
        let records = if which == 7 { 400 } else { 10_000 };
        let records = records + random.between(0, 100);
        images.push(strange(alloc, which, records)?)?;
    }
    let entries = random.between(10_000, 10_100);
    images.push(icon(alloc, random, entries)?)?;
    Ok(images)
}
