//! Calls over chunks.

use crate::digest::Digest;
use imagesize::ImageSize;
use imagesize_stream::StreamProbe;
use imagesize_uses::gate::Rejection;
use imagesize_uses::upload::UploadGate;

/// The verdict of a gate, from chunks of at most so many bytes.
pub fn gate(bytes: &[u8], most: usize, digest: &mut Digest) {
    let mut gate = UploadGate::new(Some(bytes.len() as u64), 50_000_000);
    let mut verdict = None;
    for chunk in bytes.chunks(most.max(1)) {
        verdict = gate.feed(chunk);
        if verdict.is_some() {
            break;
        }
    }
    match verdict {
        Some(verdict) => add_verdict(&verdict, digest),
        None => add_verdict(&gate.finish(), digest),
    }
}

// Adds a verdict.
fn add_verdict(verdict: &Result<ImageSize, Rejection>, digest: &mut Digest) {
    match verdict {
        Ok(size) => digest.add(size.width as u64),
        Err(Rejection::TooLarge(size)) => digest.add(size.height as u64),
        Err(Rejection::NoSize(_)) => digest.add(1),
    }
}

/// Type and size of an input of unknown length, from chunks of at most so many bytes.
pub fn push(bytes: &[u8], most: usize, digest: &mut Digest) {
    let mut probe = StreamProbe::new(None);
    let mut found = None;
    for chunk in bytes.chunks(most.max(1)) {
        found = probe.push(chunk);
        if found.is_some() {
            break;
        }
    }
    let (kind, answer) = match found {
        Some(found) => found,
        None => probe.finish(),
    };
    digest.add_kind(kind);
    digest.add_answer(&answer);
}
