//! Calls over parts that are fetched.

use crate::digest::Digest;
use imagesize::{PartsAnswer, Span, parts_probe};
use imagesize_stream::PartsProbe;
use imagesize_uses::remote::{Held, probe_remote};

/// Type and size of an input, from the spans that are requested.
pub fn remote(bytes: &[u8], digest: &mut Digest) {
    let mut held = Held::new(bytes, bytes.len(), u64::MAX);
    if let Ok(probed) = probe_remote(&mut held) {
        digest.add_kind(probed.kind);
        digest.add_answer(&probed.answer);
    }
    digest.add(held.fetches());
}

/// Type and size of an input, from blocks of so many bytes that begin where a span is requested.
pub fn blocks(bytes: &[u8], block: usize, digest: &mut Digest) {
    let mut probe = PartsProbe::new(bytes.len() as u64);
    for _ in 0..=bytes.len() {
        match probe.answer() {
            PartsAnswer::Found((kind, answer)) => {
                digest.add_kind(kind);
                digest.add_answer(&answer);
                return;
            }
            PartsAnswer::Wanted(span) => {
                let rest = &bytes[(span.start as usize).min(bytes.len())..];
                probe.supply(span.start, &rest[..rest.len().min(block)]);
            }
        }
    }
}

/// Type and size of an input from its first bytes, or what else is needed.
pub fn front(bytes: &[u8], most: usize, digest: &mut Digest) {
    let front = &bytes[..bytes.len().min(most)];
    let spans = [Span {
        start: 0,
        len: front.len() as u64,
    }];
    match parts_probe(front, &spans, bytes.len() as u64) {
        PartsAnswer::Found((kind, answer)) => {
            digest.add_kind(kind);
            digest.add_answer(&answer);
        }
        PartsAnswer::Wanted(span) => digest.add_spans(&[span]),
    }
}
