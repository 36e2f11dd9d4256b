//! Calls over chunks.

use crate::results::Results;
use imagesize_stream::StreamProbe;

/// Passes these bytes to a `StreamProbe` in chunks of at most so many, and adds its result.
#[inline(never)]
pub fn push<R: Results>(data: &[u8], length: usize, results: &mut R) {
    let mut probe = StreamProbe::new(Some(data.len() as u64));
    let mut found = None;
    for chunk in data.chunks(length.max(1)) {
        found = probe.push(chunk);
        if found.is_some() {
            break;
        }
    }
    let (image, size) = match found {
        Some(found) => found,
        None => probe.finish(),
    };
    results.add_type(image);
    results.add_size(size);
}
