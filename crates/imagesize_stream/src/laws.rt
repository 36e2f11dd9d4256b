//! The result of a probe does not depend on how the bytes are cut into chunks.
ghost use Rattle.std.specs.Prelude.{◌≡◌, ◌-◌, ◌^◌, ◌++◌, min, take, unwrap_or};
ghost use Rattle.std.specs.Result.{result_ok};
ghost use Rattle.imagesize.specs.Meaning.{kind_of, meaning};

use crate::probe::StreamProbe;
use imagesize::{ImageResult, ImageType};
use imagesize_types::size::ImageSize;

/// The type and the size of an image that arrives in two chunks. Bytes past the reported length do not count. Wherever the bytes
/// are cut, the result is the same as for one chunk of all bytes.
pub fn probe_two(
    total: Option<u64>,
    first: &[u8],
    second: &[u8],
) -> (Option<ImageType>, ImageResult<ImageSize>)
    ensures kind { result.0
        ≡ result_ok (kind_of (take (min (unwrap_or total (2 ^ 63 - 1)) (2 ^ 63 - 1)) (first.now ++ second.now)) 0).answer }
    ensures size { result.1 ≡ (meaning (take (min (unwrap_or total (2 ^ 63 - 1)) (2 ^ 63 - 1)) (first.now ++ second.now)) 0).answer }
{
    let mut probe = StreamProbe::new(total);
    probe.push(first);
    probe.push(second);
    probe.finish()
}
