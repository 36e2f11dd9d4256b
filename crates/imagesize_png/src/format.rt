//! PNG: sections 5.2 (PNG signature) and 11.2.2 (IHDR Image header) of the Portable Network Graphics Specification.
ghost use Rattle.std.specs.Prelude.{◌≡◌};
ghost use Rattle.imagesize_png.specs.Png.{is_png, png};
ghost use Rattle.imagesize_source.specs.State.{Follows};

use imagesize_source::readings::{read_exact_at, read_u32};
use imagesize_source::source::Source;
use imagesize_source::{Endian, Halt};
use imagesize_types::size::ImageSize;

/// Whether bytes begin with the signature of PNG. Fewer than eight bytes do not.
///
/// ```
/// use imagesize_png::is_png;
///
/// assert!(is_png(b"\x89PNG\r\n\x1a\n"));
/// assert!(!is_png(b"\x89PNG"));
/// ```
#[tactic(auto, unfolding(crate::specs::Png::is_png))]
pub fn is_png(header: &[u8]) -> bool
    ensures { result ≡ is_png header.now }
{
    matches!(
        header,
        [0x89, b'P', b'N', b'G', b'\r', b'\n', 0x1A, b'\n', ..]
    )
}

/// The width and the height of an input with the signature at an offset, or the error.
#[inline(always)]
#[tactic(auto, using(imagesize_source::proofs::Runs::steps))]
pub fn size<S: Source>(source: &mut S, offset: u64) -> Result<ImageSize, Halt>
    ensures { Follows (S.state source.old) (S.state source.new) result (png offset) }
{
    let mut head = [0u8; 8];
    read_exact_at(source, offset, &mut head)?;
    if !is_png(&head) {
        return Err(Halt::NotSupported);
    }
    let width = read_u32(source, 16, Endian::Big)? as usize;
    let height = read_u32(source, 20, Endian::Big)? as usize;
    Ok(ImageSize { width, height })
}
