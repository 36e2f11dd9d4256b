//! An index of a gallery: sizes from the first bytes of files.
ghost use Rattle.std.specs.Prelude.{◌≡◌, ℕ, ◌++◌, List, IfSome, Ok, None, if◌then◌else◌};
ghost use Rattle.std.specs.Result.{result_ok};
ghost use Rattle.imagesize.specs.Counts.{lasts_as};
ghost use Rattle.imagesize.specs.Types.{lasts};
ghost use Rattle.imagesize.specs.Meaning.{kind_of, meaning};

use imagesize::{ImageSize, ImageType, blob_size, image_type};

/// The size in pixels of the image in a file, from the file's first bytes. `None` if the size needs more bytes, or if these
/// have an error.
///
/// Appended bytes may change the size of a HEIF, an icon and a TGA: for these types the result is always `None`.
pub fn size_by_front(front: &[u8]) -> Option<ImageSize>
    // A size is the size of the whole file, whatever bytes are appended.
    ensures stays { IfSome result (λ size. (rest : List ℕ) → (meaning (front.now ++ rest) 0).answer ≡ Ok size) }

    // For each other type, every size that the first bytes have is returned.
    ensures value { result ≡ (if lasts_as (kind_of front.now 0).answer then result_ok (meaning front.now 0).answer else None) }
{
    match image_type(front) {
        Ok(kind) if told_by_front(kind) => blob_size(front).ok(),
        _ => None,
    }
}

// Whether appended bytes cannot change a size of this type.
fn told_by_front(kind: ImageType) -> bool
    ensures { result ≡ lasts kind }
{
    !matches!(kind, ImageType::Heif(_) | ImageType::Ico | ImageType::Tga)
}
