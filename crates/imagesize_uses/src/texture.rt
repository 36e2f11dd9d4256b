//! A checker of textures: a file must be a texture in a given compression, with sides that are powers of two.
ghost use Rattle.std.specs.Prelude.{◌≡◌, ◌≤◌, ◌↔◌, IfErr, IfOk, IsTrue};
ghost use Rattle.std.specs.Option.{option_copied};
ghost use Rattle.std.specs.Int.{is_power_of_two};
ghost use Rattle.imagesize.specs.Meaning.{kind_of};
ghost use Rattle.imagesize.specs.Queries.{container_of};
ghost use Rattle.imagesize_uses.specs.Texture.{HasSides, IsFlaw, IsTexture};
ghost use Rattle.imagesize_types.specs.declared.size.ImageSize.{ImageSize};

use imagesize::{CompressionFamily, ImageError, ImageSize, ImageType, blob_size, image_type};

/// Why a file is not such a texture.
#[derive(Debug, Drop)]
pub enum Flaw {
    /// It is not an image, or has no size, for this reason.
    NoImage(ImageError),
    /// It has this type, whose compression is another or unknown.
    OtherCompression(ImageType),
    /// A side is not a power of two, or is too long.
    Sides(ImageSize),
}

impl From<ImageError> for Flaw {
    ghost use Rattle.imagesize_uses.specs.declared.texture.Flaw.TheVariants.{NoImage};

    ghost from_gives = { λ e flaw. flaw ≡ NoImage e };

    fn from(error: ImageError) -> Flaw {
        Flaw::NoImage(error)
    }
}

/// A texture that can be loaded.
#[derive(Clone, Copy, Debug)]
pub struct Texture {
    /// The size in pixels.
    pub size: ImageSize,
    /// The name of the container.
    pub container: Option<&'static str>,
}

/// The texture in a file's bytes. Its compression must be of this family, and each side a power of two of at most `most_side`
/// pixels.
///
/// Errors: the first flaw of the type, of its compression, of the size and of the sides.
pub fn check_texture(
    data: &[u8],
    family: CompressionFamily,
    most_side: usize,
) -> Result<Texture, Flaw>
    // A returned texture meets these conditions, and is in the named container.
    ensures texture { IfOk result (λ texture. IsTexture «data».now family most_side texture.size) }
    ensures container { IfOk result (λ texture.
        IfOk (kind_of «data».now 0).answer (λ type. option_copied texture.container ≡ container_of type)) }

    // A rejected file does not meet them, and the flaw is the one that is returned.
    ensures flaw { IfErr result (IsFlaw «data».now family most_side) }
    ensures none { IfErr result (λ _. (size : ImageSize) → IsTexture «data».now family most_side size → ⊥) }
{
    let kind = image_type(data)?;
    if kind.compression_family() != Some(family) {
        return Err(Flaw::OtherCompression(kind));
    }
    let size = blob_size(data)?;
    if !has_sides(size, most_side) {
        return Err(Flaw::Sides(size));
    }
    Ok(Texture {
        size,
        container: kind.container_format(),
    })
}

// Whether each side is a power of two of at most `most_side` pixels.
fn has_sides(size: ImageSize, most_side: usize) -> bool
    ensures { IsTrue result ↔ HasSides most_side size }
{
    is_side(size.width, most_side) && is_side(size.height, most_side)
}

// Whether a side is a power of two of at most `most_side` pixels.
fn is_side(side: usize, most_side: usize) -> bool
    ensures { IsTrue result ↔ (IsTrue (is_power_of_two side) × (side ≤ most_side)) }
{
    side.is_power_of_two() && side <= most_side
}
