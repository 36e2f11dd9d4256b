//! What a type says about its compression and its container, in numbers.
ghost use Rattle.std.specs.Prelude.{◌≡◌};
ghost use Rattle.std.specs.Int.{from_bool};
ghost use Rattle.imagesize.specs.Queries.{family_of, is_multi_container};
ghost use Rattle.imagesize_c.specs.Numbers.{family_number, type_numbered};
ghost use Rattle.imagesize_c.specs.Told.{TellsOf, is_block};

use crate::numbers::{family_number, type_numbered};
use crate::status::{ANSWERED, UNKNOWN_TYPE};

/// The family of a type's compression, or 0 if there is none.
#[unsafe(no_mangle)]
pub extern "C" fn imagesize_compression_family(
    number: u32,
    compression: u32,
    family: &mut u32,
) -> u32
    ensures { TellsOf (λ image. family_number (family_of image)) (type_numbered number compression) family.old family.new result }
{
    let Some(image) = type_numbered(number, compression) else {
        return UNKNOWN_TYPE;
    };
    *family = family_number(image.compression_family());
    ANSWERED
}

/// Whether a type is a texture in one of the block compressions: 1 if it is, and else 0.
#[unsafe(no_mangle)]
#[tactic(auto, using(crate::proofs::Families::block_bit))]
pub extern "C" fn imagesize_is_block_compressed(
    number: u32,
    compression: u32,
    answer: &mut u32,
) -> u32
    ensures { TellsOf (λ image. from_bool (is_block (family_of image))) (type_numbered number compression) answer.old answer.new result }
{
    let Some(image) = type_numbered(number, compression) else {
        return UNKNOWN_TYPE;
    };
    *answer = u32::from(image.is_block_compressed());
    ANSWERED
}

/// Whether a type's container can hold textures of several families: 1 if it can, and else 0.
#[unsafe(no_mangle)]
pub extern "C" fn imagesize_is_multi_compression_container(
    number: u32,
    compression: u32,
    answer: &mut u32,
) -> u32
    ensures { TellsOf (λ image. from_bool (is_multi_container image)) (type_numbered number compression) answer.old answer.new result }
{
    let Some(image) = type_numbered(number, compression) else {
        return UNKNOWN_TYPE;
    };
    *answer = u32::from(image.is_multi_compression_container());
    ANSWERED
}
