//! What the first bytes of an image say about its type and its size.
ghost use Rattle.std.specs.Prelude.{◌≡◌, ◌<◌, ◌≤◌, ◌^◌, ◌&&◌, not, Ok, length};
ghost use Rattle.imagesize_fixed.specs.Tga.{lacks_its_map};
ghost use Rattle.imagesize.specs.Meaning.{kind_reads};
ghost use Rattle.imagesize_pieces.specs.Stream.{Says};
ghost use Rattle.imagesize_source.specs.Layout.{layout_reads};
ghost use Rattle.imagesize_records.specs.declared.opening.First.TheVariants as first;
ghost use Rattle.imagesize_records.specs.Streamed.{first_layout};
ghost use Rattle.imagesize_stream.specs.Heard.{Hears};
ghost use Rattle.imagesize_stream.specs.declared.stage.Stage.TheVariants as stage;

use crate::stage::Stage;
use imagesize::ImageType;
use imagesize_fixed::formats::tga::lacks_its_map;
use imagesize_pieces::first::read_first;
use imagesize_pieces::walk::is_faulted;
use imagesize_records::opening::{First, FirstBytes, FirstSize, Opening, TgaHeader, TgaSize};
use imagesize_source::Halt;

// How many first bytes the type is read from.
const HEAD: usize = 12;

/// The type, if the first bytes say one, and an offset. The requested bytes end there at the stage `First`. The first record begins
/// there at `Records`. It says nothing at the other stages.
pub(crate) type Heard = (Option<ImageType>, u64);

/// What the first bytes of an input of at most `told` bytes say. The stage after them is stored in `into`.
///
/// Inlined: with too few bytes for the type, it makes no call. A probe over parts begins with no byte.
#[inline(always)]
pub(crate) fn hear(into: &mut Stage, bytes: &[u8], told: u64) -> Heard
    requires first { into.old ≡ stage.First }
    requires fits { length bytes.now ≤ told }
    requires short { told < 2 ^ 63 }
    ensures hears { Hears bytes.now told result.0 into.new result.1 }
    ensures head { length bytes.now < 12 → into.new ≡ stage.First → result.1 ≤ 12 }
{
    if bytes.len() < HEAD && told >= HEAD as u64 {
        // The stage is stored anew, so that the caller need not load it.
        *into = Stage::First;
        return (None, HEAD as u64);
    }
    hear_type(into, bytes, told)
}

// What the first bytes say, if there are 12 of them or the input is shorter.
#[inline(never)]
fn hear_type(into: &mut Stage, bytes: &[u8], told: u64) -> Heard
    requires first { into.old ≡ stage.First }
    requires enough { length bytes.now < 12 → told < 12 }
    requires fits { length bytes.now ≤ told }
    requires short { told < 2 ^ 63 }
    ensures hears { Hears bytes.now told result.0 into.new result.1 }
    ensures head { length bytes.now < 12 → into.new ≡ stage.First → result.1 ≤ 12 }
{
    let (found, end) = read_first(&FirstBytes, bytes, told);
    if is_faulted(&found) {
        return (None, end);
    }
    match found {
        Ok(First::MaybeTga { head }) => hear_tga(into, &head, bytes, told),
        Ok(First::Type(image)) => hear_size(into, image, bytes, told),
        Err(halt) => {
            *into = Stage::Done { size: Err(halt) };
            (None, 0)
        }
    }
}

// What the first bytes say about the size, after they decided the type.
fn hear_size(into: &mut Stage, image: ImageType, bytes: &[u8], told: u64) -> Heard
    requires first { into.old ≡ stage.First }
    requires image { Says bytes.now told (λ d. kind_reads d 0) (Ok image) }
    requires fits { length bytes.now ≤ told }
    requires short { told < 2 ^ 63 }
    ensures { Hears bytes.now told result.0 into.new result.1 }
{
    let (found, end) = read_first(&FirstSize { image }, bytes, told);
    if is_faulted(&found) {
        return (Some(image), end);
    }
    match found {
        Ok(Opening::Size(size)) => {
            *into = Stage::Done { size: Ok(size) };
            (Some(image), 0)
        }
        Ok(Opening::Records { next, offset }) => {
            *into = Stage::Records { next };
            (Some(image), offset)
        }
        Err(halt) => {
            *into = Stage::Done { size: Err(halt) };
            (Some(image), 0)
        }
    }
}

// What the first bytes say about what may be a TGA. If the header does not decide, the footer does.
fn hear_tga(into: &mut Stage, head: &[u8; 12], bytes: &[u8], told: u64) -> Heard
    requires stage { into.old ≡ stage.First }
    requires first { Says bytes.now told (λ d. layout_reads d first_layout) (Ok (first.MaybeTga head.now)) }
    requires fits { length bytes.now ≤ told }
    requires short { told < 2 ^ 63 }
    ensures { Hears bytes.now told result.0 into.new result.1 }
{
    if told < 18 {
        let size = Err(Halt::NotSupported);
        *into = Stage::Done { size };
        return (None, 0);
    }
    if bytes.len() < 18 {
        return (None, 18);
    }
    let (sound, end) = read_first(&TgaHeader { head: *head }, bytes, told);
    let Ok(sound) = sound else {
        return (None, end);
    };
    let (size, end) = read_first(&TgaSize, bytes, told);
    let Ok(size) = size else {
        return (None, end);
    };
    if is_by_header(sound, head) {
        *into = Stage::Done { size: Ok(size) };
        return (Some(ImageType::Tga), 0);
    }
    *into = Stage::Footer { size };
    (None, 0)
}

// Whether it is a TGA whatever its last bytes are.
fn is_by_header(sound: bool, head: &[u8; 12]) -> bool
    ensures { result ≡ (sound && not (lacks_its_map head.now)) }
{
    sound && !lacks_its_map(head)
}
