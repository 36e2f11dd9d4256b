//! Images as programs write them: headers and tables of real shape, with nothing for pixels but noise.

use crate::random::Random;
use std::alloc::{AllocError, Global};

/// The bytes of an image, and where they are changed before each call.
#[derive(Drop)]
pub struct Image {
    /// Its bytes.
    pub bytes: Vec<u8>,
    /// Where the stamp is.
    stamp: usize,
    /// Whether the stamp is eight digits. Else it is four bytes.
    in_digits: bool,
}

impl Image {
    /// No bytes yet.
    pub fn new(alloc: Global) -> Image {
        Image {
            bytes: Vec::new(alloc),
            stamp: 0,
            in_digits: false,
        }
    }

    /// Changes the stamp to this number.
    #[inline]
    pub fn change(&mut self, number: u64) {
        if self.in_digits {
            let mut rest = number;
            let mut digits = [b'0'; 8];
            for digit in digits.iter_mut().rev() {
                *digit = b'0' + (rest % 10) as u8;
                rest /= 10;
            }
            put(&mut self.bytes, self.stamp, &digits);
        } else {
            put(
                &mut self.bytes,
                self.stamp,
                &((number % 0x1_0000_0000) as u32).to_be_bytes(),
            );
        }
    }

    // Appends bytes.
    fn add(&mut self, bytes: &[u8]) -> Result<(), AllocError> {
        self.bytes.extend_from_slice(bytes)
    }

    // Appends four bytes that are changed before each call.
    fn add_stamp(&mut self) -> Result<(), AllocError> {
        self.stamp = self.bytes.len();
        self.add(&[0, 0, 2, 128])
    }

    // Appends eight digits that are changed before each call.
    fn add_digits(&mut self) -> Result<(), AllocError> {
        self.stamp = self.bytes.len();
        self.in_digits = true;
        self.add(b"00000640")
    }

    // Appends big-endian numbers of two bytes and of four.
    fn add_u16(&mut self, number: u32) -> Result<(), AllocError> {
        self.add(&((number % 0x1_0000) as u16).to_be_bytes())
    }

    fn add_u32(&mut self, number: u32) -> Result<(), AllocError> {
        self.add(&number.to_be_bytes())
    }

    // Appends little-endian numbers of two bytes and of four.
    fn add_u16_le(&mut self, number: u32) -> Result<(), AllocError> {
        self.add(&((number % 0x1_0000) as u16).to_le_bytes())
    }

    fn add_u32_le(&mut self, number: u32) -> Result<(), AllocError> {
        self.add(&number.to_le_bytes())
    }

    // Appends bytes without a meaning.
    fn add_noise(&mut self, random: &mut Random, count: u32) -> Result<(), AllocError> {
        for _ in 0..count / 8 {
            self.add(&random.next().to_le_bytes())?;
        }
        for _ in 0..count % 8 {
            self.add(&[0x5A])?;
        }
        Ok(())
    }

    // Appends lower-case letters and spaces.
    fn add_letters(&mut self, random: &mut Random, count: u32) -> Result<(), AllocError> {
        for _ in 0..count {
            let letter = (random.between(0, 27) % 27) as u8;
            self.add(&[if letter == 26 {
                b'_'
            } else {
                b'a' + letter % 26
            }])?;
        }
        Ok(())
    }

    // Appends a box of this name, with this many bytes of content.
    fn add_box(
        &mut self,
        random: &mut Random,
        name: &[u8],
        content: u32,
    ) -> Result<(), AllocError> {
        self.add_u32(content.saturating_add(8))?;
        self.add(name)?;
        self.add_noise(random, content)
    }

    // Appends a JPEG segment with this marker, with this many bytes of content.
    fn add_segment(
        &mut self,
        random: &mut Random,
        marker: u8,
        content: u32,
    ) -> Result<(), AllocError> {
        self.add(&[0xFF, marker])?;
        self.add_u16(content.min(65_533).saturating_add(2))?;
        self.add_noise(random, content.min(65_533))
    }
}

// Writes bytes at an index, if they fit there.
#[inline]
fn put(bytes: &mut [u8], index: usize, new: &[u8]) {
    if index <= bytes.len() && new.len() <= bytes.len() - index {
        bytes[index..index + new.len()].copy_from_slice(new);
    }
}

/// A JPEG of a camera: EXIF with a preview, a colour profile, other segments, tables, and the frame.
pub fn camera_jpeg(alloc: Global, random: &mut Random) -> Result<Image, AllocError> {
    let mut image = Image::new(alloc);
    image.add(b"\xFF\xD8")?;
    let exif = random.between(10_000, 60_000);
    image.add_segment(random, 0xE1, exif)?;
    let profile = random.between(500, 3_200);
    image.add_segment(random, 0xE2, profile)?;
    for _ in 0..random.between(0, 4) {
        let content = random.between(4_000, 40_000);
        image.add_segment(random, 0xE2, content)?;
    }
    image.add_segment(random, 0xDB, 65)?;
    image.add_segment(random, 0xDB, 65)?;
    image.add_segment(random, 0xC4, 416)?;
    add_frame(&mut image, random)?;
    Ok(image)
}

/// A JPEG for a page: its header, tables, and the frame.
pub fn web_jpeg(alloc: Global, random: &mut Random) -> Result<Image, AllocError> {
    let mut image = Image::new(alloc);
    image.add(b"\xFF\xD8")?;
    image.add_segment(random, 0xE0, 14)?;
    for _ in 0..random.between(0, 2) {
        let content = random.between(20, 600);
        image.add_segment(random, 0xFE, content)?;
    }
    image.add_segment(random, 0xDB, 65)?;
    image.add_segment(random, 0xDB, 65)?;
    add_frame(&mut image, random)?;
    Ok(image)
}

// Appends the frame of a JPEG, and what may follow.
fn add_frame(image: &mut Image, random: &mut Random) -> Result<(), AllocError> {
    image.add(b"\xFF\xC0\0\x11\x08")?;
    image.add_stamp()?;
    image.add(b"\x03\x01\x22\0\x02\x11\x01\x03\x11\x01")?;
    image.add_noise(random, 2_000)
}

/// A HEIC of a phone: an image in tiles, with their sizes, a profile and a rotation.
pub fn phone_heic(alloc: Global, random: &mut Random) -> Result<Image, AllocError> {
    let mut image = Image::new(alloc);
    let items = random.between(48, 60);
    let profile = random.between(500, 600);
    let properties = 8 + 120 + 20 + 8 + profile + 20 + 9 + 16 + 8 + 106 + 20;
    let information = 14 + items * 21;
    let location = 16 + items * 16;
    let meta = 12 + 33 + 36 + 14 + information + 24 + 8 + properties + 24 + 150 + 16 + location;
    image.add(b"\0\0\0\x18ftypheic\0\0\0\0mif1heic")?;
    image.add_u32(meta)?;
    image.add(b"meta\0\0\0\0")?;
    image.add_box(random, b"hdlr", 25)?;
    image.add_box(random, b"dinf", 28)?;
    image.add_box(random, b"pitm", 6)?;
    image.add_box(random, b"iinf", 6 + items * 21)?;
    image.add_box(random, b"iref", 16)?;
    image.add_u32(8 + properties + 150)?;
    image.add(b"iprp")?;
    image.add_u32(properties)?;
    image.add(b"ipco")?;
    image.add_box(random, b"hvcC", 112)?;
    image.add(b"\0\0\0\x14ispe\0\0\0\0\0\0\x02\0\0\0\x02\0")?;
    image.add_box(random, b"colr", profile)?;
    image.add(b"\0\0\0\x14ispe\0\0\0\0")?;
    image.add_stamp()?;
    image.add(b"\0\0\x0B\xD0")?;
    image.add(b"\0\0\0\x09irot\x01")?;
    image.add_box(random, b"pixi", 8)?;
    image.add_box(random, b"hvcC", 106)?;
    image.add(b"\0\0\0\x14ispe\0\0\0\0\0\0\x01\x40\0\0\0\xF0")?;
    image.add_box(random, b"ipma", 142)?;
    image.add_box(random, b"idat", 8)?;
    image.add_box(random, b"iloc", 8 + items * 16)?;
    image.add_noise(random, 1_000)?;
    Ok(image)
}

/// An AVIF of one item.
pub fn avif(alloc: Global, random: &mut Random) -> Result<Image, AllocError> {
    let mut image = Image::new(alloc);
    image.add(b"\0\0\0\x20ftypavif\0\0\0\0avifmif1miafMA1B")?;
    let properties = 8 + 20 + 16 + 12 + 19;
    image.add_u32(12 + 33 + 14 + 30 + 40 + 8 + properties + 23)?;
    image.add(b"meta\0\0\0\0")?;
    image.add_box(random, b"hdlr", 25)?;
    image.add_box(random, b"pitm", 6)?;
    image.add_box(random, b"iloc", 22)?;
    image.add_box(random, b"iinf", 32)?;
    image.add_u32(8 + properties + 23)?;
    image.add(b"iprp")?;
    image.add_u32(properties)?;
    image.add(b"ipco\0\0\0\x14ispe\0\0\0\0")?;
    image.add_stamp()?;
    image.add(b"\0\0\x04\x38")?;
    image.add_box(random, b"pixi", 8)?;
    image.add_box(random, b"av1C", 4)?;
    image.add_box(random, b"colr", 11)?;
    image.add_box(random, b"ipma", 15)?;
    image.add_noise(random, 1_000)?;
    Ok(image)
}

/// A TIFF with its directory at the end. The tags are in their order, and the sides come after two others.
pub fn tiff(alloc: Global, random: &mut Random) -> Result<Image, AllocError> {
    let mut image = Image::new(alloc);
    let pixels = random.between(4_000, 20_000);
    image.add(b"II*\0")?;
    image.add_u32_le(pixels.saturating_add(8))?;
    image.add_noise(random, pixels)?;
    let entries = random.between(12, 60);
    image.add_u16_le(entries)?;
    for tag in [254, 255] {
        image.add_u16_le(tag)?;
        image.add(b"\x04\0\x01\0\0\0\0\0\0\0")?;
    }
    image.add(b"\0\x01\x04\0\x01\0\0\0")?;
    image.add_stamp()?;
    image.add(b"\x01\x01\x04\0\x01\0\0\0\x38\x04\0\0")?;
    for tag in 258..entries.saturating_add(254) {
        image.add_u16_le(tag)?;
        image.add(b"\x03\0\x01\0\0\0\x01\0\0\0")?;
    }
    image.add(&[0; 4])?;
    Ok(image)
}

/// A WebP in one of its three forms.
pub fn webp(alloc: Global, random: &mut Random) -> Result<Image, AllocError> {
    let mut image = Image::new(alloc);
    image.add(b"RIFF\xF8\x0F\0\0WEBPVP8")?;
    match random.between(0, 3) {
        0 => {
            image.add(b" \xE8\x0F\0\0\x30\x01\0\x9D\x01\x2A")?;
            image.add(&[0x7C])?;
            image.add_stamp()?;
        }
        1 => {
            image.add(b"L\xE8\x0F\0\0\x2F")?;
            image.add_stamp()?;
        }
        _ => {
            image.add(b"X\x0A\0\0\0\x10\0\0\0")?;
            image.add_stamp()?;
            image.add(&[4, 0])?;
        }
    }
    image.add_noise(random, 2_000)?;
    Ok(image)
}

/// A GIF.
pub fn gif(alloc: Global, random: &mut Random) -> Result<Image, AllocError> {
    let mut image = Image::new(alloc);
    image.add(b"GIF89a")?;
    image.add_stamp()?;
    image.add(b"\xF7\0\0")?;
    image.add_noise(random, 2_000)?;
    Ok(image)
}

/// A PSD.
pub fn psd(alloc: Global, random: &mut Random) -> Result<Image, AllocError> {
    let mut image = Image::new(alloc);
    image.add(b"8BPS\0\x01\0\0\0\0\0\0\0\x03")?;
    image.add_stamp()?;
    image.add(b"\0\0\x07\x80\0\x08\0\x03")?;
    image.add_noise(random, 2_000)?;
    Ok(image)
}

/// An icon of one to ten images.
pub fn icon(alloc: Global, random: &mut Random, entries: u32) -> Result<Image, AllocError> {
    let mut image = Image::new(alloc);
    image.add(b"\0\0\x01\0")?;
    image.add_u16_le(entries)?;
    image.add_stamp()?;
    image.add(b"\x01\0\x20\0\x68\x04\0\0\x16\0\0\0")?;
    for _ in 1..entries {
        let side = (random.between(0, 256) % 256) as u8;
        image.add(&[side, side, 0, 0])?;
        image.add(b"\x01\0\x20\0\x68\x04\0\0\x16\0\0\0")?;
    }
    image.add_noise(random, 2_000)?;
    Ok(image)
}

/// A BMP.
pub fn bmp(alloc: Global, random: &mut Random) -> Result<Image, AllocError> {
    let mut image = Image::new(alloc);
    image.add(b"BM\x36\x10\x0E\0\0\0\0\0\x36\0\0\0\x28\0\0\0")?;
    image.add_stamp()?;
    image.add(b"\xE0\x01\0\0\x01\0\x18\0")?;
    image.add_noise(random, 2_000)?;
    Ok(image)
}

/// A PNG, which is no type of this library, or a page of text.
pub fn other(alloc: Global, random: &mut Random) -> Result<Image, AllocError> {
    let mut image = Image::new(alloc);
    if random.between(0, 2) == 0 {
        image.add(b"\x89PNG\r\n\x1A\n\0\0\0\rIHDR")?;
    } else {
        image.add(b"<!doctype html>\n<html>\n<head><title>")?;
    }
    image.add_stamp()?;
    image.add_noise(random, 2_000)?;
    Ok(image)
}

/// A portable pixmap, with a comment as image editors write it, or without one.
pub fn pnm(alloc: Global, random: &mut Random) -> Result<Image, AllocError> {
    let mut image = Image::new(alloc);
    image.add(b"P6\n")?;
    for _ in 0..random.between(0, 3) {
        image.add(b"# made by ")?;
        let count = random.between(5, 60);
        image.add_letters(random, count)?;
        image.add(b"\n")?;
    }
    image.add_digits()?;
    image.add(b" 480\n255\n")?;
    image.add_noise(random, 2_000)?;
    Ok(image)
}

/// A Radiance picture with 5 to 12 lines of 10 to 120 bytes before its resolution.
pub fn hdr(alloc: Global, random: &mut Random) -> Result<Image, AllocError> {
    let mut image = Image::new(alloc);
    image.add(b"#?RADIANCE\n")?;
    for _ in 0..random.between(3, 10) {
        let count = random.between(9, 119);
        image.add_letters(random, count)?;
        image.add(b"\n")?;
    }
    image.add(b"EXPOSURE=")?;
    image.add_digits()?;
    image.add(b"\nFORMAT=32-bit_rle_rgbe\n\n-Y 480 +X 640\n")?;
    image.add_noise(random, 2_000)?;
    Ok(image)
}

/// An OpenEXR with 8 to 20 attributes, in the order of their names.
pub fn exr(alloc: Global, random: &mut Random) -> Result<Image, AllocError> {
    let mut image = Image::new(alloc);
    image.add(b"\x76\x2F\x31\x01\x02\0\0\0")?;
    add_attribute(&mut image, random, b"channels\0chlist\0", 73)?;
    add_attribute(&mut image, random, b"chromaticities\0chromaticities\0", 32)?;
    for _ in 0..random.between(5, 15) {
        let name = random.between(3, 20);
        image.add(b"c")?;
        image.add_letters(random, name)?;
        let value = random.between(4, 400);
        add_attribute(&mut image, random, b"\0string\0", value)?;
    }
    add_attribute(&mut image, random, b"compression\0compression\0", 1)?;
    image.add(b"dataWindow\0box2i\0\x10\0\0\0")?;
    image.add_stamp()?;
    image.add(b"\0\0\0\0\xFF\xFF\xFF\x7F\x37\x04\0\0")?;
    add_attribute(&mut image, random, b"lineOrder\0lineOrder\0", 1)?;
    image.add(b"\0")?;
    image.add_noise(random, 2_000)?;
    Ok(image)
}

// Appends an attribute: its name and its type, the length of its value, and the value.
fn add_attribute(
    image: &mut Image,
    random: &mut Random,
    names: &[u8],
    value: u32,
) -> Result<(), AllocError> {
    image.add(names)?;
    image.add_u32_le(value)?;
    image.add_noise(random, value)
}

/// A texture in a container with its sides at fixed offsets. `which` chooses the container.
pub fn texture(alloc: Global, random: &mut Random, which: u32) -> Result<Image, AllocError> {
    let mut image = Image::new(alloc);
    match which % 10 {
        0 => {
            image.add(b"DDS |\0\0\0\x07\x10\0\0")?;
            image.add_stamp()?;
            image.add(b"\0\x04\0\0")?;
            image.add_noise(random, 64)?;
            image.add(b"DX10")?;
            image.add_noise(random, 40)?;
            image.add_u32_le(random.between(95, 100))?;
        }
        1 => {
            image.add(b"DDS |\0\0\0\x07\x10\0\0")?;
            image.add_stamp()?;
            image.add(b"\0\x04\0\0")?;
            image.add_noise(random, 64)?;
            image.add(b"DXT5")?;
        }
        2 => {
            image.add(b"\xABKTX 20\xBB\r\n\x1A\n\x91\0\0\0\x01\0\0\0")?;
            image.add_stamp()?;
            image.add(b"\0\x02\0\0")?;
        }
        3 => {
            image.add(b"PVR\x03\0\0\0\0")?;
            image.add_u32_le(random.between(0, 30))?;
            image.add(b"\0\0\0\0\0\0\0\0\0\0\0\0")?;
            image.add_stamp()?;
            image.add(b"\0\x02\0\0")?;
        }
        4 => {
            image.add(b"PKM 20\0\x01\x02\0\x01\0")?;
            image.add_stamp()?;
        }
        5 => {
            image.add(b"PKM 20\x16\x0A\x02\0\x01\0")?;
            image.add_stamp()?;
        }
        6 => {
            image.add(b"\x13\xAB\xA1\x5C\x06\x06\x01")?;
            image.add_stamp()?;
            image.add(b"\0\x02\x01\0\0")?;
        }
        7 => {
            image.add(b"VTF\0\x07\0\0\0\x02\0\0\0\x50\0\0\0")?;
            image.add_stamp()?;
        }
        8 => {
            image.add(b"\0\0\x02\0\0\0\0\0\0\0\0\0")?;
            image.add_stamp()?;
            image.add(b"\x20\x08")?;
        }
        _ => {
            image.add(b"\0\0\x0A\0\0\0\0\0\0\0\0\0")?;
            image.add_stamp()?;
            image.add(b"\x18\0")?;
            image.add_noise(random, 2_000)?;
            return image.with_footer();
        }
    }
    image.add_noise(random, 2_000)?;
    Ok(image)
}

impl Image {
    // The same with the footer of a TGA.
    fn with_footer(mut self) -> Result<Image, AllocError> {
        self.add(b"\0\0\0\0\0\0\0\0TRUEVISION-XFILE.\0")?;
        Ok(self)
    }
}

/// An input of a stranger: `records` of the smallest records that a format has, and no size. `which` chooses the format.
pub fn strange(alloc: Global, which: u32, records: u32) -> Result<Image, AllocError> {
    let mut image = Image::new(alloc);
    let (head, record): (&[u8], &[u8]) = match which % 8 {
        0 => (b"\xFF\xD8", b"\xFF\xE0\0\x02"),
        1 => (b"FORM\0\0\0\0ILBM", b"JUNK\0\0\0\0"),
        2 => (b"\0\0\0\x10ftypavif\0\0\0\0", b"\0\0\0\x08free"),
        3 => (b"\0\0\0\x0CJXL \r\n\x87\n", b"\0\0\0\x08free"),
        4 => (b"\x76\x2F\x31\x01\x02\0\0\0", b"a\0b\0\0\0\0\0"),
        5 => (b"#?RADIANCE\n", b"\n\n\n\n\n\n\n\n"),
        6 => (b"P6\n", b"#\n#\n#\n#\n"),
        _ => (b"#?RADIANCE\n", LINE),
    };
    image.add(head)?;
    for _ in 0..records {
        image.add(record)?;
    }
    image.stamp = image.bytes.len();
    image.add(b"\0\0\0\0")?;
    Ok(image)
}

// A line of 250 bytes.
const LINE: &[u8] =
    b"Of a hundred bytes that a line has, none is a delimiter, and none is white space that would end a word...........\
    and so on, up to the end of the line, where the line feed is found at last, and the search for the next one begins anew, as often as\
 it can.\n";
