//! The record that a stream waits for, in each format whose size is in records.
ghost use Rattle.std.specs.Prelude.{◌≡◌, ℕ, ◌<◌, ◌≤◌, true, IfSome};
ghost use Rattle.imagesize_records.specs.FirstReads.{ReadsFirst, ReadsText};
ghost use Rattle.imagesize_records.specs.Steps.{first_text, is_text, reach_at, step};

use imagesize_boxes::formats::heif::Sought;
use imagesize_boxes::formats::jxl::boxes::Boxes;
use imagesize_source::Text;
use imagesize_texts::formats::exr::names_of;
use imagesize_texts::formats::hdr::LINE_ROOM;
use imagesize_texts::formats::pnm::Part;
use imagesize_texts::util::WORD_ROOM;
use imagesize_walked::formats::ico::Entries;
use imagesize_walked::formats::ilbm::Chunks;
use imagesize_walked::formats::jpeg::Segments;
use imagesize_walked::formats::tiff::{Directory, count_bytes, entry_bytes};

/// The state of a format before its next record.
#[derive(Clone, Copy)]
pub enum Awaited {
    /// A segment of a JPEG is next.
    Jpeg(Segments),
    /// A chunk of an interleaved bitmap is next.
    Ilbm(Chunks),
    /// An entry of an icon's directory is next.
    Ico(Entries),
    /// The number of entries in a TIFF's first directory is next, or an entry.
    Tiff(Directory),
    /// A box of a HEIF is next.
    Heif(Sought),
    /// A box of a JPEG XL is next.
    Jxl(Boxes),
    /// An attribute of an EXR is next. `long` says whether its names may be long.
    Exr { long: bool },
    /// A line of a Radiance picture is next.
    Hdr,
    /// A part of a portable bitmap's header is next.
    Pnm(Part),
}

impl Awaited {
    /// Whether the record is a text.
    pub fn is_text(&self) -> bool
        ensures { result ≡ is_text self.now }
    {
        matches!(self, Awaited::Exr { .. } | Awaited::Hdr | Awaited::Pnm(_))
    }

    /// How many bytes the first read of the record requests, from the record's offset on. 0 if that is not known without a
    /// read: for texts, and for entries of a table, which follow one another.
    #[inline]
    pub fn first_read(&self) -> u64
        ensures first { 0 < result → (offset : ℕ) → ReadsFirst offset result (step self.now offset) }
        ensures few { result ≤ 132 }
    {
        match self {
            Awaited::Jpeg(_) => 2,
            Awaited::Ilbm(_) => 8,
            Awaited::Heif(_) => 8,
            Awaited::Jxl(_) => 8,
            Awaited::Tiff(Directory::Count { header }) => count_bytes(header.version),
            _ => 0,
        }
    }

    /// How many bytes from its offset on the record is read at most.
    #[inline]
    pub fn most_read(&self) -> u64
        ensures is { result ≡ reach_at self.now }
        ensures few { result ≤ 1024 }
    {
        match self {
            Awaited::Jpeg(_) => 9,
            Awaited::Ilbm(_) => 12,
            Awaited::Ico(_) => 2,
            Awaited::Tiff(Directory::Count { header }) => count_bytes(header.version),
            Awaited::Tiff(Directory::Entry(listed)) => entry_bytes(listed.version),
            Awaited::Heif(Sought::Meta) => 12,
            Awaited::Heif(Sought::Iprp | Sought::Ipco) => 8,
            Awaited::Heif(Sought::Property(_)) => 20,
            Awaited::Jxl(_) => 36,
            Awaited::Exr { long } => 2 * names_of(*long) as u64 + 20,
            Awaited::Hdr => LINE_ROOM as u64,
            Awaited::Pnm(_) => WORD_ROOM as u64,
        }
    }

    /// The text that the record begins with, if it is a text, and how many bytes it has at most.
    #[inline(always)]
    pub fn first_text(&self) -> Option<(Text, usize)>
        ensures kind { IfSome result (λ _. is_text self.now ≡ true) }
        ensures text { IfSome result (λ found. found.0 ≡ first_text self.now) }
        ensures first { IfSome result (λ found. (offset : ℕ) → ReadsText offset found.0 found.1 (step self.now offset)) }
        ensures few { IfSome result (λ found. found.1 ≤ reach_at self.now) }
    {
        match self {
            Awaited::Exr { long } => Some((Text::Line { delimiter: 0 }, names_of(*long))),
            Awaited::Hdr => Some((Text::Line { delimiter: b'\n' }, LINE_ROOM)),
            Awaited::Pnm(Part::Comment) => Some((Text::Line { delimiter: b'\n' }, WORD_ROOM)),
            Awaited::Pnm(_) => Some((Text::Word, WORD_ROOM)),
            _ => None,
        }
    }
}
