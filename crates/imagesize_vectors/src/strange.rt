//! The results for readers that lie about their length, are past their end, or never end.

use crate::inputs::GIF;
use imagesize::{
    ImageError, ImageResult, ImageSize, ImageType, Reason, Told, reader_probe, reader_size,
    reader_type,
};
use imagesize_io::FileReader;
use imagesize_io::file::BLOCK;
use imagesize_readers::readers::{Calls, Claiming, Counting, Endless};
use std::io::{self, BufReader, Cursor, Read, Seek, SeekFrom};
use std::test::Fail;

const GIF_SIZE: ImageSize = ImageSize {
    width: 100,
    height: 100,
};

fn is_end<T>(answer: &ImageResult<T>) -> bool {
    matches!(answer, Err(ImageError::IoError(Reason::EndOfInput)))
}

// A reader of these bytes that reports a length, and whether a seek to the end goes there.
fn claiming(bytes: &[u8], told: u64, goes_there: bool) -> Claiming<Cursor<&[u8]>> {
    Claiming {
        reader: Cursor::new(bytes),
        told,
        goes_there,
    }
}

#[test]
fn bytes_behind_the_told_length_are_the_end(rt: HostRuntime) -> Result<(), Fail> {
    let claiming = || claiming(GIF, 0, true);
    let probed = reader_probe(&mut claiming());
    assert!(rt; is_end(&probed.answer));
    assert_eq!(rt; probed.taken, 12);
    assert_eq!(rt; probed.kind, Some(ImageType::Gif));
    assert_eq!(rt; reader_type(claiming())?, ImageType::Gif);
    assert!(rt; is_end(&reader_size(claiming())));
    assert!(rt; is_end(&ImageType::Gif.reader_size(&mut claiming())));
    Ok(())
}

#[test]
fn a_call_goes_back_to_a_offset_that_is_the_told_length(rt: HostRuntime) -> Result<(), Fail> {
    let elsewhere = || claiming(GIF, 0, false);
    let probed = reader_probe(&mut elsewhere());
    assert!(rt; is_end(&probed.answer));
    assert_eq!(rt; probed.taken, 12);
    assert_eq!(rt; probed.kind, Some(ImageType::Gif));
    assert_eq!(rt; reader_type(elsewhere())?, ImageType::Gif);
    assert!(rt; is_end(&reader_size(elsewhere())));
    Ok(())
}

#[test]
fn the_greatest_told_lengths_change_no_answer(rt: HostRuntime) -> Result<(), Fail> {
    for told in [1 << 63, u64::MAX] {
        let claiming = || claiming(GIF, told, true);
        assert_eq!(rt; reader_type(claiming())?, ImageType::Gif);
        assert_eq!(rt; reader_size(claiming())?, GIF_SIZE);
        assert_eq!(rt; reader_probe(&mut claiming()).answer?, GIF_SIZE);
        assert_eq!(rt; ImageType::Gif.reader_size(&mut claiming())?, GIF_SIZE);
    }
    Ok(())
}

#[test]
fn a_read_that_gives_nothing_is_the_last(rt: HostRuntime) {
    // How many reads the type and the size make: those that give bytes, and the one that gives none.
    for (bytes, of_type, of_size) in [(b"".as_slice(), 1, 1), (b"GIF89ad\0d", 2, 3)] {
        let mut made = (0, 0);
        let reader = Calls::new(claiming(bytes, 100, true), &mut made);
        assert!(rt; is_end(&reader_type(reader)));
        assert_eq!(rt; made.0, of_type, "{bytes:?}");
        let mut made = (0, 0);
        let mut reader = Calls::new(claiming(bytes, 100, true), &mut made);
        assert!(rt; is_end(&ImageType::Gif.reader_size(&mut reader)));
        assert_eq!(rt; made.0, of_size, "{bytes:?}");
    }
}

#[test]
fn a_reader_behind_its_end_is_at_the_end(rt: HostRuntime) {
    let behind = || {
        let mut cursor = Cursor::new(GIF);
        cursor.set_position(20);
        cursor
    };
    assert!(rt; is_end(&reader_type(behind())));
    assert!(rt; is_end(&reader_size(behind())));
    let mut count = 0;
    let mut reader = Counting::new(behind(), &mut count);
    let probed = reader_probe(&mut reader);
    assert!(rt; is_end(&probed.answer));
    assert_eq!(rt; probed.taken, 0);
    assert_eq!(rt; probed.kind, None);
    assert_eq!(rt; count, 0);
    let mut made = (0, 0);
    let reader = Calls::new(behind(), &mut made);
    assert!(rt; is_end(&reader_type(reader)));
    assert_eq!(rt; made, (0, 2));
}

// The head of an input without end, the part that follows over and over, and the type.
static STREAMS: [(&[u8], &[u8], ImageType); 5] = [
    (b"\xFF\xD8", b"\xFF\xE0\0\x02", ImageType::Jpeg),
    (b"FORM\0\0\0\0ILBM", b"ANNO\0\0\0\0", ImageType::Ilbm),
    (b"P1", b" ", ImageType::Pnm),
    (b"#?RGBE\n", b"\n", ImageType::Hdr),
    // A BigTIFF that claims the greatest number of entries, and whose entries have tag 0 and field type 1.
    (
        b"II+\0\x08\0\0\0\x10\0\0\0\0\0\0\0\xFF\xFF\xFF\xFF\xFF\xFF\xFF\xFF",
        b"\0\0\x01\0\0\0\0\0\0\0\0\0\0\0\0\0\0\0\0\0",
        ImageType::Tiff,
    ),
];

// The reader of an input without end, which reports a length of 100.
fn endless<'a>(head: &'a [u8], part: &'a [u8]) -> Claiming<Endless<'a>> {
    Claiming {
        reader: Endless {
            head,
            part,
            offset: 0,
        },
        told: 100,
        goes_there: true,
    }
}

// Whether a budget of 164 bytes was spent: the reported length plus 64.
fn is_spent(answer: &ImageResult<ImageSize>) -> bool {
    matches!(
        answer,
        Err(ImageError::IoError(Reason::BudgetSpent { budget: 164 }))
    )
}

#[test]
fn an_endless_reader_is_read_until_the_budget_is_spent(rt: HostRuntime) -> Result<(), Fail> {
    for (head, part, kind) in STREAMS {
        let endless = || endless(head, part);
        assert_eq!(rt; reader_type(endless())?, kind);
        assert!(rt; is_spent(&reader_size(endless())), "{kind:?}");
        let probed = reader_probe(&mut endless());
        assert!(rt; is_spent(&probed.answer), "{kind:?}");
        assert_eq!(rt; probed.kind, Some(kind));
        assert_eq!(rt; probed.taken, 164);
        assert!(rt; is_spent(&kind.reader_size(&mut endless())), "{kind:?}");
    }
    Ok(())
}

// A file that has grown: it reports its end at 100.
#[derive(Drop)]
struct Grown<'a> {
    inner: Cursor<&'a [u8]>,
}

impl Read for Grown<'_> {
    fn read(&mut self, buffer: &mut [u8]) -> io::Result<usize> {
        self.inner.read(buffer)
    }
}

impl Seek for Grown<'_> {
    fn seek(&mut self, to: SeekFrom) -> io::Result<u64> {
        match to {
            SeekFrom::End(0) => self.inner.seek(SeekFrom::Start(100)),
            _ => self.inner.seek(to),
        }
    }
}

#[test]
fn a_buffered_reader_that_has_grown_is_read_until_the_budget_is_spent(
    rt: HostRuntime,
) -> Result<(), Fail> {
    for (head, part, kind) in STREAMS {
        let mut bytes = Vec::from_elem(rt.alloc(), 0u8, 4096)?;
        let mut endless = endless(head, part).reader;
        assert!(rt; matches!(endless.read_told(bytes.as_mut_slice()), Ok(4096)));
        let inner = Grown {
            inner: Cursor::new(bytes.as_slice()),
        };
        let mut reader = BufReader::new(rt.alloc(), inner)?;
        let probed = reader_probe(&mut reader);
        assert!(rt; is_spent(&probed.answer), "{kind:?}");
        assert_eq!(rt; probed.taken, 164);
        assert!(rt; is_spent(&kind.reader_size(&mut reader)), "{kind:?}");
        let inner = Cursor::new(bytes.as_slice());
        let mut memory = [0; BLOCK];
        let file = FileReader::new(inner, Some(100), &mut memory);
        assert!(rt; is_spent(&reader_size(file)), "{kind:?}");
    }
    Ok(())
}

#[test]
fn an_endless_reader_gives_as_much_as_its_budget(rt: HostRuntime) {
    for (head, part, kind) in STREAMS {
        let mut count = 0;
        let reader = Counting::new(endless(head, part), &mut count);
        assert!(rt; is_spent(&reader_size(reader)));
        assert_eq!(rt; count, 164, "{kind:?}");
        let mut count = 0;
        let reader = Counting::new(endless(head, part), &mut count);
        assert!(rt; matches!(reader_type(reader), Ok(found) if found == kind));
        assert_eq!(rt; count, 12, "{kind:?}");
    }
}
