//! A text is the same over a slice and over a reader, which reads no byte after it.

use imagesize_io::reader::{Origin, ReaderSource, open};
use imagesize_source::Text;
use imagesize_source::source::Source;
use imagesize_source::source::slice::SliceSource;
use std::io::Cursor;
use std::process::Abort;
use std::test::Fail;

// Checks the text at an offset of a slice, and how many bytes a reader of the same bytes reads for it.
fn check_text(
    rt: &impl Abort,
    text: Text,
    bytes: &[u8],
    offset: u64,
    most: usize,
    expected: &[u8],
    taken: u64,
) -> Result<(), Fail> {
    let most = most.min(16);
    let mut buffer = [0u8; 16];
    let count = SliceSource::new(bytes).read_text(offset, text, &mut buffer[..most])?;
    assert_eq!(rt; &buffer[..count], expected);
    let mut reader = Cursor::new(bytes);
    let opened = open(&mut reader, Origin::Start)?;
    let mut source = ReaderSource::new(&mut reader, opened.told);
    let mut other = [0u8; 16];
    let read = source.read_text(offset, text, &mut other[..most])?;
    assert_eq!(rt; &other[..read], expected);
    assert_eq!(rt; source.taken(), taken);
    Ok(())
}

const LINE: Text = Text::Line { delimiter: b'\n' };

const WORD: Text = Text::Word;

#[test]
fn a_line_has_its_delimiter(rt: HostRuntime) -> Result<(), Fail> {
    check_text(&rt, LINE, b"ab\ncd\n", 0, 16, b"ab\n", 3)?;
    check_text(&rt, LINE, b"ab\ncd\n", 2, 16, b"\n", 1)?;
    check_text(&rt, LINE, b"ab\ncd\n", 3, 3, b"cd\n", 3)?;
    Ok(())
}

#[test]
fn a_line_ends_where_the_buffer_or_the_input_does(rt: HostRuntime) -> Result<(), Fail> {
    check_text(&rt, LINE, b"ab\ncd\n", 3, 2, b"cd", 2)?;
    check_text(&rt, LINE, b"ab\ncd", 3, 16, b"cd", 2)?;
    check_text(&rt, LINE, b"ab\ncd", 5, 16, b"", 0)?;
    check_text(&rt, LINE, b"ab\ncd", u64::MAX, 16, b"", 0)?;
    check_text(&rt, LINE, b"ab\ncd", 0, 0, b"", 0)?;
    Ok(())
}

#[test]
fn a_word_has_the_white_space_around_it(rt: HostRuntime) -> Result<(), Fail> {
    check_text(&rt, WORD, b" \n40\t50", 0, 16, b" \n40\t", 5)?;
    check_text(&rt, WORD, b" \n40\t50", 2, 16, b"40\t", 3)?;
    check_text(&rt, WORD, b" \n40\t50", 5, 16, b"50", 2)?;
    check_text(&rt, WORD, b" \n40\t50", 0, 3, b" \n4", 3)?;
    Ok(())
}

#[test]
fn a_vertical_tab_is_no_white_space(rt: HostRuntime) -> Result<(), Fail> {
    check_text(&rt, WORD, b"\x0B\x0C1", 0, 16, b"\x0B\x0C", 2)?;
    let bytes = b"\x0C\r\x0B1\x0B2 3";
    check_text(&rt, WORD, bytes, 0, 16, &bytes[..7], 7)?;
    Ok(())
}

#[test]
fn white_space_alone_is_no_word(rt: HostRuntime) -> Result<(), Fail> {
    check_text(&rt, WORD, b"  \t\r\n", 0, 16, b"  \t\r\n", 5)?;
    check_text(&rt, WORD, b"  \t\r\n", 0, 2, b"  ", 2)?;
    Ok(())
}
