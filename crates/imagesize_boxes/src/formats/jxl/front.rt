//! The first bytes of a codestream.
ghost use Rattle.std.specs.Prelude.{◌≡◌, ◌+◌, ◌≤◌, ◌-◌, ◌++◌, ℕ, List, [], length, take};
ghost use Rattle.imagesize_boxes.specs.Jxl.{jxl_size};

use super::header;
use imagesize_source::Halt;
use imagesize_types::size::ImageSize;
use std::marker::Model;

/// No more bytes of a codestream are needed.
pub const MOST: usize = 16;

/// At most sixteen bytes: the first bytes of a codestream, or a part of them.
#[derive(Drop)]
pub struct Front {
    bytes: [u8; MOST],
    len: usize,
}

impl Model for Front {
    ghost Value = { List ℕ };

    ghost view = { λ front. take front.len front.bytes };

    ghost invariant = { λ front. front.len ≤ 16 };
}

impl Front {
    /// No bytes.
    pub fn new() -> Front
        ensures { result ≡ [] }
    {
        Front {
            bytes: [0; MOST],
            len: 0,
        }
    }

    /// The two bytes, followed by the first `there` bytes of the others.
    #[inline]
    pub fn of_start(start: [u8; 2], behind: [u8; 14], there: usize) -> Front
        requires { there ≤ 14 }
        ensures { result ≡ start ++ take there behind }
    {
        let mut bytes = [start[0], start[1], 0, 0, 0, 0, 0, 0, 0, 0, 0, 0, 0, 0, 0, 0];
        bytes[2..].copy_from_slice(&behind);
        Front {
            bytes,
            len: 2 + there,
        }
    }

    /// The number of bytes.
    pub fn len(&self) -> usize
        ensures is { result ≡ length self.now }
        ensures few { result ≤ 16 }
    {
        self.len
    }

    /// The bytes.
    pub fn as_slice(&self) -> &[u8]
        ensures { result.now ≡ self.now }
    {
        &self.bytes[..self.len]
    }

    /// Appends bytes, which must fit.
    pub fn extend(&mut self, more: &[u8])
        requires { length self.old + length more.now ≤ 16 }
        ensures { self.new ≡ self.old ++ more.now }
    {
        let end = self.len + more.len();
        self.bytes[self.len..end].copy_from_slice(more);
        self.len = end;
    }

    /// The size in the header of the codestream.
    #[inline(always)]
    pub fn size(&self) -> Result<ImageSize, Halt>
        ensures { result ≡ jxl_size self.now }
    {
        header::codestream_size(&self.bytes, self.len)
    }
}
