//! A writer for the tests.

use std::io::{self, ErrorKind, Write};

/// Fails when lines are written, when they are flushed, or never.
#[derive(Drop)]
pub struct Weak {
    /// How many bytes are accepted.
    pub written: usize,
    /// How often a flush succeeds.
    pub sent: usize,
}

impl Write for Weak {
    fn write(&mut self, buf: &[u8]) -> io::Result<usize> {
        let count = buf.len().min(self.written);
        if count == 0 {
            return Err(io::Error::from(ErrorKind::StorageFull));
        }
        self.written -= count;
        Ok(count)
    }

    fn flush(&mut self) -> io::Result<()> {
        if self.sent == 0 {
            return Err(io::Error::from(ErrorKind::BrokenPipe));
        }
        self.sent -= 1;
        Ok(())
    }
}
