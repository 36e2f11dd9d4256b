//! The size of the image in a file.
ghost use Rattle.std.specs.Prelude.{◌≡◌, ◌≤◌, false, IfErr, IfSome};
ghost use Rattle.imagesize.specs.Meaning.{meaning};
ghost use Rattle.imagesize.specs.Short.{Ends};
ghost use Rattle.imagesize_io.specs.Answers.{Answers};
ghost use Rattle.imagesize_source.specs.Limits.{allowance};
ghost use Rattle.imagesize_source.specs.Errors.{budget_spent, is_memory};

use crate::{ImageError, ImageResult, reader_size};
use imagesize_io::file::BLOCK;
use imagesize_io::{FileReader, Stop, Told};
use imagesize_types::size::ImageSize;
use std::alloc::Global;
use std::fs;
use std::path::AsPath;
use std::rt::Files;

/// Reads the size in pixels of the image in the file at a path, block by block. It allocates nothing, and does not use the allocator.
///
/// It waits for the first bytes of a pipe or a terminal, reads them, and then fails, since it cannot seek there.
///
/// Errors: those of `reader_size`, and `Fault` if the file cannot be opened.
///
/// ```
/// use imagesize::size;
///
/// let size = size(&rt, rt.alloc(), "tiny.gif")?;
/// assert_eq!((size.width, size.height), (100, 100));
/// ```
pub fn size<F: Files, P: AsPath + Drop>(rt: &F, _alloc: Global, path: P) -> ImageResult<ImageSize>
    ensures memory { IfErr result (λ e. is_memory e ≡ false) }

    // A spent budget is the reported length plus 64.
    ensures spent { IfErr result (λ e. IfSome (budget_spent e) (λ budget. allowance ≤ budget)) }
{
    let mut memory = [0; BLOCK];
    let mut reader = FileReader::new(fs::open(rt, path)?, None, &mut memory);
    // The first block is read before the end is sought: a seek costs less than the file's metadata, and most sizes need no seek back.
    // If the read is interrupted, `reader_size` reads again.
    if let Err(Stop::Fault(error)) = reader.read_told(&mut [0; 0]) {
        return Err(ImageError::from(error));
    }
    size_over(reader)
}

// The size of the image in a reader's bytes. It is generic, so that its clauses speak of readers with a model. A file has none.
fn size_over<R: Told>(reader: R) -> ImageResult<ImageSize>
    ensures answers { Answers (R.telling reader) meaning result }
    ensures short { Ends (R.telling reader) result }
    ensures memory { IfErr result (λ e. is_memory e ≡ false) }
    ensures spent { IfErr result (λ e. IfSome (budget_spent e) (λ budget. allowance ≤ budget)) }
{
    reader_size(reader)
}
