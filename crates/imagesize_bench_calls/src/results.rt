//! What becomes of the results of calls.

use imagesize::{ImageError, ImageResult, ImageSize, ImageType, Span, TypeName};
use std::io;

/// Takes in the results of calls.
pub trait Results {
    /// Adds a type, if there is one.
    fn add_type(&mut self, image: Option<ImageType>);

    /// Adds a size or an error.
    fn add_size(&mut self, size: ImageResult<ImageSize>);

    /// Adds the size of an image that has too many pixels.
    fn add_too_large(&mut self, size: ImageSize);

    /// Adds how many bytes were read.
    fn add_read(&mut self, count: u64);

    /// Adds a requested span.
    fn add_span(&mut self, span: Span);

    /// Adds how many spans there are, and the first of them.
    fn add_spans(&mut self, count: u64, spans: &[Span]);
}

/// Adds a type, or the error if there is none.
#[inline]
pub fn add_found_type<R: Results>(found: ImageResult<ImageType>, results: &mut R) {
    match found {
        Ok(image) => results.add_type(Some(image)),
        Err(error) => results.add_size(Err(error)),
    }
}

/// A number that depends on each number that was added. It takes few instructions, so that these are a small part of a call.
#[derive(Drop)]
pub struct Checksum {
    value: u64,
}

impl Checksum {
    /// The checksum of no numbers.
    pub fn new() -> Checksum {
        Checksum {
            value: 0xCBF2_9CE4_8422_2325,
        }
    }

    /// The checksum as a number.
    pub fn value(&self) -> u64 {
        self.value
    }

    // Adds a number.
    #[inline]
    fn add(&mut self, number: u64) {
        self.value = (self.value ^ number).wrapping_mul(0x9E37_79B9_7F4A_7C15);
    }
}

impl Results for Checksum {
    #[inline]
    fn add_type(&mut self, image: Option<ImageType>) {
        self.add(match image {
            Some(image) if image.is_block_compressed() => 2,
            Some(_) => 1,
            None => 0,
        });
    }

    #[inline]
    fn add_size(&mut self, size: ImageResult<ImageSize>) {
        match size {
            Ok(size) => {
                self.add(size.width as u64);
                self.add(size.height as u64);
            }
            Err(ImageError::NotSupported) => self.add(1),
            Err(ImageError::CorruptedImage) => self.add(2),
            Err(ImageError::IoError(_)) => self.add(3),
        }
    }

    #[inline]
    fn add_too_large(&mut self, size: ImageSize) {
        self.add(size.width as u64);
        self.add(size.height as u64);
    }

    #[inline]
    fn add_read(&mut self, count: u64) {
        self.add(count);
    }

    #[inline]
    fn add_span(&mut self, span: Span) {
        self.add(span.start);
        self.add(span.len);
    }

    #[inline]
    fn add_spans(&mut self, count: u64, spans: &[Span]) {
        self.add(count);
        if let Some(&span) = spans.last() {
            self.add_span(span);
        }
    }
}

/// The result of one call, to be printed.
#[derive(Drop)]
pub struct Report {
    image: Option<ImageType>,
    size: Option<ImageResult<ImageSize>>,
    too_large: bool,
    read: Option<u64>,
    count: u64,
    spans: Checksum,
}

impl Report {
    /// The report of no call.
    pub fn new() -> Report {
        Report {
            image: None,
            size: None,
            too_large: false,
            read: None,
            count: 0,
            spans: Checksum::new(),
        }
    }

    /// Prints a line: the name of the call, its result, and the checksum of the calls before it.
    pub fn print(&self, rt: &impl Print, name: &str, checksum: u64) -> io::Result<()> {
        print!(rt; "{name}:")?;
        if let Some(image) = self.image {
            let shown = TypeName(image);
            print!(rt; " {shown}")?;
        }
        match &self.size {
            Some(Ok(ImageSize { width, height })) => print!(rt; " {width}x{height}")?,
            Some(Err(error)) => print!(rt; " error: {error}")?,
            None => {}
        }
        if self.too_large {
            print!(rt; " is too large")?;
        }
        if let Some(read) = self.read {
            print!(rt; " {read} bytes read")?;
        }
        if self.count > 0 {
            let (count, spans) = (self.count, self.spans.value());
            print!(rt; " {count} spans {spans:016x}")?;
        }
        println!(rt; "; {checksum:016x}")
    }
}

impl Results for Report {
    fn add_type(&mut self, image: Option<ImageType>) {
        self.image = image;
    }

    fn add_size(&mut self, size: ImageResult<ImageSize>) {
        self.size = Some(size);
    }

    fn add_too_large(&mut self, size: ImageSize) {
        self.size = Some(Ok(size));
        self.too_large = true;
    }

    fn add_read(&mut self, count: u64) {
        self.read = Some(count);
    }

    fn add_span(&mut self, span: Span) {
        self.count = self.count.saturating_add(1);
        self.spans.add_span(span);
    }

    fn add_spans(&mut self, count: u64, spans: &[Span]) {
        self.count = count;
        for &span in spans {
            self.spans.add_span(span);
        }
    }
}
