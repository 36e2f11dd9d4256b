//! A digest of results.

use imagesize::{ImageError, ImageResult, ImageSize};

/// A digest of the results that were added so far, and their numbers.
#[derive(Drop)]
pub struct Digest {
    value: u64,
    sizes: u64,
    errors: u64,
}

impl Digest {
    /// The digest of no results.
    pub fn new() -> Digest {
        Digest {
            value: 0xCBF2_9CE4_8422_2325,
            sizes: 0,
            errors: 0,
        }
    }

    /// The digest as a number.
    pub fn value(&self) -> u64 {
        self.value
    }

    /// How many sizes were added.
    pub fn sizes(&self) -> u64 {
        self.sizes
    }

    /// How many errors were added.
    pub fn errors(&self) -> u64 {
        self.errors
    }

    /// Adds a size or an error.
    pub fn add(&mut self, answer: &ImageResult<ImageSize>) {
        match answer {
            Ok(size) => {
                self.sizes = self.sizes.saturating_add(1);
                self.add_number(size.width as u64);
                self.add_number(size.height as u64);
            }
            Err(error) => {
                self.errors = self.errors.saturating_add(1);
                self.add_number(number_of(error));
            }
        }
    }

    // Adds a number.
    fn add_number(&mut self, number: u64) {
        let mixed = (self.value ^ number).wrapping_mul(0x9E37_79B9_7F4A_7C15);
        self.value = mixed ^ (mixed >> 32);
    }
}

// A number for an error.
fn number_of(error: &ImageError) -> u64 {
    match error {
        ImageError::NotSupported => 1,
        ImageError::CorruptedImage => 2,
        ImageError::IoError(_) => 3,
    }
}
