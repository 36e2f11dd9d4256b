//! The size of an image.
ghost use Rattle.std.specs.Prelude.{◌≡◌, ◌<◌};
ghost use Rattle.std.proofs.Common.{rules};
ghost use Rattle.std.specs.Cmp.{partial_order_from_own_ties};
ghost use Rattle.std.specs.Cmp.Rules.{comparing};
ghost use Rattle.imagesize_types.specs.Order.{area_of};
ghost use Rattle.imagesize_types.specs.Sides.{size_if_known};

use std::cmp::Ordering;

/// The size of an image, in pixels.
///
/// Sizes are ordered by area, then by width, then by height.
#[derive(Clone, Copy, Debug, PartialEq, Eq, Hash)]
pub struct ImageSize {
    /// The width in pixels.
    pub width: usize,
    /// The height in pixels.
    pub height: usize,
}

/// The size with these sides, or `None` if one of them is missing.
#[inline(always)]
pub fn size_if_known(width: Option<usize>, height: Option<usize>) -> Option<ImageSize>
    ensures { result ≡ size_if_known width height }
{
    match (width, height) {
        (Some(width), Some(height)) => Some(ImageSize { width, height }),
        _ => None,
    }
}

/// The number of pixels, which may need more than 64 bits.
#[inline(always)]
pub fn area(size: &ImageSize) -> u128
    ensures { result ≡ area_of size.now }
{
    size.width as u128 * size.height as u128
}

impl Ord for ImageSize {
    ghost use Rattle.std.specs.Ordering.{MatchOrdering};
    ghost use Rattle.imagesize_types.specs.Order.{IsBelow, size_cmp};

    ghost cmp = { size_cmp };

    ghost total = { Prim.search (comparing, rules) };

    ghost matches_partial_cmp = { Prim.search (comparing, rules) };

    ghost matches_eq = { Prim.search (comparing, rules) };

    fn cmp(&self, other: &ImageSize) -> Ordering
        ensures value { result ≡ size_cmp self.now other.now }

        // `Less` and `Greater` say which size is smaller, and `Equal` says that both are the same.
        ensures order { MatchOrdering result
            (IsBelow self.now other.now) (self.now ≡ other.now) (IsBelow other.now self.now) }
        ensures greater_area { area_of other.now < area_of self.now → result ≡ Ordering.Greater }
    {
        area(self)
            .cmp(&area(other))
            .then(self.width.cmp(&other.width))
            .then(self.height.cmp(&other.height))
    }
}

impl PartialOrd for ImageSize {
    ghost use Rattle.std.specs.Ordering.{as_partial_cmp};
    ghost use Rattle.imagesize_types.specs.Order.{size_cmp};

    ghost partial_cmp = { as_partial_cmp size_cmp };

    ghost laws = { partial_order_from_own_ties (Prim.search (comparing, rules)) (Prim.search (comparing, rules)) };

    fn partial_cmp(&self, other: &ImageSize) -> Option<Ordering> {
        Some(self.cmp(other))
    }
}
