//! Order, copies and hashes of the types, of their compressions and of sizes.

use imagesize::{CompressionFamily, ImageSize, ImageType, Span};
use std::alloc::AllocError;
use std::cmp::Ordering;
use std::fmt::Debug;
use std::hash::{DefaultHasher, Hash, Hasher};
use std::process::Abort;
use std::test::Fail;

// The compressions of all types of this variant, in their order.
macro_rules! compressions {
    ($alloc:expr, $variant:ident) => {
        ImageType::all()
            .iter()
            .filter_map(|image| match image {
                ImageType::$variant(compression) => Some(*compression),
                _ => None,
            })
            .collect($alloc)
    };
}

fn hash_of<T: Hash>(value: &T) -> u64 {
    let mut state = DefaultHasher::new();
    value.hash(&mut state);
    state.finish()
}

// Two values of a list are ordered as their positions in it are, and equal if these are.
fn check_pair<T: Ord + Hash + Debug>(rt: &impl Abort, one: &T, other: &T, order: Ordering) {
    assert_eq!(rt; one.cmp(other), order, "{one:?} and {other:?}");
    assert_eq!(rt;
        one.partial_cmp(other),
        Some(order),
        "{one:?} and {other:?}"
    );
    let is_same = order == Ordering::Equal;
    assert_eq!(rt; one == other, is_same, "{one:?} and {other:?}");
    assert_eq!(rt;
        hash_of(one) == hash_of(other),
        is_same,
        "{one:?} and {other:?}"
    );
}

// The values of a list are in order, and a copy of each is the same.
fn check_list<T: Ord + Hash + Debug + Clone + Drop>(
    rt: &impl Abort,
    all: &[T],
) -> Result<(), Fail> {
    for (rank, one) in all.iter().enumerate() {
        let copy = one.clone()?;
        assert!(rt; copy == *one, "{one:?}");
        for (other_rank, other) in all.iter().enumerate() {
            check_pair(rt, one, other, rank.cmp(&other_rank));
        }
    }
    Ok(())
}

#[test]
fn types_are_ordered_as_they_are_listed(rt: HostRuntime) -> Result<(), Fail> {
    check_list(&rt, ImageType::all())
}

// No position is left out of the list.
#[test]
fn positions_are_counted_from_0(rt: HostRuntime) -> Result<(), Fail> {
    let mut positions: Vec<u32> = ImageType::all()
        .iter()
        .map(|image| image.position())
        .collect(rt.alloc())?;
    positions.dedup();
    for (position, found) in positions.iter().enumerate() {
        assert_eq!(rt; *found as usize, position);
    }
    Ok(())
}

// What was collected is in order, and has this length.
fn check_collected<T: Ord + Hash + Debug + Clone + Drop>(
    rt: &impl Abort,
    all: Result<Vec<T>, AllocError>,
    count: usize,
) -> Result<(), Fail> {
    let all = all?;
    assert_eq!(rt; all.len(), count);
    check_list(rt, all.as_slice())
}

#[test]
fn kinds_are_ordered_as_they_are_listed(rt: HostRuntime) -> Result<(), Fail> {
    check_collected(&rt, compressions!(rt.alloc(), Atc), 4)?;
    check_collected(&rt, compressions!(rt.alloc(), Dds), 10)?;
    check_collected(&rt, compressions!(rt.alloc(), Heif), 4)?;
    check_collected(&rt, compressions!(rt.alloc(), Etc2), 9)?;
    check_collected(&rt, compressions!(rt.alloc(), Pvrtc), 10)
}

// The families of all types, each once.
#[test]
fn families_are_ordered(rt: HostRuntime) -> Result<(), Fail> {
    let mut families: Vec<CompressionFamily> = ImageType::all()
        .iter()
        .filter_map(|image| image.compression_family())
        .collect(rt.alloc())?;
    families.sort()?;
    families.dedup();
    assert_eq!(rt; families.len(), 7);
    check_list(&rt, families.as_slice())
}

// Sizes from the smallest to the greatest: by the exact area, the width, and the height.
static SIZES: [(usize, usize); 9] = [
    (0, 0),
    (0, 5),
    (0, 7),
    (5, 0),
    (1, 1),
    (2, 8),
    (4, 4),
    (4, 5),
    // Sixty-four bits do not hold the area of this one.
    (4294967296, 4294967296),
];

#[test]
fn sizes_are_ordered_by_their_exact_area(rt: HostRuntime) -> Result<(), Fail> {
    let mut all = Vec::new(rt.alloc());
    for (width, height) in SIZES {
        all.push(ImageSize { width, height })?;
    }
    check_list(&rt, all.as_slice())
}

#[test]
fn a_size_has_a_width_and_a_height(rt: HostRuntime) -> Result<(), Fail> {
    let size = ImageSize {
        width: 64,
        height: 48,
    };
    let same = size.clone()?;
    assert_eq!(rt; (same.width, same.height), (64, 48));
    for (width, height) in [(64, 49), (65, 48), (48, 64)] {
        let other = ImageSize { width, height };
        assert!(rt; other != size);
        assert!(rt; hash_of(&other) != hash_of(&size));
    }
    Ok(())
}

#[test]
fn a_span_has_a_start_and_a_length(rt: HostRuntime) {
    let span = Span { start: 3, len: 4 };
    assert_eq!(rt; hash_of(&span), hash_of(&Span { start: 3, len: 4 }));
    for (start, len) in [(3, 5), (2, 4), (4, 3)] {
        let other = Span { start, len };
        assert!(rt; other != span);
        assert!(rt; hash_of(&other) != hash_of(&span));
    }
}
