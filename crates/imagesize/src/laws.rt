//! Laws of the comparisons and hashes of the public types. The contract of each function states a law, and its body is empty.
ghost use Rattle.std.specs.Prelude.{◌≡◌, ℕ, ◌<◌, List, is_some, true};
ghost use Rattle.imagesize_types.specs.Comparisons.{IsLawfulHash, IsLawfulOrder, RankedBy};
ghost use Rattle.imagesize.specs.Ranks.{IsListed, family_rank, is_ascending};
ghost use Rattle.imagesize.specs.Parted.{HasKnown};
ghost use Rattle.imagesize.specs.Types.{types};
ghost use Rattle.imagesize_source.specs.Known.{HasParts, byte_in_parts, filled_input};
ghost use Rattle.imagesize_source.specs.Agreement.{is_covered};
ghost use Rattle.imagesize_source.specs.declared.span.Span.{Span};

use crate::types::{CompressionFamily, ImageType};
use imagesize_source::Span;
use std::hash::Hash;

fn image_type_laws()
    ensures hash { IsLawfulHash ⟦<ImageType as PartialEq>⟧.eq ⟦<ImageType as Hash>⟧.hash_input }
    ensures order { IsLawfulOrder ⟦<ImageType as Ord>⟧.cmp ⟦<ImageType as PartialOrd>⟧.partial_cmp }
    ensures listed { IsListed ⟦<ImageType as Ord>⟧.cmp }
{}

// The list of types is sorted, so no type is in it twice.
fn types_laws()
    ensures { is_ascending types ≡ true }
{}

fn compression_family_laws()
    ensures hash { IsLawfulHash
        ⟦<CompressionFamily as PartialEq>⟧.eq ⟦<CompressionFamily as Hash>⟧.hash_input }
    ensures order { IsLawfulOrder
        ⟦<CompressionFamily as Ord>⟧.cmp ⟦<CompressionFamily as PartialOrd>⟧.partial_cmp }
    ensures ranked { RankedBy family_rank ⟦<CompressionFamily as Ord>⟧.cmp }
{}

// Whatever the parts are, some input has the bytes that they know. An input that has the parts themselves has these bytes
// too.
fn parts_laws()
    ensures some { (n : ℕ) (spans : List Span) (content : List ℕ) → HasKnown (filled_input n spans content) n spans content }
    ensures parts { (d : List ℕ) (n : ℕ) (spans : List Span) (content : List ℕ) → HasParts d n spans content → HasKnown d n spans content }

    // Of such an input exactly the bytes in the spans are known.
    ensures covered { (d : List ℕ) (n : ℕ) (spans : List Span) (content : List ℕ) (offset : ℕ) → HasParts d n spans content → offset < n
        → is_some (byte_in_parts n spans content offset) ≡ is_covered spans offset }
{}

fn span_laws()
    ensures { IsLawfulHash ⟦<Span as PartialEq>⟧.eq ⟦<Span as Hash>⟧.hash_input }
{}
