//! Laws of the comparisons and hashes of the public types. The contract of each function states a law, and its body is empty.
ghost use Rattle.imagesize_types.specs.Comparisons.{IsLawfulHash, IsLawfulOrder, RankedBy};
ghost use Rattle.imagesize_types.specs.Ranks.{atc_rank, dds_rank, heif_rank, pkm_rank, pvrtc_rank};

use crate::compression::{
    AtcCompression, Compression, DdsCompression, PkmCompression, PvrtcCompression,
};
use crate::size::ImageSize;
use std::hash::Hash;

fn atc_compression_laws()
    ensures hash { IsLawfulHash
        ⟦<AtcCompression as PartialEq>⟧.eq ⟦<AtcCompression as Hash>⟧.hash_input }
    ensures order { IsLawfulOrder
        ⟦<AtcCompression as Ord>⟧.cmp ⟦<AtcCompression as PartialOrd>⟧.partial_cmp }
    ensures ranked { RankedBy atc_rank ⟦<AtcCompression as Ord>⟧.cmp }
{}

fn dds_compression_laws()
    ensures hash { IsLawfulHash
        ⟦<DdsCompression as PartialEq>⟧.eq ⟦<DdsCompression as Hash>⟧.hash_input }
    ensures order { IsLawfulOrder
        ⟦<DdsCompression as Ord>⟧.cmp ⟦<DdsCompression as PartialOrd>⟧.partial_cmp }
    ensures ranked { RankedBy dds_rank ⟦<DdsCompression as Ord>⟧.cmp }
{}

fn compression_laws()
    ensures hash { IsLawfulHash ⟦<Compression as PartialEq>⟧.eq ⟦<Compression as Hash>⟧.hash_input }
    ensures order { IsLawfulOrder
        ⟦<Compression as Ord>⟧.cmp ⟦<Compression as PartialOrd>⟧.partial_cmp }
    ensures ranked { RankedBy heif_rank ⟦<Compression as Ord>⟧.cmp }
{}

fn pkm_compression_laws()
    ensures hash { IsLawfulHash
        ⟦<PkmCompression as PartialEq>⟧.eq ⟦<PkmCompression as Hash>⟧.hash_input }
    ensures order { IsLawfulOrder
        ⟦<PkmCompression as Ord>⟧.cmp ⟦<PkmCompression as PartialOrd>⟧.partial_cmp }
    ensures ranked { RankedBy pkm_rank ⟦<PkmCompression as Ord>⟧.cmp }
{}

fn pvrtc_compression_laws()
    ensures hash { IsLawfulHash
        ⟦<PvrtcCompression as PartialEq>⟧.eq ⟦<PvrtcCompression as Hash>⟧.hash_input }
    ensures order { IsLawfulOrder
        ⟦<PvrtcCompression as Ord>⟧.cmp ⟦<PvrtcCompression as PartialOrd>⟧.partial_cmp }
    ensures ranked { RankedBy pvrtc_rank ⟦<PvrtcCompression as Ord>⟧.cmp }
{}

fn image_size_laws()
    ensures hash { IsLawfulHash ⟦<ImageSize as PartialEq>⟧.eq ⟦<ImageSize as Hash>⟧.hash_input }
    ensures order { IsLawfulOrder ⟦<ImageSize as Ord>⟧.cmp ⟦<ImageSize as PartialOrd>⟧.partial_cmp }
{}
