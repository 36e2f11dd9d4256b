//! Spans that only proofs read.
ghost use Rattle.std.specs.Prelude.{◌≡◌, List, [], ◌∷◌, ◌++◌};
ghost use Rattle.std.specs.Borrow.{ftrue};
ghost use Rattle.imagesize_source.specs.Input.{span_at};
ghost use Rattle.imagesize_source.specs.declared.span.Span.{Span};

use crate::Span;
use std::marker::Model;

/// The recorded spans, in order. They exist in proofs only: compiled code neither stores nor reads them.
#[derive(Drop)]
pub struct SpanLog {
    pub ghost spans: { List Span },
}

impl Model for SpanLog {
    ghost also_owns = { λ _. ftrue };
}

impl SpanLog {
    /// No spans.
    pub fn new() -> SpanLog
        ensures { result.spans ≡ [] }
    {
        SpanLog {}
    }

    /// These spans, and one more after them.
    pub fn with(_before: &SpanLog, _span: &Span) -> SpanLog
        ensures { result.spans ≡ _before.now.spans ++ _span.now ∷ [] }
    {
        SpanLog {}
    }

    /// Records `count` bytes from an offset on. Without bytes it records no span.
    #[inline(always)]
    #[tactic(auto, unfolding(crate::specs::Input::span_at))]
    pub fn see(&mut self, start: u64, count: usize)
        ensures { self.new.spans ≡ self.old.spans ++ span_at start count }
    {
        if count > 0 {
            let len = count as u64;
            *self = SpanLog::with(self, &Span { start, len });
        }
    }
}
