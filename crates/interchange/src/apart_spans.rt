//! Spans of which no two overlap.
ghost use Rattle.std.specs.Prelude.{◌≡◌, [], IfOk, true, not};
ghost use Rattle.std.specs.List.{list_any};
ghost use Rattle.values.specs.Memory.{OnlyMemory};
ghost use Rattle.values.specs.Period.{is_span, overlap};
ghost use Rattle.interchange.specs.ApartSpans.{AreInTurn, HasOneMore, spans_in};

use std::alloc::Global;
use std::collections::BTreeMap;
use values::{Mem, Span};

/// Spans of which no two overlap: the end of each, by its start.
#[derive(Drop)]
pub(crate) struct ApartSpans {
    ends: BTreeMap<i64, i64>,
}

impl ApartSpans {
    /// Makes no spans.
    pub(crate) fn new(alloc: Global) -> ApartSpans
        ensures { spans_in result ≡ [] }
    {
        ApartSpans {
            ends: BTreeMap::new(alloc),
        }
    }

    /// Adds a span unless it overlaps one of the others, and tells whether it does not.
    pub(crate) fn add(&mut self, span: Span) -> Mem<bool>
        ensures apart { IfOk result (λ is_apart. AreInTurn (spans_in self.old)
            → is_apart ≡ not (list_any (overlap span) (spans_in self.old))) }
        ensures added { IfOk result (λ is_apart. is_apart ≡ true → is_span span ≡ true
            → AreInTurn (spans_in self.old)
            → HasOneMore (spans_in self.old) span (spans_in self.new)) }
        ensures err { OnlyMemory result }
    {
        if self.overlaps(span) {
            return Ok(false);
        }
        self.ends.insert(span.from, span.to)?;
        Ok(true)
    }

    /// Tells whether one of the spans overlaps another.
    fn overlaps(&self, span: Span) -> bool
        ensures { AreInTurn (spans_in self.now)
            → result ≡ list_any (overlap span) (spans_in self.now) }
    {
        // Of the spans that start before the other ends, the last one ends last.
        match self.ends.range(..span.to).next_back() {
            Some((_start, end)) => span.from < *end,
            None => false,
        }
    }
}
