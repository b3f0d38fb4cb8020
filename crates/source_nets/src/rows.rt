// Lists of name numbers, kept in one vector.
ghost use Rattle.std.specs.Prelude.{◌≡◌, ◌<◌, ◌∷◌, ◌++◌, [], Some, length, slice_get, OnOk};

use imp_text::NameId;
use std::alloc::{AllocError, Global};
use std::marker::Model;

// The numbers from `start` up to `end`.
#[derive(Clone, Copy, Debug)]
pub(crate) struct Span {
    start: usize,
    end: usize,
}

/// Lists of name numbers, one for each statement of a model.
#[derive(Drop)]
pub struct NetRows {
    ids: Vec<NameId>,
    spans: Vec<Span>,
}

impl Model for NetRows {
    ghost use Rattle.std.specs.Prelude.{List};
    ghost use Rattle.imp_text.specs.declared.names.NameId.{NameId};

    ghost Value = { List (List NameId) };

    ghost use Rattle.source_nets.specs.Rows.{rows_in, AreSpans};

    ghost view = { λ rows. rows_in rows.ids.items rows.spans.items };

    ghost invariant = { λ rows. AreSpans rows.ids.items rows.spans.items };
}

impl NetRows {
    /// No lists.
    pub(crate) fn new(alloc: Global) -> NetRows
        ensures { result ≡ [] }
    {
        NetRows {
            ids: Vec::new(alloc),
            spans: Vec::new(alloc),
        }
    }

    /// How many lists there are.
    pub fn len(&self) -> usize
        ensures { result ≡ length self.now }
    {
        self.spans.len()
    }

    /// The list at a place.
    pub fn row(&self, i: usize) -> &[NameId]
        requires { i < length self.now }
        ensures { slice_get self.now i ≡ Some result.now }
    {
        let span = self.spans[i];
        &self.ids[span.start..span.end]
    }

    /// Appends a list.
    pub(crate) fn push(&mut self, row: &[NameId]) -> Result<(), AllocError>
        ensures { OnOk result (self.new ≡ self.old ++ row.now ∷ []) }
    {
        let start = self.ids.len();
        self.ids.extend_from_slice(row)?;
        let end = self.ids.len();
        self.spans.push(Span { start, end })?;
        Ok(())
    }
}
