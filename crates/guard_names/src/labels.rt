// Labels of places, of outputs and of the cells between them, in order.
ghost use Rattle.std.specs.Prelude.{◌≡◌, ℕ, ◌+◌, ◌^◌, ◌<◌, ◌≤◌, ◌++◌, Vec, length, map, All, OnOk};
ghost use Rattle.std.specs.declared.alloc.Global.{Global as Heap};
ghost use Rattle.std.specs.List.{range_with_len};
ghost use Rattle.encode_state.specs.Types.{words_in};
ghost use Rattle.named_netlist.specs.declared.label.Label.TheVariants.{Given, Inner, Rail};
ghost use Rattle.guard_names.specs.Labels.{check_labels, kind_label, state_labels};

use imp_text::NameId;
use named_netlist::Label;
use std::alloc::AllocError;

/// What a place of a word is named as.
#[derive(Clone, Copy)]
pub(crate) enum Kind {
    Store,
    Next,
    Check,
}

impl Kind {
    fn label(self, word: u32, place: u32) -> Label
        ensures { result ≡ kind_label self word place }
    {
        match self {
            Kind::Store => Label::Store { word, place },
            Kind::Next => Label::Next { word, place },
            Kind::Check => Label::Check { word, bit: place },
        }
    }
}

pub(crate) fn push_given(labels: &mut Vec<Label>, names: &[NameId]) -> Result<(), AllocError>
    ensures { OnOk result (labels.new.items ≡ labels.old.items ++ map (λ n. Given n) names.now) }
{
    for n in names {
        labels.push(Label::Given(*n))?;
    }
    Ok(())
}

// One label for each of so many places of a word.
fn push_places(
    labels: &mut Vec<Label>,
    kind: Kind,
    word: u32,
    places: u32,
) -> Result<(), AllocError>
    ensures { OnOk result (labels.new.items ≡ labels.old.items ++ map (kind_label kind word) (range_with_len 0 places)) }
{
    for place in 0..places {
        labels.push(kind.label(word, place))?;
    }
    Ok(())
}

/// One label for each place of the state words: their data places and so many check places.
pub(crate) fn push_state(
    labels: &mut Vec<Label>,
    kind: Kind,
    words: &[Vec<u32>],
    columns: u32,
) -> Result<(), AllocError>
    requires columns { columns ≤ 16 }
    requires few { length words.now < 2 ^ 32 }
    requires short { All (λ (w : Vec ℕ Heap). length w.items ≤ 12) words.now }
    ensures { OnOk result (labels.new.items ≡ labels.old.items ++ state_labels kind columns (words_in words.now)) }
{
    for (i, word) in words.iter().enumerate() {
        push_places(labels, kind, i as u32, word.len() as u32 + columns)?;
    }
    Ok(())
}

/// One label for each check bit of the output words.
pub(crate) fn push_checks(
    labels: &mut Vec<Label>,
    words: u32,
    columns: u32,
) -> Result<(), AllocError>
    ensures { OnOk result (labels.new.items ≡ labels.old.items ++ check_labels columns words) }
{
    for word in 0..words {
        push_places(labels, Kind::Check, word, columns)?;
    }
    Ok(())
}

pub(crate) fn push_rails(labels: &mut Vec<Label>, rails: u32) -> Result<(), AllocError>
    ensures { OnOk result (labels.new.items ≡ labels.old.items ++ map (λ i. Rail i) (range_with_len 0 rails)) }
{
    for i in 0..rails {
        labels.push(Label::Rail(i))?;
    }
    Ok(())
}

/// So many inner cells, from a number on.
pub(crate) fn push_inner(labels: &mut Vec<Label>, first: u32, count: u32) -> Result<(), AllocError>
    requires { first + count < 2 ^ 32 }
    ensures { OnOk result (labels.new.items ≡ labels.old.items ++ map (λ i. Inner i) (range_with_len first count)) }
{
    for i in first..first + count {
        labels.push(Label::Inner(i))?;
    }
    Ok(())
}
