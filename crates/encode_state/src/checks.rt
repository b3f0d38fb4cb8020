// Whether each net stands in one word.
ghost use Rattle.std.specs.Prelude.{◌≡◌, ◌<◌, ℕ, List, [], Vec, None, length, map, All, IfErr, IfOk, IfSome, IsTrue, OnOk};
ghost use Rattle.std.specs.declared.alloc.Global.{Global as Heap};
ghost use Rattle.netlist_spec.specs.Netlist.{Name as Bytes, are_distinct};
ghost use Rattle.guard_spec.specs.Words.{all_numbers, as_fault, in_two_words, name_again, not_in_a_word};
ghost use Rattle.blif_read.specs.Ids.{IsIdOf};
ghost use Rattle.blif_read.specs.View.{name_at};
ghost use Rattle.encode_state.specs.Faults.{IsFault, fault_of};
ghost use Rattle.encode_state.specs.Listed.{IsMarked, first_left_out, marks_of, nets_at};
ghost use Rattle.encode_state.specs.Types.{words_in};

use crate::LayoutFault;
use imp_text::{Name, NameId, Names};
use std::alloc::{AllocError, Global};

// Marks the nets of a word, or answers the first one that is marked already.
fn mark_word(marks: &mut [bool], word: &[u32]) -> Option<u32>
    requires { All (λ i. i < length marks.old) word.now }
    ensures size { length marks.new ≡ length marks.old }
    ensures within { IfSome result (λ i. i < length marks.old) }
    ensures marked { (nets listed : List Bytes) → IsTrue (are_distinct nets) → marks.old ≡ marks_of nets listed
        → IsMarked nets listed word.now marks.new result }
{
    for i in word {
        if marks[*i as usize] {
            return Some(*i);
        }
        marks[*i as usize] = true;
    }
    None
}

// The name of a net.
fn name_of(alloc: Global, names: &Names, net: NameId) -> Result<Name, AllocError>
    requires { IsIdOf names.now net }
    ensures { IfOk result (λ name. name ≡ name_at names.now net) }
{
    // Each of the names has 1 to 255 bytes.
    prove!(net.0 < names.len());
    Name::new(alloc, names.get(net))
}

/// Marks of the nets that stand in some word. It is a fault where one stands twice.
pub(crate) fn mark_words(
    alloc: Global,
    names: &Names,
    nets: &[NameId],
    words: &[Vec<u32>],
) -> Result<Vec<bool>, LayoutFault>
    requires ids { All (IsIdOf names.now) nets.now }
    requires distinct { IsTrue (are_distinct (map (name_at names.now) nets.now)) }
    requires within { All (λ (w : Vec ℕ Heap). All (λ i. i < length nets.now) w.items) words.now }
    ensures once { OnOk result (name_again [] (nets_at (map (name_at names.now) nets.now) (all_numbers (words_in words.now))) ≡ None) }
    ensures marks { IfOk result (λ marks. marks.items
        ≡ marks_of (map (name_at names.now) nets.now) (nets_at (map (name_at names.now) nets.now) (all_numbers (words_in words.now)))) }
    ensures fault { IfErr result (λ fault. IsFault (as_fault (λ n. in_two_words n)
        (name_again [] (nets_at (map (name_at names.now) nets.now) (all_numbers (words_in words.now))))) (fault_of fault)) }
{
    let mut marks = vec![in alloc; false; nets.len()]?;
    for word in words {
        if let Some(i) = mark_word(&mut marks, word) {
            let name = name_of(alloc, names, nets[i as usize])?;
            return Err(LayoutFault::InTwoWords(name));
        }
    }
    Ok(marks)
}

/// Tests that all nets are marked.
pub(crate) fn check_all_marked(
    alloc: Global,
    names: &Names,
    nets: &[NameId],
    marks: &[bool],
) -> Result<(), LayoutFault>
    requires ids { All (IsIdOf names.now) nets.now }
    requires size { length marks.now ≡ length nets.now }
    ensures ok { OnOk result ((listed : List Bytes) → marks.now ≡ marks_of (map (name_at names.now) nets.now) listed
        → first_left_out (map (name_at names.now) nets.now) listed ≡ None) }
    ensures fault { IfErr result (λ fault. (listed : List Bytes) → marks.now ≡ marks_of (map (name_at names.now) nets.now) listed
        → IsFault (as_fault (λ n. not_in_a_word n) (first_left_out (map (name_at names.now) nets.now) listed)) (fault_of fault)) }
{
    for (i, net) in nets.iter().enumerate() {
        if !marks[i] {
            let name = name_of(alloc, names, *net)?;
            return Err(LayoutFault::NotInAWord(name));
        }
    }
    Ok(())
}
