// What names a net, and the bytes of its name.
ghost use Rattle.std.specs.Prelude.{◌≡◌, ◌+◌, ◌<◌, ◌≤◌, ◌++◌, length, decimal, All};
ghost use Rattle.std.specs.List.{AllByRecursion};
ghost use Rattle.netlist_spec.specs.Netlist.{IsName};
ghost use Rattle.netlist_spec.specs.Written.{given_name, label_name};
ghost use Rattle.blif_read.specs.Ids.{IsIdOf};
ghost use Rattle.named_netlist.specs.Labels.{ids_in, label_of};

use arrayvec::ArrayString;
use imp_text::{NameId, Names};
use itoa::Buffer;

/// What names a net: a name of the source, or the place at which a guard adds it.
#[derive(Clone, Copy, Debug, PartialEq, Eq)]
pub enum Label {
    Given(NameId),
    /// The latch for a place of a state word.
    Store { word: u32, place: u32 },
    /// The cell that this latch stores.
    Next { word: u32, place: u32 },
    /// A check bit of an output word.
    Check { word: u32, bit: u32 },
    Rail(u32),
    Inner(u32),
}

/// Room for the longest name that a guard adds: `guard:o`, `:c` and two numbers of ten digits.
pub type NameText = ArrayString<29>;

// The bytes of a name. The room is for one that isn't given.
pub(crate) fn name_bytes<'a>(names: &'a Names, label: Label, room: &'a mut NameText) -> &'a [u8]
    requires { All (IsIdOf names.now) (ids_in label) }
    ensures bytes { result.now ≡ label_name (label_of names.now label) }
    ensures is_name { AllByRecursion IsName (given_name (label_of names.now label)) → IsName result.now }
{
    match label {
        Label::Given(id) => names.get(id),
        Label::Store { word, place } => two_numbers(room, "guard:s", word, ":", place),
        Label::Next { word, place } => two_numbers(room, "guard:d", word, ":", place),
        Label::Check { word, bit } => two_numbers(room, "guard:o", word, ":c", bit),
        Label::Rail(i) => one_number(room, "guard:alarm", i),
        Label::Inner(i) => one_number(room, "guard:n", i),
    }
}

fn one_number<'a>(room: &'a mut NameText, front: &str, n: u32) -> &'a [u8]
    requires some { 0 < length front.now }
    requires room { length front.now + 10 ≤ 29 }
    ensures bytes { result.now ≡ front.now ++ decimal n }
    ensures is_name { IsName result.now }
{
    let mut digits = Buffer::new();
    room.clear();
    room.push_str(front);
    room.push_str(digits.format(n));
    room.as_str().as_bytes()
}

fn two_numbers<'a>(
    room: &'a mut NameText,
    front: &str,
    first: u32,
    middle: &str,
    second: u32,
) -> &'a [u8]
    requires some { 0 < length front.now }
    requires room { length front.now + length middle.now + 20 ≤ 29 }
    ensures bytes { result.now ≡ front.now ++ decimal first ++ middle.now ++ decimal second }
    ensures is_name { IsName result.now }
{
    let mut digits = Buffer::new();
    room.clear();
    room.push_str(front);
    room.push_str(digits.format(first));
    room.push_str(middle);
    room.push_str(digits.format(second));
    room.as_str().as_bytes()
}
