// Names of the nets of the design, and where its bits move.
ghost use Rattle.std.specs.Prelude.{◌≡◌, ◌*◌, ◌<◌, ◌++◌, OnOk};
ghost use Rattle.program_spec.specs.Demo.{moved_to as place_of, numbered};
ghost use Rattle.demo_laws.specs.DemoLaws.{IsDemoSize};

use itoa::Buffer;
use std::alloc::AllocError;

/// The place to which bit i moves.
pub(crate) fn moved_to(n: u32, i: u32) -> u32
    requires size { IsDemoSize n }
    requires bit { i < 4 * n }
    ensures { result ≡ place_of n i }
{
    let last = 4 * n - 1;
    if i < last { n * i % last } else { i }
}

/// Appends a name: a letter and a number.
pub(crate) fn push_name(text: &mut Vec<u8>, letter: u8, i: u32) -> Result<(), AllocError>
    ensures { OnOk result (text.new.items ≡ text.old.items ++ numbered letter i) }
{
    let mut buffer = Buffer::new();
    text.push(letter)?;
    text.extend_from_slice(buffer.format(i).as_bytes())
}
