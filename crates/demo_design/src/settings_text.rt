// The settings of the design.
ghost use Rattle.std.specs.Prelude.{◌≡◌, IfOk};
ghost use Rattle.demo_laws.specs.DemoFiles.{demo_settings_text};

use std::alloc::{AllocError, Global};

/// The settings, as a TOML document.
pub(crate) fn settings_text(alloc: Global) -> Result<Vec<u8>, AllocError>
    ensures { IfOk result (λ text. text.items ≡ demo_settings_text) }
{
    b"mode = \"detect\"\nbound = 3\ncheck = [\"0111\", \"1011\", \"1101\", \"1110\"]\n\n[sbox.present]\ninputs = 4\noutputs = 4\nvalues = [12, 5, 6, 11, 9, 0, 10, 13, 3, 14, 15, 8, 4, 7, 1, 2]\n".to_vec(
        alloc,
    )
}
