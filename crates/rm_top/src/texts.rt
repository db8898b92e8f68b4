// The texts that are written where no command's text is.

ghost use Rattle.std.specs.Prelude.{◌≡◌, string_bytes, IfOk};
ghost use Rattle.rm_top.specs.Texts.{refusal_text, read_fault_text};

use crate::NoMemory;
use rm_base::Refusal;
use std::alloc::Global;

/// The text that names a refusal.
#[tactic(auto, unfolding(crate::specs::Texts::refusal_text))]
pub fn refusal_text(alloc: Global, refusal: &Refusal) -> Result<String, NoMemory>
    ensures { IfOk result (λ text. string_bytes text ≡ refusal_text refusal.now) }
{
    let Refusal { code, file, a, b } = *refusal;
    format!(in alloc; "refused {code} {file} {a} {b}\n")
}

/// The text that names a file on which a read failed.
#[tactic(auto, unfolding(crate::specs::Texts::read_fault_text))]
pub fn read_fault_text(alloc: Global, file: u8) -> Result<String, NoMemory>
    ensures { IfOk result (λ text. string_bytes text ≡ read_fault_text file) }
{
    format!(in alloc; "read fault {file}\n")
}
