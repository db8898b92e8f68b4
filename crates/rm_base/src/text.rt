// What a text may be.

ghost use Rattle.std.specs.Prelude.{◌≡◌};
ghost use Rattle.std.specs.List.{list_all};
ghost use Rattle.rm_base.specs.Text.{is_name, is_printed};

use crate::codes::MOST_NAME_BYTES;

// Whether a byte is no control character.
fn is_printed(c: u8) -> bool
    ensures { result ≡ is_printed c }
{
    0x20 <= c && c != 0x7F
}

// Whether no byte is a control character.
fn all_printed(text: &[u8]) -> bool
    ensures { result ≡ list_all is_printed text.now }
{
    text.iter().all(|c| is_printed(*c))
}

/// Whether a text may be the name of a hospital, a prefecture, a doctor or a group: 1 to 64 bytes, none of them a control
/// character.
pub fn is_name(text: &str) -> bool
    ensures { result ≡ is_name text.now }
{
    if text.len() < 1 || text.len() > MOST_NAME_BYTES {
        return false;
    }
    all_printed(text.as_bytes())
}
