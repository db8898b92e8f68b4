// What is asked of a case: another cap for a group.

ghost use Rattle.std.specs.Prelude.{◌≡◌, ◌≤◌, ◌<◌, length};
ghost use Rattle.rm_relax.specs.Asked.{Asks, is_outermost_cap, present_cap};

use rm_base::Refusal;
use rm_base::codes::{CAP_BELOW, NO_OUTERMOST_CAP, UNKNOWN_GROUP};
use rm_case::Case;

/// The number that a refusal has in place of a file's where it speaks of a word.
pub const WORDS: u8 = 0;

/// The number of the word that names a group, counted from 1.
pub const GROUP_WORD: u64 = 3;

/// A group of a case, counted from 0, and the cap that it is to have.
#[derive(Clone, Copy, Debug, PartialEq, Eq)]
pub struct Asked {
    pub group: u32,
    pub cap: u32,
}

// Whether group g is given by `cap`, with no node outside it.
fn is_outermost_cap(case: &Case, g: u32) -> bool
    requires { g < length case.now.policy.groups.members }
    ensures { result ≡ is_outermost_cap case.now g }
{
    let node = case.roster().hospitals().len() + g;
    case.policy().by_cap(g) && case.board().tree().parent(node).is_none()
}

/// The group of this name and this cap, or the first refusal: no group entry and no prefecture entry has the name, or the group isn't
/// given by `cap` or lies in another one, or the cap is below its own. A group is told by its item, counted from 1.
pub fn ask(case: &Case, name: &str, cap: u32) -> Result<Asked, Refusal>
    requires { cap ≤ 1_000_000 }
    ensures { Asks case.now name.now cap result }
{
    let Some(group) = case.policy().find_group(name) else {
        return Err(Refusal::new(UNKNOWN_GROUP, WORDS, GROUP_WORD, 0));
    };
    let item = case.policy().item(group);
    if !is_outermost_cap(case, group) {
        return Err(Refusal::new(NO_OUTERMOST_CAP, WORDS, item, 0));
    }
    let present = case.policy().group_steps(group).cap();
    if cap < present {
        return Err(Refusal::new(CAP_BELOW, WORDS, item, present as u64));
    }
    Ok(Asked { group, cap })
}
