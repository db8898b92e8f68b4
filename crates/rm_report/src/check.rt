// The counts of a market.

ghost use Rattle.std.specs.Prelude.{◌≡◌, ◌++◌, length, string_bytes, IfOk, OnOk};
ghost use Rattle.rm_market.specs.Board.{contract_count};
ghost use Rattle.rm_case.specs.Case.{market};
ghost use Rattle.rm_report.specs.Texts.{listed_count, tree_depth, kind_word, ties_word, line, number_line, check_text};

use rm_base::NoMemory;
use rm_case::Case;
use rm_policy::{Kind, Ties};
use std::alloc::Global;

// The word of a kind of policy.
fn kind_word(kind: Kind) -> &'static str
    ensures { result.now ≡ kind_word kind }
{
    match kind {
        Kind::Flexible => "flexible",
        Kind::Steps => "steps",
    }
}

// The word of a tie order.
fn ties_word(ties: Ties) -> &'static str
    ensures { result.now ≡ ties_word ties }
{
    match ties {
        Ties::ByRank => "by-rank",
        Ties::ByHospital => "by-hospital",
        Ties::Listed => "listed",
    }
}

// How many listed contracts there are.
fn listed_count(case: &Case) -> u64
    ensures { result ≡ listed_count case.now }
{
    let listed = case.listed();
    let mut count = 0;
    for d in 0..listed.len() {
        count += listed.list(d).len() as u64;
    }
    count
}

// How many nodes there are.
fn node_count(case: &Case) -> u32
    ensures { result ≡ length (market case.now).board.nodes }
{
    case.board().tree().nodes()
}

// The greatest number of nodes that contain one hospital.
fn depth(case: &Case) -> u32
    ensures { result ≡ tree_depth (market case.now).board }
{
    case.board().tree().depth()
}

// Adds a line of a word and a text.
fn add_line(text: &mut String, word: &str, told: &str) -> Result<(), NoMemory>
    ensures { OnOk result (string_bytes text.new ≡ string_bytes text.old ++ line word.now told.now) }
{
    write!(text, "{word} {told}\n")
}

// Adds a line of a word and a number.
fn add_count(text: &mut String, word: &str, count: u64) -> Result<(), NoMemory>
    ensures { OnOk result (string_bytes text.new ≡ string_bytes text.old ++ number_line word.now count) }
{
    write!(text, "{word} {count}\n")
}

/// The counts of the market, eight lines of a word and a value: `kind` and `ties` with the words of the policy, and `hospitals`,
/// `doctors`, `contracts`, `listed`, `nodes` and `depth` with numbers. `contracts` counts the pairs of a doctor and a hospital
/// that ranks him, `listed` those of them that the doctors list, and `depth` is the greatest number of nodes that contain one
/// hospital.
pub fn check_text(alloc: Global, case: &Case) -> Result<Vec<u8>, NoMemory>
    ensures { IfOk result (λ text. text.items ≡ check_text case.now) }
{
    let mut text = String::new(alloc);
    add_line(&mut text, "kind", kind_word(case.policy().kind()))?;
    add_line(&mut text, "ties", ties_word(case.policy().ties()))?;
    add_count(
        &mut text,
        "hospitals",
        case.roster().hospitals().len() as u64,
    )?;
    add_count(&mut text, "doctors", case.roster().doctors().len() as u64)?;
    add_count(&mut text, "contracts", case.board().contracts() as u64)?;
    add_count(&mut text, "listed", listed_count(case))?;
    add_count(&mut text, "nodes", node_count(case) as u64)?;
    add_count(&mut text, "depth", depth(case) as u64)?;
    Ok(text.into_bytes())
}
