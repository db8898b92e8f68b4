//! The market without a policy: what stable means there, in the words of hospitals, capacities and rank lists.
//! The function has no code: it carries a theorem.
#![tactic(auto)]

ghost use Rattle.rm_plain_laws.specs.Stability.{PlainStability};

/// In a market without a policy a placement is stable exactly where no hospital holds more doctors than its capacity and no doctor prefers to
/// his place a hospital that ranks him and has a free seat or holds a doctor whom it ranks below him (after Gale and Shapley 1962).
pub fn stable_without_policy()
    ensures { PlainStability }
{}
