//! What stable means in a folder without a policy.

ghost use Rattle.rm_top.specs.WithoutPolicy.{NoFileIsPlain, StableWithoutPolicy};

/// Without a policy a placement of a folder's market, in which each doctor has at most one place, at a hospital that he lists and that ranks him, is
/// stable exactly where no hospital holds more doctors than its capacity and no doctor would rather be at a hospital that ranks him and has a
/// free seat or holds a doctor whom it ranks below him. The function has no code: it carries the theorem.
pub fn stable_without_policy()
    ensures none { NoFileIsPlain }
    ensures stable { StableWithoutPolicy }
{}
