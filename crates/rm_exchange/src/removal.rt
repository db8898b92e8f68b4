// Held contracts, by what is lost without them.

ghost use Rattle.std.specs.Prelude.{◌≡◌, ◌↔◌, IsTrue};
ghost use Rattle.rm_exchange.specs.Removals.{cheapest};

// A held contract that may be displaced: what is lost without it at the nodes so far, and its tie key.
#[derive(Clone, Copy)]
pub struct Removal {
    pub contract: u32,
    pub tie: u32,
    pub loss: i64,
}

// The one whose removal loses less, of equal loss the later in tie order.
pub(crate) fn cheaper(first: Option<Removal>, second: Option<Removal>) -> Option<Removal>
    ensures { result ≡ cheapest first second }
{
    let Some(a) = first else {
        return second;
    };
    let Some(b) = second else {
        return first;
    };
    if a.loss < b.loss || (a.loss == b.loss && b.tie <= a.tie) {
        first
    } else {
        second
    }
}

// Whether two removals are the same.
pub(crate) fn is_same(first: Option<Removal>, second: Option<Removal>) -> bool
    ensures { IsTrue result ↔ (first ≡ second) }
{
    let Some(a) = first else {
        return second.is_none();
    };
    let Some(b) = second else {
        return false;
    };
    a.contract == b.contract && a.tie == b.tie && a.loss == b.loss
}
