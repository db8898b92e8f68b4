// Two placements side by side.

use crate::places::Places;

/// Two placements of one case: that of the doctors' declared lists, and that with the list of one of them replaced. Both have a
/// place for each doctor of the case, in his order.
#[derive(Drop)]
pub struct Pair {
    /// The places by the lists of the case.
    pub declared: Places,
    /// The places where one list is replaced.
    pub replaced: Places,
}
