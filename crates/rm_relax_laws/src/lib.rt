//! Raised steps of an outermost node, and a doctor who withdraws: nobody else is worse off.
//! The functions have no code: each carries a theorem for the crates that compute.
#![tactic(auto)]

ghost use Rattle.rm_matching_laws.specs.Results.{OfLawfulChoices};
ghost use Rattle.rm_market_laws.specs.Results.{OfMarkets};
ghost use Rattle.rm_relax_laws.specs.Results.{CapHasMoreIn, CapHelpsIn, CapsAreRaised, ChoosingMoreHelps, RaisedHasMore, RaisedIsBoard, RaisingHelpsIn, RaisingPlacesIn, RootsHaveNoParent, StaysMarketRaised, StaysMarketWithCap, WithdrawingHelps, WithdrawingHelpsIn, WithdrawingPlacesIn};

/// Where another lawful choice takes more of each set, no doctor prefers his place in a former stable set. It compares the placements of two
/// policies.
pub fn choosing_more()
    ensures { ChoosingMoreHelps }
{}

/// Where a doctor withdraws his list, no other doctor prefers his former place: by every lawful choice, and so in every market. So whoever
/// else has a place has one.
pub fn withdrawing()
    ensures lawful { OfLawfulChoices WithdrawingHelps }
    ensures market { OfMarkets WithdrawingHelpsIn }
    ensures placed { OfMarkets WithdrawingPlacesIn }
{}

/// The outermost nodes are those without a node just outside, by which a program tells them.
pub fn outermost_nodes()
    ensures { RootsHaveNoParent }
{}

/// Where an outermost node has more steps or higher ones, it is a board again, and the best subset of each set has all that the former one has.
pub fn raised_steps()
    ensures board { RaisedIsBoard }
    ensures more { RaisedHasMore }
{}

/// So no doctor prefers his place in a former stable set, and whoever has a place there has one: what a region that is given seats may promise.
pub fn raised_steps_of_markets()
    ensures market { OfMarkets StaysMarketRaised }
    ensures helps { OfMarkets RaisingHelpsIn }
    ensures placed { OfMarkets RaisingPlacesIn }
{}

/// An outermost cap that is raised is a case of this, and the one that an office meets most.
pub fn raised_caps()
    ensures steps { CapsAreRaised }
    ensures market { OfMarkets StaysMarketWithCap }
    ensures more { OfMarkets CapHasMoreIn }
    ensures helps { OfMarkets CapHelpsIn }
{}
