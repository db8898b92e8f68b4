//! Journals of offers: an accepted one, whoever wrote it and in whatever order, ends in the one optimal set.
//! The functions have no code: each carries a theorem for the crates that compute.
#![tactic(auto)]

ghost use Rattle.rm_matching_laws.specs.Results.{OfLawfulChoices};
ghost use Rattle.rm_market_laws.specs.Results.{OfBestChoices};
ghost use Rattle.rm_journal_laws.specs.Results.{AcceptedEndsInPlacement, AcceptedEndsOptimal, AcceptedIsClosedRun, CheckIsOne, GoodGoesOn, HasOwnJournal, InMarket, JournalFollowsRun, OwnJournalIsOne};

pub use rm_market::Outcome;

/// One line of a journal: an offer, by the number of its contract, and what it is said to have done.
#[derive(Clone, Copy, Debug, PartialEq, Eq)]
pub struct Entry {
    pub x: u32,
    pub outcome: Outcome,
}

/// What is to be said of a journal. Entries count from 1.
#[derive(Clone, Copy, Debug, PartialEq, Eq)]
pub enum Check {
    /// Each entry is what its doctor offers next, and what it says is true; and nobody can offer any more.
    Accepted,
    /// This entry is the first that isn't good: its doctor doesn't offer this contract next.
    NotNext(u64),
    /// This entry is the first that isn't good: what it says isn't what the offer does.
    WrongAnswer(u64),
    /// All entries are good, but this doctor, the least, can still offer.
    Unclosed(u32),
}

/// An accepted journal ends in the one optimal set, in whatever order its offers stand; and the accepted journals are those of closed runs.
/// So a placement may be believed for its journal's sake, whoever wrote that.
pub fn accepted_journals()
    ensures optimal { OfLawfulChoices AcceptedEndsOptimal }
    ensures runs { OfLawfulChoices AcceptedIsClosedRun }
{}

/// The journal of a run has good entries and leads where the run does; and good entries go on to an accepted journal. So a journal may be written
/// as offers are made, and one that breaks off may be gone on with.
pub fn journals_of_runs()
    ensures follows { OfLawfulChoices JournalFollowsRun }
    ensures goes_on { OfLawfulChoices GoodGoesOn }
{}

/// One accepted journal has each entry of the least doctor who can offer: the plain program writes it. So two that write it can be compared
/// entry by entry.
pub fn own_journals()
    ensures exists { OfLawfulChoices HasOwnJournal }
    ensures only { OfLawfulChoices OwnJournalIsOne }
{}

/// Of each journal exactly one check says what is so: the plain program gives it. So a reader of journals has one right answer, and names the
/// first entry that is wrong.
pub fn one_check()
    ensures { OfLawfulChoices CheckIsOne }
{}

/// In a market, with its best subsets, an accepted journal ends in the placement, and all of this holds: the same for those who place.
pub fn journals_of_markets()
    ensures placement { OfBestChoices AcceptedEndsInPlacement }
    ensures runs { OfBestChoices (InMarket AcceptedIsClosedRun) }
    ensures exists { OfBestChoices (InMarket HasOwnJournal) }
    ensures only { OfBestChoices (InMarket OwnJournalIsOne) }
    ensures check { OfBestChoices (InMarket CheckIsOne) }
{}
