// Whole calls over files in memory: what a command comes to, which fault ends a call, and how many fetches and puts are made.

use super::*;
use rm_outside::FetchFault;
use rm_outside::memory::{MemoryShelf, MemorySink};
use rm_outside::torn::TornSink;
use std::test::Fail;

// A call on the files of a folder F and on a file O of the command's own, and what is wanted of it.
#[derive(Clone, Copy)]
struct Row<'a> {
    name: &'static str,
    words: &'a [&'static str],
    hospitals: &'a [u8],
    doctors: &'a [u8],
    ranks: Option<&'a [u8]>,
    policy: Option<&'a [u8]>,
    own: Option<&'a [u8]>,
    // The numbers of the fetches, of the puts to `out` and of the puts to `err` that fail, counted from 1. The last number of
    // each list is that of the first one that isn't made.
    fetches: &'a [u32],
    puts: &'a [u32],
    reports: &'a [u32],
    status: u8,
    out: &'a [u8],
    err: &'a [u8],
}

const PLACED: Row<'static> = Row {
    name: "a choice that doesn't rank him back is passed over",
    words: &["place", "F"],
    hospitals: b"hospital,prefecture,capacity,target\nH1,P,1,0\nH2,P,1,0\n",
    doctors: b"doctor,choices\nA,H1,H2\n",
    ranks: Some(b"hospital,doctors\nH2,A\n"),
    policy: None,
    own: None,
    fetches: &[5],
    puts: &[2],
    reports: &[1],
    status: 0,
    out: b"doctor,hospital\nA,H2\n",
    err: b"",
};

const FLEXIBLE: Row<'static> = Row {
    name: "a prefecture's one seat goes to the hospital that its order has first",
    doctors: b"doctor,choices\nA,H2,H1\nB,H1\n",
    ranks: Some(b"hospital,doctors\nH1,A,B\nH2,A\n"),
    policy: Some(
        b"version = 1\nkind = \"flexible\"\n[[prefecture]]\nname = \"P\"\ncap = 1\norder = [\"H1\", \"H2\"]\n",
    ),
    out: b"doctor,hospital\nA,H1\nB,\n",
    ..PLACED
};

const STEPS: Row<'static> = Row {
    name: "a seat that would lower the worth stays empty",
    hospitals: b"hospital,prefecture,capacity,target\nH1,P,2,0\n",
    doctors: b"doctor,choices\nA,H1\nB,H1\n",
    ranks: Some(b"hospital,doctors\nH1,B,A\n"),
    policy: Some(
        b"version = 1\nkind = \"steps\"\n[[hospital]]\nname = \"H1\"\nsteps = [[0, 1], [-1, 1]]\n",
    ),
    out: b"doctor,hospital\nA,\nB,H1\n",
    ..PLACED
};

const CHOSEN: Row<'static> = Row {
    name: "what each offer changes",
    words: &["choose", "F", "O"],
    own: Some(b"doctor,hospital\nA,H1\nB,H1\n"),
    fetches: &[6],
    out: b"doctor,hospital,answer,change,full,swap_doctor,swap_hospital,swap_change\nA,H1,refused,-1,,B,H1,0\nB,H1,kept,0,,,,\n",
    ..STEPS
};

const FULL: Row<'static> = Row {
    name: "a full node of each kind",
    hospitals: b"hospital,prefecture,capacity,target\nH1,P,1,0\nH2,Q,2,0\nH3,R,2,0\n",
    doctors: b"doctor,choices\nA,H1\nB,H1\n",
    ranks: Some(b"hospital,doctors\nH1,A,B\nH2,A,B\nH3,A,B\n"),
    policy: Some(
        b"version = 1\nkind = \"steps\"\n[[prefecture]]\nname = \"Q\"\ncap = 1\n[[group]]\nname = \"G\"\nhospitals = [\"H3\"]\ncap = 1\n",
    ),
    own: Some(b"doctor,hospital\nA,H1\nB,H1\nA,H2\nB,H2\nA,H3\nB,H3\n"),
    out: b"doctor,hospital,answer,change,full,swap_doctor,swap_hospital,swap_change\nA,H1,kept,0,,,,\nB,H1,refused,,hospital H1,A,H1,0\n\
        A,H2,kept,0,,,,\nB,H2,refused,,prefecture Q,A,H2,0\nA,H3,kept,0,,,,\nB,H3,refused,,group G,A,H3,0\n",
    ..CHOSEN
};

const AUDITED: Row<'static> = Row {
    name: "a placement where a doctor and a hospital would rather have each other",
    words: &["audit", "F", "O"],
    own: Some(b"doctor,hospital\nA,H2\nB,\n"),
    fetches: &[6],
    status: 1,
    out: b"blocks,B,H1\n",
    ..FLEXIBLE
};

const REPLACED: Row<'static> = Row {
    name: "with his first choice alone a doctor has no place, and another has his",
    words: &["whatif", "F", "A", "O"],
    own: Some(b"hospital\nH2\n"),
    fetches: &[6],
    out: b"doctor,declared,replaced\nA,H1,\nB,,H1\n",
    ..FLEXIBLE
};

const OWN_JOURNAL: &[u8] =
    b"doctor,hospital,answer,out_doctor,out_hospital\nA,H2,kept,,\nB,H1,swapped,A,H2\nA,H1,swapped,B,H1\n";

const JOURNAL: Row<'static> = Row {
    name: "each offer of the least doctor who can offer, with its answer",
    words: &["journal", "F"],
    out: OWN_JOURNAL,
    ..FLEXIBLE
};

const VERIFIED: Row<'static> = Row {
    name: "the own journal is accepted",
    words: &["verify", "F", "O"],
    own: Some(OWN_JOURNAL),
    fetches: &[6],
    out: b"accepted\n",
    ..FLEXIBLE
};

const OPEN: Row<'static> = Row {
    name: "a journal without its last row",
    own: Some(b"doctor,hospital,answer,out_doctor,out_hospital\nA,H2,kept,,\nB,H1,swapped,A,H2\n"),
    status: 1,
    out: b"open,A\n",
    ..VERIFIED
};

const REFUSED: Row<'static> = Row {
    name: "a choice of no hospital",
    doctors: b"doctor,choices\nA,H1,H9\n",
    puts: &[1],
    reports: &[2],
    status: 3,
    out: b"",
    err: b"refused 19 2 1 3\n",
    ..PLACED
};

const REFUSED_LIST: Row<'static> = Row {
    name: "the list in a doctor's place is missing",
    words: &["whatif", "F", "A", "O"],
    doctors: b"doctor,choices\nA,H1\n",
    fetches: &[6],
    err: b"refused 10 5 0 0\n",
    ..REFUSED
};

const REFUSED_PLACEMENT: Row<'static> = Row {
    name: "the placement to audit is missing",
    words: &["audit", "F", "O"],
    ..REFUSED_LIST
};

const REFUSED_JOURNAL: Row<'static> = Row {
    name: "the journal to verify is missing",
    own: None,
    puts: &[1],
    reports: &[2],
    status: 3,
    out: b"",
    err: b"refused 10 5 0 0\n",
    ..VERIFIED
};

const NO_COMMAND: Row<'static> = Row {
    name: "no words",
    words: &[],
    fetches: &[1],
    status: 2,
    err: b"usage: rm_match place F | check F | report F | choose F OFFERS | audit F PLACEMENT | whatif F DOCTOR LIST | journal F | verify F JOURNAL | transit F EVENTS\n",
    ..REFUSED
};

const UNREAD: Row<'static> = Row {
    name: "the first fetch fails, and no second one is made",
    fetches: &[1, 2],
    status: 4,
    err: b"read fault 1\n",
    ..REFUSED
};

const UNREAD_AUDIT: Row<'static> = Row {
    name: "the first fetch of an audit fails",
    fetches: &[1, 2],
    puts: &[1],
    reports: &[2],
    status: 4,
    out: b"",
    err: b"read fault 1\n",
    ..AUDITED
};

const UNREAD_LIST: Row<'static> = Row {
    name: "the first fetch for a doctor's other list fails",
    words: &["whatif", "F", "A", "O"],
    own: Some(b"hospital\nH2\n"),
    ..UNREAD_AUDIT
};

const UNREAD_JOURNAL: Row<'static> = Row {
    name: "the first fetch for a journal fails",
    words: &["verify", "F", "O"],
    own: Some(OWN_JOURNAL),
    ..UNREAD_AUDIT
};

const UNWRITTEN: Row<'static> = Row {
    name: "the put fails",
    puts: &[1, 2],
    reports: &[2],
    status: 5,
    out: b"",
    err: b"write fault\n",
    ..PLACED
};

static WRITTEN_ROWS: [Row<'static>; 25] = [
    PLACED,
    Row {
        name: "no doctors and no ranks",
        doctors: b"doctor,choices\n",
        ranks: Some(b"hospital,doctors\n"),
        out: b"doctor,hospital\n",
        ..PLACED
    },
    Row {
        name: "mark, line ends, empty cells and a comma in a name",
        hospitals: b"\xef\xbb\xbfhospital,prefecture,capacity,target,,\r\n\"St. Luke, East\",P,1,,,\r\n",
        doctors: b"doctor,choices\nA,\"St. Luke, East\"\n",
        ranks: Some(b"hospital,doctors\n\"St. Luke, East\",A\n"),
        out: b"doctor,hospital\nA,\"St. Luke, East\"\n",
        ..PLACED
    },
    Row {
        name: "each doctor's best, where each hospital's best would be the other one",
        doctors: b"doctor,choices\nA,H1,H2\nB,H2,H1\n",
        ranks: Some(b"hospital,doctors\nH1,B,A\nH2,A,B\n"),
        out: b"doctor,hospital\nA,H1\nB,H2\n",
        ..PLACED
    },
    FLEXIBLE,
    STEPS,
    Row {
        name: "counts",
        words: &["check", "F"],
        out: b"kind steps\nties by-rank\nhospitals 2\ndoctors 1\ncontracts 1\nlisted 1\nnodes 2\ndepth 1\n",
        ..PLACED
    },
    Row {
        name: "counts with a prefecture's node",
        words: &["check", "F"],
        out: b"kind flexible\nties by-rank\nhospitals 2\ndoctors 2\ncontracts 3\nlisted 3\nnodes 3\ndepth 2\n",
        ..FLEXIBLE
    },
    Row {
        name: "counts with a listed tie order",
        words: &["check", "F"],
        policy: Some(
            b"version = 1\nkind = \"steps\"\nties = \"listed\"\nlisted = [[\"A\", \"H2\"]]\n",
        ),
        out: b"kind steps\nties listed\nhospitals 2\ndoctors 1\ncontracts 1\nlisted 1\nnodes 2\ndepth 1\n",
        ..PLACED
    },
    Row {
        name: "a report, where the prefecture's entry has a cap and a doctor who is put out applies",
        words: &["report", "F"],
        out: b"prefecture,hospital,capacity,target,cap,placed,applicants,first\nP,H1,1,0,,1,2,0\nP,H2,1,0,,0,1,0\nP,,2,0,1,1,2,0\n,,2,0,,1,2,0\n",
        ..FLEXIBLE
    },
    Row {
        name: "a report without a policy",
        words: &["report", "F"],
        out: b"prefecture,hospital,capacity,target,cap,placed,applicants,first\nP,H1,1,0,,0,0,0\nP,H2,1,0,,1,1,1\nP,,2,0,,1,1,1\n,,2,0,,1,1,1\n",
        ..PLACED
    },
    CHOSEN,
    FULL,
    AUDITED,
    Row {
        name: "the placement that is printed is stable",
        own: Some(b"doctor,hospital\nA,H1\nB,\n"),
        status: 0,
        out: b"stable\n",
        ..AUDITED
    },
    Row {
        name: "a prefecture over its cap",
        hospitals: b"hospital,prefecture,capacity,target\nH1,P,1,0\n",
        doctors: b"doctor,choices\nA,H1\n",
        ranks: Some(b"hospital,doctors\nH1,A\n"),
        policy: Some(b"version = 1\nkind = \"steps\"\n[[prefecture]]\nname = \"P\"\ncap = 0\n"),
        own: Some(b"doctor,hospital\nA,H1\n"),
        out: b"over,prefecture P\n",
        ..AUDITED
    },
    Row {
        name: "a doctor whose seat lowers the worth",
        words: &["audit", "F", "O"],
        own: Some(b"doctor,hospital\nA,H1\nB,H1\n"),
        fetches: &[6],
        status: 1,
        out: b"unwanted,B,H1\n",
        ..STEPS
    },
    REPLACED,
    Row {
        name: "an empty list withdraws a doctor",
        own: Some(b"hospital\n"),
        ..REPLACED
    },
    JOURNAL,
    VERIFIED,
    Row {
        name: "a journal in another order is accepted",
        own: Some(
            b"doctor,hospital,answer,out_doctor,out_hospital\nB,H1,kept,,\nA,H2,refused,,\nA,H1,swapped,B,H1\n",
        ),
        ..VERIFIED
    },
    OPEN,
    Row {
        name: "an answer that isn't so",
        own: Some(b"doctor,hospital,answer,out_doctor,out_hospital\nA,H2,kept,,\nB,H1,kept,,\n"),
        out: b"wrong-answer,2\n",
        ..OPEN
    },
    Row {
        name: "an offer that isn't next",
        own: Some(b"doctor,hospital,answer,out_doctor,out_hospital\nA,H1,kept,,\n"),
        out: b"not-next,1\n",
        ..OPEN
    },
];

static REFUSED_ROWS: [Row<'static>; 27] = [
    REFUSED,
    Row {
        name: "a row that isn't text",
        doctors: b"doctor,choices\nA,H1\n\xff,H1\n",
        err: b"refused 12 2 2 0\n",
        ..REFUSED
    },
    Row {
        name: "a missing file comes before what the others say",
        ranks: None,
        err: b"refused 10 3 0 0\n",
        ..REFUSED
    },
    Row {
        name: "an empty policy",
        doctors: b"doctor,choices\nA,H1\n",
        policy: Some(b""),
        err: b"refused 32 4 0 1\n",
        ..REFUSED
    },
    Row {
        name: "an empty policy comes after what the tables say",
        words: &["check", "F"],
        policy: Some(b""),
        ..REFUSED
    },
    Row {
        name: "a report that is not written leaves the status",
        reports: &[1, 2],
        err: b"",
        ..REFUSED
    },
    Row {
        name: "no offers",
        words: &["choose", "F", "O"],
        doctors: b"doctor,choices\nA,H1\n",
        fetches: &[6],
        err: b"refused 10 5 0 0\n",
        ..REFUSED
    },
    Row {
        name: "an offer of no doctor",
        words: &["choose", "F", "O"],
        doctors: b"doctor,choices\nA,H1\n",
        own: Some(b"doctor,hospital\nZ,H2\n"),
        fetches: &[6],
        err: b"refused 60 5 1 1\n",
        ..REFUSED
    },
    Row {
        name: "where the folder is refused, its offers are not fetched",
        words: &["choose", "F", "O"],
        ..REFUSED
    },
    Row {
        name: "the list of no doctor is not fetched",
        words: &["whatif", "F", "Z", "O"],
        fetches: &[5],
        err: b"refused 60 0 3 0\n",
        ..REFUSED_LIST
    },
    Row {
        name: "where the folder is refused, no doctor is looked up",
        words: &["whatif", "F", "Z", "O"],
        ..REFUSED
    },
    REFUSED_LIST,
    Row {
        name: "a list that isn't text",
        own: Some(b"hospital\nH1\n\xff\n"),
        err: b"refused 12 5 2 0\n",
        ..REFUSED_LIST
    },
    Row {
        name: "a list without its header",
        own: Some(b"H1\n"),
        err: b"refused 13 5 0 1\n",
        ..REFUSED_LIST
    },
    Row {
        name: "a list with no hospital",
        own: Some(b"hospital\nH2\nH9\n"),
        err: b"refused 61 5 2 1\n",
        ..REFUSED_LIST
    },
    Row {
        name: "a list with a hospital twice",
        own: Some(b"hospital\nH1\nH2\nH1\n"),
        err: b"refused 21 5 3 1\n",
        ..REFUSED_LIST
    },
    REFUSED_PLACEMENT,
    Row {
        name: "a placement that isn't text",
        own: Some(b"doctor,hospital\nA,\xff\n"),
        err: b"refused 12 5 1 0\n",
        ..REFUSED_PLACEMENT
    },
    Row {
        name: "a placement with another header",
        own: Some(b"doctor,place\nA,H2\n"),
        err: b"refused 13 5 0 2\n",
        ..REFUSED_PLACEMENT
    },
    Row {
        name: "the place of no doctor",
        own: Some(b"doctor,hospital\nZ,H2\n"),
        err: b"refused 60 5 1 1\n",
        ..REFUSED_PLACEMENT
    },
    Row {
        name: "two places of a doctor",
        own: Some(b"doctor,hospital\nA,\nA,H9\n"),
        err: b"refused 63 5 2 1\n",
        ..REFUSED_PLACEMENT
    },
    Row {
        name: "a place at no hospital",
        own: Some(b"doctor,hospital\nA,H9\n"),
        err: b"refused 61 5 1 2\n",
        ..REFUSED_PLACEMENT
    },
    Row {
        name: "a place at a hospital that doesn't rank the doctor",
        own: Some(b"doctor,hospital\nA,H1\n"),
        err: b"refused 62 5 1 2\n",
        ..REFUSED_PLACEMENT
    },
    Row {
        name: "a place at a hospital that the doctor doesn't list",
        own: Some(b"doctor,hospital\nA,H2\n"),
        err: b"refused 62 5 1 2\n",
        ..REFUSED_PLACEMENT
    },
    Row {
        name: "a doctor who has no row",
        own: Some(b"doctor,hospital\n"),
        err: b"refused 64 5 1 0\n",
        ..REFUSED_PLACEMENT
    },
    Row {
        name: "where the folder is refused, its placement is not fetched",
        words: &["audit", "F", "O"],
        ..REFUSED
    },
    NO_COMMAND,
];

// Journals that are refused.
static REFUSED_JOURNALS: [Row<'static>; 13] = [
    REFUSED_JOURNAL,
    Row {
        name: "a journal that isn't text",
        own: Some(b"doctor,hospital,answer,out_doctor,out_hospital\nA,H2,\xff,,\n"),
        err: b"refused 12 5 1 0\n",
        ..REFUSED_JOURNAL
    },
    Row {
        name: "a journal with another header",
        own: Some(b"doctor,hospital,answer\nA,H2,kept\n"),
        err: b"refused 13 5 0 4\n",
        ..REFUSED_JOURNAL
    },
    Row {
        name: "an offer of no doctor in a journal",
        own: Some(b"doctor,hospital,answer,out_doctor,out_hospital\nA,H2,kept,,\nZ,H2,yes,,\n"),
        err: b"refused 60 5 2 1\n",
        ..REFUSED_JOURNAL
    },
    Row {
        name: "an offer to no hospital",
        own: Some(b"doctor,hospital,answer,out_doctor,out_hospital\nA,H9,yes,,\n"),
        err: b"refused 61 5 1 2\n",
        ..REFUSED_JOURNAL
    },
    Row {
        name: "an offer to a hospital that doesn't rank the doctor",
        own: Some(b"doctor,hospital,answer,out_doctor,out_hospital\nB,H2,yes,,\n"),
        err: b"refused 65 5 1 2\n",
        ..REFUSED_JOURNAL
    },
    Row {
        name: "a text that is no answer",
        own: Some(b"doctor,hospital,answer,out_doctor,out_hospital\nA,H2,yes,,\n"),
        err: b"refused 67 5 1 3\n",
        ..REFUSED_JOURNAL
    },
    Row {
        name: "no doctor is put out",
        own: Some(b"doctor,hospital,answer,out_doctor,out_hospital\nA,H2,swapped,,\n"),
        err: b"refused 60 5 1 4\n",
        ..REFUSED_JOURNAL
    },
    Row {
        name: "a doctor is put out of no hospital",
        own: Some(b"doctor,hospital,answer,out_doctor,out_hospital\nA,H2,swapped,B,\n"),
        err: b"refused 61 5 1 5\n",
        ..REFUSED_JOURNAL
    },
    Row {
        name: "a doctor is put out of a hospital that doesn't rank him",
        own: Some(b"doctor,hospital,answer,out_doctor,out_hospital\nA,H2,swapped,B,H2\n"),
        err: b"refused 65 5 1 5\n",
        ..REFUSED_JOURNAL
    },
    Row {
        name: "a contract is kept and a doctor put out",
        own: Some(b"doctor,hospital,answer,out_doctor,out_hospital\nA,H2,kept,B,H1\n"),
        err: b"refused 67 5 1 4\n",
        ..REFUSED_JOURNAL
    },
    Row {
        name: "a contract is refused and a hospital stands in the last field",
        own: Some(b"doctor,hospital,answer,out_doctor,out_hospital\nA,H2,refused,,H1\n"),
        err: b"refused 67 5 1 5\n",
        ..REFUSED_JOURNAL
    },
    Row {
        name: "where the folder is refused, its journal is not fetched",
        words: &["verify", "F", "O"],
        ..REFUSED
    },
];

static FAILED_ROWS: [Row<'static>; 18] = [
    Row {
        name: "no file of offers",
        words: &["choose", "F"],
        ..NO_COMMAND
    },
    Row {
        name: "a word too many",
        words: &["report", "F", "O"],
        ..NO_COMMAND
    },
    Row {
        name: "an unknown command",
        words: &["plan", "F"],
        ..NO_COMMAND
    },
    Row {
        name: "no file with a list",
        words: &["whatif", "F", "A"],
        ..NO_COMMAND
    },
    Row {
        name: "no file with a placement",
        words: &["audit", "F"],
        ..NO_COMMAND
    },
    Row {
        name: "no file with a journal",
        words: &["verify", "F"],
        ..NO_COMMAND
    },
    Row {
        name: "a file with the own journal",
        words: &["journal", "F", "O"],
        ..NO_COMMAND
    },
    UNREAD,
    Row {
        name: "the third fetch fails",
        fetches: &[3, 4],
        err: b"read fault 3\n",
        ..UNREAD
    },
    Row {
        name: "a failed fetch comes before a refusal",
        fetches: &[4, 5],
        err: b"read fault 4\n",
        ..UNREAD
    },
    Row {
        name: "the fetch of the offers fails",
        fetches: &[5, 6],
        puts: &[1],
        reports: &[2],
        status: 4,
        out: b"",
        err: b"read fault 5\n",
        ..CHOSEN
    },
    Row {
        name: "the fetch of the list fails",
        fetches: &[5, 6],
        puts: &[1],
        reports: &[2],
        status: 4,
        out: b"",
        err: b"read fault 5\n",
        ..REPLACED
    },
    Row {
        name: "the put of both placements fails",
        puts: &[1, 2],
        reports: &[2],
        status: 5,
        out: b"",
        err: b"write fault\n",
        ..REPLACED
    },
    Row {
        name: "the put of a finding fails",
        puts: &[1, 2],
        reports: &[2],
        status: 5,
        out: b"",
        err: b"write fault\n",
        ..AUDITED
    },
    Row {
        name: "the put of a journal fails",
        puts: &[1, 2],
        reports: &[2],
        status: 5,
        out: b"",
        err: b"write fault\n",
        ..JOURNAL
    },
    Row {
        name: "the put of a verdict fails",
        puts: &[1, 2],
        reports: &[2],
        status: 5,
        out: b"",
        err: b"write fault\n",
        ..OPEN
    },
    UNWRITTEN,
    Row {
        name: "neither put is taken",
        reports: &[1, 2],
        err: b"",
        ..UNWRITTEN
    },
];

// Audits, calls for another list and of journals, whose fetches fail one after the other.
static UNREAD_ROWS: [Row<'static>; 15] = [
    UNREAD_AUDIT,
    Row {
        name: "the second fetch of an audit fails",
        fetches: &[2, 3],
        err: b"read fault 2\n",
        ..UNREAD_AUDIT
    },
    Row {
        name: "the third fetch of an audit fails",
        fetches: &[3, 4],
        err: b"read fault 3\n",
        ..UNREAD_AUDIT
    },
    Row {
        name: "the fourth fetch of an audit fails",
        fetches: &[4, 5],
        err: b"read fault 4\n",
        ..UNREAD_AUDIT
    },
    Row {
        name: "the fetch of the placement fails",
        fetches: &[5, 6],
        err: b"read fault 5\n",
        ..UNREAD_AUDIT
    },
    UNREAD_LIST,
    Row {
        name: "the second fetch for a doctor's other list fails",
        fetches: &[2, 3],
        err: b"read fault 2\n",
        ..UNREAD_LIST
    },
    Row {
        name: "the third fetch for a doctor's other list fails",
        fetches: &[3, 4],
        err: b"read fault 3\n",
        ..UNREAD_LIST
    },
    Row {
        name: "the fourth fetch for a doctor's other list fails",
        fetches: &[4, 5],
        err: b"read fault 4\n",
        ..UNREAD_LIST
    },
    UNREAD_JOURNAL,
    Row {
        name: "the second fetch for a journal fails",
        fetches: &[2, 3],
        err: b"read fault 2\n",
        ..UNREAD_JOURNAL
    },
    Row {
        name: "the third fetch for a journal fails",
        fetches: &[3, 4],
        err: b"read fault 3\n",
        ..UNREAD_JOURNAL
    },
    Row {
        name: "the fourth fetch for a journal fails",
        fetches: &[4, 5],
        err: b"read fault 4\n",
        ..UNREAD_JOURNAL
    },
    Row {
        name: "the fetch of the journal to verify fails",
        fetches: &[5, 6],
        err: b"read fault 5\n",
        ..UNREAD_JOURNAL
    },
    Row {
        name: "the fourth fetch for the own journal fails",
        words: &["journal", "F"],
        own: None,
        fetches: &[4, 5],
        err: b"read fault 4\n",
        ..UNREAD_JOURNAL
    },
];

const TRAVELLED: Row<'static> = Row {
    name: "offers that travel, one of which was refused",
    words: &["transit", "F", "O"],
    own: Some(b"event,doctor,hospital\nsend,A\nsend,B\noffer,B,H1\noffer,A,H2\nrefusal,A,H2\n"),
    fetches: &[6],
    out: b"doctor,hospital,state\nA,,free\nB,H1,held\n,,open\n",
    ..FLEXIBLE
};

const REFUSED_EVENTS: Row<'static> = Row {
    name: "the events are missing",
    words: &["transit", "F", "O"],
    ..REFUSED_LIST
};

const UNREAD_EVENTS: Row<'static> = Row {
    name: "the first fetch for events fails",
    fetches: &[1, 2],
    puts: &[1],
    reports: &[2],
    status: 4,
    out: b"",
    err: b"read fault 1\n",
    ..TRAVELLED
};

const UNWRITTEN_EVENTS: Row<'static> = Row {
    name: "the put of where everybody stands fails",
    puts: &[1, 2],
    reports: &[2],
    status: 5,
    out: b"",
    err: b"write fault\n",
    ..TRAVELLED
};

// Events that are read, that are refused, and that aren't read or whose text isn't written.
static TRAVEL_ROWS: [Row<'static>; 6] = [
    TRAVELLED,
    Row {
        name: "nothing was sent",
        own: Some(b"event,doctor,hospital\n"),
        out: b"doctor,hospital,state\nA,,free\nB,,free\n,,open\n",
        ..TRAVELLED
    },
    Row {
        name: "what isn't delivered travels",
        own: Some(b"event,doctor,hospital\nsend,A\nsend,B\noffer,B,H1\noffer,A,H2\n"),
        out: b"doctor,hospital,state\nA,H2,refused\nB,H1,held\n,,open\n",
        ..TRAVELLED
    },
    Row {
        name: "an offer travels",
        own: Some(b"event,doctor,hospital\nsend,B\n"),
        out: b"doctor,hospital,state\nA,,free\nB,H1,offered\n,,open\n",
        ..TRAVELLED
    },
    Row {
        name: "a doctor who was put out has no contract left, and the placement is held",
        own: Some(
            b"event,doctor,hospital\nsend,A\nsend,B\noffer,B,H1\noffer,A,H2\nrefusal,A,H2\nsend,A\noffer,A,H1\nrefusal,B,H1\n",
        ),
        out: b"doctor,hospital,state\nA,H1,held\nB,,done\n,,closed\n",
        ..TRAVELLED
    },
    Row {
        name: "what comes again changes nothing",
        own: Some(
            b"event,doctor,hospital\nsend,A\nsend,A\nsend,B\noffer,B,H1\noffer,A,H2\noffer,B,H1\nrefusal,A,H2\nrefusal,A,H2\nsend,A\n\
                offer,A,H1\noffer,A,H2\nrefusal,B,H1\nrefusal,B,H1\nsend,B\noffer,A,H1\n",
        ),
        out: b"doctor,hospital,state\nA,H1,held\nB,,done\n,,closed\n",
        ..TRAVELLED
    },
];

static REFUSED_TRAVEL_ROWS: [Row<'static>; 12] = [
    REFUSED_EVENTS,
    Row {
        name: "events that aren't text",
        own: Some(b"event,doctor,hospital\nsend,A\nsend,\xff\n"),
        err: b"refused 12 5 2 0\n",
        ..REFUSED_EVENTS
    },
    Row {
        name: "events with another header",
        own: Some(b"event,doctor\nsend,A\n"),
        err: b"refused 13 5 0 3\n",
        ..REFUSED_EVENTS
    },
    Row {
        name: "no event",
        own: Some(b"event,doctor,hospital\nsend,A\nlose,Z\n"),
        err: b"refused 68 5 2 1\n",
        ..REFUSED_EVENTS
    },
    Row {
        name: "an event of no doctor",
        own: Some(b"event,doctor,hospital\nsend,Z,H1\n"),
        err: b"refused 60 5 1 2\n",
        ..REFUSED_EVENTS
    },
    Row {
        name: "an offer is sent to a hospital of the file's choice",
        own: Some(b"event,doctor,hospital\nsend,A,H2\n"),
        err: b"refused 68 5 1 3\n",
        ..REFUSED_EVENTS
    },
    Row {
        name: "an offer to no hospital",
        own: Some(b"event,doctor,hospital\noffer,A\n"),
        err: b"refused 61 5 1 3\n",
        ..REFUSED_EVENTS
    },
    Row {
        name: "an offer to a hospital that doesn't rank the doctor",
        own: Some(b"event,doctor,hospital\noffer,A,H1\n"),
        err: b"refused 65 5 1 3\n",
        ..REFUSED_EVENTS
    },
    Row {
        name: "a refusal of no hospital",
        own: Some(b"event,doctor,hospital\noffer,A,H2\nrefusal,A,H9\n"),
        err: b"refused 61 5 2 3\n",
        ..REFUSED_EVENTS
    },
    Row {
        name: "a refusal of a hospital that doesn't rank the doctor",
        own: Some(b"event,doctor,hospital\nsend,A\nrefusal,A,H1\n"),
        err: b"refused 65 5 2 3\n",
        ..REFUSED_EVENTS
    },
    Row {
        name: "where the folder is refused, its events are not fetched",
        words: &["transit", "F", "O"],
        ..REFUSED
    },
    Row {
        name: "no file with events",
        words: &["transit", "F"],
        ..NO_COMMAND
    },
];

static FAILED_TRAVEL_ROWS: [Row<'static>; 7] = [
    UNREAD_EVENTS,
    Row {
        name: "the second fetch for events fails",
        fetches: &[2, 3],
        err: b"read fault 2\n",
        ..UNREAD_EVENTS
    },
    Row {
        name: "the third fetch for events fails",
        fetches: &[3, 4],
        err: b"read fault 3\n",
        ..UNREAD_EVENTS
    },
    Row {
        name: "the fourth fetch for events fails",
        fetches: &[4, 5],
        err: b"read fault 4\n",
        ..UNREAD_EVENTS
    },
    Row {
        name: "the fetch of the events fails",
        fetches: &[5, 6],
        err: b"read fault 5\n",
        ..UNREAD_EVENTS
    },
    UNWRITTEN_EVENTS,
    Row {
        name: "neither put of where everybody stands is taken",
        reports: &[1, 2],
        err: b"",
        ..UNWRITTEN_EVENTS
    },
];

// Calls whose output has room for so many bytes and no more.
static TORN_ROWS: [(Row<'static>, usize); 11] = [
    (PLACED, 0),
    (PLACED, 10),
    (STEPS, 10),
    (CHOSEN, 10),
    (AUDITED, 0),
    (AUDITED, 7),
    (REPLACED, 10),
    (TRAVELLED, 0),
    (TRAVELLED, 30),
    (JOURNAL, 50),
    (OPEN, 5),
];

// The words of a row.
fn words_of(alloc: Global, row: &Row<'_>) -> Result<Vec<String>, NoMemory> {
    let mut words = Vec::new(alloc);
    for word in row.words {
        words.push(String::from_str(alloc, word)?)?;
    }
    Ok(words)
}

// Adds a file, if it is there.
fn add(shelf: &mut MemoryShelf, name: &str, file: Option<&[u8]>) -> Result<(), NoMemory> {
    match file {
        Some(bytes) => shelf.add(name, bytes),
        None => Ok(()),
    }
}

// Adds the files of a row.
fn add_files(shelf: &mut MemoryShelf, row: &Row<'_>) -> Result<(), NoMemory> {
    shelf.add("F/hospitals.csv", row.hospitals)?;
    shelf.add("F/doctors.csv", row.doctors)?;
    add(shelf, "F/ranks.csv", row.ranks)?;
    add(shelf, "F/policy.toml", row.policy)?;
    add(shelf, "O", row.own)
}

// Makes the call of a row, and says whether all is as wanted, and whether the calls that come next are those that fail.
fn is_answered(
    alloc: Global,
    row: &Row<'_>,
    shelf: &mut MemoryShelf,
    out: &mut MemorySink,
    err: &mut MemorySink,
) -> Result<bool, NoMemory> {
    let words = words_of(alloc, row)?;
    let status = run(alloc, &words, shelf, out, err);
    let told = status == row.status && out.bytes() == row.out && err.bytes() == row.err;
    let fetched = shelf.fetch(alloc, "", 0);
    let failed = matches!(&fetched, Err(FetchFault::Failed));
    Ok(told && failed && out.put(b"").is_err() && err.put(b"").is_err())
}

// Whether the call of a row is answered as wanted.
fn holds(alloc: Global, row: &Row<'_>) -> Result<bool, NoMemory> {
    let mut shelf = MemoryShelf::new(row.fetches.to_vec(alloc)?);
    add_files(&mut shelf, row)?;
    let mut out = MemorySink::new(alloc, 5000, row.puts.to_vec(alloc)?)?;
    let mut err = MemorySink::new(alloc, 200, row.reports.to_vec(alloc)?)?;
    is_answered(alloc, row, &mut shelf, &mut out, &mut err)
}

// The name of the first row that is answered otherwise than wanted.
fn first_wrong(alloc: Global, rows: &[Row<'_>]) -> Result<Option<&'static str>, NoMemory> {
    for row in rows {
        if !holds(alloc, row)? {
            return Ok(Some(row.name));
        }
    }
    Ok(None)
}

#[test]
fn writes_texts(rt: HostRuntime) -> Result<(), Fail> {
    assert_eq!(rt; first_wrong(rt.alloc(), &WRITTEN_ROWS)?, None);
    Ok(())
}

#[test]
fn tells_where_everybody_stands(rt: HostRuntime) -> Result<(), Fail> {
    assert_eq!(rt; first_wrong(rt.alloc(), &TRAVEL_ROWS)?, None);
    assert_eq!(rt; first_wrong(rt.alloc(), &REFUSED_TRAVEL_ROWS)?, None);
    assert_eq!(rt; first_wrong(rt.alloc(), &FAILED_TRAVEL_ROWS)?, None);
    Ok(())
}

#[test]
fn refuses_files(rt: HostRuntime) -> Result<(), Fail> {
    assert_eq!(rt; first_wrong(rt.alloc(), &REFUSED_ROWS)?, None);
    assert_eq!(rt; first_wrong(rt.alloc(), &REFUSED_JOURNALS)?, None);
    Ok(())
}

#[test]
fn ends_at_the_first_fault(rt: HostRuntime) -> Result<(), Fail> {
    assert_eq!(rt; first_wrong(rt.alloc(), &FAILED_ROWS)?, None);
    assert_eq!(rt; first_wrong(rt.alloc(), &UNREAD_ROWS)?, None);
    Ok(())
}

// Whether a call whose output is torn after so many bytes leaves these, and says that they aren't all.
fn is_torn(alloc: Global, row: &Row<'_>, room: usize) -> Result<bool, NoMemory> {
    let mut shelf = MemoryShelf::new(Vec::new(alloc));
    add_files(&mut shelf, row)?;
    let mut out = TornSink::new(alloc, room)?;
    let mut err = TornSink::new(alloc, 100)?;
    let words = words_of(alloc, row)?;
    let status = run(alloc, &words, &mut shelf, &mut out, &mut err);
    Ok(
        status == 5
            && out.bytes() == &row.out[..room.min(row.out.len())]
            && err.bytes() == b"write fault\n".as_slice(),
    )
}

#[test]
fn tells_that_the_output_is_torn(rt: HostRuntime) -> Result<(), Fail> {
    for (row, room) in &TORN_ROWS {
        assert!(rt; is_torn(rt.alloc(), row, *room)?);
    }
    Ok(())
}

#[test]
fn says_want_of_memory(rt: HostRuntime) {
    let ending = Ending::NoMemory;
    assert!(rt; ending.text() == "no memory\n" && ending.status() == 6);
}

// A header and a row for each of 600 doctors, each row with this end.
fn rows_of_many(alloc: Global, header: &str, end: &str) -> Result<Vec<u8>, NoMemory> {
    let mut text = String::from_str(alloc, header)?;
    for d in 1..601 {
        let row = format!(in alloc; "d{d:04}{end}\n")?;
        text.push_str(&row)?;
    }
    Ok(text.into_bytes())
}

// A call whose text, the placement of these doctors, has two pieces.
fn two_pieces<'a>(doctors: &'a [u8], placement: &'a [u8]) -> Row<'a> {
    Row {
        name: "two pieces",
        doctors,
        ranks: Some(b"hospital,doctors\n"),
        puts: &[3],
        out: placement,
        ..PLACED
    }
}

// The first wrong one of three calls whose text has two pieces.
fn first_wrong_piece<'a>(
    alloc: Global,
    doctors: &'a [u8],
    placement: &'a [u8],
) -> Result<Option<&'static str>, NoMemory> {
    let whole = two_pieces(doctors, placement);
    let first = Row {
        name: "the second piece fails",
        puts: &[2, 3],
        reports: &[2],
        status: 5,
        out: &placement[..placement.len().min(4096)],
        err: b"write fault\n",
        ..whole
    };
    let none = Row {
        name: "the first piece fails, and no second one is put",
        puts: &[1, 2],
        out: b"",
        ..first
    };
    first_wrong(alloc, &[whole, first, none])
}

#[test]
fn puts_pieces(rt: HostRuntime) -> Result<(), Fail> {
    let alloc = rt.alloc();
    let doctors = rows_of_many(alloc, "doctor,choices\n", "")?;
    let placement = rows_of_many(alloc, "doctor,hospital\n", ",")?;
    assert_eq!(rt; placement.len(), 4216);
    assert_eq!(rt; first_wrong_piece(alloc, &doctors, &placement)?, None);
    assert!(rt; is_torn(alloc, &two_pieces(&doctors, &placement), 4096)?);
    Ok(())
}
