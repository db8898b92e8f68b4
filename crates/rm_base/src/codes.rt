//! The numbers of files and refusals, and the limits. Each stands here alone: definitions and readers take it from here.

ghost use Rattle.rm_base.specs.Numbers.{AreAsWritten};

// ---- files

/// The file `hospitals.csv`.
pub const HOSPITALS_FILE: u8 = 1;

/// The file `doctors.csv`.
pub const DOCTORS_FILE: u8 = 2;

/// The file `ranks.csv`.
pub const RANKS_FILE: u8 = 3;

/// The file `policy.toml`.
pub const POLICY_FILE: u8 = 4;

/// The file of the command's own: the offers that it chooses of, the placement that it audits, or the list that it puts in a doctor's place.
pub const OWN_FILE: u8 = 5;

// ---- refusals of any file: `a` and `b` are 0

/// A file that is needed is missing.
pub const FILE_MISSING: u8 = 10;

/// A file has more than `MOST_BYTES` bytes.
pub const FILE_TOO_LONG: u8 = 11;

// ---- refusals of a table: `a` is a row, counted from 1 after the header, and `b` a field, counted from 1, unless the line says otherwise

/// A row, the header being row 0, isn't UTF-8; `b` is 0.
pub const NOT_UTF8: u8 = 12;

/// The header is missing or wrong, first at field `b`; `a` is 0.
pub const WRONG_HEADER: u8 = 13;

/// A text that may be no name.
pub const BAD_NAME: u8 = 14;

/// A name that stands before; `b` is the former row.
pub const REPEATED_NAME: u8 = 15;

/// A text that is no number.
pub const BAD_NUMBER: u8 = 16;

/// A number above its limit.
pub const ABOVE_LIMIT: u8 = 17;

/// A hospital's target is above its capacity.
pub const TARGET_ABOVE_CAPACITY: u8 = 18;

/// A name of no hospital, or of no doctor.
pub const UNKNOWN_NAME: u8 = 19;

/// A choice that stands in its list before.
pub const REPEATED_CHOICE: u8 = 21;

/// A second row of the same hospital; `b` is the former row.
pub const REPEATED_ROW: u8 = 22;

/// More than a limit allows; `b` is the number of the limit.
pub const TOO_MANY: u8 = 23;

// ---- refusals of the policy: `a` is an item, the top being item 0, and `b` as the line says

/// The text is no TOML; `a` and `b` are 0.
pub const NOT_TOML: u8 = 30;

/// A key that is not known; `b` is 0.
pub const UNKNOWN_KEY: u8 = 31;

/// A value that is missing or bad; `b` is the number of its key.
pub const BAD_VALUE: u8 = 32;

/// A key that does not go with this kind or these ties; `b` is the number of the key.
pub const KEY_NOT_FOR_KIND: u8 = 33;

/// A name that is not known; `b` is 0 for the entry's own name, else the element.
pub const UNKNOWN_ENTRY_NAME: u8 = 34;

/// A second entry of the same name; `b` is the former item.
pub const REPEATED_ENTRY: u8 = 35;

/// Two groups cross: each holds a hospital that the other lacks, and they share one. `a` is the earlier item and `b` the later.
pub const CROSSING_GROUPS: u8 = 36;

/// The steps of a run rise; `b` is the run.
pub const STEPS_RISE: u8 = 37;

/// A step or a count out of its range; `b` is the run.
pub const STEP_OUT_OF_RANGE: u8 = 38;

/// An order that is not the prefecture's hospitals, once each; `b` is the element.
pub const WRONG_ORDER: u8 = 39;

/// A hospital has more steps than seats; `b` is 0.
pub const MORE_STEPS_THAN_SEATS: u8 = 40;

/// A group without hospitals; `b` is 0.
pub const GROUP_EMPTY: u8 = 41;

/// The targets of a prefecture sum to more than its cap; `b` is their sum.
pub const TARGETS_ABOVE_CAP: u8 = 42;

/// More than a limit allows; `b` is the number of the limit.
pub const TOO_MANY_ITEMS: u8 = 43;

// ---- refusals of a listed tie order: `a` is an element, counted from 1, and `b` a former one, unless the line says otherwise

/// A listed pair that is no contract; `b` is 0.
pub const LISTED_NO_CONTRACT: u8 = 50;

/// A listed pair that stands before; `b` is the former element.
pub const LISTED_REPEATED: u8 = 51;

/// A contract that the list lacks; `a` is its doctor and `b` its hospital, both counted from 1.
pub const LISTED_MISSING: u8 = 52;

/// A pair that is listed against the hospital's rank list; `b` is the last former element of the hospital that it ranks below this one.
pub const LISTED_AGAINST_RANKS: u8 = 53;

// ---- refusals of the command's own part: `a` is a row and `b` a field, both counted from 1, unless the line says otherwise

/// A name of no doctor; `a` is the number of the word, and `b` is 0, where the name is a word of the command line.
pub const UNKNOWN_DOCTOR: u8 = 60;

/// A name of no hospital.
pub const UNKNOWN_HOSPITAL: u8 = 61;

/// A doctor and a hospital that isn't on his list, or doesn't rank him; `b` is 2.
pub const NOT_LISTED: u8 = 62;

/// A doctor who stands before; `b` is the former row.
pub const REPEATED_DOCTOR: u8 = 63;

/// A doctor who stands in no row; `a` is his number, counted from 1, and `b` is 0.
pub const DOCTOR_MISSING: u8 = 64;

/// A doctor and a hospital that doesn't rank him.
pub const NOT_CONTRACT: u8 = 65;

/// A contract that stands before; `b` is the former row.
pub const REPEATED_CONTRACT: u8 = 66;

/// A text of a journal that is no answer, or a cell of an answer that is to be empty.
pub const BAD_ANSWER: u8 = 67;

/// A text that is no event, or a cell of an event that is to be empty.
pub const BAD_EVENT: u8 = 68;

/// A name of no group and of no prefecture's entry; `a` is the number of the word, and `b` is 0.
pub const UNKNOWN_GROUP: u8 = 69;

/// A group that isn't given by `cap`, or lies in another node; `a` is its item, and `b` is 0.
pub const NO_OUTERMOST_CAP: u8 = 70;

/// A cap below that of the group; `a` is the group's item, and `b` its cap.
pub const CAP_BELOW: u8 = 71;

// ---- limits

/// The most hospitals.
pub const MOST_HOSPITALS: u32 = 10_000;

/// The most seats of all hospitals together.
pub const MOST_SEATS: u32 = 1_000_000;

/// The most doctors.
pub const MOST_DOCTORS: u32 = 100_000;

/// The most choices in the lists of all doctors together, and in the rank lists of all hospitals together.
pub const MOST_CHOICES: u32 = 2_000_000;

/// The most groups of a policy, prefecture entries included.
pub const MOST_GROUPS: u32 = 5_000;

/// The most runs of steps of one entry.
pub const MOST_RUNS: u32 = 64;

/// The most nodes that contain one hospital, its own included.
pub const MOST_DEPTH: u32 = 32;

/// The greatest capacity of a hospital.
pub const GREATEST_CAPACITY: u32 = 10_000;

/// The greatest cap of a group, and the most steps that a group may have.
pub const GREATEST_CAP: u32 = 1_000_000;

/// The greatest value of a step; the least is its negative.
pub const GREATEST_STEP: i64 = 1_000_000_000;

/// The most bytes of a file.
pub const MOST_BYTES: u64 = 67_108_864;

/// The most bytes of a name.
pub const MOST_NAME_BYTES: usize = 64;

// ---- the numbers of the limits, of which refusals speak

/// The number of the limit on hospitals.
pub const HOSPITALS_LIMIT: u64 = 1;

/// The number of the limit on seats.
pub const SEATS_LIMIT: u64 = 2;

/// The number of the limit on doctors.
pub const DOCTORS_LIMIT: u64 = 3;

/// The number of the limit on choices in `doctors.csv`.
pub const CHOICES_LIMIT: u64 = 4;

/// The number of the limit on choices in `ranks.csv`.
pub const RANKED_LIMIT: u64 = 5;

/// The number of the limit on groups.
pub const GROUPS_LIMIT: u64 = 6;

/// The number of the limit on runs of steps.
pub const RUNS_LIMIT: u64 = 7;

/// The number of the limit on the nodes that contain one hospital.
pub const DEPTH_LIMIT: u64 = 8;

/// Each number above is the one that stands beside its name in `specs/Numbers.antt`.
pub fn numbers_are_as_written()
    ensures { AreAsWritten }
{}
