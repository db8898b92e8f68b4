//! Tables whose cells are letters and digits, written as CSV and read back by the definition of rows.
//! The functions have no code: each carries a theorem for the crates that compute.
#![tactic(auto)]

ghost use Rattle.rm_drill_laws.specs.Results.{ArePlaced, DefaultText, FillsWidth, HasNoBadText, HeaderPasses, HeadersArePlain, IsNumber, IsPlain, MayBeName, NamesArePlain, NeedsNoWidth, OfDecimals, OfNames, OfNumberedLists, OfPlainRows, OfPlainTables, OfRows, OfShortDecimals, PrintedInDigits, ReadBack, ReadUnder, ReadsAs, ReadsItems, ReadsThem, ReadsTrimmed, SameNumber, TakesAtMost, TakesBytes, WritesMore, WrittenInLines};

/// The rows of the text that is written of plain rows, of any lengths, are these rows. No cell is refused as not UTF-8, and reading the
/// text gives the rows unless memory is wanting. So a program that writes tables knows what will be read of them.
pub fn plain_rows_are_read_back()
    ensures rows { OfPlainRows ReadBack }
    ensures text { OfPlainRows HasNoBadText }
    ensures reads { OfPlainRows ReadsThem }
{}

/// The text of plain rows is a line for each, with its cells and commas between them; and how long it is, so that a file stays below the limit.
pub fn plain_rows_are_lines()
    ensures lines { OfPlainRows WrittenInLines }
    ensures bytes { OfPlainRows TakesBytes }
    ensures most { OfPlainRows TakesAtMost }
{}

/// The first row is the header, and the others are the rows below it. The headers of hospitals, doctors and rank lists are plain, and pass.
pub fn plain_tables_are_read_back()
    ensures tables { OfPlainTables ReadUnder }
    ensures headers { HeadersArePlain }
    ensures passes { HeaderPasses }
{}

/// Of rows of any cells: what is read is what was written, without blanks and empty cells at the ends. A writer for rows of any length
/// writes of each row what the default writer does.
pub fn any_rows_are_read_trimmed()
    ensures trimmed { OfRows ReadsTrimmed }
    ensures default { OfRows DefaultText }
    ensures more { WritesMore }
{}

/// Decimal numbers are plain cells, and those of at most nine digits are read as the numbers that they are: for capacities and targets.
pub fn decimal_numbers_are_read_back()
    ensures plain { OfDecimals IsPlain }
    ensures number { OfShortDecimals IsNumber }
    ensures reads { OfShortDecimals ReadsAs }
{}

/// Names of a prefix and a number in so many digits, as `H00012`, are plain cells: for tables whose names are made by counting.
pub fn numbered_names_are_plain()
    ensures plain { OfNames IsPlain }
    ensures row { NamesArePlain }
    ensures name { MayBeName }
    ensures width { FillsWidth }
    ensures no_width { NeedsNoWidth }
    ensures printed { PrintedInDigits }
{}

/// Distinct numbers have distinct names, and each name is read as its number: so no such table repeats a name or names what isn't there.
pub fn numbered_names_are_distinct()
    ensures same { SameNumber }
    ensures placed { OfNumberedLists ArePlaced }
    ensures items { OfNumberedLists ReadsItems }
{}
