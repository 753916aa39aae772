//! What the definitions of this crate say in their subjects' own words.
ghost use Rattle.qtc_base.specs.Laws.{EscapesAreReadOnce, EscapesAreOneLine, DecimalsSpellTheirNumber, DigitsCountByPlace, LinesAreCutAtLineFeeds, LinesAreTheOnlyCut, WordsAreMaximalRuns};

/// Two texts with one escape are one text: nothing is lost in a report.
pub fn escapes_are_read_once()
    ensures { EscapesAreReadOnce }
{}

/// No escape has a byte below 0x20 or 0x7f, so that a value stays on its line.
pub fn escapes_are_one_line()
    ensures { EscapesAreOneLine }
{}

/// The decimal text of a number is digits that spell it, of which the first isn't 0 unless it is alone.
pub fn decimals_spell_their_number()
    ensures { DecimalsSpellTheirNumber }
{}

/// Of the digits of a number each counts ten times as much as the next, and leading zeros count nothing.
pub fn digits_count_by_place()
    ensures { DigitsCountByPlace }
{}

/// No line has LF in it, and the lines, each ended by LF, are the text, with an LF where its end lacks one.
pub fn lines_are_cut_at_line_feeds()
    ensures { LinesAreCutAtLineFeeds }
{}

/// No other list of lines is cut so.
pub fn lines_are_the_only_cut()
    ensures { LinesAreTheOnlyCut }
{}

/// Words have no gap in them, and stand apart by gaps alone.
pub fn words_are_maximal_runs()
    ensures { WordsAreMaximalRuns }
{}
