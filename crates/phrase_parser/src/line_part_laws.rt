//! The laws of parts of lines, each a function that does nothing and whose contract states it.
ghost use Rattle.phrase_parser.specs.LinePartLaws.{PartEndsAtDivider, DividedPartsTell, CutTextsJoin, NoKeywordBeginsPart, PartHasNoColon};

/// The law that a part of a line, which is the canonical text of a well-formed phrase or a placeholder, ends at the
/// first divider outside of quotes, whatever stands behind that.
pub fn part_ends_at_divider()
    ensures { PartEndsAtDivider }
{}

/// The law that two texts of a part, a divider and a rest are equal only where their parts and their rests are.
pub fn divided_parts_tell()
    ensures { DividedPartsTell }
{}

/// The law that a text that is cut at a divider is what stands before it, the divider, and what stands behind it.
pub fn cut_texts_join()
    ensures { CutTextsJoin }
{}

/// The law that no keyword stands where a part of a line begins that is no comment's: a line that begins with a part is
/// no line with a keyword at its head.
pub fn no_keyword_begins_part()
    ensures { NoKeywordBeginsPart }
{}

/// The law that a part of a line that is no comment's has no colon outside of quotes: so a line that begins with a
/// procedure's name and its colon is none that begins with an assignment.
pub fn part_has_no_colon()
    ensures { PartHasNoColon }
{}
