//! The laws of what texts read as, each a function that does nothing and whose contract states it.
ghost use Rattle.phrase_parser.specs.ReadingLaws.{OneReading, CanonicalTextReads, CanonicalTextTells, ReadingHasCategory};
ghost use Rattle.phrase_parser.specs.ReadingLaws.{OneStanding, OverIsPastLimits, PastLimitsIsOver};

/// The law that a text reads as one phrase of a category at most.
pub fn one_reading()
    ensures { OneReading }
{}

/// The law that, for every phrase that some text reads as, its canonical text reads as that same phrase, so it is well
/// formed.
pub fn canonical_text_reads()
    ensures { CanonicalTextReads }
{}

/// The law that two phrases of one category that some texts read as, and that have one canonical text, are one phrase.
pub fn canonical_text_tells()
    ensures { CanonicalTextTells }
{}

/// The law that what a text reads as in a category, within the limits or past them, is a phrase of that category.
pub fn reading_has_category()
    ensures { ReadingHasCategory }
{}

/// The law that in a category every text is exactly one of these: a phrase that it reads as, something that goes past a
/// limit first, or a place where it goes wrong.
pub fn one_standing()
    ensures { OneStanding }
{}

/// The law that a text goes past a limit exactly where it has a reading, and a number or the nesting of that is over
/// its limit.
pub fn over_is_past_limits()
    ensures over { OverIsPastLimits }
    ensures past { PastLimitsIsOver }
{}
