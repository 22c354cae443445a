//! The laws on which reading listings stands.
ghost use Rattle.file_store.specs.Private.LineLaws.{LineLaws};

use phrase_parser::{
    canonical_text_tells, cut_texts_join, divided_parts_tell, no_keyword_begins_part,
    part_ends_at_divider, part_has_no_colon,
};
use plcs_grammar::canonical_texts_show;

/// All the laws of phrases and of parts of lines on which reading listings stands.
pub(crate) fn line_laws()
    ensures { LineLaws }
{
    part_ends_at_divider();
    divided_parts_tell();
    cut_texts_join();
    no_keyword_begins_part();
    part_has_no_colon();
    canonical_texts_show();
    canonical_text_tells();
}
