//! The listing of a tree. What most lines take is compiled in place, and the rest is not, so a line costs about half.
ghost use Rattle.std.specs.Prelude.{◌≡◌, ◌+◌, ◌*◌, ◌≤◌, ◌<◌, false, map, Some, option_map, replicate};
ghost use Rattle.plcs_base.specs.Put.{PutsAll};
ghost use Rattle.plcs_grammar.specs.Template.{plain_row, plain_section, plain_segment, row_of};
ghost use Rattle.plcs_grammar.specs.Placeholder.{placeholder};
ghost use Rattle.template_tree.specs.Programs.Limit.{deepest_path};
ghost use Rattle.template_tree.specs.Listings.Line.{fixed_line, lines, part_text, parts_after, segment_text, segments_text};
ghost use Rattle.template_tree.specs.Listings.Listing.{Listing, bytes_of_lines};
ghost use Rattle.template_tree.specs.Programs.PlainPhrasePlace.{plain_phrase_place};
ghost use Rattle.template_tree.specs.Programs.PlainTree.{forest};
ghost use Rattle.template_tree.specs.Private.NodeLines.{node_lines};
ghost use Rattle.template_tree.specs.Listings.PlainSectionsLeft.{plain_sections_left};
ghost use Rattle.template_tree.specs.Programs.Slots.{depth};
ghost use Rattle.template_tree.specs.Programs.Tree.{IsTree};

use crate::node::Node;
use crate::phrase_place::PhrasePlace;
use crate::sections_left::SectionsLeft;
use crate::tree::Tree;
use plcs_base::{ByteOut, put_bytes};
use plcs_grammar::{Category, Row, Section, Segment, program_sections, show};

impl Tree {
    /// Puts its listing: each line with its line end, elided refinements too.
    ///
    /// It takes no memory, time in proportion to what it puts, and a stack that grows with the depth of
    /// the tree alone.
    pub fn put_listing<O: ByteOut>(&self, out: &mut O)
        requires tree { IsTree self.now }
        ensures { PutsAll O.puts out.old (Listing self.now.items) out.new }
    {
        put_nodes(self.items.as_slice(), 0, program_sections(), out);
    }
}

/// Puts the lines of the listing that nodes in order have, in these sections.
#[cycle(lines)]
fn put_nodes<O: ByteOut>(nodes: &[Node], level: u32, sections: &'static [Section], out: &mut O)
    requires shallow { level + depth (forest nodes.now) ≤ deepest_path }
    ensures { PutsAll O.puts out.old (bytes_of_lines (lines false level (map plain_section sections.now)
        (forest nodes.now))) out.new }
{
    let mut left = SectionsLeft::of(sections);
    let mut rest = nodes;
    while let Some((node, later)) = rest.split_first() {
        let row = node.kind().table_row();
        left = left.at(row.sort);
        put_fixed_line(left.lead(), level.saturating_sub(1), out);
        put_node(node, row, level, out);
        left = left.after();
        rest = later;
    }
}

/// Puts the lines of the listing that a node with this row has, without the line before it.
#[cycle(lines)]
fn put_node<O: ByteOut>(node: &Node, row: &Row, level: u32, out: &mut O)
    requires row { plain_row row.now ≡ row_of node.now.label.kind }
    requires shallow { level + depth node.now.inner < deepest_path }
    ensures { PutsAll O.puts out.old (bytes_of_lines (node_lines level node.now)) out.new }
{
    put_blanks(level, out);
    put_segments(row.line, node.parts.as_slice(), out);
    out.put(b'\n');
    put_inner(node.inner.as_slice(), level + 1, row.sections, out);
    put_fixed_line(row.last, level, out);
}

/// Puts the lines of the listing that what stands inside a node has, where something does.
#[cycle(lines)]
#[inline(always)]
fn put_inner<O: ByteOut>(nodes: &[Node], level: u32, sections: &'static [Section], out: &mut O)
    requires shallow { level + depth (forest nodes.now) ≤ deepest_path }
    ensures { PutsAll O.puts out.old (bytes_of_lines (lines false level (map plain_section sections.now)
        (forest nodes.now))) out.new }
{
    if nodes.len() > 0 {
        put_nodes(nodes, level, sections, out);
    }
}

/// Puts the fixed line of the listing that the table of templates has as it stands, if there is one.
#[inline(always)]
fn put_fixed_line<O: ByteOut>(text: Option<&[u8]>, level: u32, out: &mut O)
    ensures { PutsAll O.puts out.old (bytes_of_lines (fixed_line level (option_map (λ bytes. bytes.now) text.entry)))
        out.new }
{
    if let Some(text) = text {
        put_text_line(text, level, out);
    }
}

/// Puts the line of the listing at the level that has this text.
#[inline(never)]
fn put_text_line<O: ByteOut>(text: &[u8], level: u32, out: &mut O)
    ensures { PutsAll O.puts out.old (bytes_of_lines (fixed_line level (Some text.now))) out.new }
{
    put_blanks(level, out);
    put_bytes(text, out);
    out.put(b'\n');
}

/// Puts the blanks before a line of the listing at the level.
fn put_blanks<O: ByteOut>(level: u32, out: &mut O)
    ensures { PutsAll O.puts out.old (replicate (2 * level) 32) out.new }
{
    out.put_repeated(b' ', 2 * level as usize);
}

/// Puts the segments of a line of the listing, with these parts in them.
fn put_segments<O: ByteOut>(segments: &[Segment], parts: &[PhrasePlace], out: &mut O)
    ensures { PutsAll O.puts out.old (segments_text (map plain_segment segments.now)
        (map plain_phrase_place parts.now)) out.new }
{
    let mut left = parts;
    let mut rest = segments;
    while let Some((segment, later)) = rest.split_first() {
        left = put_segment(*segment, left, out);
        rest = later;
    }
}

/// Puts a segment of a line of the listing where these parts are left, and gives back those that are left after it.
fn put_segment<'a, O: ByteOut>(
    segment: Segment,
    parts: &'a [PhrasePlace],
    out: &mut O,
) -> &'a [PhrasePlace]
    ensures text { PutsAll O.puts out.old (segment_text (plain_segment segment) (map plain_phrase_place parts.now))
        out.new }
    ensures left { map plain_phrase_place result.now
        ≡ parts_after (plain_segment segment) (map plain_phrase_place parts.now) }
{
    let category = match segment {
        Segment::Words(bytes) => {
            put_bytes(bytes, out);
            return parts;
        }
        Segment::Part(category) => category,
    };
    let [part, ..] = parts else {
        put_placeholder(category, out);
        return parts;
    };
    put_part(category, part, out);
    &parts[1..]
}

/// Puts what the listing has for a part: its phrase, or the placeholder of its category where it is
/// empty.
fn put_part<O: ByteOut>(category: Category, part: &PhrasePlace, out: &mut O)
    ensures { PutsAll O.puts out.old (part_text category (plain_phrase_place part.now)) out.new }
{
    match part {
        PhrasePlace::Empty => put_placeholder(category, out),
        PhrasePlace::Filled(phrase) => show(phrase, out),
    }
}

/// Puts the placeholder of a part's category.
#[inline(never)]
fn put_placeholder<O: ByteOut>(category: Category, out: &mut O)
    ensures { PutsAll O.puts out.old (placeholder category) out.new }
{
    put_bytes(category.placeholder(), out);
}
