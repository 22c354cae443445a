//! The laws of layouts and of the lines of the screen, each a function that does nothing and whose contract
//! states it.
ghost use Rattle.unparse_layout.specs.Agreement.{LayoutsIgnoreRoom};
ghost use Rattle.unparse_layout.specs.OwnedLine.{OwnedLinesAreLines};

/// The lines with the nodes to which they belong are the lines that are shown.
pub fn owned_lines_are_lines()
    ensures { OwnedLinesAreLines }
{}

/// A layout is that of a tree exactly where it is that of the tree without the room of its lists.
pub fn layouts_ignore_room()
    ensures { LayoutsIgnoreRoom }
{}
