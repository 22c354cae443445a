//! The tables of kinds: what operators and built-in functions take and give.
ghost use Rattle.std.specs.Prelude.{◌≡◌, length, slice_get};
ghost use Rattle.template_tree.specs.Checks.Verdict.{is_count};
ghost use Rattle.type_marks.specs.Private.Arguments.{taken_of};
ghost use Rattle.template_tree.specs.Checks.KindTable.{builtin_row, infix_gives, infix_takes, prefix_kind, same_kind};
ghost use Rattle.type_marks.specs.Private.PlainBuiltinRow.{plain_builtin_row};

use plcs_base::Kind;
use plcs_grammar::{Builtin, InfixOp, PrefixOp};

/// A row of the table of built-in functions: the kinds that a function takes and gives.
#[derive(Clone, Copy, Debug)]
pub(crate) struct BuiltinRow {
    /// The kinds of its arguments.
    pub(crate) takes: &'static [Kind],
    /// The kind of one more argument that it perhaps takes.
    pub(crate) perhaps: Option<Kind>,
    /// The kind of its value.
    pub(crate) gives: Kind,
}

impl BuiltinRow {
    /// The kind that the row of a built-in function has for the argument of this number, counted from
    /// 0, if it takes so many.
    pub(crate) fn taken(&self, i: usize) -> Option<Kind>
        ensures { result ≡ slice_get (taken_of self.now) i }
    {
        if i == self.takes.len() {
            return self.perhaps;
        }
        self.takes.get(i).copied()
    }

    /// Whether the row of a built-in function allows so many arguments.
    pub(crate) fn is_count(&self, count: usize) -> bool
        ensures { result ≡ is_count (length self.now.takes.now) self.now.perhaps count }
    {
        match self.perhaps {
            None => count == self.takes.len(),
            Some(_) => count == self.takes.len() || count == self.takes.len() + 1,
        }
    }
}

/// Whether two kinds are one, as the tables of kinds tell them apart.
pub(crate) fn same_kind(one: Kind, other: Kind) -> bool
    ensures { result ≡ same_kind one other }
{
    match (one, other) {
        (Kind::Fixed, Kind::Fixed) => true,
        (Kind::Bit, Kind::Bit) => true,
        (Kind::Text, Kind::Text) => true,
        _ => false,
    }
}

/// The kind that a prefix operator takes and gives.
pub(crate) fn prefix_kind(op: PrefixOp) -> Kind
    ensures { result ≡ prefix_kind op }
{
    match op {
        PrefixOp::Plus => Kind::Fixed,
        PrefixOp::Minus => Kind::Fixed,
        PrefixOp::Not => Kind::Bit,
    }
}

/// The kind of which an infix operator takes two, or `None` where it takes two of any one kind.
pub(crate) fn infix_takes(op: InfixOp) -> Option<Kind>
    ensures { result ≡ infix_takes op }
{
    match op {
        InfixOp::Or | InfixOp::And => Some(Kind::Bit),
        InfixOp::Equal
        | InfixOp::NotEqual
        | InfixOp::Less
        | InfixOp::LessEqual
        | InfixOp::Greater
        | InfixOp::GreaterEqual => None,
        InfixOp::Join => Some(Kind::Text),
        InfixOp::Plus | InfixOp::Minus | InfixOp::Times | InfixOp::Divide => Some(Kind::Fixed),
    }
}

/// The kind that an infix operator gives, whatever it takes.
pub(crate) fn infix_gives(op: InfixOp) -> Kind
    ensures { result ≡ infix_gives op }
{
    match op {
        InfixOp::Or
        | InfixOp::And
        | InfixOp::Equal
        | InfixOp::NotEqual
        | InfixOp::Less
        | InfixOp::LessEqual
        | InfixOp::Greater
        | InfixOp::GreaterEqual => Kind::Bit,
        InfixOp::Join => Kind::Text,
        InfixOp::Plus | InfixOp::Minus | InfixOp::Times | InfixOp::Divide => Kind::Fixed,
    }
}

/// The row that a built-in function has in the table of what they take and give.
pub(crate) fn builtin_row(function: Builtin) -> BuiltinRow
    ensures { plain_builtin_row result ≡ builtin_row function }
{
    match function {
        Builtin::Abs => ONE_NUMBER,
        Builtin::Mod => TWO_NUMBERS,
        Builtin::Min => TWO_NUMBERS,
        Builtin::Max => TWO_NUMBERS,
        Builtin::Length => ONE_TEXT,
        Builtin::Substr => PART_OF_TEXT,
        Builtin::Index => TWO_TEXTS,
    }
}

/// The row of functions that give a number for a number.
const ONE_NUMBER: BuiltinRow = BuiltinRow {
    takes: &[Kind::Fixed],
    perhaps: None,
    gives: Kind::Fixed,
};

/// The row of functions that give a number for two.
const TWO_NUMBERS: BuiltinRow = BuiltinRow {
    takes: &[Kind::Fixed, Kind::Fixed],
    perhaps: None,
    gives: Kind::Fixed,
};

/// The row of functions that give a number for a text.
const ONE_TEXT: BuiltinRow = BuiltinRow {
    takes: &[Kind::Text],
    perhaps: None,
    gives: Kind::Fixed,
};

/// The row of functions that give a number for two texts.
const TWO_TEXTS: BuiltinRow = BuiltinRow {
    takes: &[Kind::Text, Kind::Text],
    perhaps: None,
    gives: Kind::Fixed,
};

/// The row of the function that gives a part of a text, from a place on, perhaps of a length.
const PART_OF_TEXT: BuiltinRow = BuiltinRow {
    takes: &[Kind::Text, Kind::Fixed],
    perhaps: Some(Kind::Fixed),
    gives: Kind::Text,
};
