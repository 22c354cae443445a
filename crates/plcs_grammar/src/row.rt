//! The table of templates: for each kind of node what is written, and what stands inside it.
//!
//! Nothing else states a template's text or its parts.
ghost use Rattle.std.specs.Prelude.{◌≡◌, map, option_map};
ghost use Rattle.plcs_grammar.specs.Template.{is_command, plain_row, plain_section, program_sections, row_of, template_of, template_row};

use crate::category::{Category, STATEMENT_HOLE_WORD};
use crate::node_kind::{NodeKind, Sort};
use crate::template::Template;

/// A segment of a template's first line.
#[derive(Clone, Copy, Debug)]
pub enum Segment {
    /// Bytes as they stand.
    Words(&'static [u8]),
    /// A part that holds a phrase of the category.
    Part(Category),
}

/// How many items a section of a template holds.
#[derive(Clone, Copy, Debug, PartialEq, Eq)]
pub enum Amount {
    /// Exactly one item.
    One,
    /// A list of one item or more.
    Many,
}

/// What stands inside a template's node in one stretch.
#[derive(Clone, Copy, Debug)]
pub struct Section {
    /// The line before the section, at the node's level, if there is one.
    pub lead: Option<&'static [u8]>,
    /// The sort of the section's items.
    pub sort: Sort,
    /// How many items the section holds.
    pub amount: Amount,
}

/// A row of the table of templates.
#[derive(Clone, Copy, Debug)]
pub struct Row {
    /// The sort of the node.
    pub sort: Sort,
    /// The word of the command that fills a hole with it; a point stands before it.
    pub command: Option<&'static [u8]>,
    /// The node's first line. Parts are numbered from 0 in the order of the segments.
    pub line: &'static [Segment],
    /// What stands inside the node, one level deeper.
    pub sections: &'static [Section],
    /// The node's last line, at its own level, if it has one.
    pub last: Option<&'static [u8]>,
}

impl NodeKind {
    /// The row of the table for a node of this kind.
    pub fn row(self) -> Row
        ensures { plain_row result ≡ row_of self }
    {
        *self.table_row()
    }

    /// The row for a node of this kind as it stands in the table.
    pub fn table_row(self) -> &'static Row
        ensures { plain_row result.now ≡ row_of self }
    {
        match self {
            NodeKind::DeclarationHole => &DECLARATION_HOLE,
            NodeKind::StatementHole => &STATEMENT_HOLE,
            NodeKind::ProcedureHole => &PROCEDURE_HOLE,
            NodeKind::Main => &MAIN,
            NodeKind::Assign => &ASSIGN,
            NodeKind::Filled(template) => template.row(),
        }
    }
}

/// Whether a row of the table of templates has the word as that of its command, if it has one.
fn is_command(word: &[u8], command: Option<&[u8]>) -> bool
    ensures { result ≡ is_command word.now (option_map (λ own. own.now) command.entry) }
{
    match command {
        Some(own) => word == own,
        None => false,
    }
}

/// All templates, in the order of the table.
const TEMPLATES: [Template; 17] = [
    Template::Fixed,
    Template::Bit,
    Template::Char,
    Template::If,
    Template::IfElse,
    Template::While,
    Template::For,
    Template::Until,
    Template::Group,
    Template::Get,
    Template::Put,
    Template::PutSkip,
    Template::Call,
    Template::Return,
    Template::Comment,
    Template::Proc,
    Template::ProcP,
];

impl Template {
    /// Looks a word up in the table of templates: the template in whose row it is the command, behind a point,
    /// or `None` where it is in none.
    #[tactic(auto, unfolding(crate::specs::Template::template_of))]
    pub fn read(word: &[u8]) -> Option<Template>
        ensures { result ≡ template_of word.now }
    {
        TEMPLATES
            .iter()
            .copied()
            .find(|template| is_command(word, template.row().command))
    }

    /// The row of the table for a node that is filled with this template.
    fn row(self) -> &'static Row
        ensures { plain_row result.now ≡ template_row self }
    {
        match self {
            Template::Fixed => &FIXED,
            Template::Bit => &BIT,
            Template::Char => &CHAR,
            Template::If => &IF,
            Template::IfElse => &IF_ELSE,
            Template::While => &WHILE,
            Template::For => &FOR,
            Template::Until => &UNTIL,
            Template::Group => &GROUP,
            Template::Get => &GET,
            Template::Put => &PUT,
            Template::PutSkip => &PUT_SKIP,
            Template::Call => &CALL,
            Template::Return => &RETURN,
            Template::Comment => &COMMENT,
            Template::Proc => &PROC,
            Template::ProcP => &PROC_P,
        }
    }
}

/// What stands inside a program, which has no row in the table: main, and a list of procedures.
pub fn program_sections() -> &'static [Section]
    ensures { map plain_section result.now ≡ program_sections }
{
    PROGRAM
}

/// The sections of a program, beside the table of templates.
const PROGRAM: &[Section] = &[
    Section {
        lead: None,
        sort: Sort::Main,
        amount: Amount::One,
    },
    Section {
        lead: None,
        sort: Sort::Procedure,
        amount: Amount::Many,
    },
];

/// A section of a template: one declaration or more.
const LIST_OF_DECLARATIONS: Section = Section {
    lead: None,
    sort: Sort::Declaration,
    amount: Amount::Many,
};

/// A section of a template: one statement or more.
const LIST_OF_STATEMENTS: Section = Section {
    lead: None,
    sort: Sort::Statement,
    amount: Amount::Many,
};

/// A section of a template: one statement.
const BODY: Section = Section {
    lead: None,
    sort: Sort::Statement,
    amount: Amount::One,
};

/// A section of a template: one statement behind a line ELSE.
const ELSE_BODY: Section = Section {
    lead: Some(b"ELSE"),
    sort: Sort::Statement,
    amount: Amount::One,
};

/// The sections of templates that stand inside a procedure.
const BLOCK: &[Section] = &[LIST_OF_DECLARATIONS, LIST_OF_STATEMENTS];

/// The last line of each template that encloses a list.
const CLOSING: Option<&[u8]> = Some(b"END;");

/// The row of the template for a declaration of whole numbers.
static FIXED: Row = Row {
    sort: Sort::Declaration,
    command: Some(b"fixed"),
    line: &[
        Segment::Words(b"DECLARE ( "),
        Segment::Part(Category::DeclaredList),
        Segment::Words(b" ) FIXED;"),
    ],
    sections: &[],
    last: None,
};

/// The row of the template for a declaration of bits.
static BIT: Row = Row {
    sort: Sort::Declaration,
    command: Some(b"bit"),
    line: &[
        Segment::Words(b"DECLARE ( "),
        Segment::Part(Category::DeclaredList),
        Segment::Words(b" ) BIT;"),
    ],
    sections: &[],
    last: None,
};

/// The row of the template for a declaration of texts.
static CHAR: Row = Row {
    sort: Sort::Declaration,
    command: Some(b"char"),
    line: &[
        Segment::Words(b"DECLARE ( "),
        Segment::Part(Category::DeclaredList),
        Segment::Words(b" ) CHARACTER ( "),
        Segment::Part(Category::Length),
        Segment::Words(b" ) VARYING;"),
    ],
    sections: &[],
    last: None,
};

/// The row of the template for an IF without ELSE.
static IF: Row = Row {
    sort: Sort::Statement,
    command: Some(b"if"),
    line: &[
        Segment::Words(b"IF ( "),
        Segment::Part(Category::Condition),
        Segment::Words(b" ) THEN"),
    ],
    sections: &[BODY],
    last: None,
};

/// The row of the template for an IF with ELSE.
static IF_ELSE: Row = Row {
    sort: Sort::Statement,
    command: Some(b"ifelse"),
    line: &[
        Segment::Words(b"IF ( "),
        Segment::Part(Category::Condition),
        Segment::Words(b" ) THEN"),
    ],
    sections: &[BODY, ELSE_BODY],
    last: None,
};

/// The row of the template for a loop with a condition.
static WHILE: Row = Row {
    sort: Sort::Statement,
    command: Some(b"while"),
    line: &[
        Segment::Words(b"DO WHILE ( "),
        Segment::Part(Category::Condition),
        Segment::Words(b" );"),
    ],
    sections: &[LIST_OF_STATEMENTS],
    last: CLOSING,
};

/// The row of the template for a loop that counts.
static FOR: Row = Row {
    sort: Sort::Statement,
    command: Some(b"for"),
    line: &[
        Segment::Words(b"DO "),
        Segment::Part(Category::Variable),
        Segment::Words(b" = "),
        Segment::Part(Category::Expression),
        Segment::Words(b" TO "),
        Segment::Part(Category::Expression),
        Segment::Words(b" BY "),
        Segment::Part(Category::Expression),
        Segment::Words(b";"),
    ],
    sections: &[LIST_OF_STATEMENTS],
    last: CLOSING,
};

/// The row of the template for a loop that tests its condition behind what is inside.
static UNTIL: Row = Row {
    sort: Sort::Statement,
    command: Some(b"until"),
    line: &[
        Segment::Words(b"DO UNTIL ( "),
        Segment::Part(Category::Condition),
        Segment::Words(b" );"),
    ],
    sections: &[LIST_OF_STATEMENTS],
    last: CLOSING,
};

/// The row of the template for a group.
static GROUP: Row = Row {
    sort: Sort::Statement,
    command: Some(b"group"),
    line: &[Segment::Words(b"DO;")],
    sections: &[LIST_OF_STATEMENTS],
    last: CLOSING,
};

/// The row of the template for a GET.
static GET: Row = Row {
    sort: Sort::Statement,
    command: Some(b"get"),
    line: &[
        Segment::Words(b"GET LIST ( "),
        Segment::Part(Category::VariableList),
        Segment::Words(b" );"),
    ],
    sections: &[],
    last: None,
};

/// The row of the template for a PUT.
static PUT: Row = Row {
    sort: Sort::Statement,
    command: Some(b"put"),
    line: &[
        Segment::Words(b"PUT LIST ( "),
        Segment::Part(Category::ExpressionList),
        Segment::Words(b" );"),
    ],
    sections: &[],
    last: None,
};

/// The row of the template for a PUT on a new line.
static PUT_SKIP: Row = Row {
    sort: Sort::Statement,
    command: Some(b"puts"),
    line: &[
        Segment::Words(b"PUT SKIP LIST ( "),
        Segment::Part(Category::ExpressionList),
        Segment::Words(b" );"),
    ],
    sections: &[],
    last: None,
};

/// The row of the template for a call.
static CALL: Row = Row {
    sort: Sort::Statement,
    command: Some(b"call"),
    line: &[
        Segment::Words(b"CALL "),
        Segment::Part(Category::CallRef),
        Segment::Words(b";"),
    ],
    sections: &[],
    last: None,
};

/// The row of the template for a RETURN.
static RETURN: Row = Row {
    sort: Sort::Statement,
    command: Some(b"return"),
    line: &[Segment::Words(b"RETURN;")],
    sections: &[],
    last: None,
};

/// The row of the template for a comment with its refinement.
static COMMENT: Row = Row {
    sort: Sort::Statement,
    command: Some(b"comment"),
    line: &[
        Segment::Words(b"/* "),
        Segment::Part(Category::CommentText),
        Segment::Words(b" */"),
    ],
    sections: &[LIST_OF_STATEMENTS],
    last: None,
};

/// The row of the template for a procedure without parameters.
static PROC: Row = Row {
    sort: Sort::Procedure,
    command: Some(b"proc"),
    line: &[
        Segment::Part(Category::ProcedureName),
        Segment::Words(b": PROCEDURE;"),
    ],
    sections: BLOCK,
    last: CLOSING,
};

/// The row of the template for a procedure with parameters.
static PROC_P: Row = Row {
    sort: Sort::Procedure,
    command: Some(b"procp"),
    line: &[
        Segment::Part(Category::ProcedureName),
        Segment::Words(b": PROCEDURE ( "),
        Segment::Part(Category::NameList),
        Segment::Words(b" );"),
    ],
    sections: BLOCK,
    last: CLOSING,
};

/// The row of the table of templates for a hole for a declaration.
static DECLARATION_HOLE: Row = Row {
    sort: Sort::Declaration,
    command: None,
    line: &[Segment::Words(b"{declaration}")],
    sections: &[],
    last: None,
};

/// The row of the table of templates for a hole for a statement.
static STATEMENT_HOLE: Row = Row {
    sort: Sort::Statement,
    command: None,
    line: &[Segment::Words(STATEMENT_HOLE_WORD)],
    sections: &[],
    last: None,
};

/// The row of the table of templates for a hole for a procedure.
static PROCEDURE_HOLE: Row = Row {
    sort: Sort::Procedure,
    command: None,
    line: &[Segment::Words(b"{procedure}")],
    sections: &[],
    last: None,
};

/// The row of the table of templates for main.
static MAIN: Row = Row {
    sort: Sort::Main,
    command: None,
    line: &[Segment::Words(b"main: PROCEDURE OPTIONS ( MAIN );")],
    sections: BLOCK,
    last: CLOSING,
};

/// The row of the table of templates for an assignment.
static ASSIGN: Row = Row {
    sort: Sort::Statement,
    command: None,
    line: &[Segment::Part(Category::Assignment), Segment::Words(b";")],
    sections: &[],
    last: None,
};
