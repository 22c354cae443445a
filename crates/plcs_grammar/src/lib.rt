//! The grammar of PL/CS: phrases, the templates that hold them, and what stands for a phrase that
//! isn't there yet.
#![tactic(auto)]

mod builtin;
mod category;
mod chain;
mod constant;
mod copying;
mod expr;
mod expr_copy;
mod expr_equality;
mod item;
mod length_out;
mod limit;
mod node_kind;
mod operator;
mod phrase;
mod phrase_equality;
mod row;
mod separator;
mod show_expr;
mod show_joined;
mod show_phrase;
mod shown_text_laws;
mod sign;
mod template;
mod trimmed_text;

pub use builtin::Builtin;
pub use category::Category;
pub use constant::{numeral_value, put_bit, put_decimal, put_number, put_quoted};
pub use copying::copy_phrase;
pub use expr::{Expr, VarRef};
pub use item::Item;
pub use length_out::shown_len;
pub use limit::{GREATEST_NESTING, GREATEST_NUMBER};
pub use node_kind::{NodeKind, Sort};
pub use operator::{InfixOp, PrefixOp};
pub use phrase::Phrase;
pub use phrase_equality::same_phrase;
pub use row::{Amount, Row, Section, Segment, program_sections};
pub use show_phrase::show;
pub use shown_text_laws::canonical_texts_show;
pub use sign::Sign;
pub use template::Template;
pub use trimmed_text::trimmed;
