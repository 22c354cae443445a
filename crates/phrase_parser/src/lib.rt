//! Texts read as phrases of PL/CS.
//!
//! `parser` is `parse`. `lexer` cuts a text, by the token at its front (`front`), by runs of bytes (`byte_class`)
//! and by the lengths of constants (`constant`); `token` is a token with its place. `check` goes without trees,
//! and `builder` makes them, so their files come in pairs: `check/shape` and `builder/state` are what was read
//! last and is wanted; `check/purpose` and `builder/role` what a name outside of expressions is for;
//! `check/ground` and `builder/base` where an expression stands that is in no other; `check/nesting` and
//! `builder/stack` what is open around an operand. `check/token_class` is what the check looks at of a token,
//! also whether it is a number that is too large. What a sign makes of one of these stands in its own file,
//! though it may make a shape or a state of it. `builder/primary`, `builder/expr`, `builder/lists` and
//! `builder/token_value` make operands, expressions, longer lists and the values of tokens. `fault` is what
//! `parse` answers where a text is refused; `check/finding` what the check finds while it goes over the tokens,
//! which `parser` turns into that fault. After a check the builder stops for want of memory alone. `not_read` is why
//! something wasn't read, for the builder and for the reader of listings above.
#![tactic(auto)]

mod builder;
mod byte_class;
mod check;
mod comment;
mod constant;
mod fault;
mod front;
mod lexer;
mod line_part_laws;
mod line_parts;
mod not_read;
mod operator;
mod parser;
mod reading_laws;
mod token;

pub use fault::PhraseFault;
pub use line_part_laws::{
    cut_texts_join, divided_parts_tell, no_keyword_begins_part, part_ends_at_divider,
    part_has_no_colon,
};
pub use line_parts::cut_at;
pub use not_read::NotRead;
pub use parser::parse;
pub use reading_laws::{
    canonical_text_reads, canonical_text_tells, one_reading, one_standing, over_is_past_limits,
    reading_has_category,
};
