//! Phrases as they are shown.
ghost use Rattle.plcs_base.specs.Put.{PutsAll};
ghost use Rattle.plcs_grammar.specs.PlainPhrase.{plain_phrase, plain_exprs};
ghost use Rattle.plcs_grammar.specs.Canon.{Canon, canon_call};

use crate::constant::put_decimal;
use crate::expr::Expr;
use crate::phrase::Phrase;
use crate::show_expr::{show_expr, show_exprs, show_variable};
use crate::show_joined::show_joined;
use plcs_base::{ByteOut, Name, put_bytes};

/// Puts the canonical text of a phrase, as `specs/Canon.antt` defines it.
///
/// It takes no memory, and little stack also where a chain of operators is long.
pub fn show<O: ByteOut>(phrase: &Phrase, out: &mut O)
    ensures { PutsAll O.puts out.old (Canon (plain_phrase phrase.now)) out.new }
{
    match phrase {
        Phrase::Assignment(target, value) => {
            show_variable(target, out);
            put_bytes(b" = ", out);
            show_expr(value, out);
        }
        Phrase::Condition(expr) => show_expr(expr, out),
        Phrase::Expression(expr) => show_expr(expr, out),
        Phrase::ExpressionList(exprs) => show_exprs(exprs, out),
        Phrase::VariableList(targets) => show_joined(targets, out),
        Phrase::Variable(name) => put_bytes(name.as_bytes(), out),
        Phrase::CallRef(name, arguments) => show_call(name, arguments, out),
        Phrase::DeclaredList(items) => show_joined(items, out),
        Phrase::ProcedureName(name) => put_bytes(name.as_bytes(), out),
        Phrase::NameList(names) => show_joined(names, out),
        Phrase::Length(length) => put_decimal(u32::from(*length), out),
        Phrase::CommentText(text) => put_bytes(text, out),
    }
}

/// Puts the canonical text of a phrase that is a call of a procedure.
fn show_call<O: ByteOut>(name: &Name, arguments: &[Expr], out: &mut O)
    ensures { PutsAll O.puts out.old (canon_call name.now (plain_exprs arguments.now)) out.new }
{
    put_bytes(name.as_bytes(), out);
    if !arguments.is_empty() {
        out.put(b'(');
        show_exprs(arguments, out);
        out.put(b')');
    }
}
