//! What a phrase is, part by part, in signs of its own: braces round each operator with its operands, `[` and
//! `]` round a subscript, `<` and `>` round arguments, and `;` behind each element of a list.
use crate::tell::tell_named;
use case_script::Told;
use plcs_base::{ByteOut, Name, put_bytes};
use plcs_grammar::{Expr, Item, Phrase, VarRef, put_decimal, put_number};

/// Puts the parts of the phrase, behind the word of its variant.
pub fn put_parts(phrase: &Phrase, told: &mut Told) {
    match phrase {
        Phrase::Assignment(target, value) => {
            told.text("Assignment ");
            put_variable(target, told);
            told.text(" := ");
            put_expr(value, told);
        }
        Phrase::Condition(expr) => put_under("Condition ", expr, told),
        Phrase::Expression(expr) => put_under("Expression ", expr, told),
        Phrase::ExpressionList(exprs) => {
            told.text("ExpressionList ");
            put_exprs(exprs, told);
        }
        Phrase::VariableList(variables) => put_variables(variables, told),
        Phrase::Variable(name) => put_name("Variable ", name, told),
        Phrase::CallRef(name, arguments) => {
            put_name("CallRef ", name, told);
            put_exprs(arguments, told);
        }
        Phrase::DeclaredList(items) => put_items(items, told),
        Phrase::ProcedureName(name) => put_name("ProcedureName ", name, told),
        Phrase::NameList(names) => put_names(names, told),
        Phrase::Length(length) => {
            told.text("Length ");
            put_decimal(u32::from(*length), told);
        }
        Phrase::CommentText(text) => tell_named("CommentText", text, told),
    }
}

/// Puts the expression part by part behind a word.
fn put_under(word: &str, expr: &Expr, told: &mut Told) {
    told.text(word);
    put_expr(expr, told);
}

/// Puts a name, as a part of a phrase, behind a word.
fn put_name(word: &str, name: &Name, told: &mut Told) {
    told.text(word);
    put_bytes(name.as_bytes(), told);
}

/// Puts each variable of a list, part by part.
fn put_variables(variables: &[VarRef], told: &mut Told) {
    told.text("VariableList <");
    for variable in variables {
        put_variable(variable, told);
        told.put(b';');
    }
    told.put(b'>');
}

/// Puts each item of a declaration, part by part.
fn put_items(items: &[Item], told: &mut Told) {
    told.text("DeclaredList <");
    for item in items {
        put_bytes(item.name.as_bytes(), told);
        if let Some(size) = item.size {
            told.put(b'[');
            put_decimal(size, told);
            told.put(b']');
        }
        told.put(b';');
    }
    told.put(b'>');
}

/// Puts each of the names, as parts of a phrase.
fn put_names(names: &[Name], told: &mut Told) {
    told.text("NameList <");
    for name in names {
        put_name("", name, told);
        told.put(b';');
    }
    told.put(b'>');
}

/// Puts the expression part by part, in braces round each operator.
#[cycle(parts)]
fn put_expr(expr: &Expr, told: &mut Told) {
    match expr {
        Expr::Number(number) => put_number(*number, told),
        Expr::Text(text) => told.word(text.as_bytes()),
        Expr::Bit(bit) => told.text(if *bit { "Bit(true)" } else { "Bit(false)" }),
        Expr::Var(variable) => put_variable(variable, told),
        Expr::Prefix(op, operand) => {
            told.put(b'{');
            put_bytes(op.sign().bytes(), told);
            put_expr(operand, told);
            told.put(b'}');
        }
        Expr::Infix(op, left, right) => {
            told.put(b'{');
            put_expr(left, told);
            told.put(b' ');
            put_bytes(op.sign().bytes(), told);
            told.put(b' ');
            put_expr(right, told);
            told.put(b'}');
        }
        Expr::Builtin(function, arguments) => {
            told.value(function);
            put_exprs(arguments, told);
        }
        Expr::Paren(inside) => {
            told.put(b'(');
            put_expr(inside, told);
            told.put(b')');
        }
    }
}

/// Puts the variable part by part, with its subscript if it has one.
#[cycle(parts)]
fn put_variable(variable: &VarRef, told: &mut Told) {
    put_bytes(variable.name.as_bytes(), told);
    if let Some(index) = &variable.index {
        told.put(b'[');
        put_expr(index, told);
        told.put(b']');
    }
}

/// Puts each of the expressions, part by part.
#[cycle(parts)]
fn put_exprs(exprs: &[Expr], told: &mut Told) {
    told.put(b'<');
    for expr in exprs {
        put_expr(expr, told);
        told.put(b';');
    }
    told.put(b'>');
}
