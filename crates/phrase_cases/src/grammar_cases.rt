//! Cases on built-in functions, signs, constants, blanks at the ends of texts, placeholders and templates.
use crate::tell::{named, tell_named};
use case_script::{Told, number_of};
use plcs_base::{ByteOut, put_bytes};
use plcs_grammar::{
    Builtin, Category, InfixOp, PrefixOp, Sign, Template, numeral_value, put_bit, put_decimal,
    put_number, put_quoted, trimmed,
};

/// All categories, as cases on placeholders name them.
static CATEGORIES: [Category; 12] = [
    Category::Assignment,
    Category::Condition,
    Category::Expression,
    Category::ExpressionList,
    Category::VariableList,
    Category::Variable,
    Category::CallRef,
    Category::DeclaredList,
    Category::ProcedureName,
    Category::NameList,
    Category::Length,
    Category::CommentText,
];

/// The operators that stand before an operand, of all of which a case on signs tells.
static PREFIXES: [PrefixOp; 3] = [PrefixOp::Plus, PrefixOp::Minus, PrefixOp::Not];

/// The operators that stand between operands, of all of which a case on signs tells.
static INFIXES: [InfixOp; 13] = [
    InfixOp::Or,
    InfixOp::And,
    InfixOp::Equal,
    InfixOp::NotEqual,
    InfixOp::Less,
    InfixOp::LessEqual,
    InfixOp::Greater,
    InfixOp::GreaterEqual,
    InfixOp::Join,
    InfixOp::Plus,
    InfixOp::Minus,
    InfixOp::Times,
    InfixOp::Divide,
];

/// The category that the word of a case on placeholders names.
pub fn category_of(word: &[u8], told: &Told) -> Option<Category> {
    named(told.alloc(), &CATEGORIES, word)
}

/// Answers a case on built-in functions: the one that has the name.
pub fn put_builtin(name: &[u8], told: &mut Told) -> Option<()> {
    match Builtin::read(name) {
        Some(function) => {
            told.value(&function);
            tell_named("", function.name(), told);
        }
        None => told.text("None"),
    }
    Some(())
}

/// Answers a case on signs: the one that is written so.
pub fn put_sign(bytes: &[u8], told: &mut Told) -> Option<()> {
    match Sign::read(bytes) {
        Some(sign) => put_sign_bytes(sign, told),
        None => told.text("None"),
    }
    Some(())
}

/// Answers a case on signs: the sign, and how it is written.
fn put_sign_bytes(sign: Sign, told: &mut Told) {
    told.value(&sign);
    tell_named("", sign.bytes(), told);
}

/// Answers a case on signs: each operator with its sign, a line each.
pub fn put_operators(told: &mut Told) -> Option<()> {
    told.text("prefix operators");
    for op in &PREFIXES {
        told.put(b'\n');
        told.value(op);
        told.text(": ");
        put_sign_bytes(op.sign(), told);
    }
    told.text("\ninfix operators");
    for op in &INFIXES {
        told.put(b'\n');
        told.value(op);
        told.text(": ");
        put_sign_bytes(op.sign(), told);
    }
    Some(())
}

/// Answers a case on constants: a number from 0 to 4294967295 as it is written.
pub fn put_decimal_digits(word: &[u8], told: &mut Told) -> Option<()> {
    put_decimal(number_of(word)?, told);
    Some(())
}

/// Answers a case on constants: a number with a sign as it is written.
pub fn put_signed(word: &[u8], told: &mut Told) -> Option<()> {
    put_number(integer_of(word)?, told);
    Some(())
}

/// The number that the digits of a case on constants are, or a minus and digits.
pub fn integer_of(word: &[u8]) -> Option<i32> {
    let (negative, digits) = match word {
        [b'-', digits @ ..] => (true, digits),
        digits => (false, digits),
    };
    let number = i64::from(number_of(digits)?);
    i32::try_from(if negative { -number } else { number }).ok()
}

/// Answers a case on constants: the character constant of this value.
pub fn put_quoted_constant(value: &[u8], told: &mut Told) -> Option<()> {
    put_quoted(value, told);
    Some(())
}

/// Answers a case on constants: the bit constant of this value, which is `true` or `false`.
pub fn put_bit_constant(word: &[u8], told: &mut Told) -> Option<()> {
    put_bit(named(told.alloc(), &[false, true], word)?, told);
    Some(())
}

/// Answers a case on constants: the number that digits write.
pub fn put_numeral_value(digits: &[u8], told: &mut Told) -> Option<()> {
    told.value(&numeral_value(digits));
    Some(())
}

/// Answers a case on blanks: the text without those at its ends.
pub fn put_trimmed(text: &[u8], told: &mut Told) -> Option<()> {
    told.word(trimmed(text));
    Some(())
}

/// Answers a case on placeholders: that of a category, and its word.
pub fn put_placeholder(word: &[u8], told: &mut Told) -> Option<()> {
    let category = category_of(word, told)?;
    put_bytes(category.placeholder(), told);
    tell_named("", category.placeholder_word(), told);
    Some(())
}

/// Answers a case on templates: the one whose command has the word.
pub fn put_template(word: &[u8], told: &mut Told) -> Option<()> {
    told.value(&Template::read(word));
    Some(())
}
