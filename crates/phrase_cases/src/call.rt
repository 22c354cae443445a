//! The calls on phrases and words that a script may name.
use crate::base_cases::{ByteClass, put_class, put_counts, put_name, put_text_value};
use crate::command_cases::{
    put_command, put_command_word, put_file_name, put_message, put_no_message,
};
use crate::grammar_cases::{
    put_bit_constant, put_builtin, put_decimal_digits, put_numeral_value, put_operators,
    put_placeholder, put_quoted_constant, put_sign, put_signed, put_template, put_trimmed,
};
use crate::text_cases::{put_comparison, put_cut, put_number_shown, put_reading};
use case_script::Told;

/// A call of the crates under test, which a script may name.
#[derive(Clone, Copy)]
pub enum Call {
    Class(ByteClass),
    ReadName,
    ReadText,
    Count,
    ReadBuiltin,
    ReadSign,
    Operators,
    PutDecimal,
    PutNumber,
    PutQuoted,
    PutBit,
    NumeralValue,
    Trimmed,
    Placeholder,
    ReadTemplate,
    ShowNumber,
    Parse,
    SamePhrase,
    CutAt,
    ReadCommand,
    CommandWord,
    IsFileName,
    Message,
    NoMessage,
}

/// The calls, each with its word.
pub static CALLS: [(&[u8], Call); 27] = [
    (b"is_letter", Call::Class(ByteClass::Letter)),
    (b"is_digit", Call::Class(ByteClass::Digit)),
    (b"is_name_byte", Call::Class(ByteClass::NameByte)),
    (b"is_printable", Call::Class(ByteClass::Printable)),
    (b"read_name", Call::ReadName),
    (b"read_text", Call::ReadText),
    (b"count", Call::Count),
    (b"read_builtin", Call::ReadBuiltin),
    (b"read_sign", Call::ReadSign),
    (b"operators", Call::Operators),
    (b"put_decimal", Call::PutDecimal),
    (b"put_number", Call::PutNumber),
    (b"put_quoted", Call::PutQuoted),
    (b"put_bit", Call::PutBit),
    (b"numeral_value", Call::NumeralValue),
    (b"trimmed", Call::Trimmed),
    (b"placeholder", Call::Placeholder),
    (b"read_template", Call::ReadTemplate),
    (b"show_number", Call::ShowNumber),
    (b"parse", Call::Parse),
    (b"same_phrase", Call::SamePhrase),
    (b"cut_at", Call::CutAt),
    (b"read_command", Call::ReadCommand),
    (b"command_word", Call::CommandWord),
    (b"is_file_name", Call::IsFileName),
    (b"message", Call::Message),
    (b"no_message", Call::NoMessage),
];

/// Makes this one of the calls on phrases and words, with these arguments, and puts what it answers, if it
/// takes such arguments.
pub fn play(call: Call, arguments: &[Vec<u8>], told: &mut Told) -> Option<()> {
    match (call, arguments) {
        (Call::Class(class), []) => put_class(class, told),
        (Call::Operators, []) => put_operators(told),
        (Call::NoMessage, []) => put_no_message(told),
        (Call::Count, [from, counted @ ..]) => put_counts(from, counted, told),
        (Call::SamePhrase, texts) => put_comparison(texts, told),
        (Call::Parse, [category, text]) => put_reading(category, text, told),
        (Call::CutAt, [text, divider]) => put_cut(text, divider, told),
        (Call::Message, [name, number]) => put_message(name, Some(number), told),
        (_, [argument]) => play_one(call, argument, told),
        _ => None,
    }
}

/// Makes this one of the calls on phrases and words that a script may name, and puts what it answers, if it
/// takes one argument.
fn play_one(call: Call, argument: &[u8], told: &mut Told) -> Option<()> {
    match call {
        Call::ReadName => put_name(argument, told),
        Call::ReadText => put_text_value(argument, told),
        Call::ReadBuiltin => put_builtin(argument, told),
        Call::ReadSign => put_sign(argument, told),
        Call::PutDecimal => put_decimal_digits(argument, told),
        Call::PutNumber => put_signed(argument, told),
        Call::PutQuoted => put_quoted_constant(argument, told),
        Call::PutBit => put_bit_constant(argument, told),
        Call::NumeralValue => put_numeral_value(argument, told),
        Call::Trimmed => put_trimmed(argument, told),
        Call::Placeholder => put_placeholder(argument, told),
        Call::ReadTemplate => put_template(argument, told),
        Call::ShowNumber => put_number_shown(argument, told),
        Call::ReadCommand => put_command(argument, told),
        Call::CommandWord => put_command_word(argument, told),
        Call::IsFileName => put_file_name(argument, told),
        Call::Message => put_message(argument, None, told),
        _ => None,
    }
}
