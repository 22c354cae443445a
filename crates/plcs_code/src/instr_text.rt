//! Instructions as they are shown.
ghost use Rattle.std.specs.Prelude.{◌≡◌, ◌∷◌, [], codes, decimal, drop, get_or, length};
ghost use Rattle.std.specs.Fmt.{signed_decimal};
ghost use Rattle.plcs_base.specs.Put.{PutsAll};
ghost use Rattle.plcs_code.specs.InstrText.{instr_text, instr_words, spaced, type_text};
ghost use Rattle.plcs_code.specs.PlainInstr.{plain_instr};

use crate::instr::Instr;
use plcs_base::{ByteOut, ItemType, Name, put_bytes};
use plcs_grammar::{put_bit, put_decimal, put_number, put_quoted};

/// Puts the text of an instruction: its word, and then its operands, each behind a blank.
///
/// Names and numbers are put as they are, constants in canonical text, and types as `FIXED`, `BIT` or
/// `CHARACTER 5`. It takes no memory.
pub fn show_instr<O: ByteOut>(instr: &Instr, out: &mut O)
    ensures { PutsAll O.puts out.old (instr_text (plain_instr instr.now)) out.new }
{
    put_bytes(word(instr), out);
    put_operands(instr, out);
}

/// The word with which the text of an instruction begins.
fn word(instr: &Instr) -> &'static [u8]
    ensures { result.now ≡ get_or (instr_words (plain_instr instr.now)) 0 [] }
{
    match instr {
        Instr::At(_) => b"At",
        Instr::SuspendPlaceholder => b"Suspend",
        Instr::SuspendMarked => b"Suspend",
        Instr::PushNumber(_) => b"Push",
        Instr::PushBit(_) => b"Push",
        Instr::PushText(_) => b"Push",
        Instr::Load(_) => b"Load",
        Instr::LoadAt(_) => b"LoadAt",
        Instr::Store(_) => b"Store",
        Instr::StoreAt(_) => b"StoreAt",
        Instr::Prefix(_) => b"Prefix",
        Instr::Infix(_) => b"Infix",
        Instr::Builtin(_, _) => b"Builtin",
        Instr::Jump(_) => b"Jump",
        Instr::JumpFalse(_) => b"JumpFalse",
        Instr::ForEnter(_, _, _) => b"ForEnter",
        Instr::ForNext(_, _, _) => b"ForNext",
        Instr::Get(_) => b"Get",
        Instr::GetAt(_) => b"GetAt",
        Instr::Put(_) => b"Put",
        Instr::PutSkip(_) => b"PutSkip",
        Instr::Ref(_) => b"Ref",
        Instr::RefAt(_) => b"RefAt",
        Instr::Dummy => b"Dummy",
        Instr::Call(_, _) => b"Call",
        Instr::Param(_, _) => b"Param",
        Instr::Cell(_, _, _) => b"Cell",
        Instr::Leave => b"Leave",
    }
}

/// Puts the operands of an instruction, each behind a blank: what is behind the word in its text.
fn put_operands<O: ByteOut>(instr: &Instr, out: &mut O)
    ensures { let word = get_or (instr_words (plain_instr instr.now)) 0 [] in
        PutsAll O.puts out.old (drop (length word) (instr_text (plain_instr instr.now))) out.new }
{
    match instr {
        Instr::At(place) => {
            put_count(place.slot.0, out);
            put_count(place.point.0 as u32, out);
        }
        Instr::SuspendPlaceholder => put_operand(b"Placeholder", out),
        Instr::SuspendMarked => put_operand(b"Marked", out),
        Instr::PushNumber(number) => put_signed(*number, out),
        Instr::PushBit(bit) => {
            out.put(b' ');
            put_bit(*bit, out);
        }
        Instr::PushText(text) => {
            out.put(b' ');
            put_quoted(text.as_bytes(), out);
        }
        Instr::Load(name) => put_name(name, out),
        Instr::LoadAt(name) => put_name(name, out),
        Instr::Store(name) => put_name(name, out),
        Instr::StoreAt(name) => put_name(name, out),
        Instr::Prefix(op) => put_operand(op.sign().bytes(), out),
        Instr::Infix(op) => put_operand(op.sign().bytes(), out),
        Instr::Builtin(function, number) => {
            put_operand(function.name(), out);
            put_count(*number, out);
        }
        Instr::Jump(distance) => put_signed(*distance, out),
        Instr::JumpFalse(distance) => put_signed(*distance, out),
        Instr::ForEnter(slot, name, distance) => put_loop(slot.0, name, *distance, out),
        Instr::ForNext(slot, name, distance) => put_loop(slot.0, name, *distance, out),
        Instr::Get(name) => put_name(name, out),
        Instr::GetAt(name) => put_name(name, out),
        Instr::Put(number) => put_count(*number, out),
        Instr::PutSkip(number) => put_count(*number, out),
        Instr::Ref(name) => put_name(name, out),
        Instr::RefAt(name) => put_name(name, out),
        Instr::Dummy => {}
        Instr::Call(name, number) => {
            put_name(name, out);
            put_count(*number, out);
        }
        Instr::Param(name, ty) => {
            put_name(name, out);
            put_type(*ty, out);
        }
        Instr::Cell(name, ty, number) => {
            put_name(name, out);
            put_type(*ty, out);
            put_count(*number, out);
        }
        Instr::Leave => {}
    }
}

/// Puts an operand of an instruction that is shown as these bytes.
fn put_operand<O: ByteOut>(operand: &[u8], out: &mut O)
    ensures { PutsAll O.puts out.old (32 ∷ operand.now) out.new }
{
    out.put(b' ');
    put_bytes(operand, out);
}

/// Puts an operand of an instruction that is a name.
fn put_name<O: ByteOut>(name: &Name, out: &mut O)
    ensures { PutsAll O.puts out.old (32 ∷ name.now) out.new }
{
    put_operand(name.as_bytes(), out);
}

/// Puts an operand of an instruction that is a number with a sign.
fn put_signed<O: ByteOut>(number: i32, out: &mut O)
    ensures { PutsAll O.puts out.old (32 ∷ signed_decimal number) out.new }
{
    out.put(b' ');
    put_number(number, out);
}

/// Puts the operands of an instruction of a loop that counts.
fn put_loop<O: ByteOut>(slot: u32, name: &Name, distance: i32, out: &mut O)
    ensures { PutsAll O.puts out.old (32 ∷ spaced (decimal slot ∷ (name.now ∷ (signed_decimal distance ∷ []))))
        out.new }
{
    put_count(slot, out);
    put_name(name, out);
    put_signed(distance, out);
}

/// Puts an operand of an instruction that is a number.
fn put_count<O: ByteOut>(number: u32, out: &mut O)
    ensures { PutsAll O.puts out.old (32 ∷ decimal number) out.new }
{
    out.put(b' ');
    put_decimal(number, out);
}

/// Puts an operand of an instruction that is a type.
fn put_type<O: ByteOut>(ty: ItemType, out: &mut O)
    ensures { PutsAll O.puts out.old (32 ∷ type_text ty) out.new }
{
    match ty {
        ItemType::Fixed => put_bytes(b" FIXED", out),
        ItemType::Bit => put_bytes(b" BIT", out),
        ItemType::Text(length) => {
            put_bytes(b" CHARACTER ", out);
            put_decimal(length as u32, out);
        }
    }
}
