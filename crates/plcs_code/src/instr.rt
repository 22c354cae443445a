//! Instructions.
use plcs_base::{ItemType, Name, Place, Slot, TextValue};
use plcs_grammar::{Builtin, InfixOp, PrefixOp};

/// An instruction of the code of a program.
///
/// A jump's number goes from the instruction behind the jump to the one that comes next.
#[derive(Drop)]
pub enum Instr {
    /// Ends a step of a run, which stands at the place.
    At(Place),
    /// Stops the run, since a phrase isn't there yet.
    SuspendPlaceholder,
    /// Stops the run, since a phrase is marked.
    SuspendMarked,
    /// Pushes a number.
    PushNumber(i32),
    /// Pushes a truth value.
    PushBit(bool),
    /// Pushes a text, which stands in a box, so that an instruction stays small.
    PushText(Box<TextValue>),
    /// Pushes the value of a variable.
    Load(Name),
    /// Pops a subscript, and pushes the value of that cell of an array.
    LoadAt(Name),
    /// Pops a value and stores it into a variable.
    Store(Name),
    /// Pops a value and then a subscript, and stores the value into that cell of an array.
    StoreAt(Name),
    /// Pops an operand, and pushes what the operator makes of it.
    Prefix(PrefixOp),
    /// Pops two operands, and pushes what the operator makes of them.
    Infix(InfixOp),
    /// Pops so many arguments, and pushes what the built-in function makes of them.
    Builtin(Builtin, u32),
    /// Jumps.
    Jump(i32),
    /// Pops a truth value, and jumps where it is false.
    JumpFalse(i32),
    /// Pops a step, a limit and a first value, sets the variable to that, and keeps limit and step for the
    /// loop in the slot. Where the loop is over, it drops them and jumps.
    ForEnter(Slot, Name, i32),
    /// Adds the step that is kept for the loop in the slot to the variable. Where the loop goes on, it
    /// jumps, and else it drops limit and step.
    ForNext(Slot, Name, i32),
    /// Reads an item into a variable.
    Get(Name),
    /// Pops a subscript, and reads an item into that cell of an array.
    GetAt(Name),
    /// Pops so many values and writes them, the first pushed first.
    Put(u32),
    /// Pops so many values and writes them on a new line, the first pushed first.
    PutSkip(u32),
    /// Adds an argument that refers to a variable.
    Ref(Name),
    /// Pops a subscript, and adds an argument that refers to that cell of an array.
    RefAt(Name),
    /// Pops a value and adds it as an argument.
    Dummy,
    /// Makes the frame of the procedure of the name with so many arguments, and goes to its entry.
    Call(Name, u32),
    /// Makes the cell of a parameter of this type, which takes the next argument.
    Param(Name, ItemType),
    /// Makes the unset cells of a name of this type: one where the number is 0, and else as many as it says.
    Cell(Name, ItemType, u32),
    /// Drops the frame and goes on where its caller waits, or ends the run in main.
    Leave,
}
