//! The way from an act, or from the entry of a procedure, to the next place.
ghost use Rattle.std.specs.Prelude.{◌≡◌, ◌≤◌, ◌++◌, [], ◌∷◌, IfOk, IsSome, List, None, OnOk, Some, length, true};
ghost use Rattle.plcs_store.specs.declared.frame.Frame.{Frame};
ghost use Rattle.plcs_store.specs.CellAt.{new_variable, variable_named};
ghost use Rattle.plcs_store.specs.Configuration.{plain_place};
ghost use Rattle.plcs_machine.specs.Fetched.{FetchesAtMost, FetchesBy, fetches_of, result_of};
ghost use Rattle.plcs_machine.specs.Lead.{jump_target};
ghost use Rattle.plcs_machine.specs.Passing.{landing, settle};
ghost use Rattle.plcs_machine.specs.Private.MakingFrame.{EachWay, argument_cell, made_way, with_argument};
ghost use Rattle.plcs_machine.specs.Private.PlainLed.{has_target};

use plcs_base::{ItemType, Name, OutOfMemory, Place, Work};
use plcs_code::{CodeView, Instr};
use plcs_store::{Argument, Cell, Cells, Variable, copy_value, kept_value};
use std::alloc::Global;

/// The place to which only jumps lead from an address, within so many fetches.
pub(crate) fn next_place<W: Work, C: CodeView<W>>(
    code: &C,
    fetches: u32,
    address: u32,
    work: &mut W,
) -> Place
    requires short { length (C.code code.now).instrs ≤ 4294967295 }
    requires settles { IsSome (settle [] (C.code code.now).instrs fetches address None) }
    ensures place { result_of (settle [] (C.code code.now).instrs fetches address None)
        ≡ Some (landing (plain_place result) []) }
    ensures counted { FetchesBy (fetches_of (settle [] (C.code code.now).instrs fetches address None))
        (W.counts work.old) (W.counts work.new) }
{
    let mut left = fetches;
    let mut at = address;
    while left > 0 {
        left -= 1;
        match code.fetch(at, work).instr() {
            Instr::At(place) => return *place,
            Instr::Jump(by) => at = target(at + 1, *by),
            _ => unreachable!(),
        }
    }
    unreachable!()
}

/// The address to which a jump on the way to the next place goes, where the address behind the jump is this.
pub(crate) fn target(next: u32, by: i32) -> u32
    requires inside { has_target next by ≡ true }
    ensures { jump_target next by ≡ Some result }
{
    let Ok(target) = u32::try_from(i64::from(next) + i64::from(by)) else {
        unreachable!()
    };
    target
}

/// The first place of a procedure that is entered at an address, within so many fetches. Its parameters take
/// these arguments in order, and it makes its cells.
pub(crate) fn first_place_in<W: Work, C: CodeView<W>>(
    alloc: Global,
    code: &C,
    fetches: u32,
    address: u32,
    arguments: &[Argument],
    cells: &mut Cells,
    work: &mut W,
) -> Result<Place, OutOfMemory>
    requires short { length (C.code code.now).instrs ≤ 4294967295 }
    requires settles { (frames : List Frame)
        × IsSome (made_way (C.code code.now) fetches address cells.old arguments.now frames) }
    ensures place { IfOk result (λ place.
        EachWay (made_way (C.code code.now) fetches address cells.old arguments.now)
        (λ way. result_of way ≡ Some (landing (plain_place place) cells.new))) }
    ensures counted { OnOk result (EachWay (made_way (C.code code.now) fetches address cells.old arguments.now)
        (λ way. FetchesBy (fetches_of way) (W.counts work.old) (W.counts work.new))) }
    ensures counts { EachWay (made_way (C.code code.now) fetches address cells.old arguments.now)
        (λ way. FetchesAtMost (fetches_of way) (W.counts work.old) (W.counts work.new)) }
{
    let mut left = fetches;
    let mut at = address;
    let mut given = arguments;
    while left > 0 {
        left -= 1;
        match code.fetch(at, work).instr() {
            Instr::At(place) => return Ok(*place),
            Instr::Jump(by) => at = target(at + 1, *by),
            Instr::Param(name, ty) => {
                let Some((argument, others)) = given.split_first() else {
                    unreachable!()
                };
                let Ok(()) = add_parameter(alloc, name, *ty, argument, cells) else {
                    return Err(OutOfMemory);
                };
                given = others;
                at += 1;
            }
            Instr::Cell(name, ty, size) => {
                let Ok(()) = add_unset(alloc, name, *ty, *size, cells) else {
                    return Err(OutOfMemory);
                };
                at += 1;
            }
            _ => unreachable!(),
        }
    }
    unreachable!()
}

/// Adds a parameter of the type for an argument.
fn add_parameter(
    alloc: Global,
    name: &Name,
    ty: ItemType,
    argument: &Argument,
    cells: &mut Cells,
) -> Result<(), OutOfMemory>
    requires there { IsSome (argument_cell ty argument.now) }
    requires new { variable_named name.now cells.old ≡ None }
    ensures { OnOk result (with_argument name.now ty argument.now cells.old ≡ Some cells.new) }
{
    let Ok(parameter) = Variable::scalar(alloc, ty, cell_for(ty, argument)) else {
        return Err(OutOfMemory);
    };
    cells.add(name.copy(), parameter)
}

/// On the way from the entry of a procedure, adds a variable of the type and the size, whose cells aren't set.
pub(crate) fn add_unset(
    alloc: Global,
    name: &Name,
    ty: ItemType,
    size: u32,
    cells: &mut Cells,
) -> Result<(), OutOfMemory>
    requires new { variable_named name.now cells.old ≡ None }
    ensures { OnOk result (cells.new ≡ cells.old ++ (name.now, new_variable ty size) ∷ []) }
{
    let Ok(variable) = Variable::unset(alloc, ty, size) else {
        return Err(OutOfMemory);
    };
    cells.add(name.copy(), variable)
}

/// On the way from the entry of a procedure, the cell that a parameter of the type gets for an argument.
fn cell_for(ty: ItemType, argument: &Argument) -> Cell
    requires there { IsSome (argument_cell ty argument.now) }
    ensures { argument_cell ty argument.now ≡ Some result }
{
    match argument {
        Argument::Reference(location) => Cell::Ref(location.copy()),
        Argument::Dummy(value) => match kept_value(ty, copy_value(value)) {
            None => unreachable!(),
            Some(kept) => Cell::Held(kept),
        },
    }
}
