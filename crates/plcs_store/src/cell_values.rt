//! Which cells variables stand for, what is read from them, and what they keep of a value. None of it takes memory.
ghost use Rattle.std.specs.Prelude.{◌≡◌, ◌<◌, take};
ghost use Rattle.plcs_base.specs.declared.declared.ItemType.{ItemType};
ghost use Rattle.plcs_store.specs.CellAt.{final_location, kept_at, kept_value, located, newest, own_location, stands_for, value_at, value_in_cell};
ghost use Rattle.plcs_store.specs.Limit.{most_frames};
ghost use Rattle.plcs_store.specs.Outcome.{answer_outcome, if_there};

use crate::cell::{Cell, Location};
use crate::fault_kind::FaultKind;
use crate::frames::Frames;
use plcs_base::{ItemType, Name, TextValue, Value};

impl Frames {
    /// For which location a variable of the newest frame finally stands, with this subscript or none; `None`
    /// where there is no such cell.
    pub fn located(
        &self,
        name: &Name,
        subscript: Option<i32>,
    ) -> Result<Option<Location>, FaultKind>
        ensures { answer_outcome result ≡ located self.now name.now subscript }
    {
        match self.variable(self.newest_number(), name) {
            None => Ok(None),
            Some(variable) => match variable.element(subscript) {
                Err(kind) => Err(kind),
                Ok(element) => Ok(self.final_location(name, element)),
            },
        }
    }

    /// Which cell this one of a variable of the newest frame stands for in the end, as a location, or `None`
    /// where there is no such cell.
    fn final_location(&self, name: &Name, element: u32) -> Option<Location>
        ensures { result ≡ final_location self.now (own_location self.now name.now element) }
    {
        let own = Location {
            frame: self.newest_number() as u8,
            name: name.copy(),
            element,
        };
        match self.cell(&own) {
            None => None,
            Some(cell) => Some(stands_for(own, cell)),
        }
    }

    /// The frame in which the cells are that variables stand for: the number of the newest, counted from 0 at
    /// main's; 0 also where there is none.
    fn newest_number(&self) -> usize
        ensures number { result ≡ newest self.now }
        ensures few { result < most_frames }
    {
        self.as_slice().len().saturating_sub(1)
    }

    /// A copy of the value that is read at a location; `None` where no cell is there, or one that stands for
    /// another.
    pub fn value_at(&self, location: &Location) -> Result<Option<Value>, FaultKind>
        ensures { answer_outcome result ≡ value_at self.now location.now }
    {
        match self.cell(location) {
            None => Ok(None),
            Some(cell) => value_in_cell(cell),
        }
    }

    /// The value as the cell at a location keeps it; `None` where no variable is there, or one of another kind.
    pub fn kept_at(&self, location: &Location, value: Value) -> Option<Value>
        ensures { if_there result ≡ kept_at self.now location.now value }
    {
        match self.variable(usize::from(location.frame), &location.name) {
            None => None,
            Some(variable) => kept_value(variable.ty, value),
        }
    }
}

/// For which location a cell stands: its own, or the one that it refers to.
fn stands_for(own: Location, cell: &Cell) -> Location
    ensures { result ≡ stands_for own cell.now }
{
    match cell {
        Cell::Unset => own,
        Cell::Held(_) => own,
        Cell::Ref(location) => location.copy(),
    }
}

/// What is read from a variable's cell: a copy of its value, or `None` where the cell stands for another.
fn value_in_cell(cell: &Cell) -> Result<Option<Value>, FaultKind>
    ensures { answer_outcome result ≡ value_in_cell cell.now }
{
    match cell {
        Cell::Unset => Err(FaultKind::Uninitialized),
        Cell::Held(value) => Ok(Some(copy_value(value))),
        Cell::Ref(_) => Ok(None),
    }
}

/// The same value, as it is read from a cell.
pub fn copy_value(value: &Value) -> Value
    ensures { result ≡ value.now }
{
    match value {
        Value::Fixed(number) => Value::Fixed(*number),
        Value::Bit(bit) => Value::Bit(*bit),
        Value::Text(text) => Value::Text(first_bytes(text, text.as_bytes().len())),
    }
}

/// The value as a cell of the type keeps it, or `None` where it is of another kind: of a text as many first bytes
/// as the type has.
pub fn kept_value(ty: ItemType, value: Value) -> Option<Value>
    ensures { result ≡ kept_value ty value }
{
    match ty {
        ItemType::Fixed => kept_fixed(value),
        ItemType::Bit => kept_bit(value),
        ItemType::Text(length) => kept_text(length, value),
    }
}

/// The value as a cell of whole numbers keeps it.
fn kept_fixed(value: Value) -> Option<Value>
    ensures { result ≡ kept_value ItemType.Fixed value }
{
    match value {
        Value::Fixed(number) => Some(Value::Fixed(number)),
        Value::Bit(_) => None,
        Value::Text(_) => None,
    }
}

/// The value as a cell of truth values keeps it.
fn kept_bit(value: Value) -> Option<Value>
    ensures { result ≡ kept_value ItemType.Bit value }
{
    match value {
        Value::Fixed(_) => None,
        Value::Bit(bit) => Some(Value::Bit(bit)),
        Value::Text(_) => None,
    }
}

/// The value as a cell of texts of at most so many bytes keeps it.
fn kept_text(length: u16, value: Value) -> Option<Value>
    ensures { result ≡ kept_value (ItemType.Text length) value }
{
    match value {
        Value::Fixed(_) => None,
        Value::Bit(_) => None,
        Value::Text(text) => Some(Value::Text(first_bytes(&text, usize::from(length)))),
    }
}

/// The first so many bytes of a text, as many as a cell keeps, or all of a shorter one.
fn first_bytes(text: &TextValue, count: usize) -> TextValue
    ensures { result ≡ take count text.now }
{
    let bytes = text.as_bytes();
    let first = if count < bytes.len() {
        &bytes[..count]
    } else {
        bytes
    };
    let Some(copy) = TextValue::read(first) else {
        unreachable!()
    };
    copy
}
