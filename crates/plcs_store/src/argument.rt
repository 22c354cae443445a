//! The arguments of a call.
use crate::cell::Location;
use plcs_base::Value;

/// An argument of a call, once it is evaluated.
#[derive(Debug, Drop, PartialEq, Eq)]
pub enum Argument {
    /// A variable: its parameter will stand for this cell.
    Reference(Location),
    /// A value for a cell of the parameter's own.
    Dummy(Value),
}
