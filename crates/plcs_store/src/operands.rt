//! The room for what one step works on: the values of its operators, and the arguments of its call.
ghost use Rattle.std.specs.Prelude.{◌≡◌, ◌+◌, ◌<◌, ◌≤◌, drop, length, reverse, slice_get, take, vec_capacity, ◌++◌, [], ◌∷◌, IfNone, IfOk, IfSome, option_map};
ghost use Rattle.plcs_store.specs.Limit.{most_operands};

use crate::argument::Argument;
use crate::limit::MOST_OPERANDS;
use plcs_base::{OutOfMemory, Value};
use std::alloc::Global;
use std::marker::Model;

/// The values on which the operators of a step work, the newest first, which contracts see as a list. There is
/// always room for 400.
#[derive(Drop)]
pub struct OperandValues {
    values: Vec<Value>,
}

impl Model for OperandValues {
    ghost use Rattle.std.specs.Prelude.{List, ◌≤◌, length, reverse, vec_capacity};
    ghost use Rattle.plcs_base.specs.declared.value.Value.{Value as OperandValue};
    ghost use Rattle.plcs_store.specs.Limit.{most_operands};

    ghost Value = { List OperandValue };

    ghost view = { λ a. reverse a.values.items };

    ghost invariant = { λ a. (most_operands ≤ vec_capacity a.values) × (length a.values.items ≤ most_operands) };
}

impl OperandValues {
    /// No values of a step's operators, with room for 400.
    pub fn new(alloc: Global) -> Result<OperandValues, OutOfMemory>
        ensures { IfOk result (λ values. values ≡ []) }
    {
        Ok(OperandValues {
            values: Vec::with_capacity(alloc, MOST_OPERANDS)?,
        })
    }

    /// How many values a step works on.
    pub fn count(&self) -> usize
        ensures { result ≡ length self.now }
    {
        self.values.len()
    }

    /// Puts one more value behind those that a step works on. It takes no memory.
    pub fn push(&mut self, value: Value)
        requires room { length self.old < most_operands }
        ensures { self.new ≡ value ∷ self.old }
    {
        if self.values.push(value).is_err() {
            unreachable!()
        }
    }

    /// Takes the last value off that a step works on, or `None` where there is none.
    pub fn pop(&mut self) -> Option<Value>
        ensures some { IfSome result (λ value. self.old ≡ value ∷ self.new) }
        ensures none { IfNone result ((self.old ≡ []) × (self.new ≡ self.old)) }
    {
        self.values.pop()
    }

    /// The newest of the values that a step works on, so many of them or all, in the order in which they were put:
    /// the newest last.
    pub fn newest(&self, count: usize) -> &[Value]
        ensures { result.now ≡ reverse (take count self.now) }
    {
        &self.values.as_slice()[self.values.len().saturating_sub(count)..]
    }

    /// Takes the newest of the values off that a step works on, so many of them or all.
    pub fn drop_newest(&mut self, count: usize)
        ensures { self.new ≡ drop count self.old }
    {
        self.values
            .truncate(self.values.len().saturating_sub(count));
    }

    /// Takes all values off that a step works on.
    pub fn clear(&mut self)
        ensures { self.new ≡ [] }
    {
        self.values.clear();
    }
}

/// The evaluated arguments of a call on which a step works, the first one first, which contracts see as a list.
/// There is always room for 400.
#[derive(Drop)]
pub struct Arguments {
    arguments: Vec<Argument>,
}

impl Model for Arguments {
    ghost use Rattle.std.specs.Prelude.{List, ◌≤◌, length, vec_capacity};
    ghost use Rattle.plcs_store.specs.declared.argument.Argument.{Argument};
    ghost use Rattle.plcs_store.specs.Limit.{most_operands};

    ghost Value = { List Argument };

    ghost view = { λ a. a.arguments.items };

    ghost invariant = { λ a. (most_operands ≤ vec_capacity a.arguments) × (length a.arguments.items ≤ most_operands) };
}

impl Arguments {
    /// No arguments evaluated in a step, with room for 400.
    pub fn new(alloc: Global) -> Result<Arguments, OutOfMemory>
        ensures { IfOk result (λ arguments. arguments ≡ []) }
    {
        Ok(Arguments {
            arguments: Vec::with_capacity(alloc, MOST_OPERANDS)?,
        })
    }

    /// How many evaluated arguments there are.
    pub fn count(&self) -> usize
        ensures { result ≡ length self.now }
    {
        self.arguments.len()
    }

    /// Puts one more evaluated argument behind the others that a step works on. It takes no memory.
    pub fn push(&mut self, argument: Argument)
        requires room { length self.old < most_operands }
        ensures { self.new ≡ self.old ++ argument ∷ [] }
    {
        if self.arguments.push(argument).is_err() {
            unreachable!()
        }
    }

    /// Takes the last evaluated argument off that a step works on, or `None` where there is none.
    pub fn pop(&mut self) -> Option<Argument>
        ensures some { IfSome result (λ argument. self.old ≡ self.new ++ argument ∷ []) }
        ensures none { IfNone result ((self.old ≡ []) × (self.new ≡ self.old)) }
    {
        self.arguments.pop()
    }

    /// The argument of this number among the evaluated ones that a step works on, counted from 0 at the first,
    /// or `None` where there is none.
    pub fn get(&self, number: usize) -> Option<&Argument>
        ensures { option_map (λ argument. argument.now) result ≡ slice_get self.now number }
    {
        self.arguments.get(number)
    }

    /// Takes all evaluated arguments off that a step works on.
    pub fn clear(&mut self)
        ensures { self.new ≡ [] }
    {
        self.arguments.clear();
    }

    /// The evaluated arguments in order.
    pub fn as_slice(&self) -> &[Argument]
        ensures { result.now ≡ self.now }
    {
        self.arguments.as_slice()
    }
}

/// The room for what one step works on; it is empty between steps.
#[derive(Drop)]
pub struct Operands {
    /// The values on which its operators work.
    pub values: OperandValues,
    /// The arguments of its call.
    pub arguments: Arguments,
}
