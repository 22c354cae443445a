//! Chains of operators, gone through from their last operator on.
//!
//! What an operator gives does not depend on its operands. So the kind of all that stands to the left of
//! an operator is known before it is looked at, if there is no offence in it.
ghost use Rattle.std.specs.Prelude.{◌≡◌, Ok, Result};
ghost use Rattle.std.specs.Option.{option_or};
ghost use Rattle.plcs_base.specs.declared.mark.MarkKind.{MarkKind};
ghost use Rattle.plcs_base.specs.declared.value.Kind.{Kind};
ghost use Rattle.template_tree.specs.Checks.Verdict.{both_found, infix_found, is_pair, offence_in};
ghost use Rattle.type_marks.specs.Private.Chain.{EndsBefore, chain_end, with_later};

use crate::kind_table::{infix_gives, infix_takes, same_kind};
use plcs_base::{Kind, MarkKind};
use plcs_grammar::InfixOp;

/// An operator of a chain, with what is found in its right operand.
#[derive(Clone, Copy)]
pub(crate) struct Link {
    op: InfixOp,
    right: Result<Kind, MarkKind>,
}

/// The operators of a chain that were gone through: the one that is furthest to the left, the first
/// offence behind it, and the kind that the last one gives.
#[derive(Clone, Copy)]
pub(crate) struct Chain {
    first: Option<Link>,
    later: Option<MarkKind>,
    gives: Kind,
}

impl Chain {
    /// A chain of which no operator was gone through.
    pub(crate) fn new() -> Chain
        ensures { (found : Result Kind MarkKind) → chain_end result found ≡ found }
    {
        Chain {
            first: None,
            later: None,
            gives: Kind::Fixed,
        }
    }

    /// The chain with one more operator before those that were gone through, and what is found in its
    /// right operand.
    pub(crate) fn before(self, op: InfixOp, right: Result<Kind, MarkKind>) -> Chain
        ensures { EndsBefore self op right result }
    {
        let link = Link { op, right };
        match self.first {
            None => Chain {
                first: Some(link),
                later: None,
                gives: infix_gives(op),
            },
            Some(next) => {
                let found = next.found(Ok(infix_gives(op)));
                Chain {
                    first: Some(link),
                    later: first_offence(found, self.later),
                    gives: self.gives,
                }
            }
        }
    }

    /// What is found in the whole chain, where this is found in the operand to the left of it.
    pub(crate) fn end(self, found: Result<Kind, MarkKind>) -> Result<Kind, MarkKind>
        ensures { result ≡ chain_end self found }
    {
        let Some(link) = self.first else {
            return found;
        };
        let Err(offence) = link.found(found) else {
            return whole(self.later, self.gives);
        };
        Err(offence)
    }
}

impl Link {
    /// What is found in one operator of a chain with both operands, where this is found in the left
    /// one.
    fn found(self, left: Result<Kind, MarkKind>) -> Result<Kind, MarkKind>
        ensures { result ≡ both_found left self.right (infix_found self.op) }
    {
        match (left, self.right) {
            (Ok(left), Ok(right)) => infix_found(self.op, left, right),
            (Ok(_), Err(offence)) => Err(offence),
            (Err(offence), _) => Err(offence),
        }
    }
}

/// What is found in an operator of a chain for operands of two kinds: the kind that it gives, where it
/// takes them.
fn infix_found(op: InfixOp, left: Kind, right: Kind) -> Result<Kind, MarkKind>
    ensures { result ≡ infix_found op left right }
{
    if is_pair(infix_takes(op), left, right) {
        Ok(infix_gives(op))
    } else {
        Err(MarkKind::TypeMismatch)
    }
}

/// Whether the kinds of both operands of an operator in a chain are right, where it takes two of this
/// kind, or two of any one kind.
fn is_pair(taken: Option<Kind>, left: Kind, right: Kind) -> bool
    ensures { result ≡ is_pair taken left right }
{
    match taken {
        None => same_kind(left, right),
        Some(kind) => same_kind(kind, left) && same_kind(kind, right),
    }
}

/// The first offence in a chain: the one that is found in an operator, or else the later one behind it.
fn first_offence(found: Result<Kind, MarkKind>, later: Option<MarkKind>) -> Option<MarkKind>
    ensures { result ≡ option_or (offence_in found) later }
{
    match found {
        Ok(_) => later,
        Err(offence) => Some(offence),
    }
}

/// What is found in a whole chain whose operator furthest to the left has no offence: the later one, or
/// else the kind that the last operator gives.
fn whole(later: Option<MarkKind>, gives: Kind) -> Result<Kind, MarkKind>
    ensures { result ≡ with_later later gives (Ok gives) }
{
    match later {
        None => Ok(gives),
        Some(offence) => Err(offence),
    }
}
