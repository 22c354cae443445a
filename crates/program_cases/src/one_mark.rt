//! A mark by hand, for the one phrase that a case names.

use plcs_base::{MarkKind, Marked, PhraseAt};
use std::cmp::Ordering;

/// The marks of a program in which one phrase is undeclared.
#[derive(Drop)]
pub struct OneMark(pub PhraseAt);

impl Marked for OneMark {
    ghost use Rattle.std.specs.Prelude.{◌≡◌};
    ghost use Rattle.std.specs.FinMap.{empty, insert};
    ghost use Rattle.plcs_base.specs.declared.mark.MarkKind.TheVariants.{Undeclared};

    ghost marks = { λ m. insert empty m.0 Undeclared };

    fn mark(&self, at: PhraseAt) -> Option<MarkKind> {
        match at.cmp(&self.0) {
            Ordering::Equal => Some(MarkKind::Undeclared),
            Ordering::Less => None,
            Ordering::Greater => None,
        }
    }
}
