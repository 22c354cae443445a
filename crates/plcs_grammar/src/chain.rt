//! Chains of operators along their left operands.
ghost use Rattle.std.specs.Prelude.{◌≡◌, ◌≤◌};
ghost use Rattle.plcs_grammar.specs.declared.expr.Expr.{size-Expr};
ghost use Rattle.plcs_grammar.specs.PlainPhrase.{plain_expr};
ghost use Rattle.plcs_grammar.specs.Private.Chain.{leftmost};

use crate::expr::Expr;

/// How many operators the expression has along its left operands, or the greatest number where they
/// are more.
///
/// What is shown doesn't depend on it: a smaller number would only cost more stack.
pub(crate) fn count_operators(expr: &Expr) -> u32 {
    let mut count: u32 = 0;
    let mut at = expr;
    while let Expr::Infix(_, left, _) = at {
        count = count.saturating_add(1);
        at = left;
    }
    count
}

/// The expression that is reached by going to the left operand so many times, or as far as there is one.
pub(crate) fn leftmost(expr: &Expr, times: u32) -> &Expr
    ensures plain { plain_expr result.now ≡ leftmost (plain_expr expr.now) times }
    ensures size { size-Expr result.now ≤ size-Expr expr.now }
{
    let mut at = expr;
    let mut left_over = times;
    while left_over > 0 {
        match at {
            Expr::Infix(_, left, _) => at = left,
            _ => return at,
        }
        left_over -= 1;
    }
    at
}
