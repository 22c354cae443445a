//! Why a call on a tree is refused.
ghost use Rattle.std.specs.Prelude.{◌≡◌};
ghost use Rattle.template_tree.specs.declared.tree_fault.TreeFault.{TreeFault};

use plcs_base::OutOfMemory;

/// Why a call on a tree is refused. Where several of them hold, it is the first of these that is told.
#[derive(Clone, Copy, Debug, PartialEq, Eq)]
pub enum TreeFault {
    /// There is nothing at the path that the call is for.
    NotHere,
    /// A path would have more than 64 numbers.
    TooDeep,
    /// More than 20,000 slots would be live.
    TooLarge,
    /// More than 2,147,483,648 slots would be drawn.
    SlotsUsedUp,
    /// No memory is left.
    OutOfMemory,
}

impl From<OutOfMemory> for TreeFault {
    ghost from_gives = { λ _ e. e ≡ TreeFault.OutOfMemory };

    fn from(_error: OutOfMemory) -> Self {
        TreeFault::OutOfMemory
    }
}
