//! Room for one more kept node in a list of them, taken before an edit.
ghost use Rattle.std.specs.Prelude.{◌≡◌, ◌^◌, ◌<◌, OnOk, length};
ghost use Rattle.code_patch.specs.CodeForest.{code_nodes};
ghost use Rattle.code_patch.specs.Private.PlainCodeNode.{count_kept, roomless_code_node};
ghost use Rattle.code_patch.specs.Private.PreparedNodes.{LeadsToList, RoomAt};

use crate::code_node::{CodeNode, CodeNodes};
use plcs_base::OutOfMemory;
use prefix_sums::PrefixSums;

impl<W> CodeNode<W> {
    /// Makes room for one more node in the list in which the path ends.
    pub(crate) fn reserve_at(&mut self, way: &[u32]) -> Result<(), OutOfMemory>
        requires few { count_kept self.old.inner < 2 ^ 32 }
        requires there { LeadsToList way.now self.old }
        ensures same { roomless_code_node self.new ≡ roomless_code_node self.old }
        ensures room { OnOk result (RoomAt way.now self.new) }
    {
        let Some((k, rest)) = way.split_first() else {
            return Ok(());
        };
        if rest.is_empty() {
            return self.reserve_one();
        }
        let mut child = self.inner.take(*k as usize);
        let reserved = child.reserve_at(rest);
        self.inner.put(*k as usize, child);
        reserved
    }

    /// Makes room for one more node in the list inside this node.
    pub(crate) fn reserve_one(&mut self) -> Result<(), OutOfMemory>
        requires few { length (code_nodes self.old.inner) < 2 ^ 32 }
        ensures own { self.new.own ≡ self.old.own }
        ensures inner { self.new.inner ≡ self.old.inner }
        ensures room { OnOk result (0 < self.new.spare) }
    {
        reserve_both(&mut self.inner, &mut self.lengths)
    }
}

/// Makes room for one more node in a list of kept nodes, and in the lengths of their codes.
pub(crate) fn reserve_both<W>(
    inner: &mut CodeNodes<W>,
    lengths: &mut PrefixSums,
) -> Result<(), OutOfMemory>
    requires few { length lengths.old.numbers < 2 ^ 32 }
    ensures items { inner.new.items ≡ inner.old.items }
    ensures numbers { lengths.new.numbers ≡ lengths.old.numbers }
    ensures room { OnOk result ((0 < inner.new.spare) × (0 < lengths.new.spare)) }
{
    inner.reserve_one()?;
    lengths.reserve(1)?;
    Ok(())
}
