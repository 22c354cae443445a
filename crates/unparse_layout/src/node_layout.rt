//! What a layout keeps of a node and of the nodes inside it.
ghost use Rattle.std.specs.Prelude.{◌≡◌, ◌+◌, ◌<◌, ◌≤◌, ◌^◌, ◌++◌, ◌∷◌, [], IfOk, OnErr, OnOk, Some, None, length, option_map, slice_get, sum, map, false, vec_capacity, vec_len};
ghost use Rattle.std.specs.Borrow.{LendsIf, sem};
ghost use Rattle.unparse_layout.specs.contracts.node_layout.NodeLayout as node_layout_row;
ghost use Rattle.unparse_layout.specs.contracts.node_layout.NodeLayouts as list_row;
ghost use Rattle.unparse_layout.specs.Bones.{PlainLayout};
ghost use Rattle.unparse_layout.specs.Private.Height.{height, heights, line_count};
ghost use Rattle.unparse_layout.specs.Private.NodeLayoutLend.{with_node_layout_inserted, with_node_layout_removed, with_node_layout_set};
ghost use Rattle.unparse_layout.specs.Private.PlainNodeLayout.{node_layouts, with_last_node_layout};

use plcs_base::{OutOfMemory, Slot};
use plcs_grammar::NodeKind;
use prefix_sums::PrefixSums;
use std::alloc::Global;
use std::marker::Model;

/// What a layout keeps of a node, with how many lines each node inside it has.
#[cycle(node_layout)]
#[derive(Drop)]
pub(crate) struct NodeLayout {
    pub(crate) slot: Slot,
    pub(crate) kind: NodeKind,
    pub(crate) elided: bool,
    pub(crate) led: bool,
    pub(crate) inner: NodeLayouts,
    pub(crate) heights: PrefixSums,
}

/// What a layout keeps of the nodes of a list, in order.
#[cycle(node_layout)]
#[derive(Drop)]
pub(crate) struct NodeLayouts {
    list: Vec<NodeLayout>,
}

impl Model for NodeLayout {
    ghost use Rattle.std.proofs.Common.{arith};
    ghost use Rattle.unparse_layout.specs.Private.BonesCode.{node_layout_code};
    ghost use Rattle.unparse_layout.specs.Private.PlainNodeLayout.{PlainNodeLayout};
    ghost use Rattle.unparse_layout.specs.Private.Weight.{weight};

    ghost Value = { PlainNodeLayout };

    ghost coded = { node_layout_code };

    ghost use Rattle.unparse_layout.specs.Private.NodeLayoutView.{IsRight, seen};

    ghost view = { seen };

    ghost invariant = { IsRight };

    ghost size = { weight };

    ghost size_decreases = { λ a h. omega arith };
}

impl Model for NodeLayouts {
    ghost use Rattle.std.proofs.Common.{arith};
    ghost use Rattle.std.specs.Prelude.{◌-◌, vec_len, vec_capacity};
    ghost use Rattle.unparse_layout.specs.Private.BonesCode.{node_layouts_code};
    ghost use Rattle.unparse_layout.specs.Private.PlainNodeLayout.{PlainNodeLayouts};
    ghost use Rattle.unparse_layout.specs.Private.Weight.{list_weight, most_le_weight};

    ghost Value = { PlainNodeLayouts };

    ghost coded = { node_layouts_code };

    ghost view = { λ a. record { items = a.list.items; spare = vec_capacity a.list - vec_len a.list } };

    ghost size = { list_weight };

    ghost size_decreases = { λ a h. omega (arith, most_le_weight a.list.items) };
}

impl NodeLayout {
    /// What a layout keeps of a node with nothing inside. It takes no memory.
    pub(crate) fn bare(
        alloc: Global,
        slot: Slot,
        kind: NodeKind,
        elided: bool,
        led: bool,
    ) -> NodeLayout
        ensures { result
            ≡ record {
              bone = record { slot = slot.0; kind = kind; elided = elided; led = led };
              inner = PlainLayout.nil;
            } }
    {
        NodeLayout {
            slot,
            kind,
            elided,
            led,
            inner: NodeLayouts::new(alloc),
            heights: PrefixSums::new(alloc),
        }
    }

    /// Puts what a layout keeps of one more node behind those inside this node.
    #[tactic(auto, using(crate::specs::Private::PlainNodeLayout::node_layouts_bones))]
    pub(crate) fn push(&mut self, item: NodeLayout) -> Result<(), OutOfMemory>
        requires few { length (node_layouts self.old.inner) < 2 ^ 32 }
        requires fits { heights self.old.inner + height item < 2 ^ 32 }
        ensures { OnOk result (self.new ≡ with_last_node_layout self.old item) }
    {
        let height = item.height();
        self.heights.reserve(1)?;
        self.inner.push(item)?;
        self.heights.insert(self.heights.len(), height);
        Ok(())
    }

    /// How many lines the nodes inside this node of a layout have.
    pub(crate) fn lines_inside(&self) -> u32
        ensures { result ≡ heights self.now.inner }
    {
        self.heights.total()
    }

    /// How many lines this node of a layout has, the line before it among them.
    pub(crate) fn height(&self) -> u32
        requires fits { height self.now < 2 ^ 32 }
        ensures { result ≡ height self.now }
    {
        let around = u32::from(self.led) + 1 + line_count(self.kind.row().last);
        if self.elided {
            return around + 1;
        }
        around + self.heights.total()
    }
}

/// How many lines of a node's height an entry of the table of templates takes: one where it is there.
pub(crate) fn line_count(line: Option<&[u8]>) -> u32
    ensures { result ≡ line_count (option_map (λ bytes. bytes.now) line.entry) }
{
    match line {
        Some(_) => 1,
        None => 0,
    }
}

impl NodeLayouts {
    /// An empty list of nodes of a layout, which takes no memory.
    fn new(alloc: Global) -> NodeLayouts
        ensures { result.items ≡ [] }
    {
        NodeLayouts {
            list: Vec::new(alloc),
        }
    }

    /// Puts what a layout keeps of one more node at the end of a list.
    fn push(&mut self, item: NodeLayout) -> Result<(), OutOfMemory>
        ensures put { OnOk result (self.new.items ≡ self.old.items ++ item ∷ []) }
        ensures same { OnErr result (self.new.items ≡ self.old.items) }
    {
        self.list.push(item)?;
        Ok(())
    }

    /// What a layout keeps of the node of this number in a list, counted from 0.
    pub(crate) fn get(&self, k: usize) -> Option<&NodeLayout>
        ensures { option_map (λ node_layout. node_layout.now) result ≡ slice_get self.now.items k }
    {
        self.list.get(k)
    }

    /// Lends what a layout keeps of the node of this number in a list, counted from 0.
    pub(crate) fn get_mut(&mut self, k: usize) -> Option<&mut NodeLayout>
        ensures* writes_back { sem 𝓛
            (LendsIf list_row.the_row node_layout_row.the_row self.entry result
            (with_node_layout_set self.old k) self.old) }
        ensures found { option_map (λ node_layout. node_layout.now) result ≡ slice_get self.old.items k }
    {
        self.list.get_mut(k)
    }
}

impl NodeLayouts {
    /// How many nodes a list of nodes of a layout has.
    pub(crate) fn len(&self) -> usize
        ensures { result ≡ length self.now.items }
    {
        self.list.len()
    }

    /// An empty list of nodes of a layout, with room for so many.
    pub(crate) fn with_room(alloc: Global, room: usize) -> Result<NodeLayouts, OutOfMemory>
        ensures items { IfOk result (λ list. list.items ≡ []) }
        ensures room { IfOk result (λ list. room ≤ list.spare) }
    {
        let list = Vec::with_capacity(alloc, room)?;
        Ok(NodeLayouts { list })
    }

    /// Moves the nodes of a list into the room of an empty one, which is the list then.
    pub(crate) fn move_into(&mut self, room: NodeLayouts)
        requires empty { room.items ≡ [] }
        requires room { length self.old.items ≤ room.spare }
        ensures items { self.new.items ≡ self.old.items }
        ensures room { room.spare ≤ self.new.spare + length self.old.items }
    {
        let mut list = room.list;
        append_reserved(&mut list, &mut self.list);
        self.list = list;
    }

    /// Puts what a layout keeps of a node in the place of this number in a list.
    pub(crate) fn put(&mut self, k: usize, item: NodeLayout)
        requires there { k < length self.old.items }
        ensures { self.new ≡ with_node_layout_set self.old k item }
    {
        self.list[k] = item;
    }

    /// Puts what a layout keeps of a node into a list before the one of this number, into the room that is there.
    pub(crate) fn insert_within(&mut self, k: usize, item: NodeLayout)
        requires there { k ≤ length self.old.items }
        requires room { 0 < self.old.spare }
        ensures { self.new ≡ with_node_layout_inserted self.old k item }
    {
        if let Err(_) = self.list.insert(k, item) {}
    }

    /// Takes what a layout keeps of the node of this number out of a list.
    pub(crate) fn remove(&mut self, k: usize) -> NodeLayout
        requires there { k < length self.old.items }
        ensures taken { Some result ≡ slice_get self.old.items k }
        ensures others { self.new ≡ with_node_layout_removed self.old k }
    {
        self.list.remove(k)
    }
}

/// Moves the nodes of a list behind those of another one, in the room that it has.
fn append_reserved(list: &mut Vec<NodeLayout>, others: &mut Vec<NodeLayout>)
    requires room { vec_len list.old + vec_len others.old ≤ vec_capacity list.old }
    ensures moved { list.new.items ≡ list.old.items ++ others.old.items }
    ensures len { vec_len list.new ≡ vec_len list.old + vec_len others.old }
    ensures room { vec_capacity list.old ≤ vec_capacity list.new }
{
    if let Err(_) = list.append(others) {}
}
