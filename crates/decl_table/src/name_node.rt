//! What a table of declarations keeps of a node and of the nodes inside it: which names their phrases mention.
ghost use Rattle.std.specs.Borrow.{LendsIf, sem};
ghost use Rattle.std.specs.Option.{option_flatten};
ghost use Rattle.std.specs.Prelude.{◌≡◌, ◌+◌, ◌<◌, ◌≤◌, ◌∷◌, ◌++◌, [], IfNone, IfOk, IfSome, OnOk, Some, length, option_and_then, option_map, slice_get, vec_capacity, vec_len};
ghost use Rattle.template_tree.specs.Programs.Limit.{deepest_path, most_slots};
ghost use Rattle.template_tree.specs.Programs.Part.{part_at};
ghost use Rattle.template_tree.specs.Programs.Program.{IsSubtree};
ghost use Rattle.template_tree.specs.Programs.Tree.{IsTree};
ghost use Rattle.template_tree.specs.Programs.Slots.{count};
ghost use Rattle.decl_table.specs.contracts.name_node.NameNode as name_node_row;
ghost use Rattle.decl_table.specs.contracts.name_node.NameNodes as list_row;
ghost use Rattle.decl_table.specs.Names.{NameForest, kept_names, names_of};
ghost use Rattle.decl_table.specs.Private.NamePaths.{count_beside, name_count, name_depth, name_times, names_at, names_below};
ghost use Rattle.decl_table.specs.Private.PlainNameNode.{name_node_of, name_nodes, with_last_name_node, with_last_part, with_name_node_inserted, with_name_node_removed, with_name_node_set};

use crate::name_list::NameList;
use plcs_base::{OutOfMemory, Slot};
use plcs_grammar::NodeKind;
use std::alloc::Global;
use std::marker::Model;
use std::mem;
use template_tree::{Node, Path, Tree, items_are_nodes, path_of_item, phrase_in};

/// What is kept of a node: its slot, its kind, the names of the phrase in each part, and the nodes inside it.
#[cycle(name_node)]
#[derive(Drop)]
pub(crate) struct NameNode {
    slot: Slot,
    kind: NodeKind,
    pub(crate) parts: Vec<Option<NameList>>,
    pub(crate) inner: NameNodes,
}

/// What is kept of the nodes of a list, in order.
#[cycle(name_node)]
#[derive(Drop)]
pub(crate) struct NameNodes {
    list: Vec<NameNode>,
}

impl Model for NameNode {
    ghost use Rattle.std.proofs.Common.{arith};
    ghost use Rattle.decl_table.specs.Private.NamesCode.{name_node_code};
    ghost use Rattle.decl_table.specs.Private.PlainNameNode.{PlainNameNode};
    ghost use Rattle.decl_table.specs.Private.NameWeight.{weight};

    ghost Value = { PlainNameNode };

    ghost coded = { name_node_code };

    ghost use Rattle.decl_table.specs.Private.NameNodeView.{seen_names};

    ghost view = { seen_names };

    ghost size = { weight };

    ghost size_decreases = { λ a h. omega arith };
}

impl Model for NameNodes {
    ghost use Rattle.std.proofs.Common.{arith};
    ghost use Rattle.std.specs.Prelude.{◌-◌, vec_len, vec_capacity};
    ghost use Rattle.decl_table.specs.Private.NamesCode.{name_nodes_code};
    ghost use Rattle.decl_table.specs.Private.PlainNameNode.{PlainNameNodes};
    ghost use Rattle.decl_table.specs.Private.NameWeight.{list_weight, most_le_weight};

    ghost Value = { PlainNameNodes };

    ghost coded = { name_nodes_code };

    ghost view = { λ a. record { items = a.list.items; spare = vec_capacity a.list - vec_len a.list } };

    ghost size = { list_weight };

    ghost size_decreases = { λ a h. omega (arith, most_le_weight a.list.items) };
}

impl NameNode {
    /// A node of which nothing is kept yet, with nothing inside it. It takes no memory.
    pub(crate) fn bare(alloc: Global, slot: Slot, kind: NodeKind) -> NameNode
        ensures { result ≡ record {
          label = record { slot = slot.0; kind = kind; parts = [] };
          inner = NameForest.nil;
        } }
    {
        NameNode {
            slot,
            kind,
            parts: Vec::new(alloc),
            inner: NameNodes::new(alloc),
        }
    }

    /// What is kept of main and the procedures of a tree, inside a node of their own.
    pub(crate) fn of_program(alloc: Global, tree: &Tree) -> Result<NameNode, OutOfMemory>
        requires tree { IsTree tree.now }
        ensures inner { IfOk result (λ names. names.inner ≡ names_of tree.now.items) }
        ensures parts { IfOk result (λ names. names.label.parts ≡ []) }
    {
        let mut root = NameNode::bare(alloc, Slot(0), NodeKind::Main);
        root.push_items(alloc, tree).and(Ok(root))
    }

    /// Puts what is kept of main and the procedures of a tree inside this node, which has nothing inside it yet.
    fn push_items(&mut self, alloc: Global, tree: &Tree) -> Result<(), OutOfMemory>
        requires tree { IsTree tree.now }
        requires none { self.old.inner ≡ NameForest.nil }
        ensures inner { OnOk result (self.new.inner ≡ names_of tree.now.items) }
        ensures label { OnOk result (self.new.label ≡ self.old.label) }
    {
        items_are_nodes();
        let mut k = 0;
        while let Some(item) = tree.node(&path_of_item(k)) {
            let Ok(kept) = NameNode::of(alloc, item) else {
                return Err(OutOfMemory);
            };
            self.push(kept)?;
            k += 1;
        }
        Ok(())
    }

    /// What is kept of the node and of the nodes inside it.
    #[cycle(of)]
    pub(crate) fn of(alloc: Global, node: &Node) -> Result<NameNode, OutOfMemory>
        requires subtree { IsSubtree node.now }
        requires few { count node.now.inner < most_slots }
        ensures { IfOk result (λ names. names ≡ name_node_of node.now) }
    {
        let mut names = NameNode::label_of(alloc, node)?;
        names.push_inside(alloc, node).and(Ok(names))
    }

    /// Puts what is kept of the nodes inside a node inside this one, which has nothing inside it yet.
    #[cycle(of)]
    fn push_inside(&mut self, alloc: Global, node: &Node) -> Result<(), OutOfMemory>
        requires subtree { IsSubtree node.now }
        requires few { count node.now.inner < most_slots }
        requires none { self.old.inner ≡ NameForest.nil }
        ensures inner { OnOk result (self.new.inner ≡ names_of node.now.inner) }
        ensures label { OnOk result (self.new.label ≡ self.old.label) }
    {
        items_are_nodes();
        let mut k = 0;
        while let Some(child) = node.child(k) {
            let Ok(names) = NameNode::of(alloc, child) else {
                return Err(OutOfMemory);
            };
            self.push(names)?;
            k += 1;
        }
        Ok(())
    }

    /// What is kept of the node alone, without the nodes inside it.
    pub(crate) fn label_of(alloc: Global, node: &Node) -> Result<NameNode, OutOfMemory>
        requires few { length node.now.label.parts < 256 }
        ensures label { IfOk result (λ names. names.label ≡ (name_node_of node.now).label) }
        ensures inner { IfOk result (λ names. names.inner ≡ NameForest.nil) }
    {
        let mut names = NameNode::bare(alloc, node.slot(), node.kind());
        names.add_parts(alloc, node).and(Ok(names))
    }

    /// Keeps the names of what stands in the parts of the node, where none are kept yet.
    fn add_parts(&mut self, alloc: Global, node: &Node) -> Result<(), OutOfMemory>
        requires few { length node.now.label.parts < 256 }
        requires none { self.old.label.parts ≡ [] }
        ensures { OnOk result (self.new
            ≡ record self.old { label = record self.old.label { parts = (name_node_of node.now).label.parts } }) }
    {
        let mut part = 0;
        while let Some(_) = node.part(part) {
            self.add_part(alloc, node, part)?;
            part += 1;
        }
        Ok(())
    }

    /// Keeps the names of what stands in one more part of the node, a phrase or nothing.
    fn add_part(&mut self, alloc: Global, node: &Node, part: u8) -> Result<(), OutOfMemory>
        ensures { OnOk result (self.new
            ≡ with_last_part self.old (option_map kept_names (part_at node.now.label.parts part))) }
    {
        let Some(phrase) = phrase_in(node, part) else {
            self.parts.push(None)?;
            return Ok(());
        };
        let Ok(names) = NameList::of(alloc, phrase) else {
            return Err(OutOfMemory);
        };
        self.parts.push(Some(names))?;
        Ok(())
    }

    /// Puts what is kept of one more node behind those inside this node.
    #[tactic(auto, using(crate::specs::Private::PlainNameNode::name_nodes_forest))]
    fn push(&mut self, node: NameNode) -> Result<(), OutOfMemory>
        ensures { OnOk result (self.new ≡ with_last_name_node self.old node) }
    {
        self.inner.push(node)?;
        Ok(())
    }
}

impl NameNode {
    /// The slot of the node.
    pub(crate) fn slot(&self) -> Slot
        ensures { result.0 ≡ self.now.label.slot }
    {
        self.slot
    }

    /// The kind of the node.
    pub(crate) fn kind(&self) -> NodeKind
        ensures { result ≡ self.now.label.kind }
    {
        self.kind
    }

    /// How many parts the node has.
    pub(crate) fn parts(&self) -> usize
        ensures { result ≡ length self.now.label.parts }
    {
        self.parts.len()
    }

    /// The names of the phrase in the part of this number, or `None` where no phrase stands there.
    pub(crate) fn part(&self, part: u8) -> Option<&NameList>
        ensures { option_map (λ names. names.now) result ≡ option_flatten (slice_get self.now.label.parts part) }
    {
        match self.parts.get(part as usize) {
            Some(names) => names.as_ref(),
            None => None,
        }
    }

    /// The names of the phrases in all its parts.
    pub(crate) fn all_parts(&self) -> &[Option<NameList>]
        ensures { result.now ≡ self.now.label.parts }
    {
        self.parts.as_slice()
    }

    /// What is kept of the nodes inside this one, in order.
    #[tactic(auto, using(crate::specs::Private::PlainNameNode::name_nodes_forest))]
    pub(crate) fn nodes_inside(&self) -> &[NameNode]
        ensures { result.now ≡ name_nodes self.now.inner }
    {
        self.inner.as_slice()
    }

    /// What is kept of the node at the path below this one, or `None` where there is none.
    #[tactic(auto, using(crate::specs::Private::PlainNameNode::name_nodes_forest))]
    pub(crate) fn below(&self, path: &[u32]) -> Option<&NameNode>
        ensures { option_map (λ node. node.now) result ≡ names_below self.now path.now }
    {
        let Some((k, rest)) = path.split_first() else {
            return Some(self);
        };
        let Some(item) = self.inner.get(*k as usize) else {
            return None;
        };
        item.below(rest)
    }

    /// How many nodes the list has in which a path below this node ends, which begins with the number.
    #[tactic(auto, using(crate::specs::Private::PlainNameNode::name_nodes_forest))]
    pub(crate) fn count_beside(&self, k: usize, path: &[u32]) -> usize
        ensures { result ≡ count_beside (k ∷ path.now) self.now.inner }
    {
        let Some((next, rest)) = path.split_first() else {
            return self.inner.len();
        };
        let Some(item) = self.inner.get(k) else {
            return 0;
        };
        item.count_beside(*next as usize, rest)
    }

    /// The path of the node in the slot among the names inside this node, or `None` where the slot doesn't stand there.
    /// It is looked for in the item of the procedure in the tree first, and where that doesn't have it, in all.
    pub(crate) fn path_near(&self, tree: &Tree, procedure: Slot, slot: Slot) -> Option<Path>
        requires tree { IsTree tree.now }
        requires shallow { name_depth self.now.inner ≤ deepest_path }
        requires few { name_count self.now.inner ≤ most_slots }
        ensures none { IfNone result (name_times slot.0 self.now.inner ≡ 0) }
        ensures path { IfSome result (λ path.
            option_map (λ item. item.label.slot) (names_at self.now.inner path.items) ≡ Some slot.0) }
    {
        if procedure.0 != slot.0 {
            if let Some(path) = self.path_in(item_number(tree, procedure), slot) {
                return Some(path);
            }
        }
        self.path_inside(slot)
    }

    /// The path of the node in the slot among the names inside this node, if the slot stands inside the item of this
    /// number there.
    fn path_in(&self, k: u32, slot: Slot) -> Option<Path>
        requires shallow { name_depth self.now.inner ≤ deepest_path }
        requires few { name_count self.now.inner ≤ most_slots }
        ensures { IfSome result (λ path.
            option_map (λ item. item.label.slot) (names_at self.now.inner path.items) ≡ Some slot.0) }
    {
        let Some(item) = self.inner.get(k as usize) else {
            return None;
        };
        let Some(path) = item.path_inside(slot) else {
            return None;
        };
        Some(with_first(k, path))
    }

    /// The path of the node in the slot among the names inside this node, or `None` where the slot doesn't stand there.
    fn path_inside(&self, slot: Slot) -> Option<Path>
        requires shallow { name_depth self.now.inner ≤ deepest_path }
        requires few { name_count self.now.inner ≤ most_slots }
        ensures none { IfNone result (name_times slot.0 self.now.inner ≡ 0) }
        ensures path { IfSome result (λ path.
            option_map (λ item. item.label.slot) (names_at self.now.inner path.items) ≡ Some slot.0) }
        ensures short { IfSome result (λ path. length path.items ≤ name_depth self.now.inner) }
    {
        let mut k: u32 = 0;
        while let Some(item) = self.inner.get(k as usize) {
            if item.slot.0 == slot.0 {
                return Some(path_of_item(k));
            }
            if let Some(path) = item.path_inside(slot) {
                return Some(with_first(k, path));
            }
            k += 1;
        }
        None
    }
}

/// The number of the item of the program in which the slot stands, or 0 where it isn't live.
fn item_number(tree: &Tree, slot: Slot) -> u32
    requires { IsTree tree.now }
{
    let Some(path) = tree.path_of(slot) else {
        return 0;
    };
    match path.split_first() {
        Some((k, _)) => *k,
        None => 0,
    }
}

/// A path that was found, with one more number before it.
fn with_first(k: u32, path: Path) -> Path
    requires room { length path.items < deepest_path }
    ensures { result.items ≡ k ∷ path.items }
{
    let mut longer = path;
    longer.insert(0, k);
    longer
}

impl NameNodes {
    /// An empty list, which takes no memory.
    fn new(alloc: Global) -> NameNodes
        ensures { result.items ≡ [] }
    {
        NameNodes {
            list: Vec::new(alloc),
        }
    }

    /// An empty list with room for so many nodes.
    pub(crate) fn with_room(alloc: Global, room: usize) -> Result<NameNodes, OutOfMemory>
        ensures items { IfOk result (λ list. list.items ≡ []) }
        ensures room { IfOk result (λ list. room ≤ list.spare) }
    {
        let list = Vec::with_capacity(alloc, room)?;
        Ok(NameNodes { list })
    }

    /// Puts what is kept of one more node at the end of the list.
    fn push(&mut self, node: NameNode) -> Result<(), OutOfMemory>
        ensures { OnOk result (self.new.items ≡ self.old.items ++ node ∷ []) }
    {
        self.list.push(node)?;
        Ok(())
    }

    /// How many nodes the list has.
    fn len(&self) -> usize
        ensures { result ≡ length self.now.items }
    {
        self.list.len()
    }

    /// What is kept of all nodes of the list.
    fn as_slice(&self) -> &[NameNode]
        ensures { result.now ≡ self.now.items }
    {
        self.list.as_slice()
    }

    /// What is kept of the node of this number in the list, counted from 0.
    fn get(&self, k: usize) -> Option<&NameNode>
        ensures { option_map (λ node. node.now) result ≡ slice_get self.now.items k }
    {
        self.list.get(k)
    }

    /// Lends what is kept of the node of this number in the list, counted from 0.
    pub(crate) fn get_mut(&mut self, k: usize) -> Option<&mut NameNode>
        ensures* writes_back { sem 𝓛
            (LendsIf list_row.the_row name_node_row.the_row self.entry result
            (with_name_node_set self.old k) self.old) }
        ensures found { option_map (λ node. node.now) result ≡ slice_get self.old.items k }
    {
        self.list.get_mut(k)
    }

    /// Moves what is kept of the nodes of the list into the room of an empty one, which is the list then.
    pub(crate) fn move_into(&mut self, room: NameNodes)
        requires empty { room.items ≡ [] }
        requires room { length self.old.items ≤ room.spare }
        ensures items { self.new.items ≡ self.old.items }
        ensures room { room.spare ≤ self.new.spare + length self.old.items }
    {
        let mut list = room.list;
        append_reserved(&mut list, &mut self.list);
        drop(mem::replace(&mut self.list, list));
    }

    /// Puts what is kept of a node in the place of this number in the list.
    pub(crate) fn put(&mut self, k: usize, node: NameNode)
        requires there { k < length self.old.items }
        ensures { self.new ≡ with_name_node_set self.old k node }
    {
        drop(mem::replace(&mut self.list[k], node));
    }

    /// Puts what is kept of a node into the list before the one of this number, into the room that is there.
    pub(crate) fn insert_within(&mut self, k: usize, node: NameNode)
        requires there { k ≤ length self.old.items }
        requires room { 0 < self.old.spare }
        ensures { self.new ≡ with_name_node_inserted self.old k node }
    {
        drop(self.list.insert(k, node));
    }

    /// Takes what is kept of the node of this number out of the list.
    pub(crate) fn remove(&mut self, k: usize) -> NameNode
        requires there { k < length self.old.items }
        ensures taken { Some result ≡ slice_get self.old.items k }
        ensures others { self.new ≡ with_name_node_removed self.old k }
    {
        self.list.remove(k)
    }
}

/// Moves what is kept of nodes behind that of others, in the room that their list has.
fn append_reserved(list: &mut Vec<NameNode>, others: &mut Vec<NameNode>)
    requires room { vec_len list.old + vec_len others.old ≤ vec_capacity list.old }
    ensures moved { list.new.items ≡ list.old.items ++ others.old.items }
    ensures len { vec_len list.new ≡ vec_len list.old + vec_len others.old }
    ensures room { vec_capacity list.old ≤ vec_capacity list.new }
{
    if let Err(_) = list.append(others) {}
}
