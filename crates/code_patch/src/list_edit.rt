//! What becomes of the kept nodes inside one another by an edit of the tree, prepared list by list.
ghost use Rattle.std.specs.Prelude.{◌≡◌, ◌+◌, ◌-◌, ◌<◌, ◌≤◌, ◌==◌, ◌++◌, ◌∷◌, [], IfNone, IfOk, IfSome, None, OnOk, false, true, if◌then◌else◌, is_some, length, option_map, unwrap_or};
ghost use Rattle.plcs_code.specs.BlockLimit.{most_instrs};
ghost use Rattle.plcs_code.specs.Counts.{EmitsAtMost};
ghost use Rattle.plcs_code.specs.OwnCode.{own_code_by};
ghost use Rattle.template_tree.specs.Programs.Limit.{most_slots};
ghost use Rattle.template_tree.specs.Programs.Program.{IsSubtree};
ghost use Rattle.template_tree.specs.Programs.Slots.{count};
ghost use Rattle.code_patch.specs.CodeEdit.{code_added, code_gives_way, roomless_code};
ghost use Rattle.code_patch.specs.CodeForest.{CodeForest, kept_code, kept_lengths, PlainCodeNode, code_nodes};
ghost use Rattle.code_patch.specs.Private.EditCosts.{child_cost, child_moves, item_cost, list_cost, list_moves, node_cost, node_moves, nodes_cost, nodes_move};
ghost use Rattle.code_patch.specs.Private.JumpRoom.{jump_room};
ghost use Rattle.code_patch.specs.Private.ListSteps.{IsExchanged, IsMended};
ghost use Rattle.code_patch.specs.Private.NearCode.{Near, ends_here, is_remade, item_edited, item_number};
ghost use Rattle.code_patch.specs.Private.NodeEditBy.{IsEditBy};
ghost use Rattle.code_patch.specs.Private.OuterNodes.{IsOuter, nodes_inside};
ghost use Rattle.code_patch.specs.Private.PlainCodeNode.{code_forest, jumps_length, kept_node, node_length, roomless_code_node};
ghost use Rattle.code_patch.specs.Private.PreparedNodes.{ChildEdited, ChildNear, IsListEdit, IsNodeEdit, KeptStay, MendNear, WayFits, made_by, plain_plan};
ghost use Rattle.code_patch.specs.Private.StepsView.{step_at};

use crate::code_edit::{Act, Mending, Step, Steps};
use crate::code_node::CodeNode;
use crate::fresh::{jumps_for, length_within};
use crate::outer::Outer;
use crate::plan::{Plan, ends_here, first_number};
use plcs_base::{Marked, OutOfMemory, Scope, Work};
use plcs_code::{JumpBlocks, OwnCode, lengths_are_told, own_codes_stay_in_slots};
use std::alloc::Global;
use template_tree::{Node, items_are_nodes};

/// What becomes of a list of kept nodes: the steps, and how long the first code is then, and all together.
#[derive(Drop)]
pub(crate) struct ListEdit<W> {
    pub(crate) steps: Vec<Step<W>>,
    first: u32,
    total: u32,
}

/// What becomes of a kept node: what is new of it, and how long its code is then.
#[derive(Drop)]
struct NodeEdit<W> {
    mending: Mending<W>,
    length: u32,
}

impl<W: Work> CodeNode<W> {
    /// What becomes of the list inside this node by the plan: an item comes or goes, if the way ends at it here, and
    /// the nodes are gone through to which the way leads, or all where marks may have changed anywhere.
    #[cycle(list_edit)]
    pub(crate) fn list_edit<M: Marked, D: Scope>(
        &self,
        plan: &Plan<'_, M, D>,
        outer: &Outer<'_>,
        way: Option<&[u32]>,
        work: &mut W,
    ) -> Result<ListEdit<W>, OutOfMemory>
        requires outer { IsOuter outer.now }
        requires fits { WayFits plan.now.what (option_map (λ way. way.now) way) self.now (nodes_inside outer.now) }
        requires near { let planned = plain_plan (M.marks plan.now.marks.now) (D.items plan.now.scope.now) plan.now in
            let ways = option_map (λ numbers. numbers.now) way in
            Near planned ways 0 (item_edited planned ways self.now.inner (nodes_inside outer.now))
            (nodes_inside outer.now) }
        ensures list { IfOk result (λ list. IsListEdit list self.now.spare self.now.inner) }
        ensures made { IfOk result (λ list. roomless_code (made_by list self.now.inner)
            ≡ kept_code (M.marks plan.now.marks.now) (D.items plan.now.scope.now) (nodes_inside outer.now)) }
        ensures moves { let planned = plain_plan (M.marks plan.now.marks.now) (D.items plan.now.scope.now) plan.now in
            let ways = option_map (λ numbers. numbers.now) way.entry in
            IfOk result (λ list. list_moves planned ways self.now.inner (nodes_inside outer.now) ≡ false
            → list.steps.items ≡ []) }
        ensures counts { let planned = plain_plan (M.marks plan.now.marks.now) (D.items plan.now.scope.now) plan.now in
            let ways = option_map (λ numbers. numbers.now) way.entry in
            EmitsAtMost (list_cost planned ways self.now.inner (nodes_inside outer.now))
            (W.counts work.old) (W.counts work.new) }
    {
        let mut list = ListEdit {
            steps: Vec::new(plan.alloc),
            first: self.length_to(1),
            total: self.length_inside(),
        };
        self.edit_item(plan, outer, way, &mut list, work)?;
        if plan.everywhere {
            let edited = self.edit_all(plan, outer, way, &mut list, work);
            return edited.and(Ok(list));
        }
        let edited = self.edit_on_way(plan, outer, way, &mut list, work);
        edited.and(Ok(list))
    }

    /// Notes what becomes of each kept node inside this node.
    #[cycle(list_edit)]
    fn edit_all<M: Marked, D: Scope>(
        &self,
        plan: &Plan<'_, M, D>,
        outer: &Outer<'_>,
        way: Option<&[u32]>,
        list: &mut ListEdit<W>,
        work: &mut W,
    ) -> Result<(), OutOfMemory>
        requires outer { IsOuter outer.now }
        requires visited { plan.now.everywhere ≡ true }
        requires fits { WayFits plan.now.what (option_map (λ way. way.now) way) self.now (nodes_inside outer.now) }
        requires list { IsListEdit list.old self.now.spare self.now.inner }
        requires near { let planned = plain_plan (M.marks plan.now.marks.now) (D.items plan.now.scope.now) plan.now in
            let ways = option_map (λ numbers. numbers.now) way in
            Near planned ways 0 (made_by list.old self.now.inner) (nodes_inside outer.now) }
        requires kept { let planned = plain_plan (M.marks plan.now.marks.now) (D.items plan.now.scope.now) plan.now in
            let ways = option_map (λ numbers. numbers.now) way in
            KeptStay planned ways self.now (made_by list.old self.now.inner) (nodes_inside outer.now) }
        ensures list { OnOk result (IsListEdit list.new self.now.spare self.now.inner) }
        ensures made { OnOk result (roomless_code (made_by list.new self.now.inner)
            ≡ kept_code (M.marks plan.now.marks.now) (D.items plan.now.scope.now) (nodes_inside outer.now)) }
        ensures moves { let planned = plain_plan (M.marks plan.now.marks.now) (D.items plan.now.scope.now) plan.now in
            let ways = option_map (λ numbers. numbers.now) way.entry in
            OnOk result (nodes_move planned ways self.now.inner 0 (nodes_inside outer.now) ≡ false
            → list.new.steps.items ≡ list.old.steps.items) }
        ensures counts { let planned = plain_plan (M.marks plan.now.marks.now) (D.items plan.now.scope.now) plan.now in
            let ways = option_map (λ numbers. numbers.now) way.entry in
            EmitsAtMost (nodes_cost planned ways self.now.inner 0 (nodes_inside outer.now))
            (W.counts work.old) (W.counts work.new) }
    {
        items_are_nodes();
        let mut k = 0;
        while let Some(node) = outer.child(k) {
            self.edit_child(plan, node, k, way, list, work)?;
            k += 1;
        }
        Ok(())
    }

    /// Notes what becomes of the kept node inside this node to which the way leads, if it goes on.
    #[cycle(list_edit)]
    fn edit_on_way<M: Marked, D: Scope>(
        &self,
        plan: &Plan<'_, M, D>,
        outer: &Outer<'_>,
        way: Option<&[u32]>,
        list: &mut ListEdit<W>,
        work: &mut W,
    ) -> Result<(), OutOfMemory>
        requires outer { IsOuter outer.now }
        requires visited { plan.now.everywhere ≡ false }
        requires fits { WayFits plan.now.what (option_map (λ way. way.now) way) self.now (nodes_inside outer.now) }
        requires list { IsListEdit list.old self.now.spare self.now.inner }
        requires near { let planned = plain_plan (M.marks plan.now.marks.now) (D.items plan.now.scope.now) plan.now in
            let ways = option_map (λ numbers. numbers.now) way in
            Near planned ways 0 (made_by list.old self.now.inner) (nodes_inside outer.now) }
        requires kept { let planned = plain_plan (M.marks plan.now.marks.now) (D.items plan.now.scope.now) plan.now in
            let ways = option_map (λ numbers. numbers.now) way in
            KeptStay planned ways self.now (made_by list.old self.now.inner) (nodes_inside outer.now) }
        ensures list { OnOk result (IsListEdit list.new self.now.spare self.now.inner) }
        ensures made { OnOk result (roomless_code (made_by list.new self.now.inner)
            ≡ kept_code (M.marks plan.now.marks.now) (D.items plan.now.scope.now) (nodes_inside outer.now)) }
        ensures moves { let planned = plain_plan (M.marks plan.now.marks.now) (D.items plan.now.scope.now) plan.now in
            let ways = option_map (λ numbers. numbers.now) way.entry in
            OnOk result (nodes_move planned ways self.now.inner 0 (nodes_inside outer.now) ≡ false
            → list.new.steps.items ≡ list.old.steps.items) }
        ensures counts { let planned = plain_plan (M.marks plan.now.marks.now) (D.items plan.now.scope.now) plan.now in
            let ways = option_map (λ numbers. numbers.now) way.entry in
            EmitsAtMost (nodes_cost planned ways self.now.inner 0 (nodes_inside outer.now))
            (W.counts work.old) (W.counts work.new) }
    {
        items_are_nodes();
        let Some(k) = first_number(way) else {
            return Ok(());
        };
        let Some(node) = outer.child(k) else {
            return Ok(());
        };
        self.edit_child(plan, node, k, way, list, work)
    }

    /// Notes that an item comes into the list inside this node, or goes, if the way ends at it here.
    fn edit_item<M: Marked, D: Scope>(
        &self,
        plan: &Plan<'_, M, D>,
        outer: &Outer<'_>,
        way: Option<&[u32]>,
        list: &mut ListEdit<W>,
        work: &mut W,
    ) -> Result<(), OutOfMemory>
        requires outer { IsOuter outer.now }
        requires fits { WayFits plan.now.what (option_map (λ way. way.now) way) self.now (nodes_inside outer.now) }
        requires list { IsListEdit list.old self.now.spare self.now.inner }
        requires fresh { list.old.steps.items ≡ [] }
        ensures list { OnOk result (IsListEdit list.new self.now.spare self.now.inner) }
        ensures made { let planned = plain_plan (M.marks plan.now.marks.now) (D.items plan.now.scope.now) plan.now in
            let ways = option_map (λ numbers. numbers.now) way.entry in
            OnOk result (roomless_code (made_by list.new self.now.inner)
            ≡ roomless_code (item_edited planned ways self.now.inner (nodes_inside outer.now))) }
        ensures kept { let planned = plain_plan (M.marks plan.now.marks.now) (D.items plan.now.scope.now) plan.now in
            let ways = option_map (λ numbers. numbers.now) way.entry in
            OnOk result (KeptStay planned ways self.now (made_by list.new self.now.inner) (nodes_inside outer.now)) }
        ensures moves { OnOk result (item_number plan.now.what (option_map (λ numbers. numbers.now) way.entry) ≡ None
            → list.new.steps.items ≡ []) }
        ensures counts { let planned = plain_plan (M.marks plan.now.marks.now) (D.items plan.now.scope.now) plan.now in
            let ways = option_map (λ numbers. numbers.now) way.entry in
            EmitsAtMost (item_cost planned ways (nodes_inside outer.now)) (W.counts work.old) (W.counts work.new) }
    {
        items_are_nodes();
        let Some(k) = plan.item_number(way) else {
            return Ok(());
        };
        if !plan.adds() {
            return self.drop_child(k, list);
        }
        let Some(node) = outer.child(k) else {
            unreachable!()
        };
        self.add_child(plan, node, k, list, work)
    }

    /// Notes what becomes of the kept node inside this node that stands for the node of the tree, which has this
    /// number there.
    #[cycle(list_edit)]
    fn edit_child<M: Marked, D: Scope>(
        &self,
        plan: &Plan<'_, M, D>,
        node: &Node,
        k: u32,
        way: Option<&[u32]>,
        list: &mut ListEdit<W>,
        work: &mut W,
    ) -> Result<(), OutOfMemory>
        requires subtree { IsSubtree node.now }
        requires few { count node.now.inner < most_slots }
        requires list { IsListEdit list.old self.now.spare self.now.inner }
        requires near { let planned = plain_plan (M.marks plan.now.marks.now) (D.items plan.now.scope.now) plan.now in
            let ways = option_map (λ numbers. numbers.now) way in
            ChildNear planned ways k self.now (made_by list.old self.now.inner) node.now }
        ensures list { OnOk result (IsListEdit list.new self.now.spare self.now.inner) }
        ensures edited { let planned = plain_plan (M.marks plan.now.marks.now) (D.items plan.now.scope.now) plan.now in
            OnOk result (ChildEdited planned k (made_by list.old self.now.inner) (made_by list.new self.now.inner)
            node.now) }
        ensures moves { let planned = plain_plan (M.marks plan.now.marks.now) (D.items plan.now.scope.now) plan.now in
            let ways = option_map (λ numbers. numbers.now) way.entry in
            OnOk result (child_moves planned ways self.now.inner k node.now ≡ false
            → list.new.steps.items ≡ list.old.steps.items) }
        ensures counts { let planned = plain_plan (M.marks plan.now.marks.now) (D.items plan.now.scope.now) plan.now in
            let ways = option_map (λ numbers. numbers.now) way.entry in
            EmitsAtMost (child_cost planned ways self.now.inner k node.now)
            (W.counts work.old) (W.counts work.new) }
    {
        let Some(number) = plan.kept_number(way, k) else {
            return Ok(());
        };
        let Some(child) = self.child(number) else {
            unreachable!()
        };
        let below = plan.way_below(way, k);
        if plan.puts_at(below) {
            let fresh = CodeNode::of(plan.alloc, node, plan.marks, plan.scope, work)?;
            let length = fresh.length();
            return list.exchange(k, Act::Put(fresh), child.length(), length);
        }
        let edit = child.node_edit(plan, node, below, work)?;
        list.mend(k, edit, child.length())
    }

    /// What becomes of this kept node, which stands for the node of the tree, if something does.
    #[cycle(list_edit)]
    fn node_edit<M: Marked, D: Scope>(
        &self,
        plan: &Plan<'_, M, D>,
        node: &Node,
        way: Option<&[u32]>,
        work: &mut W,
    ) -> Result<Option<NodeEdit<W>>, OutOfMemory>
        requires subtree { IsSubtree node.now }
        requires few { count node.now.inner < most_slots }
        requires fits { WayFits plan.now.what (option_map (λ way. way.now) way) self.now node.now.inner }
        requires near { let planned = plain_plan (M.marks plan.now.marks.now) (D.items plan.now.scope.now) plan.now in
            let ways = option_map (λ numbers. numbers.now) way in
            MendNear planned ways self.now node.now }
        ensures none { IfOk result (λ edit. IfNone edit (roomless_code_node self.now
            ≡ kept_node (M.marks plan.now.marks.now) (D.items plan.now.scope.now) node.now)) }
        ensures some { let planned = plain_plan (M.marks plan.now.marks.now) (D.items plan.now.scope.now) plan.now in
            IfOk result (λ edit. IfSome edit (λ edit. IsNodeEdit edit planned self.now node.now)) }
        ensures moves { let planned = plain_plan (M.marks plan.now.marks.now) (D.items plan.now.scope.now) plan.now in
            let ways = option_map (λ numbers. numbers.now) way.entry in
            IfOk result (λ edit. IfSome edit (λ edit. node_moves planned ways self.now node.now ≡ true)) }
        ensures counts { let planned = plain_plan (M.marks plan.now.marks.now) (D.items plan.now.scope.now) plan.now in
            let ways = option_map (λ numbers. numbers.now) way.entry in
            EmitsAtMost (node_cost planned ways self.now node.now) (W.counts work.old) (W.counts work.new) }
    {
        lengths_are_told();
        own_codes_stay_in_slots();
        let own = self.new_own(plan, node, way, work)?;
        match self.list_edit(plan, &Outer::Node(node), way, work) {
            Ok(list) => self.edit_by(plan.alloc, own, list, work),
            Err(OutOfMemory) => {
                drop(own);
                Err(OutOfMemory)
            }
        }
    }

    /// What becomes of this kept node by the own code that is new of it and what becomes of the list inside it, if
    /// something does.
    fn edit_by(
        &self,
        alloc: Global,
        own: Option<OwnCode<W>>,
        list: ListEdit<W>,
        work: &mut W,
    ) -> Result<Option<NodeEdit<W>>, OutOfMemory>
        requires list { IsListEdit list self.now.spare self.now.inner }
        ensures none { IfOk result (λ edit. IfNone edit ((is_some own ≡ false) × (length list.steps.items ≡ 0))) }
        ensures some { IfOk result (λ edit. IfSome edit (λ edit. IsEditBy edit own list self.now)) }
        ensures changed { IfOk result (λ edit. IfSome edit (λ edit.
            is_some own ≡ false → 0 < length list.steps.items)) }
        ensures unchanged { is_some own ≡ false → length list.steps.items ≡ 0
            → EmitsAtMost 0 (W.counts work.old) (W.counts work.new) }
        ensures counts { EmitsAtMost
            (jumps_length (unwrap_or own self.now.own) (kept_lengths (made_by list self.now.inner)))
            (W.counts work.old) (W.counts work.new) }
    {
        if is_unchanged(&own, &list) {
            drop(own);
            drop(list);
            return Ok(None);
        }
        let last = own_after(&own, &self.own);
        let Ok(jumps) = jumps_for(alloc, last, list.first, list.total, work) else {
            drop(own);
            drop(list);
            return Err(OutOfMemory);
        };
        let length = whole_length(last, list.total, &jumps);
        let mending = Mending {
            own,
            jumps,
            inner: Steps::of(list.steps),
        };
        Ok(Some(NodeEdit { mending, length }))
    }

    /// The own code of this kept node made anew, if it is touched: if the change is of a part of it, or of a
    /// declaration of it, or where a mark stops a run there that didn't, or no more does.
    fn new_own<M: Marked, D: Scope>(
        &self,
        plan: &Plan<'_, M, D>,
        node: &Node,
        way: Option<&[u32]>,
        work: &mut W,
    ) -> Result<Option<OwnCode<W>>, OutOfMemory>
        requires few { length node.now.label.parts < 256 }
        ensures none { let planned = plain_plan (M.marks plan.now.marks.now) (D.items plan.now.scope.now) plan.now in
            let ways = option_map (λ numbers. numbers.now) way.entry in
            IfOk result (λ own. IfNone own (is_remade planned (ends_here ways) self.now.own node.now.label ≡ false)) }
        ensures some { IfOk result (λ own. IfSome own (λ own. own
            ≡ own_code_by (M.marks plan.now.marks.now) (D.items plan.now.scope.now) node.now.label)) }
        ensures made { let planned = plain_plan (M.marks plan.now.marks.now) (D.items plan.now.scope.now) plan.now in
            let ways = option_map (λ numbers. numbers.now) way.entry in
            IfOk result (λ own. IfSome own (λ own.
            is_remade planned (ends_here ways) self.now.own node.now.label ≡ true)) }
        ensures counts { let planned = plain_plan (M.marks plan.now.marks.now) (D.items plan.now.scope.now) plan.now in
            let ways = option_map (λ numbers. numbers.now) way.entry in
            let pieces = (own_code_by planned.marks planned.items node.now.label).pieces in
            EmitsAtMost (if is_remade planned (ends_here ways) self.now.own node.now.label
            then length pieces.before + length pieces.behind else 0)
            (W.counts work.old) (W.counts work.new) }
    {
        if !self.is_touched(plan, node, way) {
            return Ok(None);
        }
        let own = OwnCode::of(plan.alloc, node, plan.marks, plan.scope, work)?;
        Ok(Some(own))
    }

    /// Whether the own code of this kept node is made anew.
    fn is_touched<M: Marked, D: Scope>(
        &self,
        plan: &Plan<'_, M, D>,
        node: &Node,
        way: Option<&[u32]>,
    ) -> bool
        requires few { length node.now.label.parts < 256 }
        ensures { let planned = plain_plan (M.marks plan.now.marks.now) (D.items plan.now.scope.now) plan.now in
            let ways = option_map (λ numbers. numbers.now) way.entry in
            result ≡ is_remade planned (ends_here ways) self.now.own node.now.label }
    {
        if ends_here(way) {
            return true;
        }
        if plan.is_procedure(self.slot()) {
            return true;
        }
        !self.own.stops_as(node, plan.marks)
    }

    /// Notes that the node of the tree comes before the kept node of this number inside this node.
    fn add_child<M: Marked, D: Scope>(
        &self,
        plan: &Plan<'_, M, D>,
        node: &Node,
        k: u32,
        list: &mut ListEdit<W>,
        work: &mut W,
    ) -> Result<(), OutOfMemory>
        requires subtree { IsSubtree node.now }
        requires few { count node.now.inner < most_slots }
        requires there { k ≤ length (code_nodes self.now.inner) }
        requires room { 0 < self.now.spare }
        requires list { IsListEdit list.old self.now.spare self.now.inner }
        requires fresh { list.old.steps.items ≡ [] }
        ensures list { OnOk result (IsListEdit list.new self.now.spare self.now.inner) }
        ensures made { OnOk result ((child : PlainCodeNode)
            × (made_by list.new self.now.inner ≡ code_added (code_forest (child ∷ [])) k self.now.inner)
            × (roomless_code_node child
            ≡ kept_node (M.marks plan.now.marks.now) (D.items plan.now.scope.now) node.now)) }
        ensures counts { EmitsAtMost
            (node_length (M.marks plan.now.marks.now) (D.items plan.now.scope.now) node.now)
            (W.counts work.old) (W.counts work.new) }
    {
        match CodeNode::of(plan.alloc, node, plan.marks, plan.scope, work) {
            Ok(fresh) => {
                let length = fresh.length();
                list.exchange(k, Act::Add(fresh), 0, length)?;
                Ok(())
            }
            Err(OutOfMemory) => Err(OutOfMemory),
        }
    }

    /// Notes that the kept node of this number inside this node goes.
    fn drop_child(&self, k: u32, list: &mut ListEdit<W>) -> Result<(), OutOfMemory>
        requires there { k < length (code_nodes self.now.inner) }
        requires list { IsListEdit list.old self.now.spare self.now.inner }
        requires fresh { list.old.steps.items ≡ [] }
        ensures list { OnOk result (IsListEdit list.new self.now.spare self.now.inner) }
        ensures made { OnOk result (made_by list.new self.now.inner
            ≡ code_gives_way (λ was spare within. CodeForest.nil) k self.now.inner) }
    {
        let Some(child) = self.child(k as usize) else {
            unreachable!()
        };
        list.total -= child.length();
        let second = self.length_to(2) - self.length_to(1);
        list.first = first_length(k, second, list.first);
        list.push(k, Act::Drop)?;
        Ok(())
    }
}

impl<W> ListEdit<W> {
    /// Notes that the node of this number, whose code had this length, is mended, if something becomes of it.
    fn mend(&mut self, k: u32, edit: Option<NodeEdit<W>>, old: u32) -> Result<(), OutOfMemory>
        requires within { old ≤ self.old.total }
        ensures { OnOk result (IsMended self.old self.new k edit old) }
    {
        let Some(edit) = edit else {
            return Ok(());
        };
        let NodeEdit { mending, length } = edit;
        self.exchange(k, Act::Mend(mending), old, length)
    }

    /// Notes a step by which the node of this number, whose code had the one length, has the other.
    fn exchange(&mut self, k: u32, act: Act<W>, old: u32, new: u32) -> Result<(), OutOfMemory>
        requires within { old ≤ self.old.total }
        ensures { OnOk result (IsExchanged self.old self.new k act old new) }
    {
        self.push(k, act)?;
        self.total = length_within(self.total - old, new)?;
        self.first = first_length(k, new, self.first);
        Ok(())
    }

    /// Notes a step behind those that were noted.
    fn push(&mut self, number: u32, act: Act<W>) -> Result<(), OutOfMemory>
        ensures step { OnOk result (self.new.steps.items ≡ self.old.steps.items ++ step_at number act ∷ []) }
        ensures total { self.new.total ≡ self.old.total }
        ensures first { self.new.first ≡ self.old.first }
    {
        self.steps.push(Step { number, act })?;
        Ok(())
    }
}

/// Whether neither own code is new of a node nor something becomes of the list inside it.
fn is_unchanged<W>(own: &Option<OwnCode<W>>, list: &ListEdit<W>) -> bool
    ensures same { result ≡ true → (is_some own.now ≡ false) × (length list.now.steps.items ≡ 0) }
    ensures changed { result ≡ false → is_some own.now ≡ false → 0 < length list.now.steps.items }
{
    if own.is_some() {
        return false;
    }
    list.steps.is_empty()
}

/// How long the first code of a list is, where that of this number has the one length, and the first had the other.
fn first_length(k: u32, length: u32, first: u32) -> u32
    ensures { result ≡ (if k == 0 then length else first) }
{
    if k == 0 {
        return length;
    }
    first
}

/// The own code that is new of a node, or that which it had.
fn own_after<'a, W>(own: &'a Option<OwnCode<W>>, was: &'a OwnCode<W>) -> &'a OwnCode<W>
    ensures { result.now ≡ unwrap_or own.now was.now }
{
    match own {
        Some(own) => own,
        None => was,
    }
}

/// How long the code of a node is with this own code and these jumps, where the codes inside have this length
/// together.
fn whole_length<W>(own: &OwnCode<W>, inside: u32, jumps: &JumpBlocks<W>) -> u32
    requires few { length jumps.now.ahead + length jumps.now.between + length jumps.now.back ≤ 3 }
    requires short { length own.now.pieces.before + length own.now.pieces.behind + inside + jump_room ≤ most_instrs }
    ensures { result ≡ length own.now.pieces.before + length own.now.pieces.behind + inside
        + (length jumps.now.ahead + length jumps.now.between + length jumps.now.back) }
{
    let bare = own.before().length() + own.behind().length() + inside;
    bare + (jumps.ahead.length() + jumps.between.length() + jumps.back.length())
}
