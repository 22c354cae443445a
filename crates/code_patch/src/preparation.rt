//! Edits of a tree, prepared in its kept code: all memory is taken, and nothing is put in place.
ghost use Rattle.std.specs.Prelude.{◌≡◌, ◌^◌, ◌<◌, ◌≤◌, IfNone, IfOk, IfSome, OnOk, Some, false, true};
ghost use Rattle.std.specs.FinMap.{from_entries};
ghost use Rattle.plcs_code.specs.Counts.{EmitsAtMost};
ghost use Rattle.plcs_code.specs.ProgramCode.{program_code};
ghost use Rattle.template_tree.specs.Checks.ProgramMaps.{MarksTell, ScopeTells};
ghost use Rattle.template_tree.specs.Positions.Path.{node_at};
ghost use Rattle.template_tree.specs.Programs.Limit.{deepest_path};
ghost use Rattle.template_tree.specs.Programs.Tree.{IsTree};
ghost use Rattle.code_patch.specs.ItemNames.{item_numbers};
ghost use Rattle.code_patch.specs.Bill.{EmitsBill};
ghost use Rattle.code_patch.specs.CodeEdit.{IsCodeTreeBefore, IsCodeTreeOf, code_tree_after, edited_code, roomless_code};
ghost use Rattle.code_patch.specs.CodeForest.{kept_code, told_code};
ghost use Rattle.code_patch.specs.PreparedEdit.{CanPutInCode};
ghost use Rattle.code_patch.specs.Private.EditCosts.{list_cost};
ghost use Rattle.code_patch.specs.Private.ItemNames.{numbered_items};
ghost use Rattle.code_patch.specs.Private.KeptPaths.{LeadsToChange, changes_declaration, kept_below, kept_declares, kept_depth, node_declares, root_of, times_sought};
ghost use Rattle.code_patch.specs.Private.NearCode.{Near, is_added, is_dropped, item_edited, leads_to_item};
ghost use Rattle.code_patch.specs.Private.PlainCodeNode.{count_kept};
ghost use Rattle.code_patch.specs.Private.PreparedNodes.{LeadsToList, RoomAt, WayFits, plain_plan};

use crate::code_edit::{Prepared, Steps};
use crate::code_tree::CodeTree;
use crate::homes::Moved;
use crate::names::Names;
use crate::outer::Outer;
use crate::plan::{Plan, declares, is_added, is_dropped, leads_to_item};
use plcs_base::{Marked, OutOfMemory, Scope, Work};
use plcs_code::{lengths_are_told, own_codes_stay_in_slots, programs_have_one_code};
use std::alloc::Global;
use template_tree::{
    Change, Path, Tree, checks_ignore_room_and_elision, room_is_not_shown, slot_edit_is_path_edit,
};

impl<W: Work> CodeTree<W> {
    /// Prepares the edit of the tree that made this change, by the marks and the effective items after it. All memory
    /// is taken that the edit needs; what is kept stays as it was, apart from room.
    ///
    /// No more is emitted than the own code of each slot that the edit touched and, once, the jumps of each slot round
    /// these, now or before the edit. Code of more than 2,147,483,642 instructions, which no program within the limits
    /// has, is refused as if memory had run out.
    pub fn prepare<M: Marked, D: Scope>(
        &mut self,
        alloc: Global,
        tree: &Tree,
        marks: &M,
        scope: &D,
        change: &Change,
        work: &mut W,
    ) -> Result<Prepared<W>, OutOfMemory>
        requires tree { IsTree tree.now }
        requires marks { MarksTell (M.marks marks.now) tree.now.items }
        requires scope { ScopeTells (D.items scope.now) tree.now.items }
        requires before { IsCodeTreeBefore self.old tree.now change.now }
        ensures same { roomless_code self.new.items ≡ roomless_code self.old.items }
        ensures same_code { told_code self.new.items ≡ told_code self.old.items }
        ensures after { IfOk result (λ prepared. IsCodeTreeOf (code_tree_after prepared.steps self.new) tree.now) }
        ensures code { IfOk result (λ prepared.
            told_code (code_tree_after prepared.steps self.new).items ≡ program_code tree.now.items) }
        ensures ready { IfOk result (λ prepared. CanPutInCode prepared self.new) }
        ensures counts { EmitsBill self.old tree.now change.now (W.counts work.old) (W.counts work.new) }
    {
        slot_edit_is_path_edit();
        checks_ignore_room_and_elision();
        room_is_not_shown();
        programs_have_one_code();
        lengths_are_told();
        let Some(path) = self.way_to(tree, change) else {
            unreachable!()
        };
        let way = path.as_slice();
        self.make_room(change, way)?;
        let declares = self.changes_declaration(tree, change, &path);
        let is_item = leads_to_item(way);
        let plan = Plan::of(alloc, marks, scope, change, declares, is_item);
        let prepared = self.prepared(&plan, tree, way, work)?;
        // Without memory for it a search goes over all nodes, and the edit goes on.
        self.reserve_homes(alloc, tree.slots());
        Ok(prepared)
    }

    /// The path to what an edit of the tree changed: in the tree, but where an item was dropped as it was kept.
    fn way_to(&self, tree: &Tree, change: &Change) -> Option<Path>
        requires tree { IsTree tree.now }
        requires shallow { kept_depth self.now.items ≤ deepest_path }
        requires few { count_kept self.now.items < 2 ^ 32 }
        ensures none { IfNone result (times_sought (is_dropped change.now.what) change.now.slot.0 self.now.items
            tree.now.items ≡ 0) }
        ensures way { IfSome result (λ way. LeadsToChange (is_dropped change.now.what) change.now.slot.0 way.items
            (root_of self.now) tree.now.items) }
    {
        if is_dropped(change.what) {
            return self.path_kept(change.slot);
        }
        tree.path_of(change.slot)
    }

    /// Makes room for one more node in the list in which the way ends, if an item was added.
    fn make_room(&mut self, change: &Change, way: &[u32]) -> Result<(), OutOfMemory>
        requires few { count_kept self.old.items < 2 ^ 32 }
        requires there { is_added change.now.what ≡ true → LeadsToList way.now (root_of self.old) }
        ensures same { roomless_code self.new.items ≡ roomless_code self.old.items }
        ensures room { OnOk result (is_added change.now.what ≡ true → RoomAt way.now (root_of self.new)) }
    {
        if !is_added(change.what) {
            return Ok(());
        }
        self.root.reserve_at(way)
    }

    /// Whether an edit changed a declaration, by what is kept at the way and what stands there after it.
    fn changes_declaration(&self, tree: &Tree, change: &Change, way: &Path) -> bool
        requires tree { IsTree tree.now }
        ensures { result ≡ changes_declaration change.now.what (kept_below (root_of self.now) way.now.items)
            (node_at tree.now.items way.now.items) }
    {
        if is_added(change.what) {
            return has_declaration(tree, way);
        }
        if is_dropped(change.what) {
            return self.keeps_declaration(way);
        }
        if self.keeps_declaration(way) {
            return true;
        }
        has_declaration(tree, way)
    }

    /// Whether what is kept at the path declares something of its procedure.
    fn keeps_declaration(&self, way: &Path) -> bool
        ensures { result ≡ kept_declares (kept_below (root_of self.now) way.now.items) }
    {
        let Some(kind) = self.root.kind_at(way.as_slice()) else {
            return false;
        };
        declares(kind)
    }

    /// The edit that is prepared by the plan, where the way leads to what it changed.
    fn prepared<M: Marked, D: Scope>(
        &self,
        plan: &Plan<'_, M, D>,
        tree: &Tree,
        way: &[u32],
        work: &mut W,
    ) -> Result<Prepared<W>, OutOfMemory>
        requires tree { IsTree tree.now }
        requires fits { WayFits plan.now.what (Some way.now) (root_of self.now) tree.now.items }
        requires near { let planned = plain_plan (M.marks plan.now.marks.now) (D.items plan.now.scope.now) plan.now in
            Near planned (Some way.now) 0
            (item_edited planned (Some way.now) self.now.items tree.now.items) tree.now.items }
        requires names { leads_to_item way.now ≡ false
            → item_numbers self.now.items ≡ from_entries (numbered_items 0 tree.now.items) }
        ensures fits { IfOk result (λ prepared. CanPutInCode prepared self.now) }
        ensures made { IfOk result (λ prepared. roomless_code (edited_code prepared.steps self.now.items)
            ≡ kept_code (M.marks plan.now.marks.now) (D.items plan.now.scope.now) tree.now.items) }
        ensures counts { let planned = plain_plan (M.marks plan.now.marks.now) (D.items plan.now.scope.now) plan.now in
            EmitsAtMost (list_cost planned (Some way.now) self.now.items tree.now.items)
            (W.counts work.old) (W.counts work.new) }
    {
        own_codes_stay_in_slots();
        let list = self
            .root
            .list_edit(plan, &Outer::Program(tree), Some(way), work)?;
        let names = names_after(plan.alloc, tree, way)?;
        Ok(Prepared {
            steps: Steps::of(list.steps),
            names,
            moved: Moved::by(plan.what, way),
        })
    }
}

/// Whether what stands at the path in the tree declares something of its procedure.
fn has_declaration(tree: &Tree, way: &Path) -> bool
    requires tree { IsTree tree.now }
    ensures { result ≡ node_declares (node_at tree.now.items way.now.items) }
{
    let Some(node) = tree.node(way) else {
        return false;
    };
    declares(node.kind())
}

/// The names of all items of an edited tree, if one of the items changed.
fn names_after(alloc: Global, tree: &Tree, way: &[u32]) -> Result<Option<Names>, OutOfMemory>
    requires tree { IsTree tree.now }
    ensures none { IfOk result (λ names. IfNone names (leads_to_item way.now ≡ false)) }
    ensures some { IfOk result (λ names. IfSome names (λ names.
        names ≡ from_entries (numbered_items 0 tree.now.items))) }
{
    if !leads_to_item(way) {
        return Ok(None);
    }
    let names = Names::of(alloc, tree)?;
    Ok(Some(names))
}
