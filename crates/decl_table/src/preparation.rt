//! Edits of a tree, prepared in its table of declarations: all memory is taken, and nothing is put in place.
ghost use Rattle.std.specs.Prelude.{◌≡◌, ◌↔◌, ◌||◌, ◌<◌, ◌≤◌, ◌++◌, [], ℕ, false, true, IfOk, IfSome, Contains, List, None, OnOk, Some, flat_map};
ghost use Rattle.plcs_base.specs.declared.place.PhraseAt.{PhraseAt};
ghost use Rattle.plcs_grammar.specs.PlainPhrase.{PlainPhrase};
ghost use Rattle.template_tree.specs.Programs.Limit.{most_slots};
ghost use Rattle.template_tree.specs.Programs.Slots.{count};
ghost use Rattle.std.specs.FinMap.{empty};
ghost use Rattle.std.specs.Option.{option_copied};
ghost use Rattle.template_tree.specs.Programs.PlainTree.{PlainNode, PlainTree};
ghost use Rattle.template_tree.specs.Checks.ProgramMaps.{items_in};
ghost use Rattle.template_tree.specs.Programs.Program.{IsSubtree};
ghost use Rattle.template_tree.specs.Programs.Tree.{IsTree};
ghost use Rattle.decl_table.specs.Agreement.{IsDeclsBefore};
ghost use Rattle.decl_table.specs.DeclEdit.{CanPutInTable, HasItemsOf, IsDeclEdit, IsDeclsAfter, KnowsDue, MayMendNames, names_mended};
ghost use Rattle.decl_table.specs.Knowledge.{Knows, Stands};
ghost use Rattle.decl_table.specs.Names.{names_of};
ghost use Rattle.template_tree.specs.Edits.Edit.{Differs};
ghost use Rattle.decl_table.specs.Due.{AreDue, AreGone};
ghost use Rattle.decl_table.specs.PlainDecls.{roomless_decls, slot_of};
ghost use Rattle.decl_table.specs.Private.AffectedView.{IsGathered};
ghost use Rattle.decl_table.specs.Private.ChangeBefore.{IsEditOf, part_of, spots_of};
ghost use Rattle.decl_table.specs.Private.DeclEditView.{pieces_edit};
ghost use Rattle.decl_table.specs.Private.DuePlaces.{AreDueBy, due_lists, uses_now};
ghost use Rattle.decl_table.specs.Private.HeadingChangesView.{IsHeadingNoted, MayBeNoted, NotesHeadings, stands_in};
ghost use Rattle.decl_table.specs.Private.ItemChangeView.{drops_item, items_become, plain_item_change, procedure_left};
ghost use Rattle.decl_table.specs.Private.KnownTable.{IsGathering, IsSource, KeepsOwn, items_only};
ghost use Rattle.decl_table.specs.Private.ItemTests.{is_slot, names_turn, own_turns, turns_inside};
ghost use Rattle.decl_table.specs.Private.NameTests.{AddsNames, has_name};
ghost use Rattle.decl_table.specs.Private.PlainNameNode.{HaveFewParts, node_names};
ghost use Rattle.decl_table.specs.Private.ReachView.{has_heading, has_items, has_lists};
ghost use Rattle.decl_table.specs.Private.UsesMended.{AreUsesMended};
ghost use Rattle.decl_table.specs.Private.UsesView.{AreOrdered, IsSettled};

use crate::changed_nodes::ChangedNodes;
use crate::decl_edit::{DeclEdit, ItemChange};
use crate::decls::Decls;
use crate::due_phrases::{add_lists, add_uses};
use crate::heading_changes::HeadingChanges;
use crate::items::Items;
use crate::known_table::{Sources, take_items};
use crate::mention_list::MentionList;
use crate::name_edit::NameEdit;
use crate::name_node::NameNode;
use crate::name_set::NameSet;
use crate::reach::Reach;
use crate::uses::Uses;
use plcs_base::{Name, OutOfMemory, PhraseAt, Slot};
use std::alloc::Global;
use std::mem;
use template_tree::{
    Change, Node, Tree, What, checks_ignore_room_and_elision, heading_name, heading_parameters,
    items_are_nodes, path_of_item, room_is_not_shown, slot_edit_is_path_edit,
};

/// The pieces of an edit beside what becomes of the names of nodes, while they are found.
#[derive(Drop)]
pub(crate) struct Pieces {
    pub(crate) due: MentionList,
    pub(crate) gone: MentionList,
    pub(crate) table: Decls,
    pub(crate) items: ItemChange,
    pub(crate) headings: HeadingChanges,
    pub(crate) uses: Uses,
}

impl Pieces {
    /// No pieces yet. It takes no memory.
    fn none(alloc: Global) -> Pieces
        ensures items { result.table.items ≡ empty }
        ensures headings { result.table.headings ≡ [] }
    {
        Pieces {
            due: MentionList::new(alloc),
            gone: MentionList::new(alloc),
            table: Decls::none(alloc),
            items: ItemChange::Stay,
            headings: HeadingChanges::none(alloc),
            uses: Uses::new(alloc),
        }
    }

    /// The edit of these pieces, where this becomes of the names of nodes.
    fn with_names(self, names: NameEdit) -> DeclEdit
        ensures { result ≡ pieces_edit self names }
    {
        let Pieces {
            due,
            gone,
            table,
            items,
            headings,
            uses,
        } = self;
        DeclEdit {
            due,
            gone,
            table,
            items,
            headings,
            uses,
            names,
        }
    }
}

impl Decls {
    /// Prepares the edit of the tree that made this change. All memory is taken that the edit needs; what the table
    /// tells stays, apart from room.
    ///
    /// It goes through what was changed, through what is noted of the names that are mentioned there, and, where a
    /// declaration or a heading was changed, through the declarations of its procedure, all procedures and the
    /// phrases that are due for a check.
    pub fn prepare(
        &mut self,
        alloc: Global,
        tree: &Tree,
        change: &Change,
    ) -> Result<DeclEdit, OutOfMemory>
        requires tree { IsTree tree.now }
        requires before { (before : PlainTree) × IsDeclsBefore self.old before tree.now change.now }
        ensures same { roomless_decls self.new ≡ roomless_decls self.old }
        ensures edit { (before : PlainTree) → IsDeclsBefore self.old before tree.now change.now
            → IfOk result (IsDeclEdit before tree.now change.now self.new) }
        ensures ready { IfOk result (λ edit. CanPutInTable edit self.new) }
    {
        let Ok(edit) = self.edit_of(alloc, tree, change) else {
            return Err(OutOfMemory);
        };
        let room = self.make_room(edit.headings.len(), edit.uses.len());
        room.and(Ok(edit))
    }

    /// Makes room for the items of one more procedure, for so many more headings, and for so many more names that are
    /// mentioned.
    fn make_room(&mut self, headings: usize, names: usize) -> Result<(), OutOfMemory>
        ensures same { roomless_decls self.new ≡ roomless_decls self.old }
        ensures procedures { OnOk result (1 ≤ self.new.spare.procedures) }
        ensures headings { OnOk result (headings ≤ self.new.spare.headings) }
        ensures names { OnOk result (names ≤ self.new.spare.names) }
    {
        self.scopes.reserve_one()?;
        self.headings.reserve(headings)?;
        self.uses.reserve(names)?;
        Ok(())
    }

    /// What an edit of the tree that made this change makes of the table.
    fn edit_of(&self, alloc: Global, tree: &Tree, change: &Change) -> Result<DeclEdit, OutOfMemory>
        requires tree { IsTree tree.now }
        requires before { (before : PlainTree) × IsDeclsBefore self.now before tree.now change.now }
        ensures after { (before : PlainTree) → IsDeclsBefore self.now before tree.now change.now
            → IfOk result (λ edit. IsDeclsAfter self.now edit tree.now.items) }
        ensures due { (before : PlainTree) → IsDeclsBefore self.now before tree.now change.now
            → IfOk result (λ edit. AreDue before.items tree.now.items change.now edit.due) }
        ensures gone { (before : PlainTree) → IsDeclsBefore self.now before tree.now change.now
            → IfOk result (λ edit. AreGone before.items change.now edit.gone) }
        ensures known { IfOk result (λ edit. KnowsDue edit tree.now.items) }
        ensures names { IfOk result (λ edit. MayMendNames edit.names.mend edit.names.path self.now.names) }
        ensures table { IfOk result (λ edit. HasItemsOf edit.decls.items edit.items) }
    {
        let Ok(mut edit) = self.pieces_of(alloc, tree, change) else {
            return Err(OutOfMemory);
        };
        let filled = &mut edit;
        let known = self.know_due(
            alloc,
            tree,
            &filled.headings,
            filled.items,
            &mut filled.table,
            filled.due.as_slice(),
        );
        known.and(Ok(edit))
    }

    /// Gathers in the other table what has to be known where the phrases at these places of the edited tree are checked,
    /// where these become of effective headings, and this of effective items.
    fn know_due<'a>(
        &'a self,
        alloc: Global,
        tree: &'a Tree,
        headings: &'a HeadingChanges,
        items: ItemChange,
        table: &mut Decls,
        due: &[PhraseAt],
    ) -> Result<(), OutOfMemory>
        requires tree { IsTree tree.now }
        requires source { IsSource self.now headings.now items tree.now.items }
        requires gathering { IsGathering items tree.now.items table.old }
        ensures own { OnOk result (KeepsOwn items table.old table.new) }
        ensures knows { OnOk result ((at : PhraseAt) (procedure : PlainNode) (phrase : PlainPhrase)
            → Contains due.now at → Stands tree.now.items at procedure phrase
            → Knows table.new tree.now.items procedure phrase) }
    {
        let sources = Sources {
            before: self,
            tree,
            headings,
            items,
        };
        sources.know_all(alloc, table, due)
    }

    /// What an edit of the tree that made this change makes of the table, where the edit's own table has the items
    /// alone that come.
    fn pieces_of(
        &self,
        alloc: Global,
        tree: &Tree,
        change: &Change,
    ) -> Result<DeclEdit, OutOfMemory>
        requires tree { IsTree tree.now }
        requires before { (before : PlainTree) × IsDeclsBefore self.now before tree.now change.now }
        ensures after { (before : PlainTree) → IsDeclsBefore self.now before tree.now change.now
            → IfOk result (λ edit. IsDeclsAfter self.now edit tree.now.items) }
        ensures due { (before : PlainTree) → IsDeclsBefore self.now before tree.now change.now
            → IfOk result (λ edit. AreDue before.items tree.now.items change.now edit.due) }
        ensures gone { (before : PlainTree) → IsDeclsBefore self.now before tree.now change.now
            → IfOk result (λ edit. AreGone before.items change.now edit.gone) }
        ensures names { IfOk result (λ edit. MayMendNames edit.names.mend edit.names.path self.now.names) }
        ensures table { IfOk result (λ edit. HasItemsOf edit.decls.items edit.items) }
        ensures only { IfOk result (λ edit. edit.decls.items ≡ items_only edit.items) }
        ensures headings { IfOk result (λ edit. edit.decls.headings ≡ []) }
    {
        let names = NameEdit::of(alloc, &self.names, tree, change)?;
        self.pieces_with(alloc, tree, change, names)
    }

    /// The same, where this becomes of the names of nodes.
    fn pieces_with(
        &self,
        alloc: Global,
        tree: &Tree,
        change: &Change,
        names: NameEdit,
    ) -> Result<DeclEdit, OutOfMemory>
        requires tree { IsTree tree.now }
        requires before { (before : PlainTree) × IsDeclsBefore self.now before tree.now change.now }
        requires edit { (before : PlainTree) → IsTree before → self.now.names ≡ names_of before.items
            → Differs before tree.now change.now
            → IsEditOf change.now.what change.now.slot.0 before.items tree.now.items names }
        requires after { names_mended names.mend names.path self.now.names ≡ names_of tree.now.items }
        requires there { MayMendNames names.mend names.path self.now.names }
        ensures after { (before : PlainTree) → IsDeclsBefore self.now before tree.now change.now
            → IfOk result (λ edit. IsDeclsAfter self.now edit tree.now.items) }
        ensures due { (before : PlainTree) → IsDeclsBefore self.now before tree.now change.now
            → IfOk result (λ edit. AreDue before.items tree.now.items change.now edit.due) }
        ensures gone { (before : PlainTree) → IsDeclsBefore self.now before tree.now change.now
            → IfOk result (λ edit. AreGone before.items change.now edit.gone) }
        ensures names { IfOk result (λ edit. MayMendNames edit.names.mend edit.names.path self.now.names) }
        ensures table { IfOk result (λ edit. HasItemsOf edit.decls.items edit.items) }
        ensures only { IfOk result (λ edit. edit.decls.items ≡ items_only edit.items) }
        ensures headings { IfOk result (λ edit. edit.decls.headings ≡ []) }
    {
        let mut pieces = Pieces::none(alloc);
        self.find_pieces(alloc, tree, change, &names, &mut pieces)
            .and(Ok(pieces.with_names(names)))
    }

    /// Finds the pieces of the edit that go with what becomes of the names of nodes.
    fn find_pieces(
        &self,
        alloc: Global,
        tree: &Tree,
        change: &Change,
        names: &NameEdit,
        pieces: &mut Pieces,
    ) -> Result<(), OutOfMemory>
        requires tree { IsTree tree.now }
        requires before { (before : PlainTree) × IsDeclsBefore self.now before tree.now change.now }
        requires edit { (before : PlainTree) → IsTree before → self.now.names ≡ names_of before.items
            → Differs before tree.now change.now
            → IsEditOf change.now.what change.now.slot.0 before.items tree.now.items names.now }
        requires after { names_mended names.now.mend names.now.path self.now.names ≡ names_of tree.now.items }
        requires items { pieces.old.table.items ≡ empty }
        requires headings { pieces.old.table.headings ≡ [] }
        ensures after { (before : PlainTree) → IsDeclsBefore self.now before tree.now change.now
            → OnOk result (IsDeclsAfter self.now (pieces_edit pieces.new names.now) tree.now.items) }
        ensures due { (before : PlainTree) → IsDeclsBefore self.now before tree.now change.now
            → OnOk result (AreDue before.items tree.now.items change.now pieces.new.due) }
        ensures gone { (before : PlainTree) → IsDeclsBefore self.now before tree.now change.now
            → OnOk result (AreGone before.items change.now pieces.new.gone) }
        ensures table { OnOk result
            (HasItemsOf pieces.new.table.items (plain_item_change pieces.new.items pieces.new.table.items)) }
        ensures only { OnOk result (pieces.new.table.items
            ≡ items_only (plain_item_change pieces.new.items pieces.new.table.items)) }
        ensures headings { OnOk result (pieces.new.table.headings ≡ []) }
    {
        slot_edit_is_path_edit();
        room_is_not_shown();
        checks_ignore_room_and_elision();
        let nodes = ChangedNodes {
            old: names.old(&self.names),
            new: names.new(),
            part: part_set(change),
        };
        let reach = Reach::of(&nodes, names.path());
        let procedure = procedure_after(tree, change, names.path());
        let Ok(()) = self.find_changed(alloc, tree, &nodes, change, procedure, reach, pieces) else {
            return Err(OutOfMemory);
        };
        Ok(())
    }

    /// Finds the pieces of an edit that changed these nodes in the procedure, if it is there, and reaches so far.
    fn find_changed(
        &self,
        alloc: Global,
        tree: &Tree,
        nodes: &ChangedNodes<'_>,
        change: &Change,
        procedure: Option<&Node>,
        reach: Reach,
        pieces: &mut Pieces,
    ) -> Result<(), OutOfMemory>
        requires tree { IsTree tree.now }
        requires ordered { AreOrdered self.now.uses }
        requires went { nodes.now.part ≡ None → IfSome nodes.now.old (λ node. HaveFewParts (node_names node.now)) }
        requires came { nodes.now.part ≡ None → IfSome nodes.now.new (λ node. HaveFewParts (node_names node.now)) }
        requires subtree { IfSome procedure (λ node. IsSubtree node.now) }
        requires few { IfSome procedure (λ node. count node.now.inner < most_slots) }
        requires items { pieces.old.table.items ≡ empty }
        requires headings { pieces.old.table.headings ≡ [] }
        ensures uses { OnOk result (AreUsesMended nodes.now.part (option_copied nodes.now.old)
            (option_copied nodes.now.new) self.now.uses pieces.new.uses.uses) }
        ensures none { OnOk result (has_heading reach ≡ false → pieces.new.headings ≡ []) }
        ensures right { OnOk result (MayBeNoted tree.now.items pieces.new.headings) }
        ensures noted { OnOk result (has_heading reach ≡ true → (name : List ℕ)
            → (stands_in (option_copied nodes.now.old) name || stands_in (option_copied nodes.now.new) name) ≡ true
            → IsHeadingNoted tree.now.items pieces.new.headings name) }
        ensures gone { OnOk result
            (IsSettled (spots_of nodes.now.part (option_copied nodes.now.old)) pieces.new.gone) }
        ensures due { OnOk result (AreDueBy reach nodes.now.part (option_copied nodes.now.old)
            (option_copied nodes.now.new) self.now pieces.new.uses.uses
            (items_in self.now.items change.now.procedure.0)
            (items_in pieces.new.table.items change.now.procedure.0) (option_copied procedure.entry) pieces.new.due) }
        ensures items { OnOk result (plain_item_change pieces.new.items pieces.new.table.items
            ≡ items_become (has_items reach) change.now.slot.0 (option_copied procedure.entry)) }
        ensures there { OnOk result
            (HasItemsOf pieces.new.table.items (plain_item_change pieces.new.items pieces.new.table.items)) }
        ensures only { OnOk result (pieces.new.table.items
            ≡ items_only (plain_item_change pieces.new.items pieces.new.table.items)) }
        ensures headings { OnOk result (pieces.new.table.headings ≡ []) }
    {
        let uses = nodes.mended(alloc, &self.uses)?;
        drop(mem::replace(&mut pieces.uses, uses));
        let headings = heading_changes(alloc, tree, nodes, reach)?;
        drop(mem::replace(&mut pieces.headings, headings));
        let gone = nodes.gone(alloc)?;
        drop(mem::replace(&mut pieces.gone, gone));
        self.gather(alloc, nodes, change, procedure, reach, pieces)?;
        Ok(())
    }

    /// Gathers the items that come by an edit that changed these nodes, and what is due, where the uses are found.
    fn gather(
        &self,
        alloc: Global,
        nodes: &ChangedNodes<'_>,
        change: &Change,
        procedure: Option<&Node>,
        reach: Reach,
        pieces: &mut Pieces,
    ) -> Result<(), OutOfMemory>
        requires came { nodes.now.part ≡ None → IfSome nodes.now.new (λ node. HaveFewParts (node_names node.now)) }
        requires subtree { IfSome procedure (λ node. IsSubtree node.now) }
        requires few { IfSome procedure (λ node. count node.now.inner < most_slots) }
        requires items { pieces.old.table.items ≡ empty }
        requires headings { pieces.old.table.headings ≡ [] }
        ensures due { OnOk result (AreDueBy reach nodes.now.part (option_copied nodes.now.old)
            (option_copied nodes.now.new) self.now pieces.old.uses.uses
            (items_in self.now.items change.now.procedure.0)
            (items_in pieces.new.table.items change.now.procedure.0) (option_copied procedure.entry) pieces.new.due) }
        ensures items { OnOk result (plain_item_change pieces.new.items pieces.new.table.items
            ≡ items_become (has_items reach) change.now.slot.0 (option_copied procedure.entry)) }
        ensures there { OnOk result
            (HasItemsOf pieces.new.table.items (plain_item_change pieces.new.items pieces.new.table.items)) }
        ensures only { OnOk result (pieces.new.table.items
            ≡ items_only (plain_item_change pieces.new.items pieces.new.table.items)) }
        ensures headings { OnOk result (pieces.new.table.headings ≡ []) }
        ensures same_gone { pieces.new.gone ≡ pieces.old.gone }
        ensures same_headings { pieces.new.headings ≡ pieces.old.headings }
        ensures same_uses { pieces.new.uses ≡ pieces.old.uses }
    {
        let items = take_items(alloc, &mut pieces.table, change, procedure, reach)?;
        pieces.items = items;
        let due = self.due_of(
            alloc,
            nodes,
            &pieces.uses,
            &pieces.table,
            change,
            procedure,
            reach,
        )?;
        drop(mem::replace(&mut pieces.due, due));
        Ok(())
    }

    /// The places of the phrases that are due for a check: those that the edit put in, the lists of names of the
    /// procedure where a declaration or a heading was changed, and those that mention a name that the edit affects.
    fn due_of(
        &self,
        alloc: Global,
        nodes: &ChangedNodes<'_>,
        uses: &Uses,
        table: &Decls,
        change: &Change,
        procedure: Option<&Node>,
        reach: Reach,
    ) -> Result<MentionList, OutOfMemory>
        requires came { nodes.now.part ≡ None → IfSome nodes.now.new (λ node. HaveFewParts (node_names node.now)) }
        requires subtree { IfSome procedure (λ node. IsSubtree node.now) }
        requires few { IfSome procedure (λ node. count node.now.inner < most_slots) }
        ensures { IfOk result (AreDueBy reach nodes.now.part (option_copied nodes.now.old) (option_copied nodes.now.new)
            self.now uses.now.uses (items_in self.now.items change.now.procedure.0)
            (items_in table.now.items change.now.procedure.0) (option_copied procedure.entry)) }
    {
        let Ok(affected) = self.affected(alloc, nodes, table, change, procedure, reach) else {
            return Err(OutOfMemory);
        };
        let mut due = MentionList::new(alloc);
        let added = self.add_due(nodes, uses, affected.as_slice(), procedure, reach, &mut due);
        drop(affected);
        added.and(Ok(due))
    }

    /// Adds the places of the phrases that are due for a check where the edit affects these names, and puts all places
    /// in order.
    fn add_due(
        &self,
        nodes: &ChangedNodes<'_>,
        uses: &Uses,
        affected: &[Name],
        procedure: Option<&Node>,
        reach: Reach,
        due: &mut MentionList,
    ) -> Result<(), OutOfMemory>
        requires came { nodes.now.part ≡ None → IfSome nodes.now.new (λ node. HaveFewParts (node_names node.now)) }
        requires subtree { IfSome procedure (λ node. IsSubtree node.now) }
        requires few { IfSome procedure (λ node. count node.now.inner < most_slots) }
        ensures { OnOk result (IsSettled (((due.old ++ spots_of nodes.now.part (option_copied nodes.now.new))
            ++ due_lists (has_lists reach) (option_copied procedure.entry))
            ++ flat_map (uses_now self.now.uses uses.now.uses) affected.now) due.new) }
    {
        nodes.add_put_in(due)?;
        add_due_lists(procedure, reach, due)?;
        add_uses(affected, &self.uses, uses, due)?;
        due.settle();
        Ok(())
    }

    /// The names that the edit affects.
    fn affected(
        &self,
        alloc: Global,
        nodes: &ChangedNodes<'_>,
        table: &Decls,
        change: &Change,
        procedure: Option<&Node>,
        reach: Reach,
    ) -> Result<NameSet, OutOfMemory>
        ensures { IfOk result (λ names. (name : List ℕ) → has_name names name ≡ true
            ↔ IsGathered reach nodes.now.part (option_copied nodes.now.old) (option_copied nodes.now.new)
            self.now.headings (items_in self.now.items change.now.procedure.0)
            (items_in table.now.items change.now.procedure.0) (option_copied procedure.entry) name) }
    {
        let mut names = NameSet::new(alloc);
        self.add_affected(alloc, nodes, table, change, procedure, reach, &mut names)
            .and(Ok(names))
    }

    /// Adds the names that the edit affects, where none are there yet.
    fn add_affected(
        &self,
        alloc: Global,
        nodes: &ChangedNodes<'_>,
        table: &Decls,
        change: &Change,
        procedure: Option<&Node>,
        reach: Reach,
        names: &mut NameSet,
    ) -> Result<(), OutOfMemory>
        requires none { names.old ≡ [] }
        ensures { OnOk result ((name : List ℕ) → has_name names.new name ≡ true
            ↔ IsGathered reach nodes.now.part (option_copied nodes.now.old) (option_copied nodes.now.new)
            self.now.headings (items_in self.now.items change.now.procedure.0)
            (items_in table.now.items change.now.procedure.0) (option_copied procedure.entry) name) }
    {
        if !reach.has_lists() {
            return Ok(());
        }
        let Ok(()) = nodes.add_bound(names) else {
            return Err(OutOfMemory);
        };
        self.add_inside(alloc, table, change, procedure, reach, names)
    }

    /// Adds the names that the edit affects beyond what it changed: those of items of the procedure in which it
    /// changed a declaration, and that of its heading.
    fn add_inside(
        &self,
        alloc: Global,
        table: &Decls,
        change: &Change,
        procedure: Option<&Node>,
        reach: Reach,
        names: &mut NameSet,
    ) -> Result<(), OutOfMemory>
        ensures { OnOk result (AddsNames (turns_inside reach self.now.headings
            (items_in self.now.items change.now.procedure.0) (items_in table.now.items change.now.procedure.0)
            (option_copied procedure.entry)) names.old names.new) }
    {
        match reach {
            Reach::Statement => Ok(()),
            Reach::Declaration => self.add_turned(alloc, table, change.procedure, procedure, names),
            Reach::Heading => Ok(()),
            Reach::Procedure => Ok(()),
        }
    }

    /// Adds the names of the items in the slot of which the other table has another one, or none, and those of which
    /// this one has none, and the name of the procedure, if it is there and a parameter in its heading has another
    /// kind by the other table.
    fn add_turned(
        &self,
        alloc: Global,
        table: &Decls,
        slot: Slot,
        procedure: Option<&Node>,
        names: &mut NameSet,
    ) -> Result<(), OutOfMemory>
        ensures { OnOk result (AddsNames (names_turn self.now.headings (items_in self.now.items slot.0)
            (items_in table.now.items slot.0) (option_copied procedure.entry)) names.old names.new) }
    {
        let Some(procedure) = procedure else {
            return Ok(());
        };
        let none = Items::new(alloc);
        let old = self.items_or(slot, &none);
        let new = table.items_or(slot, &none);
        let added = self.add_turned_by(procedure, old, new, names);
        drop(none);
        added
    }

    /// Adds the names of the items for which the old and the new items of the procedure differ, and its own name, if a
    /// parameter in its effective heading has another kind by the new items.
    fn add_turned_by(
        &self,
        procedure: &Node,
        old: &Items,
        new: &Items,
        names: &mut NameSet,
    ) -> Result<(), OutOfMemory>
        ensures { OnOk result (AddsNames (names_turn self.now.headings old.now new.now (Some procedure.now))
            names.old names.new) }
    {
        names.add_differing(old, new)?;
        names.add_differing(new, old)?;
        self.add_headed(procedure, old, new, names)
    }

    /// The effective items of the procedure in the slot, or these where there are none.
    fn items_or<'a>(&'a self, slot: Slot, none: &'a Items) -> &'a Items
        ensures { none.now ≡ [] → result.now ≡ items_in self.now.items slot.0 }
    {
        match self.scopes.get(slot) {
            Some(items) => items,
            None => none,
        }
    }

    /// Adds the name of the procedure, if its heading is effective and a parameter has another kind by the new items.
    fn add_headed(
        &self,
        procedure: &Node,
        old: &Items,
        new: &Items,
        names: &mut NameSet,
    ) -> Result<(), OutOfMemory>
        ensures { OnOk result (AddsNames (own_turns self.now.headings old.now new.now procedure.now)
            names.old names.new) }
    {
        let Some(name) = heading_name(procedure) else {
            return Ok(());
        };
        let Some(parameters) = heading_parameters(procedure) else {
            return Ok(());
        };
        if self.is_effective(name, procedure.slot()) && old.turn(new, parameters) {
            names.add(name)
        } else {
            Ok(())
        }
    }

    /// Whether the effective heading of the name is that of the procedure in the slot.
    fn is_effective(&self, name: &Name, procedure: Slot) -> bool
        ensures { result ≡ is_slot procedure.0 (slot_of name.now self.now.headings) }
    {
        match self.headings.named(name) {
            Some(slot) => slot.0 == procedure.0,
            None => false,
        }
    }
}

/// Adds the places of the lists of names of the procedure, if it is there and the edit reaches them.
fn add_due_lists(
    procedure: Option<&Node>,
    reach: Reach,
    places: &mut MentionList,
) -> Result<(), OutOfMemory>
    requires subtree { IfSome procedure (λ node. IsSubtree node.now) }
    requires few { IfSome procedure (λ node. count node.now.inner < most_slots) }
    ensures { OnOk result (places.new ≡ places.old ++ due_lists (has_lists reach) (option_copied procedure.entry)) }
{
    if !reach.has_lists() {
        return Ok(());
    }
    match procedure {
        Some(procedure) => add_lists(procedure, places),
        None => Ok(()),
    }
}

/// What becomes of effective headings: those of the names that stand where a procedure had or has its name, if a
/// heading was changed.
fn heading_changes(
    alloc: Global,
    tree: &Tree,
    nodes: &ChangedNodes<'_>,
    reach: Reach,
) -> Result<HeadingChanges, OutOfMemory>
    requires tree { IsTree tree.now }
    ensures none { IfOk result (λ changes. has_heading reach ≡ false → changes ≡ []) }
    ensures right { IfOk result (MayBeNoted tree.now.items) }
    ensures noted { IfOk result (λ changes. has_heading reach ≡ true → (name : List ℕ)
        → (stands_in (option_copied nodes.now.old) name || stands_in (option_copied nodes.now.new) name) ≡ true
        → IsHeadingNoted tree.now.items changes name) }
{
    let mut changes = HeadingChanges::none(alloc);
    note_headings(&mut changes, tree, nodes, reach).and(Ok(changes))
}

/// Notes what becomes of the effective headings of the names that stand where a procedure had or has its name, if a
/// heading was changed; nothing is noted yet.
fn note_headings(
    changes: &mut HeadingChanges,
    tree: &Tree,
    nodes: &ChangedNodes<'_>,
    reach: Reach,
) -> Result<(), OutOfMemory>
    requires tree { IsTree tree.now }
    requires empty { changes.old ≡ [] }
    ensures none { OnOk result (has_heading reach ≡ false → changes.new ≡ []) }
    ensures right { OnOk result (MayBeNoted tree.now.items changes.new) }
    ensures noted { OnOk result (has_heading reach ≡ true → (name : List ℕ)
        → (stands_in (option_copied nodes.now.old) name || stands_in (option_copied nodes.now.new) name) ≡ true
        → IsHeadingNoted tree.now.items changes.new name) }
{
    if !reach.has_heading() {
        return Ok(());
    }
    note_heading(changes, tree, nodes.old)?;
    note_heading(changes, tree, nodes.new)?;
    Ok(())
}

/// Notes what the effective headings are of the names that stand where the procedure has its name, if it is there.
fn note_heading(
    changes: &mut HeadingChanges,
    tree: &Tree,
    procedure: Option<&NameNode>,
) -> Result<(), OutOfMemory>
    requires tree { IsTree tree.now }
    ensures { OnOk result
        (NotesHeadings (stands_in (option_copied procedure.entry)) tree.now.items changes.old changes.new) }
{
    match procedure {
        Some(node) => changes.note(tree, node),
        None => Ok(()),
    }
}

/// The part that was set, if one alone was.
fn part_set(change: &Change) -> Option<u8>
    ensures { result ≡ part_of change.now.what }
{
    match change.what {
        What::Node => None,
        What::Part(part) => Some(part),
        What::Added => None,
        What::Dropped => None,
    }
}

/// Main or the procedure of the tree that was changed, or in which something was: none where it was dropped.
fn procedure_after<'a>(tree: &'a Tree, change: &Change, path: &[u32]) -> Option<&'a Node>
    requires tree { IsTree tree.now }
    ensures procedure { option_copied result ≡ procedure_left change.now.what path.now tree.now.items }
    ensures subtree { IfSome result (λ node. IsSubtree node.now) }
    ensures few { IfSome result (λ node. count node.now.inner < most_slots) }
{
    items_are_nodes();
    let Some((k, rest)) = path.split_first() else {
        return None;
    };
    if is_item_dropped(change, rest) {
        return None;
    }
    tree.node(&path_of_item(*k))
}

/// Whether main or a procedure was dropped as a whole, by the path inside it to what was changed.
fn is_item_dropped(change: &Change, path: &[u32]) -> bool
    ensures { result ≡ drops_item change.now.what path.now }
{
    match change.what {
        What::Node => false,
        What::Part(_) => false,
        What::Added => false,
        What::Dropped => path.is_empty(),
    }
}
