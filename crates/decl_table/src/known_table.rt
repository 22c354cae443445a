//! What has to be known where phrases of an edited tree are checked, gathered in a table of its own.
ghost use Rattle.std.specs.Prelude.{◌≡◌, ◌<◌, ℕ, true, Contains, IfOk, IfSome, IsSomeAnd, List, OnOk, option_map, slice_get};
ghost use Rattle.std.specs.FinMap.{empty};
ghost use Rattle.plcs_base.specs.declared.place.PhraseAt.{PhraseAt};
ghost use Rattle.plcs_grammar.specs.PlainPhrase.{PlainPhrase, plain_phrase};
ghost use Rattle.template_tree.specs.Checks.Environment.{Sig};
ghost use Rattle.template_tree.specs.Checks.Mention.{mentioned};
ghost use Rattle.template_tree.specs.Programs.PlainTree.{PlainNode, nodes};
ghost use Rattle.template_tree.specs.Programs.Tree.{IsTree};
ghost use Rattle.std.specs.Option.{option_copied};
ghost use Rattle.template_tree.specs.Programs.Limit.{most_slots};
ghost use Rattle.template_tree.specs.Programs.Slots.{count};
ghost use Rattle.decl_table.specs.DeclEdit.{HasItemsOf};
ghost use Rattle.decl_table.specs.Knowledge.{Knows, KnowsHeading, KnowsItems, KnowsParameters, Stands, called_name};
ghost use Rattle.decl_table.specs.Private.ItemChangeView.{items_become, plain_item_change};
ghost use Rattle.decl_table.specs.Private.KnownTable.{IsGathering, IsSource, KeepsOwn, KnowsItem, Learns, is_changed, item_on, items_only};
ghost use Rattle.decl_table.specs.Private.NameTests.{has_name};
ghost use Rattle.decl_table.specs.Private.ReachView.{has_items};

use crate::decl_edit::ItemChange;
use crate::decls::Decls;
use crate::heading_changes::HeadingChanges;
use crate::items::Items;
use crate::name_list::NameList;
use crate::reach::Reach;
use plcs_base::{Name, OutOfMemory, PhraseAt, Slot};
use plcs_grammar::Phrase;
use std::alloc::Global;
use template_tree::{
    Change, Node, Path, Tree, heading_parameters, items_are_nodes, path_of_item, phrase_in,
};

/// What an edited tree is known by while it is gathered what has to be known of it: the table before the edit, the tree
/// after it, the changes of headings, and what becomes of the items of a procedure, all of which are gathered.
#[derive(Clone, Copy)]
pub(crate) struct Sources<'a> {
    pub(crate) before: &'a Decls,
    pub(crate) tree: &'a Tree,
    pub(crate) headings: &'a HeadingChanges,
    pub(crate) items: ItemChange,
}

impl Sources<'_> {
    /// Gathers in the table what has to be known where the phrases at these places are checked.
    pub(crate) fn know_all(
        &self,
        alloc: Global,
        table: &mut Decls,
        due: &[PhraseAt],
    ) -> Result<(), OutOfMemory>
        requires tree { IsTree self.now.tree.now }
        requires source { IsSource self.now.before.now self.now.headings.now self.now.items self.now.tree.now.items }
        requires gathering { IsGathering self.now.items self.now.tree.now.items table.old }
        ensures learns { OnOk result (Learns self.now.tree.now.items table.old table.new) }
        ensures own { OnOk result (KeepsOwn self.now.items table.old table.new) }
        ensures knows { OnOk result ((at : PhraseAt) (procedure : PlainNode) (phrase : PlainPhrase)
            → Contains due.now at → Stands self.now.tree.now.items at procedure phrase
            → Knows table.new self.now.tree.now.items procedure phrase) }
    {
        for at in due {
            self.know(alloc, table, *at)?;
        }
        Ok(())
    }

    /// Gathers what has to be known where the phrase at the place is checked: nothing where none stands.
    fn know(&self, alloc: Global, table: &mut Decls, at: PhraseAt) -> Result<(), OutOfMemory>
        requires tree { IsTree self.now.tree.now }
        requires source { IsSource self.now.before.now self.now.headings.now self.now.items self.now.tree.now.items }
        requires gathering { IsGathering self.now.items self.now.tree.now.items table.old }
        ensures learns { OnOk result (Learns self.now.tree.now.items table.old table.new) }
        ensures own { OnOk result (KeepsOwn self.now.items table.old table.new) }
        ensures knows { OnOk result ((procedure : PlainNode) (phrase : PlainPhrase)
            → Stands self.now.tree.now.items at procedure phrase
            → Knows table.new self.now.tree.now.items procedure phrase) }
    {
        let Some((procedure, phrase)) = self.standing(at) else {
            return Ok(());
        };
        self.know_names(alloc, table, procedure.slot(), phrase)?;
        match called(phrase) {
            Some(name) => self.know_called(alloc, table, name),
            None => Ok(()),
        }
    }

    /// The phrase at the place, and main or the procedure in which it stands, or none where no phrase stands there.
    fn standing(&self, at: PhraseAt) -> Option<(&Node, &Phrase)>
        requires tree { IsTree self.now.tree.now }
        ensures { (procedure : PlainNode) (phrase : PlainPhrase) → Stands self.now.tree.now.items at procedure phrase
            → IsSomeAnd result (λ found. (found.0.now ≡ procedure) × (plain_phrase found.1.now ≡ phrase)) }
    {
        let Some(path) = self.tree.path_of(at.slot) else {
            return None;
        };
        let Some(node) = self.tree.node(&path) else {
            return None;
        };
        let Some(procedure) = item_on(self.tree, &path) else {
            return None;
        };
        let Some(phrase) = phrase_in(node, at.part) else {
            return None;
        };
        Some((procedure, phrase))
    }

    /// Gathers the items of the procedure and the headings that have the names that the phrase mentions.
    fn know_names(
        &self,
        alloc: Global,
        table: &mut Decls,
        procedure: Slot,
        phrase: &Phrase,
    ) -> Result<(), OutOfMemory>
        requires tree { IsTree self.now.tree.now }
        requires source { IsSource self.now.before.now self.now.headings.now self.now.items self.now.tree.now.items }
        requires gathering { IsGathering self.now.items self.now.tree.now.items table.old }
        ensures learns { OnOk result (Learns self.now.tree.now.items table.old table.new) }
        ensures own { OnOk result (KeepsOwn self.now.items table.old table.new) }
        ensures items { OnOk result (KnowsItems table.new self.now.tree.now.items procedure.0
            (mentioned (plain_phrase phrase.now))) }
        ensures headings { OnOk result ((name : List ℕ)
            → has_name (mentioned (plain_phrase phrase.now)) name ≡ true
            → KnowsHeading table.new self.now.tree.now.items name) }
    {
        let Ok(names) = NameList::of(alloc, phrase) else {
            return Err(OutOfMemory);
        };
        let known = self.know_these(alloc, table, procedure, names.as_slice());
        drop(names);
        known
    }

    /// Gathers the items of the procedure and the headings that have these names.
    fn know_these(
        &self,
        alloc: Global,
        table: &mut Decls,
        procedure: Slot,
        names: &[Name],
    ) -> Result<(), OutOfMemory>
        requires tree { IsTree self.now.tree.now }
        requires source { IsSource self.now.before.now self.now.headings.now self.now.items self.now.tree.now.items }
        requires gathering { IsGathering self.now.items self.now.tree.now.items table.old }
        ensures learns { OnOk result (Learns self.now.tree.now.items table.old table.new) }
        ensures own { OnOk result (KeepsOwn self.now.items table.old table.new) }
        ensures items { OnOk result (KnowsItems table.new self.now.tree.now.items procedure.0 names.now) }
        ensures headings { OnOk result ((name : List ℕ) → has_name names.now name ≡ true
            → KnowsHeading table.new self.now.tree.now.items name) }
    {
        let Ok(()) = self.know_items(alloc, table, procedure, names) else {
            return Err(OutOfMemory);
        };
        self.know_headings(table, names)
    }

    /// Gathers the items of the parameters of the procedure that is called by the name, if there is one.
    fn know_called(&self, alloc: Global, table: &mut Decls, name: &Name) -> Result<(), OutOfMemory>
        requires tree { IsTree self.now.tree.now }
        requires source { IsSource self.now.before.now self.now.headings.now self.now.items self.now.tree.now.items }
        requires gathering { IsGathering self.now.items self.now.tree.now.items table.old }
        ensures learns { OnOk result (Learns self.now.tree.now.items table.old table.new) }
        ensures own { OnOk result (KeepsOwn self.now.items table.old table.new) }
        ensures knows { OnOk result (KnowsParameters table.new self.now.tree.now.items name.now) }
    {
        let Some(slot) = self.headed(name) else {
            return Ok(());
        };
        let Some(path) = self.tree.path_of(slot) else {
            return Ok(());
        };
        let Some(called) = self.tree.node(&path) else {
            return Ok(());
        };
        let Some(parameters) = heading_parameters(called) else {
            return Ok(());
        };
        self.know_items(alloc, table, slot, parameters)
    }

    /// Gathers the items of these names that the procedure has.
    fn know_items(
        &self,
        alloc: Global,
        table: &mut Decls,
        procedure: Slot,
        names: &[Name],
    ) -> Result<(), OutOfMemory>
        requires tree { IsTree self.now.tree.now }
        requires source { IsSource self.now.before.now self.now.headings.now self.now.items self.now.tree.now.items }
        requires gathering { IsGathering self.now.items self.now.tree.now.items table.old }
        ensures learns { OnOk result (Learns self.now.tree.now.items table.old table.new) }
        ensures own { OnOk result (KeepsOwn self.now.items table.old table.new) }
        ensures knows { OnOk result (KnowsItems table.new self.now.tree.now.items procedure.0 names.now) }
    {
        for name in names {
            self.know_item(alloc, table, procedure, name)?;
        }
        Ok(())
    }

    /// Gathers the item of the name that the procedure has, if it has one. All items are there already of the
    /// procedure whose items change.
    fn know_item(
        &self,
        alloc: Global,
        table: &mut Decls,
        procedure: Slot,
        name: &Name,
    ) -> Result<(), OutOfMemory>
        requires tree { IsTree self.now.tree.now }
        requires source { IsSource self.now.before.now self.now.headings.now self.now.items self.now.tree.now.items }
        requires gathering { IsGathering self.now.items self.now.tree.now.items table.old }
        ensures learns { OnOk result (Learns self.now.tree.now.items table.old table.new) }
        ensures own { OnOk result (KeepsOwn self.now.items table.old table.new) }
        ensures knows { OnOk result (KnowsItem table.new self.now.tree.now.items procedure.0 name.now) }
    {
        if self.items.is_of(procedure) {
            return Ok(());
        }
        match self.before.type_of(procedure, name) {
            Some(item) => table.note_item(alloc, procedure, &item),
            None => Ok(()),
        }
    }

    /// Gathers the effective headings of these names.
    fn know_headings(&self, table: &mut Decls, names: &[Name]) -> Result<(), OutOfMemory>
        requires tree { IsTree self.now.tree.now }
        requires source { IsSource self.now.before.now self.now.headings.now self.now.items self.now.tree.now.items }
        requires gathering { IsGathering self.now.items self.now.tree.now.items table.old }
        ensures learns { OnOk result (Learns self.now.tree.now.items table.old table.new) }
        ensures own { OnOk result (KeepsOwn self.now.items table.old table.new) }
        ensures knows { OnOk result ((name : List ℕ) → has_name names.now name ≡ true
            → KnowsHeading table.new self.now.tree.now.items name) }
    {
        for name in names {
            self.know_heading(table, name)?;
        }
        Ok(())
    }

    /// Gathers the effective heading of the name, if it has one.
    fn know_heading(&self, table: &mut Decls, name: &Name) -> Result<(), OutOfMemory>
        requires tree { IsTree self.now.tree.now }
        requires source { IsSource self.now.before.now self.now.headings.now self.now.items self.now.tree.now.items }
        requires gathering { IsGathering self.now.items self.now.tree.now.items table.old }
        ensures learns { OnOk result (Learns self.now.tree.now.items table.old table.new) }
        ensures own { OnOk result (KeepsOwn self.now.items table.old table.new) }
        ensures knows { OnOk result (KnowsHeading table.new self.now.tree.now.items name.now) }
    {
        match self.headed(name) {
            Some(slot) => table.note_heading(name, slot),
            None => Ok(()),
        }
    }

    /// The slot of the effective heading of the name after the edit, if it has one.
    fn headed(&self, name: &Name) -> Option<Slot>
        requires source { IsSource self.now.before.now self.now.headings.now self.now.items self.now.tree.now.items }
        ensures { option_map (λ slot. slot.0) result
            ≡ option_map (λ signature. signature.slot) (Sig self.now.tree.now.items name.now) }
    {
        match self.headings.change(name) {
            Some(change) => change.slot,
            None => self.before.signature(name),
        }
    }
}

impl ItemChange {
    /// Whether it is of the procedure in the slot.
    fn is_of(self, procedure: Slot) -> bool
        ensures { result ≡ is_changed self procedure.0 }
    {
        match self {
            ItemChange::Stay => false,
            ItemChange::Set(slot) => slot.0 == procedure.0,
            ItemChange::Gone(slot) => slot.0 == procedure.0,
        }
    }
}

/// Main or the procedure of the tree to which the path leads, or in which it leads to a node.
fn item_on<'a>(tree: &'a Tree, path: &Path) -> Option<&'a Node>
    requires tree { IsTree tree.now }
    ensures { option_map (λ node. node.now) result ≡ item_on tree.now.items path.now.items }
{
    let Some((k, _)) = path.split_first() else {
        return None;
    };
    item(tree, *k)
}

/// Main or the procedure by its number: main is 0, and then come the procedures.
fn item(tree: &Tree, k: u32) -> Option<&Node>
    requires tree { IsTree tree.now }
    ensures { option_map (λ node. node.now) result ≡ slice_get (nodes tree.now.items) k }
{
    items_are_nodes();
    tree.node(&path_of_item(k))
}

/// The name of the procedure that the phrase calls, if it is a call.
fn called(phrase: &Phrase) -> Option<&Name>
    ensures { option_map (λ name. name.now) result ≡ called_name (plain_phrase phrase.now) }
{
    match phrase {
        Phrase::Assignment(_, _) => None,
        Phrase::Condition(_) => None,
        Phrase::Expression(_) => None,
        Phrase::ExpressionList(_) => None,
        Phrase::VariableList(_) => None,
        Phrase::Variable(_) => None,
        Phrase::CallRef(name, _) => Some(name),
        Phrase::DeclaredList(_) => None,
        Phrase::ProcedureName(_) => None,
        Phrase::NameList(_) => None,
        Phrase::Length(_) => None,
        Phrase::CommentText(_) => None,
    }
}

/// Takes the effective items of the procedure into a table that has none yet, if they may have changed, and says what
/// becomes of them.
pub(crate) fn take_items(
    alloc: Global,
    table: &mut Decls,
    change: &Change,
    procedure: Option<&Node>,
    reach: Reach,
) -> Result<ItemChange, OutOfMemory>
    requires few { IfSome procedure (λ node. count node.now.inner < most_slots) }
    ensures items { IfOk result (λ items. plain_item_change items table.new.items
        ≡ items_become (has_items reach) change.now.slot.0 (option_copied procedure.entry)) }
    ensures there { IfOk result (λ items. HasItemsOf table.new.items (plain_item_change items table.new.items)) }
    ensures only { IfOk result (λ items. table.old.items ≡ empty
        → table.new.items ≡ items_only (plain_item_change items table.new.items)) }
    ensures headings { table.new.headings ≡ table.old.headings }
{
    if !reach.has_items() {
        return Ok(ItemChange::Stay);
    }
    let Some(node) = procedure else {
        return Ok(ItemChange::Gone(change.slot));
    };
    let slot = node.slot();
    let Ok(items) = Items::of(alloc, node) else {
        return Err(OutOfMemory);
    };
    table.put_items(slot, items)?;
    Ok(ItemChange::Set(slot))
}
