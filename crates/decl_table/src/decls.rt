//! The table of declarations.
ghost use Rattle.std.specs.Prelude.{◌≡◌, ◌<◌, [], ℕ, false, if◌then◌else◌, IfOk, List, OnOk, Some, bytes_eq, nat_eq, option_map};
ghost use Rattle.std.specs.FinMap.{empty, get, insert};
ghost use Rattle.std.specs.List.{list_any};
ghost use Rattle.template_tree.specs.Checks.Environment.{item_named};
ghost use Rattle.template_tree.specs.Programs.Limit.{most_slots};
ghost use Rattle.template_tree.specs.Checks.ParameterItem.{parameter_item, scalar_item};
ghost use Rattle.template_tree.specs.Programs.Program.{IsSubtree};
ghost use Rattle.template_tree.specs.Programs.Slots.{count};
ghost use Rattle.template_tree.specs.Programs.Tree.{IsTree};
ghost use Rattle.decl_table.specs.Agreement.{IsDeclsOf};
ghost use Rattle.template_tree.specs.Checks.ProgramMaps.{items_in};
ghost use Rattle.decl_table.specs.PlainDecls.{mentions_of, slot_of};
ghost use Rattle.decl_table.specs.Names.{names_of};
ghost use Rattle.decl_table.specs.Private.DeclsView.{IsRead, TakesProcedure};
ghost use Rattle.template_tree.specs.Checks.Mention.{AreUses};

use crate::headings::Headings;
use crate::items::Items;
use crate::name_node::NameNode;
use crate::scopes::Scopes;
use crate::uses::Uses;
use plcs_base::{Declared, Name, OutOfMemory, PhraseAt, Scope, Slot};
use plcs_grammar::NodeKind;
use std::alloc::Global;
use std::marker::Model;
use std::mem;
use template_tree::{Node, Tree, items_are_nodes, path_of_item};

/// The table of declarations: the effective items of each procedure, the effective headings, and the phrases that
/// mention each name. Contracts see the items as a finite map, and the others as pairs, with the names that each node
/// mentions, and how many new procedures, headings and names there is room for.
#[derive(Drop)]
pub struct Decls {
    pub(crate) scopes: Scopes,
    pub(crate) headings: Headings,
    pub(crate) uses: Uses,
    pub(crate) names: NameNode,
}

impl Model for Decls {
    ghost use Rattle.decl_table.specs.PlainDecls.{PlainDecls};
    ghost use Rattle.decl_table.specs.Private.DeclsView.{decls_code};

    ghost Value = { PlainDecls };

    ghost coded = { decls_code };

    ghost view = { λ a. record {
      items = a.scopes.items;
      headings = a.headings.headings;
      uses = a.uses.uses;
      names = a.names.inner;
      spare = record { procedures = a.scopes.spare; headings = a.headings.spare; names = a.uses.spare };
    } };
}

impl Decls {
    /// The table of declarations of the tree. It takes time in proportion to the tree, but for the
    /// sorting of the uses.
    pub fn new(alloc: Global, tree: &Tree) -> Result<Decls, OutOfMemory>
        requires tree { IsTree tree.now }
        ensures { IfOk result (λ decls. IsDeclsOf decls tree.now.items) }
    {
        let mut decls = Decls::none(alloc);
        decls.fill(alloc, tree).and(Ok(decls))
    }

    /// Takes all that the tree has into the table, which has nothing yet.
    fn fill(&mut self, alloc: Global, tree: &Tree) -> Result<(), OutOfMemory>
        requires tree { IsTree tree.now }
        requires items { self.old.items ≡ empty }
        requires headings { self.old.headings ≡ [] }
        ensures { OnOk result (IsDeclsOf self.new tree.now.items) }
    {
        self.take_all(alloc, tree)?;
        self.take_names(alloc, tree)?;
        Ok(())
    }

    /// Takes main and the procedures of the tree into the table, which has nothing yet.
    fn take_all(&mut self, alloc: Global, tree: &Tree) -> Result<(), OutOfMemory>
        requires tree { IsTree tree.now }
        requires items { self.old.items ≡ empty }
        requires headings { self.old.headings ≡ [] }
        ensures { OnOk result (IsRead self.new tree.now.items) }
    {
        items_are_nodes();
        let mut k = tree.procedures() + 1;
        // From the last on, so that the first heading of a name takes the place of later ones.
        while k > 0 {
            k -= 1;
            let Some(procedure) = tree.node(&path_of_item(k)) else {
                unreachable!()
            };
            self.take(alloc, procedure)?;
        }
        Ok(())
    }

    /// Takes the names that each node of the tree mentions into the table, and the uses of each name.
    fn take_names(&mut self, alloc: Global, tree: &Tree) -> Result<(), OutOfMemory>
        requires tree { IsTree tree.now }
        ensures items { self.new.items ≡ self.old.items }
        ensures headings { self.new.headings ≡ self.old.headings }
        ensures uses { OnOk result ((name : List ℕ)
            → AreUses name tree.now.items (mentions_of name self.new.uses)) }
        ensures names { OnOk result (self.new.names ≡ names_of tree.now.items) }
    {
        let names = NameNode::of_program(alloc, tree)?;
        drop(mem::replace(&mut self.names, names));
        let uses = Uses::of(alloc, &self.names)?;
        drop(mem::replace(&mut self.uses, uses));
        Ok(())
    }

    /// A table that has nothing yet. It takes no memory.
    pub(crate) fn none(alloc: Global) -> Decls
        ensures items { result.items ≡ empty }
        ensures headings { result.headings ≡ [] }
    {
        Decls {
            scopes: Scopes::new(alloc),
            headings: Headings::new(alloc),
            uses: Uses::new(alloc),
            names: NameNode::bare(alloc, Slot(0), NodeKind::Main),
        }
    }

    /// Puts the effective items of a procedure into the table.
    pub(crate) fn put_items(&mut self, procedure: Slot, items: Items) -> Result<(), OutOfMemory>
        ensures items { OnOk result (self.new.items ≡ insert self.old.items procedure.0 items) }
        ensures headings { self.new.headings ≡ self.old.headings }
    {
        self.scopes.put(procedure, items)
    }

    /// Notes one item of a procedure, if it isn't there.
    pub(crate) fn note_item(
        &mut self,
        alloc: Global,
        procedure: Slot,
        item: &Declared,
    ) -> Result<(), OutOfMemory>
        ensures named { OnOk result ((name : List ℕ) → item_named name (items_in self.new.items procedure.0)
            ≡ (if bytes_eq item.now.name name then Some item.now
            else item_named name (items_in self.old.items procedure.0))) }
        ensures others { OnOk result ((slot : ℕ) → nat_eq procedure.0 slot ≡ false
            → get self.new.items slot ≡ get self.old.items slot) }
        ensures headings { self.new.headings ≡ self.old.headings }
    {
        self.scopes.note(alloc, procedure, item)
    }

    /// Notes that the effective heading of the name is in this slot.
    pub(crate) fn note_heading(&mut self, name: &Name, slot: Slot) -> Result<(), OutOfMemory>
        ensures noted { OnOk result ((other : List ℕ) → slot_of other self.new.headings
            ≡ (if bytes_eq name.now other then Some slot.0 else slot_of other self.old.headings)) }
        ensures items { self.new.items ≡ self.old.items }
    {
        self.headings.put(name.copy(), slot)
    }

    /// What the table says of a name in a procedure: the effective item that the procedure has of the
    /// name, or `None` exactly where it has none. It takes no memory.
    pub fn type_of(&self, procedure: Slot, name: &Name) -> Option<Declared>
        ensures { result ≡ item_named name.now (items_in self.now.items procedure.0) }
    {
        self.scopes.named(procedure, name)
    }

    /// What the table says of a name that is called: the slot of the effective heading of the name, or
    /// `None` exactly where none has it. It takes no memory.
    pub fn signature(&self, name: &Name) -> Option<Slot>
        ensures { option_map (λ slot. slot.0) result ≡ slot_of name.now self.now.headings }
    {
        self.headings.named(name)
    }

    /// What the table says of a parameter of a procedure, behind earlier ones: the effective item that the
    /// procedure has of its name, or `None` exactly where that is no scalar, it has none, or an earlier
    /// parameter has the name. It takes no memory.
    pub fn parameter_item(&self, procedure: Slot, earlier: &[Name], name: &Name) -> Option<Declared>
        ensures { result ≡ parameter_item (items_in self.now.items procedure.0) earlier.now name.now }
    {
        if is_among(name, earlier) {
            return None;
        }
        match self.type_of(procedure, name) {
            Some(item) => scalar_item(item),
            None => None,
        }
    }

    /// What the table says of where a name is mentioned: the places of the phrases that mention it, in
    /// order of slot and part. It takes no memory.
    pub fn uses(&self, name: &Name) -> &[PhraseAt]
        ensures { result.now ≡ mentions_of name.now self.now.uses }
    {
        self.uses.under(name)
    }

    /// Takes main or a procedure into the table, with its items and its heading.
    /// Those that stand behind it were taken before.
    fn take(&mut self, alloc: Global, procedure: &Node) -> Result<(), OutOfMemory>
        requires subtree { IsSubtree procedure.now }
        requires few { count procedure.now.inner < most_slots }
        ensures { OnOk result (TakesProcedure procedure.now self.old self.new) }
    {
        let items = Items::of(alloc, procedure)?;
        self.scopes.put(procedure.slot(), items)?;
        self.headings.take(procedure)
    }
}

impl Scope for Decls {
    ghost items = { λ decls. decls.items };

    fn declared(&self, procedure: Slot, k: u32) -> Option<Declared> {
        self.scopes.numbered(procedure, k as usize)
    }
}

/// Whether a parameter's name stands among those of earlier ones, so that the table has no item for it.
fn is_among(name: &Name, names: &[Name]) -> bool
    ensures { result ≡ list_any (bytes_eq name.now) names.now }
{
    names.iter().any(|other| name == other)
}

/// The item that the table of declarations has for a parameter's name, if it is a scalar.
fn scalar_item(item: Declared) -> Option<Declared>
    ensures { result ≡ scalar_item item }
{
    if item.size == 0 { Some(item) } else { None }
}
