//! Edits that were prepared for a table of declarations.
ghost use Rattle.std.specs.Prelude.{◌≡◌};

use crate::decls::Decls;
use crate::heading_changes::HeadingChanges;
use crate::mention_list::MentionList;
use crate::name_edit::NameEdit;
use crate::uses::Uses;
use plcs_base::{PhraseAt, Slot};
use std::marker::Model;

/// What becomes of the effective items of a procedure.
#[derive(Clone, Copy)]
pub(crate) enum ItemChange {
    /// Those of all procedures stay.
    Stay,
    /// Those of the procedure in the slot are all that the table of the edit has of it.
    Set(Slot),
    /// No procedure stands in the slot any more.
    Gone(Slot),
}

/// An edit that was prepared for a table of declarations, which contracts see as plain data. Only `Decls::prepare`
/// makes one, and `Decls::commit` puts it in place.
#[derive(Drop)]
pub struct DeclEdit {
    pub(crate) due: MentionList,
    pub(crate) gone: MentionList,
    pub(crate) table: Decls,
    pub(crate) items: ItemChange,
    pub(crate) headings: HeadingChanges,
    pub(crate) uses: Uses,
    pub(crate) names: NameEdit,
}

impl Model for DeclEdit {
    ghost use Rattle.decl_table.specs.DeclEdit.{PlainDeclEdit};
    ghost use Rattle.decl_table.specs.Private.DeclEditView.{decl_edit_code};
    ghost use Rattle.decl_table.specs.Private.ItemChangeView.{plain_item_change};

    ghost Value = { PlainDeclEdit };

    ghost coded = { decl_edit_code };

    ghost view = { λ a. record {
      due = a.due;
      gone = a.gone;
      decls = a.table;
      items = plain_item_change a.items a.table.items;
      headings = a.headings;
      uses = a.uses.uses;
      names = a.names;
    } };
}

impl DeclEdit {
    /// The places of the phrases of the edited tree that are due for a check, in order of slot and part, each once.
    /// It takes no memory.
    pub fn due(&self) -> &[PhraseAt]
        ensures { result.now ≡ self.now.due }
    {
        self.due.as_slice()
    }

    /// The places of the phrases that the edit took away, if only to put others in, in order of slot and part, each
    /// once. It takes no memory.
    pub fn gone(&self) -> &[PhraseAt]
        ensures { result.now ≡ self.now.gone }
    {
        self.gone.as_slice()
    }

    /// A table that knows what is asked where the phrases that are due are checked in the edited tree; it knows
    /// little else. It takes no memory.
    pub fn decls(&self) -> &Decls
        ensures { result.now ≡ self.now.decls }
    {
        &self.table
    }
}
