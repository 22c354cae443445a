//! Prepared edits, put in place in a table of declarations.
ghost use Rattle.decl_table.specs.DeclEdit.{IsPutInPlace, CanPutInTable};

use crate::decl_edit::DeclEdit;
use crate::decls::Decls;

impl Decls {
    /// Puts the edit in place that was prepared last for the table. It takes no memory.
    pub fn commit(&mut self, edit: DeclEdit)
        requires ready { CanPutInTable edit self.old }
        ensures { IsPutInPlace edit self.old self.new }
    {
        let DeclEdit {
            due,
            gone,
            mut table,
            items,
            headings,
            uses,
            names,
        } = edit;
        drop(due);
        drop(gone);
        self.scopes.change(items, &mut table.scopes);
        drop(table);
        self.headings.put_in_place(headings);
        self.uses.put_in_place(uses);
        self.names.put_in_place(names);
    }
}
