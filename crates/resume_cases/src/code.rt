//! The code of a program, made anew.
ghost use Rattle.std.specs.Prelude.{IfSome};
ghost use Rattle.decl_table.specs.Agreement.{IsDeclsOf};
ghost use Rattle.template_tree.specs.Checks.Marks.{offences};
ghost use Rattle.template_tree.specs.Checks.ProgramMaps.{MarksTell};
ghost use Rattle.template_tree.specs.Programs.Tree.{IsTree};
ghost use Rattle.resume_cases.specs.Private.BenchRun.{IsTreesCode};

use decl_table::Decls;
use plcs_base::Counts;
use plcs_code::{FlatCode, generate};
use std::alloc::Global;
use template_tree::Tree;
use type_marks::Marks;

/// The code of a program, made anew under its own marks and by its own items, or `None` where memory runs out.
pub(crate) fn code_of(alloc: Global, tree: &Tree) -> Option<FlatCode<Counts>>
    requires { IsTree tree.now }
    ensures { IfSome result (IsTreesCode tree.now) }
{
    match Decls::new(alloc, tree) {
        Ok(decls) => {
            let code = code_by(alloc, tree, &decls);
            drop(decls);
            code
        }
        Err(_) => None,
    }
}

/// The code of the program, made anew, whose table of declarations this is.
fn code_by(alloc: Global, tree: &Tree, decls: &Decls) -> Option<FlatCode<Counts>>
    requires tree { IsTree tree.now }
    requires decls { IsDeclsOf decls.now tree.now.items }
    ensures { IfSome result (IsTreesCode tree.now) }
{
    match Marks::new(alloc, tree, decls, &mut Counts::default()) {
        Ok(marks) => {
            let code = code_under(alloc, tree, &marks, decls);
            drop(marks);
            code
        }
        Err(_) => None,
    }
}

/// The code of the program, made anew, whose marks and table of declarations these are.
fn code_under(
    alloc: Global,
    tree: &Tree,
    marks: &Marks<Counts>,
    decls: &Decls,
) -> Option<FlatCode<Counts>>
    requires tree { IsTree tree.now }
    requires marks { MarksTell (offences marks.now.verdicts) tree.now.items }
    requires decls { IsDeclsOf decls.now tree.now.items }
    ensures { IfSome result (IsTreesCode tree.now) }
{
    match generate(alloc, tree, marks, decls, &mut Counts::default()) {
        Ok(code) => Some(code),
        Err(_) => None,
    }
}
