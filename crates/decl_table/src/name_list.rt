//! The names that a phrase mentions, from the last one on.
ghost use Rattle.std.specs.Prelude.{◌≡◌, ◌∷◌, ◌++◌, [], IfOk, OnOk, map, flat_map, reverse};
ghost use Rattle.plcs_grammar.specs.PlainPhrase.{plain_expr, plain_exprs, plain_phrase, plain_var_ref};
ghost use Rattle.template_tree.specs.Checks.Mention.{mentioned, names_in, names_in_all, reference_names};
ghost use Rattle.decl_table.specs.Names.{kept_names};

use plcs_base::{Name, OutOfMemory};
use plcs_grammar::{Expr, Item, Phrase, VarRef};
use std::alloc::Global;
use std::marker::Model;

/// Names in order, which contracts see as a list.
#[derive(Drop)]
pub(crate) struct NameList {
    list: Vec<Name>,
}

impl Model for NameList {
    ghost use Rattle.std.specs.Prelude.{List, ℕ};
    ghost use Rattle.decl_table.specs.Private.NamesCode.{name_list_code};

    ghost Value = { List (List ℕ) };

    ghost coded = { name_list_code };

    ghost view = { λ a. a.list.items };
}

impl NameList {
    /// No names. It takes no memory.
    fn new(alloc: Global) -> NameList
        ensures { result ≡ [] }
    {
        NameList {
            list: Vec::new(alloc),
        }
    }

    /// The names that the phrase mentions, from the last one on, each as often as it stands there.
    pub(crate) fn of(alloc: Global, phrase: &Phrase) -> Result<NameList, OutOfMemory>
        ensures { IfOk result (λ names. names ≡ kept_names (plain_phrase phrase.now)) }
    {
        let mut names = NameList::new(alloc);
        names.add_phrase(phrase).and(Ok(names))
    }

    /// All the names of the list.
    pub(crate) fn as_slice(&self) -> &[Name]
        ensures { result.now ≡ self.now }
    {
        self.list.as_slice()
    }
}

impl NameList {
    /// Adds the names that the phrase mentions.
    fn add_phrase(&mut self, phrase: &Phrase) -> Result<(), OutOfMemory>
        ensures { OnOk result (self.new ≡ self.old ++ reverse (mentioned (plain_phrase phrase.now))) }
    {
        match phrase {
            Phrase::Assignment(target, value) => self.add_assignment(target, value),
            Phrase::Condition(expr) => self.add_expr(expr),
            Phrase::Expression(expr) => self.add_expr(expr),
            Phrase::ExpressionList(exprs) => self.add_exprs(exprs),
            Phrase::VariableList(targets) => self.add_variables(targets),
            Phrase::Variable(name) => self.add(name),
            Phrase::CallRef(name, arguments) => self.add_call(name, arguments),
            Phrase::DeclaredList(items) => self.add_items(items),
            Phrase::ProcedureName(name) => self.add(name),
            Phrase::NameList(names) => self.add_names(names),
            Phrase::Length(_) => Ok(()),
            Phrase::CommentText(_) => Ok(()),
        }
    }

    /// Adds the names in an assignment, which are those in its target and its value.
    fn add_assignment(&mut self, target: &VarRef, value: &Expr) -> Result<(), OutOfMemory>
        ensures { OnOk result (self.new ≡ self.old
            ++ reverse (reference_names (plain_var_ref target.now) ++ names_in (plain_expr value.now))) }
    {
        let Ok(()) = self.add_expr(value) else {
            return Err(OutOfMemory);
        };
        self.add_variable(target)
    }

    /// Adds the name that is called and the names in the arguments.
    fn add_call(&mut self, name: &Name, arguments: &[Expr]) -> Result<(), OutOfMemory>
        ensures { OnOk result (self.new ≡ self.old ++ reverse (name.now ∷ names_in_all (plain_exprs arguments.now))) }
    {
        let Ok(()) = self.add_exprs(arguments) else {
            return Err(OutOfMemory);
        };
        self.add(name)
    }

    /// Adds the names in an expression. A chain of operators is gone through in a loop, from its end on.
    #[cycle(add_expr)]
    fn add_expr(&mut self, expr: &Expr) -> Result<(), OutOfMemory>
        ensures { OnOk result (self.new ≡ self.old ++ reverse (names_in (plain_expr expr.now))) }
    {
        let mut rest = expr;
        loop {
            match rest {
                Expr::Infix(_, left, right) => {
                    self.add_expr(right)?;
                    rest = left;
                }
                Expr::Number(_) => return Ok(()),
                Expr::Text(_) => return Ok(()),
                Expr::Bit(_) => return Ok(()),
                Expr::Var(variable) => return self.add_variable(variable),
                Expr::Prefix(_, operand) => return self.add_expr(operand),
                Expr::Builtin(_, arguments) => return self.add_exprs(arguments),
                Expr::Paren(inside) => return self.add_expr(inside),
            }
        }
    }

    /// Adds the name of a variable and those in its subscript.
    #[cycle(add_expr)]
    fn add_variable(&mut self, variable: &VarRef) -> Result<(), OutOfMemory>
        ensures { OnOk result (self.new ≡ self.old ++ reverse (reference_names (plain_var_ref variable.now))) }
    {
        match &variable.index {
            None => self.add(&variable.name),
            Some(index) => {
                self.add_expr(index)?;
                self.add(&variable.name)
            }
        }
    }

    /// Adds the names in a list of expressions.
    #[cycle(add_expr)]
    fn add_exprs(&mut self, exprs: &[Expr]) -> Result<(), OutOfMemory>
        ensures { OnOk result (self.new ≡ self.old ++ reverse (names_in_all (plain_exprs exprs.now))) }
    {
        let mut k = exprs.len();
        while k > 0 {
            k -= 1;
            self.add_expr(&exprs[k])?;
        }
        Ok(())
    }

    /// Adds the names in a list of variables, and those in their subscripts.
    fn add_variables(&mut self, variables: &[VarRef]) -> Result<(), OutOfMemory>
        ensures { OnOk result (self.new
            ≡ self.old ++ reverse (flat_map reference_names (map plain_var_ref variables.now))) }
    {
        let mut k = variables.len();
        while k > 0 {
            k -= 1;
            self.add_variable(&variables[k])?;
        }
        Ok(())
    }

    /// Adds the names that a declared list mentions.
    fn add_items(&mut self, items: &[Item]) -> Result<(), OutOfMemory>
        ensures { OnOk result (self.new ≡ self.old ++ reverse (map (λ item. item.name) items.now)) }
    {
        let mut k = items.len();
        while k > 0 {
            k -= 1;
            self.add(&items[k].name)?;
        }
        Ok(())
    }

    /// Adds each of the names, which are those of parameters.
    fn add_names(&mut self, names: &[Name]) -> Result<(), OutOfMemory>
        ensures { OnOk result (self.new ≡ self.old ++ reverse names.now) }
    {
        let mut k = names.len();
        while k > 0 {
            k -= 1;
            self.add(&names[k])?;
        }
        Ok(())
    }

    /// Adds one name.
    fn add(&mut self, name: &Name) -> Result<(), OutOfMemory>
        ensures { OnOk result (self.new ≡ self.old ++ (name.now ∷ [])) }
    {
        self.list.push(name.copy())?;
        Ok(())
    }
}
