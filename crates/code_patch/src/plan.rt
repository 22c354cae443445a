//! How an edit of a tree is prepared in its kept code: where something may have to be mended.
ghost use Rattle.std.specs.Prelude.{◌≡◌, ◌==◌, ◌&&◌, ◌||◌, None, Some, false, if◌then◌else◌, option_map};
ghost use Rattle.std.specs.Option.{option_map_or};
ghost use Rattle.template_tree.specs.Programs.Program.{sort_of};
ghost use Rattle.code_patch.specs.Bill.{is_declaration, is_of_node};
ghost use Rattle.code_patch.specs.Private.NearCode.{ends_here, first_number, is_added, is_dropped, is_of_item, item_number, kept_number, leads_to_item, way_below};

use plcs_base::Slot;
use plcs_grammar::{NodeKind, Sort};
use std::alloc::Global;
use template_tree::{Change, What};

/// How an edit of a tree is prepared: by these marks and items, and where.
#[derive(Drop)]
pub(crate) struct Plan<'a, M, D> {
    pub(crate) alloc: Global,
    pub(crate) marks: &'a M,
    pub(crate) scope: &'a D,
    pub(crate) what: What,
    /// Whether marks may have changed anywhere, and not on the way to the change alone.
    pub(crate) everywhere: bool,
    /// The procedure whose own code is touched, as one of its declarations changed.
    pub(crate) procedure: Option<Slot>,
}

impl<'a, M, D> Plan<'a, M, D> {
    /// How an edit of a tree is prepared that made this change, of a declaration or not, and of an item of the program
    /// or not.
    pub(crate) fn of(
        alloc: Global,
        marks: &'a M,
        scope: &'a D,
        change: &Change,
        declares: bool,
        is_item: bool,
    ) -> Plan<'a, M, D>
        ensures marks { result.marks.now ≡ marks.now }
        ensures scope { result.scope.now ≡ scope.now }
        ensures what { result.what ≡ change.now.what }
        ensures everywhere { result.everywhere ≡ (declares || is_item) }
        ensures procedure { option_map (λ procedure. procedure.0) result.procedure
            ≡ (if declares then Some change.now.procedure.0 else None) }
    {
        let everywhere = declares || is_item;
        let procedure = touched_procedure(change, declares);
        Plan {
            alloc,
            marks,
            scope,
            what: change.what,
            everywhere,
            procedure,
        }
    }

    /// The number of the item at which the way ends, if it does here and the item was added or dropped.
    pub(crate) fn item_number(&self, way: Option<&[u32]>) -> Option<u32>
        ensures { result ≡ item_number self.now.what (option_map (λ numbers. numbers.now) way.entry) }
    {
        let Some(numbers) = way else {
            return None;
        };
        let Some((k, rest)) = numbers.split_first() else {
            return None;
        };
        if rest.is_empty() && self.is_of_item() {
            return Some(*k);
        }
        None
    }

    /// The number that the node has in what is kept which has this number in the tree, or `None` where it was added.
    pub(crate) fn kept_number(&self, way: Option<&[u32]>, k: u32) -> Option<usize>
        ensures { result ≡ kept_number self.now.what (option_map (λ numbers. numbers.now) way.entry) k }
    {
        let Some(item) = self.item_number(way) else {
            return Some(k as usize);
        };
        if k < item {
            return Some(k as usize);
        }
        if !self.adds() {
            return Some(k as usize + 1);
        }
        if k == item {
            return None;
        }
        Some(k as usize - 1)
    }

    /// The rest of the way below the node that has this number in the tree, or `None` where it leads elsewhere.
    pub(crate) fn way_below<'b>(&self, way: Option<&'b [u32]>, k: u32) -> Option<&'b [u32]>
        ensures { option_map (λ numbers. numbers.now) result
            ≡ way_below self.now.what (option_map (λ numbers. numbers.now) way.entry) k }
    {
        let Some(numbers) = way else {
            return None;
        };
        let Some((first, rest)) = numbers.split_first() else {
            return None;
        };
        if *first != k || (rest.is_empty() && self.is_of_item()) {
            return None;
        }
        Some(rest)
    }

    /// Whether the way ends here, and another node came there.
    pub(crate) fn puts_at(&self, way: Option<&[u32]>) -> bool
        ensures { result ≡ (ends_here (option_map (λ numbers. numbers.now) way.entry) && is_of_node self.now.what) }
    {
        ends_here(way) && matches!(self.what, What::Node)
    }

    /// Whether the procedure in the slot is touched, as one of its declarations changed.
    pub(crate) fn is_procedure(&self, slot: Slot) -> bool
        ensures { result ≡ option_map_or (λ procedure. procedure.0 == slot.0) self.now.procedure false }
    {
        match self.procedure {
            Some(procedure) => procedure.0 == slot.0,
            None => false,
        }
    }

    /// Whether an item was added.
    pub(crate) fn adds(&self) -> bool
        ensures { result ≡ is_added self.now.what }
    {
        is_added(self.what)
    }

    /// Whether an item was added or dropped.
    fn is_of_item(&self) -> bool
        ensures { result ≡ is_of_item self.now.what }
    {
        matches!(self.what, What::Added | What::Dropped)
    }
}

/// The procedure whose own code a change touches, if the change is of a declaration.
fn touched_procedure(change: &Change, declares: bool) -> Option<Slot>
    ensures { option_map (λ procedure. procedure.0) result
        ≡ (if declares then Some change.now.procedure.0 else None) }
{
    if declares {
        return Some(change.procedure);
    }
    None
}

/// Whether a node of the kind declares something of its procedure.
pub(crate) fn declares(kind: NodeKind) -> bool
    ensures { result ≡ is_declaration (sort_of kind) }
{
    declares_by(kind.row().sort)
}

/// Whether nodes of the sort declare something of their procedure.
fn declares_by(sort: Sort) -> bool
    ensures { result ≡ is_declaration sort }
{
    match sort {
        Sort::Main => false,
        Sort::Procedure => false,
        Sort::Declaration => true,
        Sort::Statement => false,
    }
}

/// Whether an item was added.
pub(crate) fn is_added(what: What) -> bool
    ensures { result ≡ is_added what }
{
    matches!(what, What::Added)
}

/// Whether an item was dropped.
pub(crate) fn is_dropped(what: What) -> bool
    ensures { result ≡ is_dropped what }
{
    matches!(what, What::Dropped)
}

/// Whether a path leads to an item of the program.
pub(crate) fn leads_to_item(way: &[u32]) -> bool
    ensures { result ≡ leads_to_item way.now }
{
    let Some((k, rest)) = way.split_first() else {
        return true;
    };
    if rest.is_empty() {
        return true;
    }
    false
}

/// The number of the node to which a way leads first, or `None` where it leads nowhere.
pub(crate) fn first_number(way: Option<&[u32]>) -> Option<u32>
    ensures { result ≡ first_number (option_map (λ numbers. numbers.now) way.entry) }
{
    let Some(numbers) = way else {
        return None;
    };
    let Some((first, _)) = numbers.split_first() else {
        return None;
    };
    Some(*first)
}

/// Whether a way ends here.
pub(crate) fn ends_here(way: Option<&[u32]>) -> bool
    ensures { result ≡ ends_here (option_map (λ numbers. numbers.now) way.entry) }
{
    match way {
        Some(rest) => rest.is_empty(),
        None => false,
    }
}
