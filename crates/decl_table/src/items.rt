//! The effective items of one procedure, or some of them, found by name and by number.
ghost use Rattle.std.specs.Prelude.{◌≡◌, ◌∷◌, ◌++◌, [], ℕ, false, if◌then◌else◌, IfOk, IfSome, List, None, OnErr, OnOk, Some, bytes_eq, is_some, length, option_and_then, option_map, slice_get};
ghost use Rattle.std.specs.List.{IsDistinct, list_any};
ghost use Rattle.std.specs.Option.{option_copied};
ghost use Rattle.template_tree.specs.Checks.Environment.{cells_of, item_named, declared_as, scalar_kind};
ghost use Rattle.decl_table.specs.Private.ItemTests.{kind_turns, lost_at, same_shapes};
ghost use Rattle.decl_table.specs.Private.ItemsView.{shaped};

use crate::kind::kind_of_type;
use indexmap::IndexMap;
use plcs_base::{Declared, ItemType, Kind, Name, OutOfMemory};
use plcs_grammar::Item;
use std::alloc::Global;
use std::marker::Model;
use template_tree::cells_of;

/// What is kept of an effective item beside its name: its type, and its number of cells as an array, or
/// 0 for a scalar.
#[derive(Clone, Copy, Debug, PartialEq, Eq)]
pub(crate) struct Shape {
    pub(crate) ty: ItemType,
    pub(crate) size: u32,
}

/// Effective items of one procedure in order, which contracts see as a list.
#[derive(Drop)]
pub(crate) struct Items {
    shapes: IndexMap<Name, Shape>,
}

impl Model for Items {
    ghost use Rattle.std.specs.Prelude.{List};
    ghost use Rattle.plcs_base.specs.declared.declared.Declared.{Declared};
    ghost use Rattle.decl_table.specs.Private.ItemsView.{items_code, seen, IsKept};

    ghost Value = { List Declared };

    ghost coded = { items_code };

    ghost view = { seen };

    ghost invariant = { IsKept };
}

impl Items {
    /// No items, before any of the procedure is taken.
    pub(crate) fn new(alloc: Global) -> Items
        ensures { result ≡ [] }
    {
        Items {
            shapes: IndexMap::new(alloc),
        }
    }

    /// This one item.
    pub(crate) fn alone(alloc: Global, item: &Declared) -> Result<Items, OutOfMemory>
        ensures { IfOk result (λ items. (name : List ℕ) → item_named name items
            ≡ (if bytes_eq item.now.name name then Some item.now else None)) }
    {
        let mut items = Items::new(alloc);
        let noted = items.put(&item.name, Shape::of(item));
        noted.and(Ok(items))
    }

    /// Puts one more item behind the others, or in the place of the one that has its name.
    pub(crate) fn put(&mut self, name: &Name, shape: Shape) -> Result<(), OutOfMemory>
        ensures last { OnOk result (is_some (item_named name.now self.old) ≡ false
            → self.new ≡ self.old ++ (shaped name.now shape ∷ [])) }
        ensures named { OnOk result ((other : List ℕ) → item_named other self.new
            ≡ (if bytes_eq name.now other then Some (shaped name.now shape) else item_named other self.old)) }
        ensures refused { OnErr result (self.new ≡ self.old) }
    {
        self.shapes.insert(name.copy(), shape)?;
        Ok(())
    }

    /// Whether one of the items has the name.
    pub(crate) fn has(&self, name: &Name) -> bool
        ensures { result ≡ is_some (item_named name.now self.now) }
    {
        self.shapes.contains_key(name)
    }

    /// The item of the name among those of the one procedure, or `None` where no item has it.
    pub(crate) fn named(&self, name: &Name) -> Option<Declared>
        ensures { result ≡ item_named name.now self.now }
    {
        let Some(shape) = self.shapes.get(name) else {
            return None;
        };
        Some(declared(name, *shape))
    }

    /// The kind of the item of the name, if it is a scalar: that of a parameter of the name.
    pub(crate) fn scalar_kind(&self, name: &Name) -> Option<Kind>
        ensures { result ≡ option_and_then scalar_kind (item_named name.now self.now) }
    {
        match self.named(name) {
            Some(item) => kind_of_scalar(item),
            None => None,
        }
    }

    /// The item of this number among those of the one procedure, counted from 0, or `None` where there
    /// are not so many.
    pub(crate) fn numbered(&self, k: usize) -> Option<Declared>
        ensures { result ≡ slice_get self.now k }
    {
        let Some((name, shape)) = self.shapes.get_index(k) else {
            return None;
        };
        Some(declared(name, *shape))
    }

    /// The name of the item of this number, counted from 0, if the others have another item of the name, or none.
    pub(crate) fn differing(&self, k: usize, others: &Items) -> Option<&Name>
        ensures { option_copied result ≡ lost_at self.now others.now k }
    {
        let Some((name, _)) = self.shapes.get_index(k) else {
            return None;
        };
        if same_shapes(self.shapes.get(name), others.shapes.get(name)) {
            None
        } else {
            Some(name)
        }
    }

    /// Whether one of the names has another kind as a scalar by the new items.
    pub(crate) fn turn(&self, new: &Items, names: &[Name]) -> bool
        ensures { result ≡ list_any (kind_turns self.now new.now) names.now }
    {
        names.iter().any(|name| self.turns(new, name))
    }

    /// Whether the name has another kind as a scalar by the new items.
    fn turns(&self, new: &Items, name: &Name) -> bool
        ensures { result ≡ kind_turns self.now new.now name.now }
    {
        self.scalar_kind(name) != new.scalar_kind(name)
    }

    /// How many items there are.
    pub(crate) fn len(&self) -> usize
        ensures { result ≡ length self.now }
    {
        self.shapes.len()
    }
}

impl Shape {
    /// What is to be kept of this effective item.
    pub(crate) fn of(item: &Declared) -> Shape
        ensures { shaped item.now.name result ≡ item.now }
    {
        Shape {
            ty: item.ty,
            size: item.size,
        }
    }

    /// What is to be kept of an item that is declared with the type.
    pub(crate) fn declared(ty: ItemType, item: &Item) -> Shape
        ensures { shaped item.now.name result ≡ declared_as ty item.now }
    {
        let size = match item.size {
            Some(size) => size,
            None => 0,
        };
        Shape { ty, size }
    }

    /// How many cells an item has of which this type and size are kept.
    pub(crate) fn cells(self) -> u32
        ensures { result ≡ cells_of (shaped [] self) }
    {
        cells_of(self.size)
    }
}

/// Whether the types and sizes are the same, or neither is there.
fn same_shapes(one: Option<&Shape>, other: Option<&Shape>) -> bool
    ensures { result ≡ same_shapes (option_copied one.entry) (option_copied other.entry) }
{
    one == other
}

/// The kind of an item, if it is a scalar.
fn kind_of_scalar(item: Declared) -> Option<Kind>
    ensures { result ≡ scalar_kind item }
{
    if item.size == 0 {
        Some(kind_of_type(item.ty))
    } else {
        None
    }
}

/// The effective item of the name, from the type and size that are kept of it.
fn declared(name: &Name, shape: Shape) -> Declared
    ensures { result ≡ shaped name.now shape }
{
    Declared {
        name: name.copy(),
        ty: shape.ty,
        size: shape.size,
    }
}
