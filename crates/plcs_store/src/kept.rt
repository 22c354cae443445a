//! What is kept of the program when a suspended run stands and the program is edited.
ghost use Rattle.std.specs.Prelude.{◌≡◌};

use crate::copied_parts::CopiedParts;
use crate::held_template::HeldTemplate;
use plcs_base::Declared;
use std::marker::Model;

/// The parts of the heading of each frame's procedure, which contracts see as a list.
#[derive(Drop)]
pub struct Headings {
    headings: Vec<CopiedParts>,
}

impl Model for Headings {
    ghost use Rattle.std.specs.Prelude.{List, Option};
    ghost use Rattle.plcs_grammar.specs.PlainPhrase.{PlainPhrase};
    ghost use Rattle.plcs_store.specs.Private.PartsCode.{headings_code};

    ghost Value = { List (List (Option PlainPhrase)) };

    ghost coded = { headings_code };

    ghost view = { λ a. a.headings.items };
}

impl Headings {
    /// What is kept of these headings of the program when it is edited: their parts, in order. It takes no
    /// memory.
    pub fn from_vec(headings: Vec<CopiedParts>) -> Headings
        ensures { result ≡ headings.items }
    {
        Headings { headings }
    }

    /// Gives the parts of the headings back that are kept of the program. It takes no memory.
    pub fn into_vec(self) -> Vec<CopiedParts>
        ensures { result.items ≡ self }
    {
        self.headings
    }

    /// The parts of the kept headings in order.
    pub fn as_slice(&self) -> &[CopiedParts]
        ensures { result.now ≡ self.now }
    {
        self.headings.as_slice()
    }
}

/// The effective items of a procedure, as they are kept of the program; contracts see them as a list.
#[derive(Drop)]
pub struct DeclaredList {
    items: Vec<Declared>,
}

impl Model for DeclaredList {
    ghost use Rattle.std.specs.Prelude.{List};
    ghost use Rattle.plcs_base.specs.declared.declared.Declared.{Declared};

    ghost Value = { List Declared };

    ghost view = { λ a. a.items.items };
}

impl DeclaredList {
    /// These items in order, as they are kept for an edited program. It takes no memory.
    pub fn from_vec(items: Vec<Declared>) -> DeclaredList
        ensures { result ≡ items.items }
    {
        DeclaredList { items }
    }

    /// Gives the items back that are kept of the program. It takes no memory.
    pub fn into_vec(self) -> Vec<Declared>
        ensures { result.items ≡ self }
    {
        self.items
    }

    /// The kept items in order.
    pub fn as_slice(&self) -> &[Declared]
        ensures { result.now ≡ self.now }
    {
        self.items.as_slice()
    }
}

/// The effective items of each frame's procedure, which contracts see as a list of lists.
#[derive(Drop)]
pub struct DeclaredLists {
    lists: Vec<DeclaredList>,
}

impl Model for DeclaredLists {
    ghost use Rattle.std.specs.Prelude.{List};
    ghost use Rattle.plcs_base.specs.declared.declared.Declared.{Declared};

    ghost Value = { List (List Declared) };

    ghost view = { λ a. a.lists.items };
}

impl DeclaredLists {
    /// These lists of items in order, as they are kept for an edited program. It takes no memory.
    pub fn from_vec(lists: Vec<DeclaredList>) -> DeclaredLists
        ensures { result ≡ lists.items }
    {
        DeclaredLists { lists }
    }

    /// Gives the lists of items back that are kept of the program. It takes no memory.
    pub fn into_vec(self) -> Vec<DeclaredList>
        ensures { result.items ≡ self }
    {
        self.lists
    }

    /// The kept lists of items in order.
    pub fn as_slice(&self) -> &[DeclaredList]
        ensures { result.now ≡ self.now }
    {
        self.lists.as_slice()
    }
}

/// What stood in the slot of each frame's place, as it is kept of a program that is edited; contracts see it as
/// a list.
#[derive(Drop)]
pub struct HeldTemplates {
    templates: Vec<HeldTemplate>,
}

impl Model for HeldTemplates {
    ghost use Rattle.std.specs.Prelude.{List};
    ghost use Rattle.plcs_store.specs.declared.held_template.HeldTemplate.{HeldTemplate};
    ghost use Rattle.plcs_store.specs.Private.HeldCode.{held_code};

    ghost Value = { List HeldTemplate };

    ghost coded = { held_code };

    ghost view = { λ a. a.templates.items };
}

impl HeldTemplates {
    /// These templates in order, as they are kept for an edited program. It takes no memory.
    pub fn from_vec(templates: Vec<HeldTemplate>) -> HeldTemplates
        ensures { result ≡ templates.items }
    {
        HeldTemplates { templates }
    }

    /// Gives the templates back that are kept of the program. It takes no memory.
    pub fn into_vec(self) -> Vec<HeldTemplate>
        ensures { result.items ≡ self }
    {
        self.templates
    }

    /// The kept templates in order.
    pub fn as_slice(&self) -> &[HeldTemplate]
        ensures { result.now ≡ self.now }
    {
        self.templates.as_slice()
    }
}

/// What is kept of the program as it was when the run was suspended: three lists with an entry for each
/// frame, from main upward.
#[derive(Drop)]
pub struct Kept {
    /// The phrases of the heading.
    pub headings: Headings,
    /// The effective items.
    pub declared: DeclaredLists,
    /// What stood in the slot of the place.
    pub held: HeldTemplates,
}
