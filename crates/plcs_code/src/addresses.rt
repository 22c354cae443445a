//! The addresses of places, found by place.
ghost use Rattle.std.specs.Prelude.{◌≡◌, ◌++◌, IfOk, OnOk, flat_map};
ghost use Rattle.std.specs.FinMap.{empty, from_entries, get, insert};
ghost use Rattle.template_tree.specs.Positions.Place.{passes_in, passes_in_template};
ghost use Rattle.plcs_grammar.specs.declared.node_kind.NodeKind.{NodeKind};
ghost use Rattle.plcs_code.specs.Gen.{address_by_place, addresses_in, is_call, node_address};
ghost use Rattle.plcs_code.specs.PlainInstr.{plain_instr};
ghost use Rattle.plcs_code.specs.Private.CodeMaps.{with_all};

use crate::block::Block;
use crate::instr::Instr;
use crate::node_span::NodeSpan;
use indexmap::IndexMap;
use plcs_base::{OutOfMemory, Place, Point};
use plcs_grammar::{NodeKind, Template};
use std::alloc::Global;
use std::marker::Model;

/// The address of each place of a run, which contracts see as a finite map.
#[derive(Drop)]
pub(crate) struct Addresses {
    addresses: IndexMap<Place, u32>,
}

impl Model for Addresses {
    ghost use Rattle.std.specs.FinMap.{from_entries};
    ghost use Rattle.plcs_code.specs.Gen.{AddressMap};
    ghost use Rattle.plcs_code.specs.Private.InstrCode.{address_map_code};

    ghost Value = { AddressMap };

    ghost coded = { address_map_code };

    ghost view = { λ a. from_entries a.addresses.entries };
}

impl Addresses {
    /// The addresses of the nodes' places at which no step ends, and of those at which a step of the code
    /// ends.
    pub(crate) fn of<W>(
        alloc: Global,
        nodes: &[NodeSpan],
        code: &Block<W>,
    ) -> Result<Addresses, OutOfMemory>
        ensures { IfOk result (λ addresses. addresses
            ≡ from_entries (flat_map node_address nodes.now ++ addresses_in 0 code.now)) }
    {
        let mut addresses = Addresses::new(alloc);
        let Ok(()) = addresses.note_code(code) else {
            return Err(OutOfMemory);
        };
        let mut k = nodes.len();
        while k > 0 {
            k -= 1;
            let Some(node) = nodes.get(k) else {
                unreachable!()
            };
            let Ok(()) = addresses.note_node(node) else {
                return Err(OutOfMemory);
            };
        }
        Ok(addresses)
    }

    /// The address of the place, or `None` where it has none.
    pub(crate) fn get(&self, place: Place) -> Option<u32>
        ensures { result ≡ get self.now place }
    {
        match self.addresses.get(&place) {
            Some(address) => Some(*address),
            None => None,
        }
    }

    /// No addresses of places yet.
    fn new(alloc: Global) -> Addresses
        ensures { result ≡ empty }
    {
        Addresses {
            addresses: IndexMap::new(alloc),
        }
    }

    /// Notes the addresses in code, of the places at which its steps end.
    fn note_code<W>(&mut self, code: &Block<W>) -> Result<(), OutOfMemory>
        ensures { OnOk result (self.new ≡ with_all (addresses_in 0 code.now) self.old) }
    {
        let mut k = code.length();
        while k > 0 {
            k -= 1;
            let Ok(()) = self.note_instr(k, code.get(k).instr()) else {
                return Err(OutOfMemory);
            };
        }
        Ok(())
    }

    /// Notes the address of an instruction, if a step ends there.
    fn note_instr(&mut self, address: u32, instr: &Instr) -> Result<(), OutOfMemory>
        ensures { OnOk result (self.new ≡ with_all (address_by_place address (plain_instr instr.now)) self.old) }
    {
        let Instr::At(place) = instr else {
            return Ok(());
        };
        self.put(*place, address)
    }

    /// Notes the address of a node's place at which no step ends, if it has one.
    fn note_node(&mut self, node: &NodeSpan) -> Result<(), OutOfMemory>
        ensures { OnOk result (self.new ≡ with_all (node_address node.now) self.old) }
    {
        let slot = node.slot;
        if passes_in(node.kind) {
            let point = Point(0);
            return self.put(Place { slot, point }, node.start);
        }
        if is_call(node.kind) {
            let Some(end) = node.start.checked_add(node.length) else {
                return Err(OutOfMemory);
            };
            let point = Point(1);
            return self.put(Place { slot, point }, end);
        }
        Ok(())
    }

    /// Puts an address under its place.
    fn put(&mut self, place: Place, address: u32) -> Result<(), OutOfMemory>
        ensures { OnOk result (self.new ≡ insert self.old place address) }
    {
        let Ok(_) = self.addresses.insert(place, address) else {
            return Err(OutOfMemory);
        };
        Ok(())
    }
}

/// Whether a run that comes to a node of the kind goes to its first item at once, so that the place where it
/// starts has the address of the item's place.
pub fn passes_in(kind: NodeKind) -> bool
    ensures { result ≡ passes_in kind }
{
    match kind {
        NodeKind::DeclarationHole => false,
        NodeKind::StatementHole => false,
        NodeKind::ProcedureHole => false,
        NodeKind::Main => false,
        NodeKind::Assign => false,
        NodeKind::Filled(template) => passes_in_template(template),
    }
}

/// Whether a run that comes to the template goes to its first item at once, so that the place where it starts
/// has the address of the item's place.
fn passes_in_template(template: Template) -> bool
    ensures { result ≡ passes_in_template template }
{
    match template {
        Template::Fixed => false,
        Template::Bit => false,
        Template::Char => false,
        Template::If => false,
        Template::IfElse => false,
        Template::While => false,
        Template::For => false,
        Template::Until => true,
        Template::Group => true,
        Template::Get => false,
        Template::Put => false,
        Template::PutSkip => false,
        Template::Call => false,
        Template::Return => false,
        Template::Comment => true,
        Template::Proc => false,
        Template::ProcP => false,
    }
}

/// Whether a node of the kind is a call, of which the place where it comes back has an address too.
pub fn is_call(kind: NodeKind) -> bool
    ensures { result ≡ is_call kind }
{
    match kind {
        NodeKind::DeclarationHole => false,
        NodeKind::StatementHole => false,
        NodeKind::ProcedureHole => false,
        NodeKind::Main => false,
        NodeKind::Assign => false,
        NodeKind::Filled(template) => is_call_template(template),
    }
}

/// Whether the template is a call, of which the place where it comes back has an address too.
fn is_call_template(template: Template) -> bool
    ensures { result ≡ is_call (NodeKind.Filled template) }
{
    match template {
        Template::Fixed => false,
        Template::Bit => false,
        Template::Char => false,
        Template::If => false,
        Template::IfElse => false,
        Template::While => false,
        Template::For => false,
        Template::Until => false,
        Template::Group => false,
        Template::Get => false,
        Template::Put => false,
        Template::PutSkip => false,
        Template::Call => true,
        Template::Return => false,
        Template::Comment => false,
        Template::Proc => false,
        Template::ProcP => false,
    }
}
