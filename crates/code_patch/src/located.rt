//! Kept nodes found by their slots, with where their code stands.
ghost use Rattle.std.specs.Prelude.{◌≡◌, ◌+◌, ◌<◌, ◌≤◌, IfSome, Some, length, option_map};
ghost use Rattle.plcs_code.specs.BlockLimit.{most_instrs};
ghost use Rattle.plcs_code.specs.PlainInstr.{plain_instr};
ghost use Rattle.template_tree.specs.Positions.Place.{place_at};
ghost use Rattle.code_patch.specs.SoundCode.{times_kept, AreSound};
ghost use Rattle.code_patch.specs.Private.LocatedNode.{child_start, is_step, located_among, located_inside, located_span, own_address, passed_address, step_number};
ghost use Rattle.code_patch.specs.Private.LocatedView.{plain_located};
ghost use Rattle.code_patch.specs.Private.PlainCodeNode.{kept_length};

use crate::code_node::CodeNode;
use crate::code_tree::CodeTree;
use plcs_base::{Place, Point, Slot};
use plcs_code::{Block, Instr, has_code, is_call, passes_in};
use slot_homes::WayStep;

/// What is kept of a node, with the address at which its code begins.
#[derive(Drop)]
pub(crate) struct Located<'a, W> {
    start: u32,
    node: &'a CodeNode<W>,
}

impl<W> CodeTree<W> {
    /// What is kept of the node in the slot. It looks first where the node is noted to stand; only where it isn't there
    /// it goes over all nodes.
    pub(crate) fn located(&self, slot: Slot) -> Option<Located<'_, W>>
        ensures found { option_map plain_located result ≡ located_among slot.0 0 0 self.now.items }
        ensures short { IfSome result (λ found. found.start + kept_length found.node.now ≤ most_instrs) }
        ensures sound { AreSound self.now.items }
    {
        if let Some(located) = self.located_noted(slot) {
            return Some(located);
        }
        match self.root.located_inside(slot) {
            Some(located) => Some(located),
            None => None,
        }
    }

    /// What is kept of the node in the slot, if it stands where that is noted, or near there; so `None` says nothing of
    /// what is kept.
    fn located_noted(&self, slot: Slot) -> Option<Located<'_, W>>
        ensures found { IfSome result (λ found. Some (plain_located found) ≡ located_among slot.0 0 0 self.now.items) }
        ensures short { IfSome result (λ found. found.start + kept_length found.node.now ≤ most_instrs) }
        ensures sound { AreSound self.now.items }
    {
        let Some(way) = self.homes.way_to(slot) else {
            return None;
        };
        let Some(located) = self.root.located_by(way.as_slice(), slot, 0) else {
            return None;
        };
        Some(located)
    }
}

impl<W> CodeNode<W> {
    /// What is kept of the node in the slot among those inside this node, whose code begins at the address, if it
    /// stands where the way says, or near there; so `None` says nothing of what is kept.
    fn located_by(&self, way: &[WayStep], slot: Slot, start: u32) -> Option<Located<'_, W>>
        requires short { start + kept_length self.now ≤ most_instrs }
        requires once { times_kept slot.0 self.now.inner ≤ 1 }
        ensures found { IfSome result (λ found. Some (plain_located found) ≡ located_inside slot.0 start self.now) }
        ensures short { IfSome result (λ found. found.start + kept_length found.node.now
            ≤ start + kept_length self.now) }
    {
        let Some((step, rest)) = way.split_first() else {
            return None;
        };
        let Some(k) = self.number_near(step) else {
            return None;
        };
        let Some(child) = self.child(k) else {
            return None;
        };
        let begin = self.child_start(k, start);
        if child.slot().0 == slot.0 {
            return Some(Located {
                start: begin,
                node: child,
            });
        }
        let Some(located) = child.located_by(rest, slot, begin) else {
            return None;
        };
        Some(located)
    }

    /// What is kept of the node in the slot among those inside this node, with its address from the begin of this
    /// node's code on. Nodes are told apart by their slots, and codes are added up on the way to the one that has it
    /// alone.
    pub(crate) fn located_inside(&self, slot: Slot) -> Option<Located<'_, W>>
        requires short { kept_length self.now ≤ most_instrs }
        ensures found { option_map plain_located result ≡ located_inside slot.0 0 self.now }
        ensures short { IfSome result (λ found. found.start + kept_length found.node.now ≤ kept_length self.now) }
    {
        let mut k = 0;
        while k < self.count() {
            let Some(child) = self.child(k) else {
                unreachable!()
            };
            if child.slot().0 == slot.0 {
                let begin = self.child_start(k, 0);
                return Some(Located {
                    start: begin,
                    node: child,
                });
            }
            if let Some(located) = child.located_inside(slot) {
                let ahead = self.child_start(k, 0);
                return Some(Located {
                    start: ahead + located.start,
                    node: located.node,
                });
            }
            k += 1;
        }
        None
    }

    /// The address of the first instruction of the node of this number inside this node, whose code begins at the
    /// address.
    fn child_start(&self, k: usize, start: u32) -> u32
        requires short { start + kept_length self.now ≤ most_instrs }
        ensures { result ≡ child_start start self.now k }
    {
        let first = start + self.length_before() + self.lengths.before(k);
        if k == 0 {
            return first;
        }
        first + self.jumps.between.length()
    }
}

impl<W> Located<'_, W> {
    /// The span of the node that was located, or `None` where it has no code.
    pub(crate) fn span(&self) -> Option<(u32, u32)>
        ensures { result ≡ located_span (plain_located self.now) }
    {
        if !has_code(self.node.kind()) {
            return None;
        }
        Some((self.start, self.node.length()))
    }

    /// The address of the point of the node that was located, or `None` where it has no such point.
    pub(crate) fn address(&self, point: Point) -> Option<u32>
        requires short { self.now.start + kept_length self.now.node.now ≤ most_instrs }
        ensures { result ≡ own_address (plain_located self.now) point.0 }
    {
        if let Some(address) = self.passed_address(point) {
            return Some(address);
        }
        let place = Place {
            slot: self.node.slot(),
            point,
        };
        if let Some(k) = number_of(self.node.before(), place) {
            return Some(self.start + k);
        }
        let behind = self.start + self.node.length() - self.node.length_behind();
        let Some(k) = number_of(self.node.behind(), place) else {
            return None;
        };
        Some(behind + k)
    }

    /// The address of the point of the node that was located, if no step ends there by the node's kind, or `None`
    /// where it has no such point.
    fn passed_address(&self, point: Point) -> Option<u32>
        requires short { self.now.start + kept_length self.now.node.now ≤ most_instrs }
        ensures { result ≡ passed_address (plain_located self.now) point.0 }
    {
        let kind = self.node.kind();
        if passes_in(kind) && point.0 == 0 {
            return Some(self.start);
        }
        if is_call(kind) && point.0 == 1 {
            return Some(self.start + self.node.length());
        }
        None
    }
}

/// The number of the instruction of the block at which the step of the place ends, or `None` where there is none.
fn number_of<W>(block: &Block<W>, place: Place) -> Option<u32>
    ensures number { result ≡ step_number (place_at place.slot.0 place.point.0) block.now }
    ensures within { IfSome result (λ k. k < length block.now) }
{
    let mut k = 0;
    while k < block.length() {
        if is_step(block.get(k).instr(), place) {
            return Some(k);
        }
        k += 1;
    }
    None
}

/// Whether the step of the place ends at the instruction.
fn is_step(instr: &Instr, place: Place) -> bool
    ensures { result ≡ is_step (place_at place.slot.0 place.point.0) (plain_instr instr.now) }
{
    let Instr::At(at) = instr else {
        return false;
    };
    at.slot.0 == place.slot.0 && at.point.0 == place.point.0
}
