//! What is said of the way from the program down to the node of a slot.
ghost use Rattle.std.specs.Prelude.{◌≡◌, [], option_map};
ghost use Rattle.slot_homes.specs.Said.{longest_way, way_said};

use crate::homes::Homes;
use arrayvec::ArrayVec;
use plcs_base::Slot;

/// How many steps a way may have: no node of a tree stands deeper.
const LONGEST_WAY: usize = 64;

/// A step of a way: to the node of this slot, which is said to have this number in its list.
#[derive(Clone, Copy, Debug, Default, PartialEq, Eq)]
pub struct WayStep {
    /// The slot of the node.
    pub slot: u32,
    /// Its number, counted from 0.
    pub number: u32,
}

/// The steps of a way, from the item of the program down.
pub type Way = ArrayVec<WayStep, LONGEST_WAY>;

impl Homes {
    /// The way down to the node of the slot, as far as it is said, or `None` where it isn't.
    pub fn way_to(&self, slot: Slot) -> Option<Way>
        ensures { option_map (λ way. way.items) result ≡ way_said self.now longest_way slot.0 [] }
    {
        let mut way = Way::new();
        let mut at = slot;
        for taken in 0..LONGEST_WAY {
            let Some(home) = self.home(at) else {
                return None;
            };
            let step = WayStep {
                slot: at.0,
                number: home.number,
            };
            way.insert(0, step);
            let Some(parent) = home.parent else {
                return Some(way);
            };
            at = parent;
        }
        None
    }
}
