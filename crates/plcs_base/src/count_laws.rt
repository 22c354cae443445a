//! The law of bounds on counted work, a function that does nothing and whose contract states it.
ghost use Rattle.plcs_base.specs.CountLaws.{ChecksAddUp, LaysAddUp};

/// The law that bounds on the phrases checked, and on the lines laid out, add up over calls.
pub fn counts_add_up()
    ensures checks { ChecksAddUp }
    ensures lays { LaysAddUp }
{}
