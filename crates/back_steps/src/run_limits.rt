//! The limits that the state of a run keeps.
ghost use Rattle.plcs_store.specs.Configuration.{plain_configuration};
ghost use Rattle.back_steps.specs.EarlierConfigurations.{KeepsRunLimits};

use plcs_store::RunState;

/// Any state of a run keeps the limits of one, by the types of its frames and loops.
pub fn states_keep_limits(state: &RunState)
    ensures { KeepsRunLimits (plain_configuration state.now) }
{
    let _frames = state.frames.as_slice();
    if let Some(newest) = state.frames.newest() {
        let _loops = newest.loops.as_slice();
    }
}
