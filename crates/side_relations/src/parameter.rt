// The relation of a parameter's node, for fixed states of the parameters behind the first.
ghost use Rattle.std.specs.Prelude.{◌+◌, ◌*◌, ◌^◌, ◌<◌};
ghost use Rattle.terms.specs.Check.{highest_rank};
ghost use Rattle.blackboard_terms.specs.Blackboard.{state_at};
ghost use Rattle.blackboard_terms.specs.Step.{LanesAre};

use lane_steps::step::LANES;

// Each state in the lane of its own number.
const IDENTITY: u64 = 0x8040_2010_0804_0201;

// The first parameter has the state of each lane there, and any other one its state in the choice in every lane.
pub fn parameter_relation(parameter: u8, choice: usize) -> u64
    requires { parameter < highest_rank }
    ensures { LanesAre 8 result (λ p. 2 ^ state_at (8 * choice + p) parameter) }
{
    if parameter == 0 {
        return IDENTITY;
    }
    let state = (choice >> (3 * (parameter as usize - 1))) % 8;
    LANES << state
}
