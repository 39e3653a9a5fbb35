// The choices of states at the parameters of a rule behind the first, and the lanes of the first.
ghost use Rattle.std.specs.Prelude.{◌≡◌, ◌≤◌};
ghost use Rattle.terms.specs.Check.{highest_rank};
ghost use Rattle.rule_tables.specs.Choice.{lanes_of, choices_of, states_behind};

// How many lanes there are: one for each state of the first parameter, and one where there is no parameter.
pub fn lanes_of(rank: u8, states: u8) -> usize
    ensures { result ≡ lanes_of rank states }
{
    if rank == 0 {
        return 1;
    }
    states as usize
}

// How many numbers there are with a digit to the base 8 for each parameter behind the first.
pub fn choices_of(rank: u8) -> usize
    requires { rank ≤ highest_rank }
    ensures { result ≡ choices_of rank }
{
    match rank {
        0 | 1 => 1,
        2 => 8,
        3 => 64,
        _ => 512,
    }
}

// Whether the three digits of a number to the base 8 are states.
pub fn are_states(choice: usize, states: u8) -> bool
    ensures { result ≡ states_behind states choice }
{
    let states = states as usize;
    choice % 8 < states && choice / 8 % 8 < states && choice / 64 % 8 < states
}
