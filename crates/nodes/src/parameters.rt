// How often each parameter of a rule occurs in its right side.
ghost use Rattle.std.specs.Prelude.{◌≡◌, ◌≤◌, leb, get_or};
ghost use Rattle.terms.specs.Test.{every};
ghost use Rattle.terms.specs.Check.{highest_rank};
ghost use Rattle.nodes.specs.Nodes.{naming, CanCount, CountedWith};

use crate::name::Name;
use checks::limits::HIGHEST_RANK;

// Counts what a node names, where it is a parameter.
pub fn count_parameter(name: Name, counts: &mut [u8; HIGHEST_RANK as usize])
    requires { CanCount (naming name) counts.old }
    ensures { CountedWith (naming name) counts.old counts.new }
{
    if let Name::Parameter(parameter) = name {
        counts[parameter as usize] += 1;
    }
}

// Whether each of the first parameters, as many as the rank, occurs at most once.
pub fn each_at_most_once(counts: &[u8; HIGHEST_RANK as usize], rank: u8) -> bool
    requires { rank ≤ highest_rank }
    ensures { result ≡ every rank (λ j. leb (get_or counts.now j 0) 1) }
{
    counts[..rank as usize].iter().all(|count| *count <= 1)
}
