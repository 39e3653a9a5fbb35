// The tally: for each of sixteen candidates, how many sheets were accepted, declined and turned away.
ghost use Rattle.std.specs.Prelude.{◌≡◌, ◌+◌, ◌*◌, ◌≤◌, length};
ghost use Rattle.terms.specs.Answer.{refusal_of};
ghost use Rattle.terms.specs.Calls.{tally_refusal};
ghost use Rattle.tallies.specs.Counts.{place_of, up, answer_of_step, step};

use terms::refusals::Refusal;

// How many candidates there are; their numbers start at 0.
pub const CANDIDATES: usize = 16;

// How many counts a candidate has, one for each way to be answered.
pub const WAYS: usize = 3;

// How many counts a tally has.
pub const COUNTS: usize = CANDIDATES * WAYS;

// The ways in which a sheet is answered, in the order of a candidate's counts.
#[derive(Clone, Copy, Debug, PartialEq, Eq)]
pub enum Way {
    Accepted,
    Declined,
    TurnedAway,
}

impl Way {
    // The place of its count among the three of a candidate.
    pub fn place(self) -> usize
        ensures { result ≡ place_of self }
    {
        self as usize
    }
}

// The counts of candidate c stand at 3 * c, 3 * c + 1 and 3 * c + 2.
#[derive(Clone, Copy, Debug, PartialEq, Eq)]
pub struct Tally {
    pub counts: [u32; COUNTS],
}

// What a step answers: its refusal, if there is one, and the tally that it leaves, which is as it was where the step is refused.
#[derive(Clone, Copy, Debug, PartialEq, Eq)]
pub struct Step {
    pub answer: Result<(), Refusal>,
    pub tally: Tally,
}

// What the counts refuse to the candidate: 26 where there is no such candidate, 25 where some count of that candidate cannot move on.
pub fn check_candidate(counts: &[u32], candidate: usize) -> Result<(), Refusal>
    requires { 48 ≤ length counts.now }
    ensures { refusal_of result ≡ tally_refusal counts.now candidate }
{
    if CANDIDATES <= candidate {
        return Err(Refusal::Candidate);
    }
    let line = WAYS * candidate;
    if counts[line..line + WAYS].contains(&u32::MAX) {
        return Err(Refusal::TallyFull);
    }
    Ok(())
}

// One of the candidate's counts goes up by one.
pub fn count_up(counts: &mut [u32], candidate: usize, way: Way)
    requires { (48 ≤ length counts.old) × (tally_refusal counts.old candidate ≡ 0) }
    ensures { counts.new ≡ up (3 * candidate + place_of way) counts.old }
{
    counts[WAYS * candidate + way.place()] += 1;
}

impl Tally {
    // A step for the candidate.
    fn go_up(self, candidate: usize, way: Way) -> Step
        ensures { answer_of_step result ≡ step self candidate (place_of way) }
    {
        let mut counts = self.counts;
        let answer = check_candidate(&counts, candidate);
        if answer.is_ok() {
            count_up(&mut counts, candidate, way);
        }
        Step {
            answer,
            tally: Tally { counts },
        }
    }

    // The three steps stay functions of their own: accept, decline and turn_away are the steps that README.md names.
    // A sheet more of the candidate is accepted.
    pub fn accept(self, candidate: usize) -> Step
        ensures { answer_of_step result ≡ step self candidate 0 }
    {
        self.go_up(candidate, Way::Accepted)
    }

    // A sheet more of the candidate is declined.
    pub fn decline(self, candidate: usize) -> Step
        ensures { answer_of_step result ≡ step self candidate 1 }
    {
        self.go_up(candidate, Way::Declined)
    }

    // A sheet more of the candidate is turned away.
    pub fn turn_away(self, candidate: usize) -> Step
        ensures { answer_of_step result ≡ step self candidate 2 }
    {
        self.go_up(candidate, Way::TurnedAway)
    }
}
