// What a marking that is counted answers.
use marking::answer::Mark;
use tallies::tally::Tally;
use terms::refusals::Refusal;

// The answer, and the tally that it leaves.
#[derive(Clone, Copy, Debug, PartialEq, Eq)]
pub struct Marking {
    pub mark: Result<Mark, Refusal>,
    pub tally: Tally,
}
