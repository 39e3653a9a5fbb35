// Printing a line.
use crate::line::Line;
use marking::answer::Verdict;
use std::fmt;

impl fmt::Display for Line {
    // Verdict, mask and size; the largest number of 64 bits represents "over".
    fn fmt<W: fmt::Write>(&self, f: &mut fmt::Formatter<W>) -> fmt::Result {
        let mask = self.mark.mask;
        match self.mark.verdict {
            Verdict::Accepted => write!(f, "accepted {mask} ")?,
            Verdict::Declined => write!(f, "declined {mask} ")?,
        }
        match u64::from(self.size) {
            u64::MAX => write!(f, "over"),
            nodes => write!(f, "{nodes}"),
        }
    }
}
