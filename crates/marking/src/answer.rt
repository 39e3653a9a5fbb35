// What marking a sheet answers.

// The verdict on a sheet.
#[derive(Clone, Copy, Debug, PartialEq, Eq)]
pub enum Verdict {
    Accepted,
    Declined,
}

// The verdict on a sheet, with its mask.
#[derive(Clone, Copy, Debug, PartialEq, Eq)]
pub struct Mark {
    pub verdict: Verdict,
    pub mask: u8,
}
