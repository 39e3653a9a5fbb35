// The calls by their names, and the fields that each takes.

#[derive(Clone, Copy, Debug, PartialEq, Eq)]
pub enum Call {
    Line,
    Make,
    Mark,
    Room,
    Certify,
    Accept,
    Decline,
    TurnAway,
    Rule,
    Rules,
    Evaluate,
    Size,
    Label,
    Unfold,
    Walk,
    Wrap,
    Practice,
    Blackboard,
    Add,
}

impl Call {
    // The first field of a row that is no byte string. The call is field 1.
    pub(crate) fn first_number(self) -> usize {
        match self {
            Call::Line
            | Call::Room
            | Call::Make
            | Call::Certify
            | Call::Accept
            | Call::Decline
            | Call::TurnAway
            | Call::Practice
            | Call::Blackboard => 3,
            Call::Mark | Call::Rule | Call::Rules | Call::Size | Call::Label | Call::Unfold => 4,
            Call::Evaluate | Call::Walk | Call::Wrap => 5,
            Call::Add => 7,
        }
    }

    // How many fields a row has.
    pub(crate) fn fields(self) -> usize {
        match self {
            Call::Line | Call::Room => 3,
            Call::Make
            | Call::Rules
            | Call::Accept
            | Call::Decline
            | Call::TurnAway
            | Call::Blackboard => 4,
            Call::Rule | Call::Size => 5,
            Call::Evaluate
            | Call::Label
            | Call::Unfold
            | Call::Walk
            | Call::Wrap
            | Call::Practice => 6,
            Call::Mark => 7,
            Call::Certify | Call::Add => 8,
        }
    }
}

// A name as it is read: its last eight letters, behind bytes 0 where it has fewer.
#[derive(Clone, Copy, Debug, PartialEq, Eq)]
pub(crate) struct Name {
    letters: [u8; 8],
}

impl Name {
    // A name with no letters.
    pub(crate) fn empty() -> Name {
        Name { letters: [0; 8] }
    }

    pub(crate) fn add(&mut self, letter: u8) {
        self.letters.rotate_left(1);
        self.letters[7] = letter;
    }

    // The call of the name. Of a name of more than eight letters the last eight tell it.
    pub(crate) fn call(&self) -> Option<Call> {
        Some(match &self.letters {
            b"\0\0\0\0line" => Call::Line,
            b"\0\0\0\0make" => Call::Make,
            b"\0\0\0\0mark" => Call::Mark,
            b"\0\0\0\0room" => Call::Room,
            b"\0certify" => Call::Certify,
            b"\0\0accept" => Call::Accept,
            b"\0decline" => Call::Decline,
            b"urn_away" => Call::TurnAway,
            b"\0\0\0\0rule" => Call::Rule,
            b"\0\0\0rules" => Call::Rules,
            b"evaluate" => Call::Evaluate,
            b"\0\0\0\0size" => Call::Size,
            b"\0\0\0label" => Call::Label,
            b"\0\0unfold" => Call::Unfold,
            b"\0\0\0\0walk" => Call::Walk,
            b"\0\0\0\0wrap" => Call::Wrap,
            b"practice" => Call::Practice,
            b"ackboard" => Call::Blackboard,
            b"\0\0\0\0\0add" => Call::Add,
            _ => return None,
        })
    }
}
