// The rules of a rules body, one behind the other: where the rule at a place stands.
ghost use Rattle.std.specs.Prelude.{◌≡◌, ◌<◌, length};
ghost use Rattle.std.specs.Iterator.{item_count, YieldsFirstBy};
ghost use Rattle.terms.specs.Sheet.{rules_body};
ghost use Rattle.grammars.specs.declared.cursor.RuleBytes.{RuleBytes};
ghost use Rattle.grammars.specs.declared.cursor.RulesOf.{RulesOf};
ghost use Rattle.grammars.specs.Cursor.{span_at};

// The rank of a rule, and where its nodes start and end. The next rule's rank stands where they end.
#[derive(Clone, Copy, Debug, PartialEq, Eq)]
pub struct Span {
    pub rank: u8,
    pub start: usize,
    pub end: usize,
}

// The rule whose rank stands at a place. Where the body cuts it off, its nodes end behind the body's end.
pub fn span_at(body: &[u8], at: usize) -> Span
    requires { at < length body.now }
    ensures { result ≡ span_at body.now at }
{
    let rank = body[at];
    let start = at + 2;
    if body.len() < start {
        return Span {
            rank,
            start,
            end: start,
        };
    }
    Span {
        rank,
        start,
        end: start + body[at + 1] as usize,
    }
}

// A rule of a body: its rank, and its nodes.
#[derive(Clone, Copy)]
pub struct RuleBytes<'a> {
    pub rank: u8,
    pub nodes: &'a [u8],
}

// The rules of a body, one after another, up to one that the body cuts off.
#[derive(Clone, Copy)]
pub struct RulesOf<'a> {
    pub body: &'a [u8],
}

impl<'a> Iterator for RulesOf<'a> {
    type Item = RuleBytes<'a>;

    ghost next_gives = { YieldsFirstBy (λ (x : RuleBytes). record { rank = x.rank; nodes = x.nodes.now }) (λ (s : RulesOf). (rules_body s.body.now).rules) };

    ghost remaining = { item_count (λ (s : RulesOf). (rules_body s.body.now).rules) };

    fn next(&mut self) -> Option<RuleBytes<'a>> {
        let [rank, count, behind @ ..] = self.body else {
            return None;
        };
        let (nodes, body) = behind.split_at_checked(*count as usize)?;
        self.body = body;
        Some(RuleBytes { rank: *rank, nodes })
    }
}
