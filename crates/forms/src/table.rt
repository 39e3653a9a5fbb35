// The table of the rules of a form that passes its check.
ghost use Rattle.std.specs.Prelude.{◌≡◌, ◌<◌};
ghost use Rattle.terms.specs.Grammar.{terminal_rank};
ghost use Rattle.terms.specs.FormBytes.{table_count, rule_byte, slot_of};
ghost use Rattle.form_bytes.specs.Fields.{kind_number};
ghost use Rattle.forms.specs.Private.Table.{ValidTable};

use checks::alphabet;
use form_bytes::layout::RULE;
use form_bytes::rule::{self, Kind};
use terms::{Rule, Terminal};

// The rules of a form, and the alphabet that they are over. Each rule keeps what is asked of it, so that those that it names are lower and have their ranks.
#[derive(Clone, Copy)]
pub struct RuleTable<'a> {
    pub alphabet: &'a [u8],
    pub bytes: &'a [u8],
    pub ghost valid: { ValidTable alphabet.now bytes.now },
}

// A form that passes its check: the table of its rules, and its start.
#[derive(Clone, Copy)]
pub struct CheckedForm<'a> {
    pub table: RuleTable<'a>,
    pub start: Rule,
    pub ghost start_low: { start.0 < table_count table.bytes.now },
}

impl<'a> RuleTable<'a> {
    // The number of rules.
    pub fn count(&self) -> usize
        ensures { result ≡ table_count self.now.bytes.now }
    {
        self.bytes.len() / RULE
    }

    // The kind of a rule.
    pub fn kind_of(&self, rule: Rule) -> Kind
        requires { rule.0 < table_count self.now.bytes.now }
        ensures { kind_number result ≡ rule_byte self.now.bytes.now rule.0 0 }
    {
        match rule::kind_of(self.bytes, rule) {
            0 => Kind::Whole,
            1 => Kind::Pierced,
            2 => Kind::Filled,
            // the table is valid, so there is no kind above 3
            _ => Kind::Composed,
        }
    }

    // The terminal of a rule.
    pub fn terminal_of(&self, rule: Rule) -> Terminal
        requires { rule.0 < table_count self.now.bytes.now }
        ensures { result.0 ≡ rule_byte self.now.bytes.now rule.0 1 }
    {
        rule::terminal_of(self.bytes, rule)
    }

    // The rank of the terminal of a rule.
    pub fn rank_of(&self, rule: Rule) -> usize
        requires { rule.0 < table_count self.now.bytes.now }
        ensures { result ≡ terminal_rank self.now.alphabet.now (rule_byte self.now.bytes.now rule.0 1) }
    {
        alphabet::rank_of(self.alphabet, self.terminal_of(rule)) as usize
    }

    // The hole of a rule: the child that the open place stands at, counted from 1.
    pub fn hole_of(&self, rule: Rule) -> u8
        requires { rule.0 < table_count self.now.bytes.now }
        ensures { result ≡ rule_byte self.now.bytes.now rule.0 2 }
    {
        rule::hole_of(self.bytes, rule)
    }

    // Slot `j` of a rule, counted from 0.
    pub fn slot_of(&self, rule: Rule, j: usize) -> Rule
        requires { (rule.0 < table_count self.now.bytes.now) × (j < 4) }
        ensures { result.0 ≡ slot_of self.now.bytes.now rule.0 j }
    {
        rule::slot_of(self.bytes, rule, j)
    }
}
