// A table together with the counts of its rules.
ghost use Rattle.std.specs.Prelude.{◌≡◌, ◌<◌};
ghost use Rattle.terms.specs.FormBytes.{table_count};
ghost use Rattle.counting.specs.Private.Counts.{own_in, before_in, CountedTable};

use crate::counts;
use forms::table::RuleTable;
use terms::Rule;

// The rules of a form, and numbers that begin with their counts.
#[derive(Clone, Copy)]
pub struct CountedRules<'a> {
    pub table: RuleTable<'a>,
    pub counts: &'a [u64],
    pub ghost known: { CountedTable table.alphabet.now table.bytes.now counts.now },
}

impl<'a> CountedRules<'a> {
    // How many nodes a rule derives.
    pub fn own_of(&self, rule: Rule) -> u64
        requires { rule.0 < table_count self.now.table.bytes.now }
        ensures { result ≡ own_in self.now.counts.now rule.0 }
    {
        counts::own_of(self.counts, rule)
    }

    // How many of them stand before its open place.
    pub fn before_of(&self, rule: Rule) -> u64
        requires { rule.0 < table_count self.now.table.bytes.now }
        ensures { result ≡ before_in self.now.counts.now rule.0 }
    {
        counts::before_of(self.counts, rule)
    }
}
