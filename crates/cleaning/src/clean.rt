// The rules of a grammar, cleaned from the first to the last.
ghost use Rattle.std.specs.Prelude.{◌-◌, ◌≤◌, length};
ghost use Rattle.cleaning.specs.Clean.{longest_body, GrammarBody, RuleReady, NodesCleaned, RuleCleaned, Cleaned, CleanedNoting};

use crate::notes::Notes;
use crate::sift::sift;
use checks::limits::{HIGHEST_RANK, MOST_NODES, MOST_RULES};
use grammars::cursor::RulesOf;
use rule_parameters::numbers::{note_present, present_before, renumber};
use rule_parameters::strict::is_lone;
use terms::Rule;

// The length of the longest rules body.
pub const LONGEST_BODY: usize = 2 * MOST_RULES + MOST_NODES;

// The nodes of a rule that are kept, under their new numbers, and how many they are. Notes which of the rule's parameters are present, and whether it is a lone
// parameter.
fn clean_nodes(
    alphabet: &[u8],
    notes: &mut Notes,
    rule: Rule,
    nodes: &[u8],
    kept: &mut [u8],
) -> usize
    requires { RuleReady alphabet.now notes.old rule.0 nodes.now (length kept.old) }
    ensures { NodesCleaned alphabet.now notes.old rule.0 nodes.now kept.old result notes.new kept.new }
{
    let number = rule.0 as usize;
    let first = HIGHEST_RANK as usize * number;
    let count = sift(alphabet, notes, nodes, kept);
    note_present(
        &kept[..count],
        notes.ranks[number],
        first,
        &mut notes.present,
    );
    notes.alone[number] = is_lone(&kept[..count]);
    renumber(&mut kept[..count], &notes.present, first);
    count
}

// A rule, cleaned and written from the start of a slice, behind its new rank and the number of its nodes: the answer is its length.
fn clean_rule(alphabet: &[u8], notes: &mut Notes, rule: Rule, nodes: &[u8], out: &mut [u8]) -> usize
    requires { (2 ≤ length out.old) × RuleReady alphabet.now notes.old rule.0 nodes.now (length out.old - 2) }
    ensures { RuleCleaned alphabet.now notes.old rule.0 nodes.now out.old result notes.new out.new }
{
    let number = rule.0 as usize;
    let kept = clean_nodes(alphabet, notes, rule, nodes, &mut out[2..]);
    out[0] = present_before(
        &notes.present,
        HIGHEST_RANK as usize * number,
        notes.ranks[number],
    );
    out[1] = kept as u8;
    2 + kept
}

// The rules body of the cleaned grammar, written from the start of a slice: the answer is its length. Notes the ranks of the rules as written, and which of their
// parameters are present.
pub fn clean_noting(alphabet: &[u8], body: &[u8], notes: &mut Notes, cleaned: &mut [u8]) -> usize
    requires { GrammarBody alphabet.now body.now × (longest_body ≤ length cleaned.old) }
    ensures { CleanedNoting alphabet.now body.now result notes.new cleaned.new }
{
    let mut to = 0;
    for (number, rule) in (RulesOf { body }).enumerate() {
        notes.ranks[number] = rule.rank;
        to += clean_rule(
            alphabet,
            notes,
            Rule(number as u16),
            rule.nodes,
            &mut cleaned[to..],
        );
    }
    to
}

// The same where nothing is to be noted.
pub fn clean(alphabet: &[u8], body: &[u8], cleaned: &mut [u8]) -> usize
    requires { GrammarBody alphabet.now body.now × (longest_body ≤ length cleaned.old) }
    ensures { Cleaned alphabet.now body.now result cleaned.new }
{
    clean_noting(alphabet, body, &mut Notes::none(), cleaned)
}
