// The rules of a sheet: their counts, and what is refused of them.
ghost use Rattle.std.specs.Prelude.{◌≡◌, ◌*◌, ◌<◌, ◌≤◌, length, IfOk};
ghost use Rattle.terms.specs.Grammar.{node_count};
ghost use Rattle.terms.specs.Answer.{answer_of};
ghost use Rattle.terms.specs.Check.{most_rules, most_nodes};
ghost use Rattle.terms.specs.Sheet.{rules_body};
ghost use Rattle.grammars.specs.Rules.{seen_from, rule_reading, body_counts, reading, each_refusal, rules_reading};

use crate::cursor::{RulesOf, span_at};
use checks::limits::{HIGHEST_RANK, MOST_NODES, MOST_RULES};
use nodes::name::{allowed, name_of, name_rank};
use nodes::parameters::{count_parameter, each_at_most_once};
use nodes::share::share;
use nodes::wholes::{is_one, taking};
use terms::Rule;
use terms::refusals::Refusal;

// How many rules a body has, and how many nodes.
#[derive(Clone, Copy, Debug, PartialEq, Eq)]
struct Counts {
    rules: usize,
    nodes: usize,
}

// How many rules a body has, and how many rules a form of them may take.
#[derive(Clone, Copy, Debug, PartialEq, Eq)]
pub struct Rules {
    pub count: usize,
    pub asked: usize,
}

// What is refused of a rule, 8 to 11, from the ranks of the lower rules, or how many rules of a form its nodes may take.
fn check_rule(
    alphabet: &[u8],
    ranks: &[u8; MOST_RULES],
    rule: Rule,
    rank: u8,
    nodes: &[u8],
) -> Result<usize, Refusal>
    requires { (rule.0 < most_rules) × (length nodes.now < 256) }
    ensures answer { answer_of result ≡ rule_reading alphabet.now (seen_from ranks.now rule.0 rank nodes.now) rule.0 }
    ensures small { IfOk result (λ takes. takes ≤ 1024 * length nodes.now) }
{
    if HIGHEST_RANK < rank {
        return Err(Refusal::RuleRank);
    }
    let mut behind = Some(0);
    let mut counts = [0u8; HIGHEST_RANK as usize];
    let mut takes = 0;
    for left in (0..nodes.len()).rev() {
        let name = name_of(nodes[left]);
        if !allowed(alphabet, rule, rank, name) {
            return Err(Refusal::NodeName);
        }
        let children = name_rank(alphabet, ranks, name);
        behind = taking(children, behind);
        takes += share(name, children);
        count_parameter(name, &mut counts);
    }
    if !is_one(behind) {
        return Err(Refusal::RightSide);
    }
    if !each_at_most_once(&counts, rank) {
        return Err(Refusal::Parameter);
    }
    Ok(takes)
}

// How many rules and nodes a body has; none where it does not end where a rule ends. It reads by places, since the rules of a body one after another do not tell
// whether the body cuts the last of them off.
fn count_rules(body: &[u8]) -> Option<Counts>
    ensures { result ≡ body_counts (rules_body body.now) }
{
    let mut at = 0;
    let mut rules = 0;
    let mut nodes = 0;
    while at < body.len() {
        let span = span_at(body, at);
        if body.len() < span.end {
            return None;
        }
        rules += 1;
        nodes += span.end - span.start;
        at = span.end;
    }
    Some(Counts { rules, nodes })
}

// What is refused of a rule, 8 to 11, from rule 0 on, and then of a start with parameters, 13; or how many rules a form of all of them may take.
fn check_rules(alphabet: &[u8], body: &[u8], rules: usize) -> Result<Rules, Refusal>
    requires count { (rules ≡ length (rules_body body.now).rules) × (0 < rules) × (rules ≤ most_rules) }
    requires few { node_count (rules_body body.now).rules ≤ most_nodes }
    ensures { answer_of result ≡ reading (each_refusal alphabet.now (rules_body body.now).rules) (rules_body body.now).rules }
{
    let mut ranks = [0u8; MOST_RULES];
    let mut asked = 0;
    for (number, rule) in (RulesOf { body }).enumerate() {
        asked += check_rule(alphabet, &ranks, Rule(number as u16), rule.rank, rule.nodes)?;
        ranks[number] = rule.rank;
    }
    if ranks[rules - 1] != 0 {
        return Err(Refusal::StartRank);
    }
    Ok(Rules {
        count: rules,
        asked,
    })
}

// How many rules a rules body over an alphabet has and how many a form of them may take, or what is refused of it.
pub fn read_rules(alphabet: &[u8], body: &[u8]) -> Result<Rules, Refusal>
    ensures { answer_of result ≡ rules_reading alphabet.now body.now }
{
    let Counts { rules, nodes } = count_rules(body).ok_or(Refusal::RulesEnd)?;
    if rules == 0 {
        return Err(Refusal::RulesEnd);
    }
    if MOST_RULES < rules {
        return Err(Refusal::RuleCount);
    }
    if MOST_NODES < nodes {
        return Err(Refusal::NodeCount);
    }
    check_rules(alphabet, body, rules)
}
