// A test, by parameter counts, that is enough to know that a grammar has nothing to clean.
ghost use Rattle.std.specs.Prelude.{◌≡◌};
ghost use Rattle.terms.specs.Sheet.{rules_body};
ghost use Rattle.cleaning_terms.specs.Cleaning.{lone};
ghost use Rattle.rule_parameters.specs.Strict.{parameter_count, strict_rule, strict};

use grammars::cursor::RulesOf;
use nodes::name::{is_parameter, name_of};

// Whether the nodes are a lone parameter.
pub fn is_lone(nodes: &[u8]) -> bool
    ensures { result ≡ lone nodes.now }
{
    match nodes {
        [only] => is_parameter(name_of(*only)),
        _ => false,
    }
}

// How many parameters stand among the nodes.
fn parameter_count(nodes: &[u8]) -> usize
    ensures { result ≡ parameter_count nodes.now }
{
    nodes
        .iter()
        .filter(|node| is_parameter(name_of(**node)))
        .count()
}

// Whether a rule has as many parameters among its nodes as its rank, and is no lone parameter.
fn is_strict_rule(rank: u8, nodes: &[u8]) -> bool
    ensures { result ≡ strict_rule (record { rank = rank; nodes = nodes.now }) }
{
    parameter_count(nodes) == rank as usize && !is_lone(nodes)
}

// Whether every rule of a body is of that kind: where each parameter occurs at most once, there is then nothing to clean.
pub fn is_strict(body: &[u8]) -> bool
    ensures { result ≡ strict (rules_body body.now).rules }
{
    RulesOf { body }.all(|rule| is_strict_rule(rule.rank, rule.nodes))
}
