// The right side of a rule, its nodes from the last to the first, with a stack of relations.
ghost use Rattle.std.specs.Prelude.{◌+◌, ◌*◌};
ghost use Rattle.terms.specs.Sheet.{transitions_of};
ghost use Rattle.nodes.specs.Nodes.{naming};
ghost use Rattle.blackboard_terms.specs.Step.{name_states, lanes_at, LanesAre};
ghost use Rattle.side_relations.specs.Side.{call_in, NodeReady, SideReady, SideRelated};

use crate::parameter::parameter_relation;
use checks::limits::{MOST_NODES, MOST_RULES};
use lane_calls::call::call_lanes;
use lane_steps::step::step_lanes;
use nodes::name::{Name, name_of, name_rank};
use rule_parameters::numbers::FLAGS;
use transition_links::links::LinkedAutomaton;

// What is noted of the rules below one: their tables, one behind the other, their ranks, and which of their parameters are present.
#[derive(Clone, Copy)]
pub struct LowerRules<'a> {
    pub tables: &'a [u8],
    pub ranks: &'a [u8; MOST_RULES],
    pub present: &'a [bool; FLAGS],
}

// The relation of a node from those of its children, in the first lanes.
fn node(
    linked: &LinkedAutomaton,
    lower: &LowerRules,
    name: Name,
    children: &[u64],
    choice: usize,
    lanes: usize,
) -> u64
    requires { NodeReady linked.now.alphabet.now lower.now.tables.now children.now lanes (naming name) }
    ensures { LanesAre lanes result (λ p. name_states (transitions_of linked.now.alphabet.now linked.now.automaton.now) (call_in lower.now.tables.now lower.now.present.now) (8 * choice + p) (lanes_at p children.now) (naming name)) }
{
    match name {
        Name::Terminal(f) => step_lanes(linked, f, children),
        Name::Nonterminal(r) => call_lanes(lower.tables, lower.present, r, children, lanes),
        Name::Parameter(j) => parameter_relation(j, choice),
        Name::Nothing => 0,
    }
}

// The relation of a right side, whose choice of states at the parameters behind the first is given: its first lanes are bytes of the rule's table. The tables of
// the lower rules are there. The stack lies at the end of its array, from `low` on.
pub fn side_relation(
    linked: &LinkedAutomaton,
    lower: &LowerRules,
    nodes: &[u8],
    choice: usize,
    lanes: usize,
) -> u64
    requires { SideReady linked.now.alphabet.now linked.now.automaton.now lower.now.tables.now lower.now.ranks.now lower.now.present.now nodes.now choice lanes }
    ensures { (g : SideReady linked.now.alphabet.now linked.now.automaton.now lower.now.tables.now lower.now.ranks.now lower.now.present.now nodes.now choice lanes) → SideRelated g result }
{
    let mut stack = [0u64; MOST_NODES];
    let mut low = MOST_NODES;
    for left in (0..nodes.len()).rev() {
        let name = name_of(nodes[left]);
        let end = low + name_rank(linked.alphabet, lower.ranks, name) as usize;
        let relation = node(linked, lower, name, &stack[low..end], choice, lanes);
        low = end - 1;
        stack[low] = relation;
    }
    stack[low]
}
