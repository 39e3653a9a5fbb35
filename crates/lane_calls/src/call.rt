// The states of a call in each lane, from the table of its rule (document 02, R-7). The eight bytes of a table for fixed states of the second to the fourth
// parameter are a relation between the states of the first parameter and of the root: a call joins the relations that its arguments allow, and applies one.
ghost use Rattle.std.specs.Prelude.{◌≡◌, false, cond, ◌&&◌, ℕ, ◌+◌, ◌-◌, ◌*◌, ◌^◌, ◌≤◌, ◌<◌, ltb, length, get_or, take, drop};
ghost use Rattle.terms.specs.Automaton.{has};
ghost use Rattle.terms.specs.Relation.{matrix};
ghost use Rattle.terms.specs.Check.{highest_rank, most_rules};
ghost use Rattle.blackboard_terms.specs.Blackboard.{table_length};
ghost use Rattle.blackboard_terms.specs.Step.{entered, call_states, lane, lanes_at, LanesAre};
ghost use Rattle.lane_calls.specs.Call.{reaches};

use checks::limits::HIGHEST_RANK;
use relations::apply;
use rule_parameters::numbers::FLAGS;
use terms::Rule;

// The length of the table of a rule.
pub const TABLE_LENGTH: usize = 4096;

// State 0 alone, in each lane.
const STATE_0: u64 = 0x0101_0101_0101_0101;

// The relation for a choice of states at the second to the fourth parameter: eight bytes of the table, the low byte first.
fn relation_at(table: &[u8], choice: usize) -> u64
    requires { 8 * choice + 8 ≤ length table.now }
    ensures { result ≡ matrix (λ p q. has (get_or table.now (8 * choice + p) 0) q) }
{
    let start = 8 * choice;
    let end = start + 8;
    let mut bytes = [0u8; 8];
    bytes.copy_from_slice(&table[start..end]);
    u64::from_le_bytes(bytes)
}

// The relations, joined, of all choices that have the chosen states at the last parameters, and at so many parameters behind the first one a state from lane p of
// their sets.
fn joined(
    table: &[u8],
    sets: &[u64; HIGHEST_RANK as usize],
    p: usize,
    parameters: usize,
    chosen: usize,
) -> u64
    requires { (length table.now ≡ table_length) × (p < 8) × (0 < parameters) × (parameters < highest_rank) × (chosen < 8 ^ (3 - parameters)) }
    ensures { result ≡ matrix (reaches table.now (lanes_at p sets.now) parameters chosen) }
{
    let set = sets[parameters] >> (8 * p);
    let mut all: u64 = 0;
    for state in 0..8usize {
        if (set >> state) % 2 == 1 {
            let next = 8 * chosen + state;
            if parameters == 1 {
                all = relation_at(table, next) | all;
            } else {
                all = joined(table, sets, p, parameters - 1, next) | all;
            }
        }
    }
    all
}

// The states of a call whose parameters take theirs from lane p of four sets.
fn call_in_lane(table: &[u8], sets: &[u64; HIGHEST_RANK as usize], p: usize) -> u64
    requires { (length table.now ≡ table_length) × (p < 8) }
    ensures { result ≡ call_states table.now (lanes_at p sets.now) }
{
    apply(joined(table, sets, p, 3, 0), sets[0] >> (8 * p))
}

// The set from which a call of a rule takes the states of parameter j, in each lane: that of the argument where the parameter is present, else state 0 alone.
fn set_at(present: &[bool; FLAGS], rule: Rule, arguments: &[u64], j: usize) -> u64
    requires { (rule.0 < most_rules) × (j < highest_rank) }
    ensures { (p : ℕ) → p < 8 → lane result p ≡ cond (ltb j (length arguments.now) && get_or present.now (highest_rank * rule.0 + j) false) (get_or (lanes_at p arguments.now) j 0) 1 }
{
    match arguments.get(j) {
        Some(set) if present[HIGHEST_RANK as usize * rule.0 as usize + j] => *set,
        _ => STATE_0,
    }
}

// The sets of the four parameters, in each lane.
fn entered(present: &[bool; FLAGS], rule: Rule, arguments: &[u64]) -> [u64; HIGHEST_RANK as usize]
    requires { rule.0 < most_rules }
    ensures { (p : ℕ) → p < 8 → lanes_at p result ≡ entered (λ j. ltb j (length arguments.now) && get_or present.now (highest_rank * rule.0 + j) false) (lanes_at p arguments.now) }
{
    [
        set_at(present, rule, arguments, 0),
        set_at(present, rule, arguments, 1),
        set_at(present, rule, arguments, 2),
        set_at(present, rule, arguments, 3),
    ]
}

// The states of a call of a rule in each of the first lanes, where the tables of the lower rules stand one behind the other.
pub fn call_lanes(
    tables: &[u8],
    present: &[bool; FLAGS],
    rule: Rule,
    arguments: &[u64],
    lanes: usize,
) -> u64
    requires { (table_length * (rule.0 + 1) ≤ length tables.now) × (rule.0 < most_rules) × (lanes ≤ 8) }
    ensures { LanesAre lanes result (λ p. call_states (take table_length (drop (table_length * rule.0) tables.now)) (entered (λ j. ltb j (length arguments.now) && get_or present.now (highest_rank * rule.0 + j) false) (lanes_at p arguments.now))) }
{
    let start = TABLE_LENGTH * rule.0 as usize;
    let end = start + TABLE_LENGTH;
    let sets = entered(present, rule, arguments);
    let mut states: u64 = 0;
    for p in 0..lanes {
        states = (call_in_lane(&tables[start..end], &sets, p) << (8 * p)) | states;
    }
    states
}
