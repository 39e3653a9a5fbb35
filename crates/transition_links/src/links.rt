// The transitions of an automaton, linked by terminal.
ghost use Rattle.std.specs.Prelude.{◌≡◌, ◌≤◌, ◌<◌, ◌-◌, length};
ghost use Rattle.std.specs.Iterator.{at_most};
ghost use Rattle.terms.specs.Sheet.{transition_count, transition_byte};
ghost use Rattle.terms.specs.Check.{most_transitions, alphabet_refusal, automaton_refusal};
ghost use Rattle.transition_links.specs.Links.{First, Linked, GivesNext};

use terms::Terminal;

// Where the first transitions stand in the links, behind those of the transitions.
pub const HEADS: usize = 255;

// An automaton and its alphabet, which pass their checks, with the transitions linked by terminal.
#[derive(Drop)]
pub struct LinkedAutomaton<'a> {
    pub alphabet: &'a [u8],
    pub automaton: &'a [u8],
    count: usize,
    links: [u8; 511],
    pub ghost alphabet_passes: { alphabet_refusal alphabet.now ≡ 0 },
    pub ghost automaton_passes: { automaton_refusal alphabet.now automaton.now ≡ 0 },
    pub ghost counted: { count ≡ transition_count automaton.now },
    pub ghost linked: { Linked automaton.now links },
}

// The transitions of a terminal that are still to come, by their numbers.
#[derive(Drop)]
pub struct TransitionsOf<'a> {
    linked: &'a LinkedAutomaton<'a>,
    terminal: Terminal,
    next: usize,
    pub ghost within: { next ≤ transition_count linked.now.automaton.now },
    pub ghost here: { next < transition_count linked.now.automaton.now → transition_byte linked.now.automaton.now next 0 ≡ terminal.0 },
}

impl<'a> LinkedAutomaton<'a> {
    // Links an automaton that passes its check.
    pub fn new(alphabet: &'a [u8], automaton: &'a [u8]) -> Self
        requires alphabet { alphabet_refusal alphabet.now ≡ 0 }
        requires automaton { automaton_refusal alphabet.now automaton.now ≡ 0 }
        ensures alphabet { result.alphabet.now ≡ alphabet.now }
        ensures automaton { result.automaton.now ≡ automaton.now }
    {
        LinkedAutomaton {
            alphabet,
            automaton,
            count: (automaton.len() - 2) / 6,
            links: link_transitions(automaton),
        }
    }

    // The transitions of a terminal, from the first on.
    pub fn transitions_of(&'a self, terminal: Terminal) -> TransitionsOf<'a>
        ensures { (result.linked.now ≡ self.now) × (result.terminal ≡ terminal) × First self.now.automaton.now terminal.0 0 result.next }
    {
        let head = HEADS + terminal.0 as usize;
        TransitionsOf {
            linked: self,
            terminal,
            next: self.links[head] as usize,
        }
    }
}

impl<'a> Iterator for TransitionsOf<'a> {
    type Item = usize;

    ghost next_gives = { λ s r t. (t.linked ≡ s.linked) × (t.terminal ≡ s.terminal) × GivesNext s.linked.now.automaton.now s.terminal.0 s.next r t.next };

    ghost remaining = { λ s. at_most (transition_count s.linked.now.automaton.now - s.next) };

    fn next(&mut self) -> Option<usize> {
        let i = self.next;
        if self.linked.count <= i {
            return None;
        }
        self.next = self.linked.links[i] as usize;
        Some(i)
    }
}

// The links, from the last transition to the first: each leads to what was the first of its terminal, and is the first now.
pub fn link_transitions(automaton: &[u8]) -> [u8; 511]
    requires { (2 ≤ length automaton.now) × (transition_count automaton.now ≤ most_transitions) }
    ensures { Linked automaton.now result }
{
    let count = (automaton.len() - 2) / 6;
    let mut links = [count as u8; 511];
    for i in (0..count).rev() {
        let head = HEADS + automaton[2 + 6 * i] as usize;
        links[i] = links[head];
        links[head] = i as u8;
    }
    links
}
