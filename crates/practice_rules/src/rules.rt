// The rules body of a practice sheet: rule 0, the rules that are drawn, and the last rule.
ghost use Rattle.std.specs.Prelude.{◌≡◌, ◌+◌, ◌%◌, ◌<◌, ◌≤◌, length, take};
ghost use Rattle.terms.specs.Sheet.{written_rules};
ghost use Rattle.practice_terms.specs.Practice.{practice_rules};
ghost use Rattle.practice_rules.specs.Drawn.{Drawn};

use crate::generator::Generator;
use checks::bytes::copy_at;
use nodes::name::{FIRST_PARAMETER, FIRST_RULE};

// The terminals of practice sheets.
const A: u8 = 0;

const H: u8 = 1;

const F: u8 = 2;

// The rank of each.
pub const ALPHABET: [u8; 3] = [0, 1, 2];

// The most rules that are drawn.
pub const MOST_DRAWN: usize = 20;

// How many bytes rule 0 and the last rule have, and how many a rule that is drawn has at most.
const FIRST_LENGTH: usize = 4;

const LAST_LENGTH: usize = 4;

const MOST_DRAWN_LENGTH: usize = 6;

// The longest rules body.
pub const LONGEST_RULES: usize = FIRST_LENGTH + MOST_DRAWN_LENGTH * MOST_DRAWN + LAST_LENGTH;

// The node that calls the rule which a draw names: one of the rules below i.
fn call(drawn: u32, i: usize) -> u8
    requires { (0 < i) × (i ≤ 20) }
    ensures { result ≡ 0x40 + drawn % i }
{
    FIRST_RULE + (drawn as usize % i) as u8
}

// Draws rule i and writes it at a place; the answer is where it ends.
fn write_drawn(generator: &mut Generator, i: usize, rules: &mut [u8], at: usize) -> usize
    requires { (0 < i) × (i ≤ 20) × (at + 6 ≤ length rules.old) }
    ensures { Drawn generator.old.x i at generator.new.x result rules.new rules.old }
{
    let even = generator.draw() % 2 == 0;
    let j = call(generator.draw(), i);
    if even {
        // Rank, node count, and call j on call k on y1.
        let k = call(generator.draw(), i);
        copy_at(&[1, 3, j, k, FIRST_PARAMETER], rules, at);
        return at + 5;
    }
    // Rank, node count, and f(call j on y1, a).
    copy_at(&[1, 4, F, j, FIRST_PARAMETER, A], rules, at);
    at + 6
}

// Writes the rules body of a first x and m at the beginning of a slice, and answers its length.
pub fn write_rules(first: u32, m: usize, rules: &mut [u8]) -> usize
    requires { (m ≤ 20) × (128 ≤ length rules.old) }
    ensures { (result ≡ length (written_rules (practice_rules first m))) × (take result rules.new ≡ written_rules (practice_rules first m)) }
{
    copy_at(&[1, 2, H, FIRST_PARAMETER], rules, 0);
    let mut generator = Generator { x: first };
    let mut end = FIRST_LENGTH;
    for i in 1..=m {
        end = write_drawn(&mut generator, i, rules, end);
    }
    copy_at(&[0, 2, FIRST_RULE + m as u8, A], rules, end);
    end + LAST_LENGTH
}
