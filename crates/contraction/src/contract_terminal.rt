// A terminal over what cells represent: Contract-2 of source document 000, section 6, where at most one of them is open.
ghost use Rattle.std.specs.Prelude.{◌≡◌, ◌<◌, length};
ghost use Rattle.form_bytes.specs.Fields.{kind_number};
ghost use Rattle.cells.specs.Builder.{Room};
ghost use Rattle.contraction.specs.Terminal.{with_child, slot_at, fields_over, Children, Opens, ContractedWhere, TerminalContracted};

use crate::contract_chain::contract_chain;
use cells::builder::FormBuilder;
use cells::cells::{Cell, CellNumber};
use form_bytes::rule::{FormRule, Kind, UNUSED_SLOT};
use terms::{Rule, Terminal};

// Which of a terminal's children are open.
#[derive(Clone, Copy, Debug, PartialEq, Eq)]
pub enum Open {
    Nowhere,
    At(usize),
    Several,
}

// A child in front of others.
fn with_child(shut: bool, place: usize, behind: Open) -> Open
    ensures { result ≡ with_child shut place behind }
{
    if shut {
        return behind;
    }
    match behind {
        Open::Nowhere => Open::At(place),
        Open::At(_) | Open::Several => Open::Several,
    }
}

// Which of the children are open.
fn open_among(builder: &FormBuilder, children: &[CellNumber]) -> Open
    requires { Children builder.now.next_cell children.now }
    ensures { Opens builder.now.cells children.now result }
{
    let mut open = Open::Nowhere;
    for j in (0..children.len()).rev() {
        let closed = builder.cell(children[j]).is_closed();
        open = with_child(closed, j, open);
    }
    open
}

// Slot j of a terminal's rule: the number of the child's rule. The hole's and those past the children are not used.
fn slot(builder: &FormBuilder, children: &[CellNumber], hole: u8, j: usize) -> Rule
    requires lower { Children builder.now.next_cell children.now }
    requires inside { j < 4 }
    ensures { result.0 ≡ slot_at builder.now.cells children.now hole j }
{
    if children.len() <= j || j + 1 == hole as usize {
        return UNUSED_SLOT;
    }
    builder.cell(children[j]).slot()
}

// The rule of a terminal over closed children, but for the hole.
fn rule_over(
    builder: &FormBuilder,
    kind: Kind,
    terminal: Terminal,
    hole: u8,
    children: &[CellNumber],
) -> FormRule
    requires { Children builder.now.next_cell children.now }
    ensures { result ≡ fields_over builder.now.cells (kind_number kind) terminal.0 hole children.now }
{
    FormRule {
        kind: kind.into(),
        terminal,
        hole,
        slot0: slot(builder, children, hole, 0),
        slot1: slot(builder, children, hole, 1),
        slot2: slot(builder, children, hole, 2),
        slot3: slot(builder, children, hole, 3),
    }
}

// A terminal over closed children: a rule of rank 0.
fn close(builder: &mut FormBuilder, terminal: Terminal, children: &[CellNumber]) -> CellNumber
    requires room { Room 2 1 builder.old }
    requires lower { Children builder.old.next_cell children.now }
    ensures { ContractedWhere Open.Nowhere builder.old terminal.0 children.now builder.new result }
{
    let rule = rule_over(builder, Kind::Whole, terminal, 0, children);
    let number = builder.add_rule(rule);
    builder.add_cell(Cell::Closed(number))
}

// A terminal over children of which one is open: a rule of rank 1 over that one.
fn pierce(
    builder: &mut FormBuilder,
    terminal: Terminal,
    children: &[CellNumber],
    place: usize,
) -> CellNumber
    requires room { Room 2 1 builder.old }
    requires lower { Children builder.old.next_cell children.now }
    requires inside { place < length children.now }
    ensures { ContractedWhere (Open.At place) builder.old terminal.0 children.now builder.new result }
{
    let rule = rule_over(builder, Kind::Pierced, terminal, place as u8 + 1, children);
    let context = builder.add_rule(rule);
    contract_chain(builder, context, children[place])
}

// A terminal over cells.
pub fn contract_terminal(
    builder: &mut FormBuilder,
    terminal: Terminal,
    children: &[CellNumber],
) -> CellNumber
    requires room { Room 2 1 builder.old }
    requires lower { Children builder.old.next_cell children.now }
    ensures { TerminalContracted builder.old terminal.0 children.now builder.new result }
{
    match open_among(builder, children) {
        Open::Nowhere => close(builder, terminal, children),
        Open::At(place) => pierce(builder, terminal, children, place),
        Open::Several => builder.add_terminal(terminal, children),
    }
}
