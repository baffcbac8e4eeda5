// A step that is looked for on one cell, among the calls of all commands: on the matrix as it is, and on the matrix without the right in the cell.
#![tactic(auto)]

ghost use Rattle.std.specs.Prelude.{◌≡◌, ◌<◌};
ghost use Rattle.protection.specs.Limits.{names, rights, commands};
ghost use Rattle.matrix.specs.Matrices.{state_of};
ghost use Rattle.commands.specs.Contents.{meaning};
ghost use Rattle.queries.specs.Useful.{Tried};
ghost use Rattle.queries.specs.Sought.{SeenBySome};
ghost use Rattle.policy.specs.Contents.{system_of};
ghost use Rattle.calls.specs.Calls.{found_call, TouchingFound, first_touching, gone_from, masks_without, Covers, Lookable};

use commands::Command;
use masks::Tables;
use matrix::Matrix;
use policy::Policy;
use queries::Touch;
use rights::Set;

// A call that was found: a command's number, and four actuals.
#[derive(Clone, Copy)]
pub struct Call {
    pub rule: u8,
    pub actuals: [u8; Command::PARAMETERS],
}

// The first call of the command, which is number i, that makes the step; a create would get name n.
fn call_of(
    c: Command,
    i: usize,
    n: usize,
    touch: Touch,
    matrix: &Matrix,
    tables: &Tables,
) -> Option<Call>
    requires { Tried c n × (i < commands) × SeenBySome matrix.now tables.now × (touch.subject < names) × (touch.object < names) }
    ensures { TouchingFound i (meaning c) n matrix.now tables.now touch result }
{
    let at = queries::first_on_cell(c, n, touch, matrix, tables);
    if at < queries::places(c, n) {
        return Some(Call {
            rule: i as u8,
            actuals: queries::actuals_at(c, n, at),
        });
    }
    None
}

// The first call that makes the step, commands in order; those of the mask may have one.
pub fn first_call(
    p: &Policy,
    which: u32,
    n: usize,
    touch: Touch,
    matrix: &Matrix,
    tables: &Tables,
) -> Option<Call>
    requires { Lookable p.now n touch matrix.now tables.now × Covers p.now n touch (state_of matrix.now) which }
    ensures { found_call result ≡ first_touching (system_of p.now) (state_of matrix.now) touch n }
{
    let count = p.commands as usize;
    let mut i = masks::next_bit(which, 0);
    // goes from one command of the mask to the next
    while i < count {
        let call = call_of(p.command[i], i, n, touch, matrix, tables);
        if call.is_some() {
            return call;
        }
        i = masks::next_bit(which, i + 1);
    }
    None
}

// The masks once the right is gone from the cell: the cell meets what the rights that stay carry.
fn masks_without(
    carried: &[Set; Matrix::RIGHTS as usize],
    touch: Touch,
    matrix: &Matrix,
    tables: &Tables,
) -> Tables
    requires { (touch.right < rights) × (touch.subject < names) × (touch.object < names) }
    ensures { result ≡ masks_without carried.now touch matrix.now.cells tables.now }
{
    let s = touch.subject;
    let o = touch.object;
    let rest = rights::without_right(matrix.cells[Matrix::NAMES * s + o], touch.right);
    tables.with_cell(s, o, rest, carried)
}

// The first such call once the right is gone from the cell, on a copy without it: an enter returns it.
pub fn first_return(
    p: &Policy,
    which: u32,
    n: usize,
    touch: Touch,
    matrix: &Matrix,
    tables: &Tables,
) -> Option<Call>
    requires { Lookable p.now n touch matrix.now tables.now × Covers p.now n touch (gone_from touch (state_of matrix.now)) which }
    ensures { found_call result ≡ first_touching (system_of p.now) (gone_from touch (state_of matrix.now)) touch n }
{
    let gone = matrix.without_right(touch.right, touch.subject, touch.object);
    let without = masks_without(&p.carried, touch, matrix, tables);
    first_call(p, which, n, touch, &gone, &without)
}
