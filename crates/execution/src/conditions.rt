// What is asked before the first operation: the actuals and the conditions.
ghost use Rattle.std.specs.Prelude.{◌≡◌, ◌<◌};
ghost use Rattle.protection.specs.Limits.{rights, parameters};
ghost use Rattle.cases.specs.Cases.{all};
ghost use Rattle.protection.specs.Command.{values_of};
ghost use Rattle.protection.specs.Execution.{bounded, actual_fits};
ghost use Rattle.commands.specs.Contents.{meaning};
ghost use Rattle.commands.specs.Fits.{Fits};
ghost use Rattle.execution.specs.Conditions.{ConditionApplies, ConditionsApply, HeldBy, AllHeldBy};

use commands::Command;
use matrix::Matrix;
use rights::Set;

// Actual b fits: a name, any byte for a spare parameter, 255 in an unused position.
fn actual_fits(c: Command, a: [u8; Command::PARAMETERS], b: u8) -> bool
    requires { Fits rights c × (b < parameters) }
    ensures { result ≡ actual_fits bounded (meaning c) (values_of a) b }
{
    let at = b as usize;
    let x = a[at];
    if c.parameters <= b {
        return x == Command::UNUSED;
    }
    if (x as usize) < Matrix::NAMES {
        return true;
    }
    !c.names(b)
}

pub fn actuals_fit(c: Command, a: [u8; Command::PARAMETERS]) -> bool
    requires { Fits rights c }
    ensures { result ≡ all (actual_fits bounded (meaning c) (values_of a)) parameters 0 }
{
    (0..Command::PARAMETERS as u8).all(|b| actual_fits(c, a, b))
}

// Condition j, read over what the cell's rights carry: the sets have those that carry each right.
fn condition_holds(
    matrix: &Matrix,
    carriers: &[Set; Matrix::RIGHTS as usize],
    c: Command,
    j: usize,
    a: [u8; Command::PARAMETERS],
) -> bool
    requires { ConditionApplies a c j }
    ensures { HeldBy matrix.now.kinds matrix.now.cells carriers.now a c j result }
{
    let q = c.condition[3 * j];
    let s = operations::name_of(a, c.condition[3 * j + 1]);
    let o = operations::name_of(a, c.condition[3 * j + 2]);
    matrix.has_cell(s, o) && matrix.cells[Matrix::NAMES * s + o] & carriers[q as usize] != 0
}

pub fn conditions_hold(
    matrix: &Matrix,
    carriers: &[Set; Matrix::RIGHTS as usize],
    c: Command,
    a: [u8; Command::PARAMETERS],
) -> bool
    requires { ConditionsApply a c }
    ensures { AllHeldBy matrix.now.kinds matrix.now.cells carriers.now a c result }
{
    (0..c.conditions as usize).all(|j| condition_holds(matrix, carriers, c, j, a))
}
