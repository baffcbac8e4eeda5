// Running a command (document 01: a rule) on a lent matrix; refusals 11 to 15.
#![tactic(auto)]

ghost use Rattle.std.specs.Prelude.{◌≡◌};
ghost use Rattle.protection.specs.Limits.{rights};
ghost use Rattle.matrix.specs.Canonical.{Canonical};
ghost use Rattle.commands.specs.Fits.{Fits};
ghost use Rattle.policy.specs.Fits.{PolicyFits};
ghost use Rattle.execution.specs.Runs.{OperationsApply, RanAs, ran_told, answer_told, executed_of, ExecutedAs, RunBy, outcome_of};

mod conditions;

use commands::Command;
use matrix::Matrix;
use policy::Policy;
use refusals::Refusal;
use rights::Set;

// A rule run that was done: without or with an enter of the right asked about into a cell that lacked it.
#[derive(Clone, Copy, PartialEq, Eq)]
pub enum Done {
    NoLeak,
    Leak,
}

// The operations in order, each on what the one before left, and whether one of them entered the right into a cell that lacked it; nothing, where one cannot be done:
// those before it stay done.
fn run_operations(
    matrix: &mut Matrix,
    c: Command,
    a: [u8; Command::PARAMETERS],
    right: u8,
) -> Option<bool>
    requires { Canonical rights matrix.old.kinds matrix.old.cells × OperationsApply a c }
    ensures { RanAs right matrix.old a c matrix.new (ran_told result) (c.operations ≡ 1) }
{
    let mut leaked = false;
    for j in 0..c.operations as usize {
        let operation = c.operation_at(j);
        if !operations::can_do(matrix, operation, a) {
            return None;
        }
        leaked = leaked | operations::enters_new(matrix, operation, a, right);
        operations::perform(matrix, operation, a);
    }
    Some(leaked)
}

// All operations, or none. A single one that cannot be done has changed nothing, so that no copy is kept for it.
fn run_all(matrix: &mut Matrix, c: Command, a: [u8; Command::PARAMETERS], right: u8) -> Option<bool>
    requires { Canonical rights matrix.old.kinds matrix.old.cells × OperationsApply a c }
    ensures { RanAs right matrix.old a c matrix.new (ran_told result) (Unit {0}) }
{
    if c.operations == 1 {
        return run_operations(matrix, c, a, right);
    }
    let kept = *matrix;
    let ran = run_operations(matrix, c, a, right);
    if ran.is_none() {
        *matrix = kept;
    }
    ran
}

// A command with actual parameters: all conditions are tested before the first operation; all operations are done, or none.
fn run_command(
    matrix: &mut Matrix,
    carriers: &[Set; Matrix::RIGHTS as usize],
    c: Command,
    a: [u8; Command::PARAMETERS],
    right: u8,
) -> Result<Done, Refusal>
    requires { Canonical rights matrix.old.kinds matrix.old.cells × Fits rights c }
    ensures { RunBy carriers.now right matrix.old c a (executed_of (answer_told result) matrix.new) }
{
    if !conditions::actuals_fit(c, a) {
        return Err(Refusal::Actuals);
    }
    if !conditions::conditions_hold(matrix, carriers, c, a) {
        return Err(Refusal::Conditions);
    }
    match run_all(matrix, c, a, right) {
        None => Err(Refusal::Operations),
        Some(false) => Ok(Done::NoLeak),
        Some(true) => Ok(Done::Leak),
    }
}

// One call of a command, on the lent matrix.
pub fn call(
    p: &Policy,
    matrix: &mut Matrix,
    command: u8,
    a: [u8; Command::PARAMETERS],
    right: u8,
) -> Result<Done, Refusal>
    requires { PolicyFits p.now × Canonical rights matrix.old.kinds matrix.old.cells }
    ensures { ExecutedAs right (outcome_of p.now matrix.old command a) matrix.old (executed_of (answer_told result) matrix.new) }
{
    if p.commands <= command {
        return Err(Refusal::NoCommand);
    }
    run_command(matrix, &p.carriers, p.command[command as usize], a, right)
}
