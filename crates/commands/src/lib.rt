// A command (document 01: a rule) and its reader.
#![tactic(auto)]

ghost use Rattle.std.specs.Prelude.{◌≡◌, ◌⊎◌, ◌+◌, ◌*◌, ◌≤◌, ◌<◌, length, IfOk};
ghost use Rattle.protection.specs.Limits.{rights, conditions, operations};
ghost use Rattle.cases.specs.Cases.{all, tabulate};
ghost use Rattle.refusals.specs.Numbers.{code};
ghost use Rattle.protection.specs.Command.{in_conditions, in_operations, named};
ghost use Rattle.layout.specs.File.{byte};
ghost use Rattle.commands.specs.Refusals.{condition_fits, operation_fits, condition_fits_at, operation_fits_at, command_refusal};
ghost use Rattle.commands.specs.Steps.{StepRead, on_cell, on_name};
ghost use Rattle.commands.specs.Fits.{Fits};
ghost use Rattle.commands.specs.Contents.{no_command, command_of, condition_of, operation_at, step_of, step_told, operations_of, operations_from, meaning};

use matrix::Matrix;
use refusals::Refusal;

// How many parameters, conditions and operations there are, and their bytes as in the file: 3 for a condition, 4 for an operation.
#[derive(Clone, Copy)]
pub struct Command {
    pub parameters: u8,
    pub conditions: u8,
    pub operations: u8,
    pub condition: [u8; 3 * Command::CONDITIONS],
    pub operation: [u8; 4 * Command::OPERATIONS],
}

impl Command {
    pub const PARAMETERS: usize = 4;

    pub const CONDITIONS: usize = 4;

    pub const OPERATIONS: usize = 6;

    // An actual in a position that the command does not use.
    pub const UNUSED: u8 = 255;

    pub fn none() -> Self
        ensures { result ≡ no_command }
    {
        Command {
            parameters: 0,
            conditions: 0,
            operations: 0,
            condition: [0u8; 3 * Command::CONDITIONS],
            operation: [0u8; 4 * Command::OPERATIONS],
        }
    }
}

// The condition at a place of the section names a right below g and parameters of the command.
fn condition_fits(part: &[u8], g: u8, at: usize) -> bool
    requires { at + 3 ≤ length part.now }
    ensures { result ≡ condition_fits g part.now at }
{
    let k = part[0];
    part[at] < g && part[at + 1] < k && part[at + 2] < k
}

fn conditions_fit(part: &[u8], g: u8, count: usize) -> bool
    requires { (count ≤ conditions) × (3 + 3 * count ≤ length part.now) }
    ensures { result ≡ all (condition_fits_at g part.now) count 0 }
{
    (0..count).all(|j| condition_fits(part, g, 3 + 3 * j))
}

// The six primitive operations; the numbers are a right and parameters.
#[derive(Clone, Copy)]
pub enum Operation {
    Enter { right: u8, subject: u8, object: u8 },
    Delete { right: u8, subject: u8, object: u8 },
    CreateSubject(u8),
    CreateObject(u8),
    DestroySubject(u8),
    DestroyObject(u8),
}

// A step's four bytes, in a command of k parameters and a file of g rights: the operation, unless the step is refused, by 9.
fn read_step(kind: u8, right: u8, first: u8, second: u8, k: u8, g: u8) -> Option<Operation>
    ensures enter { kind ≡ 1 → step_told result ≡ on_cell k g right first second (StepRead.Enter right first second) }
    ensures delete { kind ≡ 2 → step_told result ≡ on_cell k g right first second (StepRead.Delete right first second) }
    ensures create_subject { kind ≡ 3 → step_told result ≡ on_name k right first second (StepRead.CreateSubject first) }
    ensures create_object { kind ≡ 4 → step_told result ≡ on_name k right first second (StepRead.CreateObject first) }
    ensures destroy_subject { kind ≡ 5 → step_told result ≡ on_name k right first second (StepRead.DestroySubject first) }
    ensures destroy_object { kind ≡ 6 → step_told result ≡ on_name k right first second (StepRead.DestroyObject first) }
    ensures any_other { (kind < 1) ⊎ (6 < kind) → step_told result ≡ StepRead.Refused }
{
    let on_cell = right < g && first < k && second < k;
    let on_name = right == 0 && first < k && second == 0;
    match kind {
        1 if on_cell => Some(Operation::Enter {
            right,
            subject: first,
            object: second,
        }),
        2 if on_cell => Some(Operation::Delete {
            right,
            subject: first,
            object: second,
        }),
        3 if on_name => Some(Operation::CreateSubject(first)),
        4 if on_name => Some(Operation::CreateObject(first)),
        5 if on_name => Some(Operation::DestroySubject(first)),
        6 if on_name => Some(Operation::DestroyObject(first)),
        _ => None,
    }
}

// The reader does not refuse the step at a place of the section.
fn operation_fits(part: &[u8], g: u8, at: usize) -> bool
    requires { at + 4 ≤ length part.now }
    ensures { result ≡ operation_fits g part.now at }
{
    read_step(
        part[at],
        part[at + 1],
        part[at + 2],
        part[at + 3],
        part[0],
        g,
    )
    .is_some()
}

// The reader refuses none of the steps that stand from a place of the section on.
fn operations_fit(part: &[u8], g: u8, from: usize, count: usize) -> bool
    requires { (count ≤ operations) × (from + 4 * count ≤ length part.now) }
    ensures { result ≡ all (operation_fits_at g part.now from) count 0 }
{
    (0..count).all(|j| operation_fits(part, g, from + 4 * j))
}

// The section of a command fits: its length, how many parameters, conditions and operations there are, and each of these.
fn check_command(part: &[u8], g: u8) -> Result<(), Refusal>
    ensures { code result ≡ command_refusal g part.now }
{
    if part.len() < 3 {
        return Err(Refusal::SectionLength);
    }
    let k = part[0] as usize;
    if k < 1 || Command::PARAMETERS < k {
        return Err(Refusal::CommandCounts);
    }
    let c = part[1] as usize;
    if Command::CONDITIONS < c {
        return Err(Refusal::CommandCounts);
    }
    let m = part[2] as usize;
    if m < 1 || Command::OPERATIONS < m {
        return Err(Refusal::CommandCounts);
    }
    let mid = 3 + 3 * c;
    if part.len() != mid + 4 * m {
        return Err(Refusal::SectionLength);
    }
    if !conditions_fit(part, g, c) || !operations_fit(part, g, mid, m) {
        return Err(Refusal::CommandParts);
    }
    Ok(())
}

fn command_of(part: &[u8]) -> Command
    requires { (byte part.now 1 ≤ conditions) × (byte part.now 2 ≤ operations) × (length part.now ≡ 3 + 3 * byte part.now 1 + 4 * byte part.now 2) }
    ensures { result ≡ command_of part.now }
{
    let (conditions, operations) = part[3..].split_at(3 * (part[1] as usize));
    let mut condition = [0u8; 3 * Command::CONDITIONS];
    condition[..conditions.len()].copy_from_slice(conditions);
    let mut operation = [0u8; 4 * Command::OPERATIONS];
    operation[..operations.len()].copy_from_slice(operations);
    Command {
        parameters: part[0],
        conditions: part[1],
        operations: part[2],
        condition,
        operation,
    }
}

// The command in its section, with g rights; or why it is refused.
pub fn read_command(part: &[u8], g: u8) -> Result<Command, Refusal>
    ensures refused { code result ≡ command_refusal g part.now }
    ensures read { IfOk result (λ c. c ≡ command_of part.now) }
{
    check_command(part, g)?;
    Ok(command_of(part))
}

impl Command {
    // What the reader says of step number j.
    fn step_at(self, j: usize) -> Option<Operation>
        requires { j < operations }
        ensures { step_told result ≡ operation_at self j }
    {
        let kind = self.operation[4 * j];
        let right = self.operation[4 * j + 1];
        let first = self.operation[4 * j + 2];
        let second = self.operation[4 * j + 3];
        read_step(kind, right, first, second, self.parameters, Matrix::RIGHTS)
    }

    // Operation number j.
    pub fn operation_at(self, j: usize) -> Operation
        requires { Fits rights self × (j < self.operations) }
        ensures { step_of result ≡ operation_at self j }
    {
        self.step_at(j).unwrap()
    }
}

// The step names parameter b.
fn step_names(step: Option<Operation>, b: u8) -> bool
    ensures { result ≡ in_operations b (operations_of (step_told step)) }
{
    match step {
        Some(
            Operation::Enter {
                right: _,
                subject,
                object,
            }
            | Operation::Delete {
                right: _,
                subject,
                object,
            },
        ) => b == subject || b == object,
        Some(
            Operation::CreateSubject(x)
            | Operation::CreateObject(x)
            | Operation::DestroySubject(x)
            | Operation::DestroyObject(x),
        ) => b == x,
        None => false,
    }
}

impl Command {
    fn in_conditions(self, b: u8) -> bool
        requires { self.conditions ≤ conditions }
        ensures { result ≡ in_conditions b (tabulate (condition_of self) self.conditions 0) }
    {
        (0..self.conditions as usize).any(|j| b == self.condition[3 * j + 1]
            || b == self.condition[3 * j + 2])
    }

    fn in_operations(self, b: u8) -> bool
        requires { self.operations ≤ operations }
        ensures { result ≡ in_operations b (operations_from self self.operations 0) }
    {
        (0..self.operations as usize).any(|j| step_names(self.step_at(j), b))
    }

    // A condition or an operation names parameter b.
    pub fn names(self, b: u8) -> bool
        requires { (self.conditions ≤ conditions) × (self.operations ≤ operations) }
        ensures { result ≡ named (meaning self) b }
    {
        self.in_conditions(b) || self.in_operations(b)
    }
}
