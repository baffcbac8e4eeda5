// The whole file: its matrix, what its rights carry and its commands, read or refused (document 01, refusals 1 to 9; document 02, C-19, 44).
#![tactic(auto)]

ghost use Rattle.std.specs.Prelude.{◌≡◌, ◌+◌, ◌<◌, get_or, IfOk};
ghost use Rattle.protection.specs.Limits.{commands};
ghost use Rattle.refusals.specs.Numbers.{code};
ghost use Rattle.layout.specs.File.{rights_of, section, carries_in, fixed_pairs, command_in};
ghost use Rattle.commands.specs.Contents.{missing, command_of};
ghost use Rattle.commands.specs.Refusals.{command_refusal};
ghost use Rattle.policy.specs.Refusals.{commands_refusal, refusal};
ghost use Rattle.policy.specs.Contents.{matrix_in, command_table, policy_of};
ghost use Rattle.policy.specs.Layout.{SectionInside, MatrixInside, CommandsInside};

use commands::Command;
use matrix::Matrix;
use refusals::Refusal;
use rights::Set;

// How many rights and commands there are, the matrix, and the commands; places behind the last command hold none. Of each right, what the file says that it
// carries, and through further rights the set of those that it carries and of those that carry it.
#[derive(Clone, Copy)]
pub struct Policy {
    pub rights: u8,
    pub commands: u8,
    pub matrix: Matrix,
    pub carries: [Set; Matrix::RIGHTS as usize],
    pub carried: [Set; Matrix::RIGHTS as usize],
    pub carriers: [Set; Matrix::RIGHTS as usize],
    pub command: [Command; Policy::COMMANDS],
}

impl Policy {
    pub const COMMANDS: usize = layout::COMMANDS;

    // Command number i.
    pub fn command_at(&self, i: usize) -> Command
        requires { i < commands }
        ensures { result ≡ get_or self.now.command i missing }
    {
        self.command[i]
    }
}

// Section number i of the file.
fn section(file: &[u8], i: usize) -> &[u8]
    requires { SectionInside file.now i }
    ensures { result.now ≡ section file.now i }
{
    let start = layout::word_at(file, 2 + 4 * i);
    let length = layout::word_at(file, 2 + 4 * i + 2);
    &file[start..start + length]
}

// The kinds and the cells.
fn matrix_of(file: &[u8]) -> Matrix
    requires { MatrixInside file.now }
    ensures { result ≡ matrix_in file.now }
{
    let mut matrix = Matrix::empty();
    matrix.kinds.copy_from_slice(section(file, 0));
    // a length that the compiler knows, so that the bytes are copied at once
    let cells = &section(file, 1)[..rights::bytes::SIZE * (Matrix::NAMES * Matrix::NAMES)];
    rights::bytes::read_sets(cells, &mut matrix.cells);
    matrix
}

// The carries, in front of empty sets.
fn carries_of(file: &[u8]) -> [Set; Matrix::RIGHTS as usize]
    requires { SectionInside file.now 2 }
    ensures { result ≡ carries_in file.now }
{
    let mut carries = [rights::NONE; Matrix::RIGHTS as usize];
    rights::bytes::read_sets(section(file, 2), &mut carries);
    carries
}

// Command number i, read from its own part of the file and no more.
fn read_at(file: &[u8], g: u8, i: usize) -> Result<Command, Refusal>
    requires { SectionInside file.now (fixed_pairs + i) }
    ensures refused { code result ≡ command_refusal g (command_in file.now i) }
    ensures read { IfOk result (λ c. c ≡ command_of (command_in file.now i)) }
{
    commands::read_command(section(file, layout::FIXED + i), g)
}

// The commands, or the first refusal among them.
fn read_commands(file: &[u8], g: u8, count: usize) -> Result<[Command; Policy::COMMANDS], Refusal>
    requires { (g ≡ rights_of file.now) × CommandsInside file.now count }
    ensures refused { code result ≡ commands_refusal file.now count 0 }
    ensures read { IfOk result (λ all. all ≡ command_table file.now count) }
{
    let mut all = [Command::none(); Policy::COMMANDS];
    for i in 0..count {
        all[i] = read_at(file, g, i)?;
    }
    Ok(all)
}

// What the file says, or why it is refused.
#[tactic(auto, using(crate::proofs::Policies::header_fits))]
pub fn read_policy(file: &[u8]) -> Result<Policy, Refusal>
    ensures refused { code result ≡ refusal file.now }
    ensures read { IfOk result (λ p. p ≡ policy_of file.now) }
{
    layout::check_header(file)?;
    let g = file[0];
    let n = file[1] as usize;
    layout::check_pairs(file, n)?;
    layout::check_sizes(file, g)?;
    let matrix = matrix_of(file);
    matrix.check(g)?;
    let carries = carries_of(file);
    carries::check(g, carries)?;
    let command = read_commands(file, g, n - layout::FIXED)?;
    let carried = carries::carried(g, carries);
    let carriers = carries::carriers(carried);
    Ok(Policy {
        rights: g,
        commands: (n - layout::FIXED) as u8,
        matrix,
        carries,
        carried,
        carriers,
        command,
    })
}
