// Running a command on the lent file.
#![tactic(auto)]

ghost use Rattle.std.specs.Prelude.{◌≡◌, ◌+◌, ◌*◌, ◌≤◌, length};
ghost use Rattle.rights.specs.Bytes.{set_bytes, bytes_of};
ghost use Rattle.protection.specs.Limits.{rights};
ghost use Rattle.refusals.specs.Numbers.{code};
ghost use Rattle.matrix.specs.Canonical.{Canonical};
ghost use Rattle.matrix.specs.Matrices.{state_of};
ghost use Rattle.policy.specs.Contents.{over, written};
ghost use Rattle.policy.specs.Layout.{MatrixInside};
ghost use Rattle.update.specs.Files.{FileRun};

use matrix::Matrix;
use refusals::Refusal;
use rights::Set;

// The bytes in the place of those that stand from a place on.
fn store_at(file: &mut [u8], at: usize, s: &[u8])
    requires { at + length s.now ≤ length file.old }
    ensures { file.new ≡ over file.old at s.now }
{
    let end = at + s.len();
    file[at..end].copy_from_slice(s);
}

// The sets' bytes in the place of those that stand from a place on.
fn store_sets(file: &mut [u8], at: usize, sets: &[Set])
    requires { at + set_bytes * length sets.now ≤ length file.old }
    ensures { file.new ≡ over file.old at (bytes_of sets.now) }
{
    let end = at + rights::bytes::SIZE * sets.len();
    rights::bytes::write_sets(sets, &mut file[at..end]);
}

// The matrix written into the file.
fn store(file: &mut [u8], matrix: &Matrix)
    requires { MatrixInside file.old × Canonical rights matrix.now.kinds matrix.now.cells }
    ensures { file.new ≡ written file.old (state_of matrix.now) }
{
    let k = layout::word_at(file, 2);
    let c = layout::word_at(file, 6);
    store_at(file, k, &matrix.kinds);
    store_sets(file, c, &matrix.cells);
}

// Runs a command on the file; a refusal leaves the file as it was.
pub fn run(file: &mut [u8], command: u8, a0: u8, a1: u8, a2: u8, a3: u8) -> Result<(), Refusal>
    ensures { FileRun file.old (record { command = command; a0 = a0; a1 = a1; a2 = a2; a3 = a3 }) (code result) file.new }
{
    let p = policy::read_policy(file)?;
    let mut matrix = p.matrix;
    execution::call(&p, &mut matrix, command, [a0, a1, a2, a3], 0)?;
    store(file, &matrix);
    Ok(())
}
