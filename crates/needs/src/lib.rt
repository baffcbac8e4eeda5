// What a press needs (document 02, C-14): the judge's steps up to the first matrix that holds all cells of a list; refusal 41.
#![tactic(auto)]

ghost use Rattle.std.specs.Prelude.{◌≡◌, [], ◌+◌, ◌*◌, ◌/◌, ◌≤◌, length, get_or};
ghost use Rattle.cases.specs.Cases.{tabulate};
ghost use Rattle.protection.specs.Limits.{names};
ghost use Rattle.refusals.specs.Numbers.{code};
ghost use Rattle.matrix.specs.Bytes.{view};
ghost use Rattle.matrix.specs.Matrices.{state_of};
ghost use Rattle.masks.specs.Told.{ToldBy};
ghost use Rattle.policy.specs.Contents.{system_of};
ghost use Rattle.policy.specs.Fits.{PolicyFits};
ghost use Rattle.goals.specs.Goals.{cell_limit, needed_at, held_goal};
ghost use Rattle.questions.specs.Rounded.{BasisOf};
ghost use Rattle.visits.specs.Engine.{Asked};
ghost use Rattle.needs.specs.Needed.{cell_taken, cells_taken, list_refusal, needed_told, need_told, Needed};
ghost use Rattle.needs.specs.Rounds.{NeedRounded};

use goals::Goal;
use masks::Tables;
use matrix::Matrix;
use policy::Policy;
use questions::Basis;
use refusals::Refusal;

// Whether all cells are held at some moment, with the number of steps written.
#[derive(Clone, Copy)]
pub enum Need {
    Held(usize),
    Never(usize),
}

// The kind of a name; a name above 31 is absent.
fn kind_of(kinds: &[u8; Matrix::NAMES], x: u8) -> u8
    requires { length kinds.now ≡ names }
    ensures { result ≡ get_or kinds.now x 0 }
{
    kinds.get(x as usize).copied().unwrap_or(0)
}

// Cell j of the list is of a right below g, a subject and a name that exists.
fn cell_taken<'a>(g: u8, kinds: &'a [u8; Matrix::NAMES], list: &'a [u8], j: usize) -> bool
    requires { (length kinds.now ≡ names) × (3 * j + 3 ≤ length list.now) }
    ensures { result ≡ cell_taken g (view kinds.now []) (needed_at list.now j) }
{
    let at = 3 * j;
    list[at] < g
        && matrix::is_subject(kind_of(kinds, list[at + 1]))
        && matrix::is_object(kind_of(kinds, list[at + 2]))
}

// So are the first n cells.
fn cells_taken<'a>(g: u8, kinds: &'a [u8; Matrix::NAMES], list: &'a [u8], n: usize) -> bool
    requires { (length kinds.now ≡ names) × (3 * n ≤ length list.now) }
    ensures { result ≡ cells_taken g (view kinds.now []) (tabulate (needed_at list.now) n 0) }
{
    (0..n).all(|j| cell_taken(g, kinds, list, j))
}

// The list may be asked for: refusal 41.
fn check_list(p: &Policy, list: &[u8]) -> Result<(), Refusal>
    requires { PolicyFits p.now }
    ensures { code result ≡ list_refusal (system_of p.now) (state_of p.now.matrix) list.now }
{
    let count = list.len() / 3;
    if list.len() % 3 != 0 {
        return Err(Refusal::NeededCells);
    }
    if Goal::CELLS < count {
        return Err(Refusal::NeededCells);
    }
    if !cells_taken(p.rights, &p.matrix.kinds, list, count) {
        return Err(Refusal::NeededCells);
    }
    Ok(())
}

// The matrix as tables. The copies made in building them lie on the stack before the rounds, and not beside them.
#[inline(never)]
fn tables_of(p: &Policy) -> Tables
    ensures { ToldBy p.now.carried p.now.matrix.cells result }
{
    Tables::build(&p.matrix.cells, &p.carried)
}

// The rounds, on a copy of the state.
fn needed(p: &Policy, basis: &Basis, list: &[u8], buffer: &mut [u8]) -> Need
    requires { Asked p.now (held_goal list.now) (length buffer.old) × (length list.now ≤ 3 * cell_limit) × BasisOf p.now basis.now }
    ensures { NeedRounded p.now list.now buffer.old (needed_told result) buffer.new }
{
    let tables = tables_of(p);
    let course = questions::all_rounds(p, Goal::held(list), basis, &tables, buffer);
    if course.ended {
        return Need::Held(course.steps);
    }
    Need::Never(course.steps)
}

// Can all cells of the list be held at the same moment? The steps go to the front of the buffer.
pub fn need_file(file: &[u8], list: &[u8], buffer: &mut [u8]) -> Result<Need, Refusal>
    ensures { Needed file.now list.now buffer.old (need_told result) buffer.new }
{
    let p = policy::read_policy(file)?;
    let basis = questions::basis_of(&p);
    questions::check_size(&basis, buffer.len())?;
    check_list(&p, list)?;
    Ok(needed(&p, &basis, list, buffer))
}
