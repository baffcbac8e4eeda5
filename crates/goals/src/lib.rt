// What ends the rounds: an enter of a judged right, or a matrix that holds all cells of a list (document 02, C-14).
#![tactic(auto)]

ghost use Rattle.std.specs.Prelude.{◌≡◌, ◌*◌, ◌≤◌, length};
ghost use Rattle.protection.specs.Need.{holds_all};
ghost use Rattle.matrix.specs.Bytes.{view, rights_in};
ghost use Rattle.goals.specs.Goals.{cell_limit, CellFits, NeededFits, GoalFits, needed_at, needed_in, leak_goal, held_goal, question_of, ends_by};

use matrix::Matrix;

// Cells of a list, three bytes each: the first `count` of them are needed.
#[derive(Clone, Copy)]
pub struct Needed {
    pub count: usize,
    pub cells: [u8; 3 * Goal::CELLS],
}

// An enter of a right, or a matrix that holds all cells of a list.
#[derive(Clone, Copy)]
pub enum End {
    Leak(u8),
    Held(Needed),
}

// What ends the rounds; and names, as digits of a mask, that a create may not take.
#[derive(Clone, Copy)]
pub struct Goal {
    pub end: End,
    pub reserved: u32,
}

impl Goal {
    // Cells that a press may need.
    pub const CELLS: usize = 8;

    // An enter of the right ends the rounds.
    pub fn leak(reserved: u32, right: u8) -> Self
        ensures { result ≡ leak_goal reserved right }
    {
        Goal {
            end: End::Leak(right),
            reserved,
        }
    }

    // A matrix that holds all cells of the list ends them.
    pub fn held(list: &[u8]) -> Self
        requires { length list.now ≤ 3 * cell_limit }
        ensures { result ≡ held_goal list.now }
    {
        let mut cells = [0u8; 3 * Goal::CELLS];
        cells[..list.len()].copy_from_slice(list);
        Goal {
            end: End::Held(Needed {
                count: list.len() / 3,
                cells,
            }),
            reserved: 0,
        }
    }
}

// Cell j of the list is held.
fn cell_held(list: &[u8; 3 * Goal::CELLS], j: usize, matrix: &Matrix) -> bool
    requires { CellFits list.now j }
    ensures { result ≡ rights_in matrix.now.kinds matrix.now.cells (needed_at list.now j).subject (needed_at list.now j).object (needed_at list.now j).right }
{
    let at = 3 * j;
    let q = list[at];
    let s = list[at + 1] as usize;
    let o = list[at + 2] as usize;
    operations::cell_holds(matrix, q, s, o)
}

// All cells of the list are held.
fn all_held(needed: Needed, matrix: &Matrix) -> bool
    requires { NeededFits needed }
    ensures { result ≡ holds_all (needed_in needed) (view matrix.now.kinds matrix.now.cells) }
{
    (0..needed.count).all(|j| cell_held(&needed.cells, j, matrix))
}

// The rounds are ended before their first step: the start holds all that is needed.
pub fn at_start(goal: Goal, matrix: &Matrix) -> bool
    requires { GoalFits goal }
    ensures { result ≡ (question_of goal).at_start (view matrix.now.kinds matrix.now.cells) }
{
    match goal.end {
        End::Leak(_) => false,
        End::Held(needed) => all_held(needed, matrix),
    }
}

// An enter of q into a cell that lacked it, which left this matrix, ends the rounds.
pub fn ended(goal: Goal, q: u8, matrix: &Matrix) -> bool
    requires { GoalFits goal }
    ensures { result ≡ ends_by goal q (view matrix.now.kinds matrix.now.cells) }
{
    match goal.end {
        End::Leak(right) => q == right,
        End::Held(needed) => all_held(needed, matrix),
    }
}
