// The access matrix as a struct by value.
#![tactic(auto)]

ghost use Rattle.std.specs.Prelude.{◌≡◌, ◌<◌};
ghost use Rattle.protection.specs.Limits.{names, rights};
ghost use Rattle.protection.specs.State.{is_object, is_subject};
ghost use Rattle.matrix.specs.Bytes.{kind_of, inside};
ghost use Rattle.matrix.specs.Matrices.{empty_matrix, entered, deleted, renewed};

use rights::Set;

pub mod cells;

// Document 01: "the kinds with all cells, held as one thing". Cell (s, o) stands at 32 × s + o. A kind is the file's byte and no enum: `view` reads any byte, 6 refuses
// some, and a rule run writes them back as they are.
#[derive(Clone, Copy)]
pub struct Matrix {
    pub kinds: [u8; Matrix::NAMES],
    pub cells: [Set; Matrix::NAMES * Matrix::NAMES],
}

impl Matrix {
    // Names are the numbers below this.
    pub const NAMES: usize = 32;

    // Rights are the numbers below g, which is at most this.
    pub const RIGHTS: u8 = 12;

    // Names that may exist where a verdict is asked for.
    pub const START: usize = 30;

    // No name exists.
    pub fn empty() -> Self
        ensures { result ≡ empty_matrix }
    {
        Matrix {
            kinds: [0u8; Matrix::NAMES],
            cells: [rights::NONE; Matrix::NAMES * Matrix::NAMES],
        }
    }

    // The matrix without right q in the cell (s, o); `delete` does it in place.
    pub fn without_right(mut self, q: u8, s: usize, o: usize) -> Self
        requires { (q < rights) × (s < names) × (o < names) }
        ensures { result ≡ deleted self q s o }
    {
        self.delete(q, s, o);
        self
    }

    // Right q is put into the cell (s, o).
    pub fn enter(&mut self, q: u8, s: usize, o: usize)
        requires { (q < rights) × (s < names) × (o < names) }
        ensures { self.new ≡ entered self.old q s o }
    {
        let at = Matrix::NAMES * s + o;
        self.cells[at] = rights::with_right(self.cells[at], q);
    }

    // Right q is taken out of the cell (s, o). A parameter that tells the two apart would be no plainer than three lines.
    pub fn delete(&mut self, q: u8, s: usize, o: usize)
        requires { (q < rights) × (s < names) × (o < names) }
        ensures { self.new ≡ deleted self.old q s o }
    {
        let at = Matrix::NAMES * s + o;
        self.cells[at] = rights::without_right(self.cells[at], q);
    }

    // Name n gets a kind, and an empty row and column.
    pub fn renew(&mut self, n: usize, kind: u8)
        requires { n < names }
        ensures { self.new ≡ renewed self.old n kind }
    {
        for j in 0..Matrix::NAMES {
            self.cells[Matrix::NAMES * n + j] = 0;
            self.cells[Matrix::NAMES * j + n] = 0;
        }
        self.kinds[n] = kind;
    }

    // The cell (s, o) has a row and a column.
    pub fn has_cell(&self, s: usize, o: usize) -> bool
        requires { (s < names) × (o < names) }
        ensures { result ≡ inside self.now.kinds s o }
    {
        is_subject(self.kinds[s]) && is_object(self.kinds[o])
    }
}

// A kind's byte is a subject's.
pub fn is_subject(kind: u8) -> bool
    ensures { result ≡ is_subject (kind_of kind) }
{
    1 < kind
}

// A kind's byte is that of a name that exists.
pub fn is_object(kind: u8) -> bool
    ensures { result ≡ is_object (kind_of kind) }
{
    0 < kind
}
