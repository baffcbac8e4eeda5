// The kinds and the cells of a file.
ghost use Rattle.std.specs.Prelude.{◌≡◌, ◌*◌, ◌≤◌, ◌<◌};
ghost use Rattle.cases.specs.Cases.{all};
ghost use Rattle.protection.specs.Limits.{names, rights};
ghost use Rattle.refusals.specs.Numbers.{code};
ghost use Rattle.matrix.specs.Refusals.{kind_fits, cell_fits, matrix_refusal};

use crate::Matrix;
use refusals::Refusal;

impl Matrix {
    fn kinds_fit(&self) -> bool
        ensures { result ≡ all (kind_fits self.now.kinds) names 0 }
    {
        self.kinds.iter().all(|kind| *kind <= 2)
    }

    fn cell_fits(&self, g: u8, c: usize) -> bool
        requires { (g ≤ rights) × (c < names * names) }
        ensures { result ≡ cell_fits g self.now.kinds self.now.cells c }
    {
        let cell = self.cells[c];
        // most are
        cell == 0
            || (rights::none_from(cell, g) && self.has_cell(c / Matrix::NAMES, c % Matrix::NAMES))
    }

    fn cells_fit(&self, g: u8) -> bool
        requires { g ≤ rights }
        ensures { result ≡ all (cell_fits g self.now.kinds self.now.cells) (names * names) 0 }
    {
        (0..self.cells.len()).all(|c| self.cell_fits(g, c))
    }

    // A file with g rights may hold the matrix.
    pub fn check(&self, g: u8) -> Result<(), Refusal>
        requires { g ≤ rights }
        ensures { code result ≡ matrix_refusal g self.now.kinds self.now.cells }
    {
        if !self.kinds_fit() {
            return Err(Refusal::KindByte);
        }
        if !self.cells_fit(g) {
            return Err(Refusal::CellRights);
        }
        Ok(())
    }
}
