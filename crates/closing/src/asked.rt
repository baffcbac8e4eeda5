// What commands ask of the cells of their operation's own two parameters. In the closing search these have names, s and o, and a command that asks for a
// right which one of the four cells does not meet is passed by with all the others of that kind, as digits of one mask.
ghost use Rattle.std.specs.Prelude.{◌≡◌, ◌&&◌, ◌+◌, ◌*◌, ◌<◌, ltb, length};
ghost use Rattle.cases.specs.Cases.{pick};
ghost use Rattle.protection.specs.Limits.{names, rights, commands};
ghost use Rattle.masks.specs.Told.{raised};
ghost use Rattle.search.specs.Narrowing.{Says};
ghost use Rattle.commands.specs.Fits.{Fits};
ghost use Rattle.policy.specs.Fits.{PolicyFits};
ghost use Rattle.closing.specs.Asks.{side_of, AsksMarked, AskedBy, LackingIn, LackingAt, left_in};

use commands::Command;
use matrix::Matrix;
use policy::Policy;
use rights::Set;

// 0 for the operation's first parameter, 1 for its second, else 2.
fn side(b: u8, x: u8, y: u8) -> usize
    ensures { result ≡ side_of x y b }
{
    if b == x {
        return 0;
    }
    if b == y {
        return 1;
    }
    2
}

// Command number i asks for right q in the cell of sides a and b; a side of 2 is of neither.
fn mark(asks: &mut [u32; 4 * Matrix::RIGHTS as usize], i: usize, q: u8, a: usize, b: usize)
    requires { (length asks.old ≡ 4 * rights) × (i < commands) × (q < rights) }
    ensures { asks.new ≡ pick (ltb a 2 && ltb b 2) (raised asks.old (rights * (2 * a + b) + q) i) asks.old }
{
    if a < 2 && b < 2 {
        asks[Matrix::RIGHTS as usize * (2 * a + b) + q as usize] |= 1u32 << i;
    }
}

// What command c, number i, asks for.
fn mark_asks(asks: &mut [u32; 4 * Matrix::RIGHTS as usize], c: Command, i: usize)
    requires { (length asks.old ≡ 4 * rights) × Fits rights c × (i < commands) }
    ensures { AsksMarked c i asks.old asks.new }
{
    let n = c.conditions as usize;
    let x = c.operation[2];
    let y = c.operation[3];
    for j in 0..n {
        let q = c.condition[3 * j];
        let a = side(c.condition[3 * j + 1], x, y);
        let b = side(c.condition[3 * j + 2], x, y);
        mark(asks, i, q, a, b);
    }
}

// Digit i of element rights × k + q is set if command i asks for right q in cell k of the four.
pub fn asked_by(p: &Policy) -> [u32; 4 * Matrix::RIGHTS as usize]
    requires { PolicyFits p.now }
    ensures { AskedBy p.now result }
{
    let mut asks = [0u32; 4 * Matrix::RIGHTS as usize];
    for i in 0..p.commands as usize {
        mark_asks(&mut asks, p.command[i], i);
    }
    asks
}

// The commands that ask in cell k of the four for a right that no right in the cell, which is the set, carries.
fn lacking_in(
    asks: &[u32; 4 * Matrix::RIGHTS as usize],
    carriers: &[Set; Matrix::RIGHTS as usize],
    k: usize,
    set: Set,
) -> u32
    requires { k < 4 }
    ensures { LackingIn asks.now carriers.now k set result }
{
    let mut mask = 0u32;
    for q in 0..Matrix::RIGHTS as usize {
        if set & carriers[q] == 0 {
            mask |= asks[Matrix::RIGHTS as usize * k + q];
        }
    }
    mask
}

// Commands that ask in one of the four cells of s and o for a right that no right in it carries: all of them, or as many as leave none of the mask `which`.
pub fn lacking_at(
    asks: &[u32; 4 * Matrix::RIGHTS as usize],
    carriers: &[Set; Matrix::RIGHTS as usize],
    cells: &[Set; Matrix::NAMES * Matrix::NAMES],
    which: u32,
    s: usize,
    o: usize,
) -> u32
    requires { (s < names) × (o < names) }
    ensures { LackingAt asks.now carriers.now cells.now s o result }
{
    let cell = lacking_in(asks, carriers, 1, cells[Matrix::NAMES * s + o]);
    if left(which, cell) == 0 {
        return cell;
    }
    let row = cell | lacking_in(asks, carriers, 0, cells[Matrix::NAMES * s + s]);
    if left(which, row) == 0 {
        return row;
    }
    let column = row | lacking_in(asks, carriers, 3, cells[Matrix::NAMES * o + o]);
    if left(which, column) == 0 {
        return column;
    }
    column | lacking_in(asks, carriers, 2, cells[Matrix::NAMES * o + s])
}

// The commands of the mask that are not lacking.
pub fn left(which: u32, lacking: u32) -> u32
    ensures { Says result (left_in which lacking) }
{
    which & !lacking
}
