// Rights that carry others (document 02, C-19): refusal 44, and carrying through further rights, computed once for a file.
// Of each right the set of rights that it carries, or of those that carry it.
#![tactic(auto)]

ghost use Rattle.std.specs.Prelude.{◌≡◌, List, ℕ, suc, ◌≤◌, ◌<◌, get_or};
ghost use Rattle.rights.specs.Rights.{has, number};
ghost use Rattle.protection.specs.Limits.{rights};
ghost use Rattle.refusals.specs.Numbers.{code};
ghost use Rattle.protection.specs.Carrying.{chained};
ghost use Rattle.carries.specs.Bytes.{carried_in};
ghost use Rattle.carries.specs.Refusals.{carries_refusal};
ghost use Rattle.carries.specs.Closed.{ends_of, carried_of, carriers_of};

use matrix::Matrix;
use refusals::Refusal;
use rights::Set;

// Of g rights none carries a further one.
pub fn check(g: u8, carries: [Set; Matrix::RIGHTS as usize]) -> Result<(), Refusal>
    requires { g ≤ rights }
    ensures { code result ≡ carries_refusal g carries }
{
    if !(0..g).all(|right| rights::none_from(carries[right as usize], g)) {
        return Err(Refusal::CarriedRights);
    }
    Ok(())
}

// Each right alone: the ends of chains of no link.
fn alone() -> [Set; Matrix::RIGHTS as usize]
    ensures { (g : ℕ) (l : List ℕ) → result ≡ ends_of g l 0 }
{
    std::array::from_fn(|i| rights::with_right(rights::NONE, i as u8))
}

// The ends of the chains from right i that have one link more than those whose ends are given.
fn further(
    g: u8,
    carries: [Set; Matrix::RIGHTS as usize],
    ends: [Set; Matrix::RIGHTS as usize],
    i: u8,
) -> Set
    requires { (g ≤ rights) × (i < g) }
    ensures { (n : ℕ) → ends ≡ ends_of g carries n → result ≡ number (chained g (carried_in carries) (suc n) i) rights }
{
    let links = carries[i as usize];
    let mut set = rights::with_right(rights::NONE, i);
    for j in 0..g {
        if rights::holds(links, j) {
            set |= ends[j as usize];
        }
    }
    set
}

fn one_more(
    g: u8,
    carries: [Set; Matrix::RIGHTS as usize],
    ends: [Set; Matrix::RIGHTS as usize],
) -> [Set; Matrix::RIGHTS as usize]
    requires { g ≤ rights }
    ensures { (n : ℕ) → ends ≡ ends_of g carries n → result ≡ ends_of g carries (suc n) }
{
    let mut next = ends;
    for i in 0..g {
        next[i as usize] = further(g, carries, ends, i);
    }
    next
}

// Of each right, those that it carries.
pub fn carried(g: u8, carries: [Set; Matrix::RIGHTS as usize]) -> [Set; Matrix::RIGHTS as usize]
    requires { g ≤ rights }
    ensures { result ≡ carried_of g carries }
{
    let mut ends = alone();
    for _ in 0..g {
        let next = one_more(g, carries, ends);
        ends = next;
    }
    ends
}

// The rights whose set has right q.
fn holders(sets: [Set; Matrix::RIGHTS as usize], q: u8) -> Set
    requires { q < rights }
    ensures { result ≡ number (λ i. has (get_or sets i 0) q) rights }
{
    let mut set = rights::NONE;
    for i in 0..Matrix::RIGHTS {
        if rights::holds(sets[i as usize], q) {
            set = rights::with_right(set, i);
        }
    }
    set
}

// Of each right, those that carry it, given those that each carries.
pub fn carriers(carried: [Set; Matrix::RIGHTS as usize]) -> [Set; Matrix::RIGHTS as usize]
    ensures { (g : ℕ) (l : List ℕ) → carried ≡ carried_of g l → result ≡ carriers_of g l }
{
    std::array::from_fn(|q| holders(carried, q as u8))
}
