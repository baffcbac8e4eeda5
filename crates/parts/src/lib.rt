// Trusted hands left out (document 02, C-15): the judge of the part that stays when the names of a list are dropped; refusal 42.
#![tactic(auto)]

ghost use Rattle.std.specs.Prelude.{◌≡◌, [], ◌<◌, length, IfOk};
ghost use Rattle.rights.specs.Rights.{has, insert};
ghost use Rattle.protection.specs.Limits.{names};
ghost use Rattle.matrix.specs.Bytes.{view};
ghost use Rattle.goals.specs.Goals.{leak_goal};
ghost use Rattle.visits.specs.Engine.{Asked};
ghost use Rattle.safety.specs.Conclusion.{Concluded};
ghost use Rattle.safety.specs.Demand3.{verdict_told, judgement_told};
ghost use Rattle.refusals.specs.Numbers.{code};
ghost use Rattle.parts.specs.Parts.{can_leave, trusted_refusal, PartJudged};
ghost use Rattle.parts.specs.Dropped.{mask_of, drop_at, dropped, part_of};

use masks::Tables;
use matrix::Matrix;
use policy::Policy;
use refusals::Refusal;
use safety::Verdict;

// Name x exists, and is none of the mask.
fn can_leave(kinds: &[u8; Matrix::NAMES], mask: u32, x: u8) -> bool
    ensures { result ≡ can_leave (view kinds.now []) (has mask) x }
{
    let at = x as usize;
    at < Matrix::NAMES && (mask >> at) % 2 == 0 && matrix::is_object(kinds[at])
}

// The mask with name x.
fn with_name(mask: u32, x: u8) -> u32
    requires { x < names }
    ensures { result ≡ insert mask x }
{
    mask | (1u32 << x)
}

// The list, a byte a name, as digits of a mask; refusal 42.
fn read_trusted(kinds: &[u8; Matrix::NAMES], list: &[u8]) -> Result<u32, Refusal>
    ensures refused { code result ≡ trusted_refusal (view kinds.now []) list.now }
    ensures read { IfOk result (λ mask. mask ≡ mask_of list.now (length list.now)) }
{
    let mut mask = 0u32;
    for x in list {
        if !can_leave(kinds, mask, *x) {
            return Err(Refusal::TrustedNames);
        }
        mask = with_name(mask, *x);
    }
    Ok(mask)
}

// Name x is dropped with its row and column, if it is one of the mask.
fn drop_at(matrix: &mut Matrix, mask: u32, x: usize)
    requires { x < names }
    ensures { matrix.new ≡ drop_at mask x matrix.old }
{
    if (mask >> x) % 2 == 1 {
        matrix.renew(x, 0);
    }
}

// All names of the mask are dropped.
fn drop_names(matrix: &mut Matrix, mask: u32)
    ensures { matrix.new ≡ dropped matrix.old mask }
{
    for x in 0..Matrix::NAMES {
        drop_at(matrix, mask, x);
    }
}

// The policy with the part's matrix.
fn part_of(p: &Policy, mask: u32) -> Policy
    ensures { result ≡ part_of p.now mask }
{
    let mut matrix = p.matrix;
    drop_names(&mut matrix, mask);
    Policy { matrix, ..*p }
}

// The judge of the part.
fn judge_without(p: &Policy, mask: u32, right: u8, buffer: &mut [u8]) -> Verdict
    requires { Asked (part_of p.now mask) (leak_goal mask right) (length buffer.old) × (right < p.now.rights) }
    ensures { Concluded (part_of p.now mask) mask right buffer.old (verdict_told result) buffer.new }
{
    let part = part_of(p, mask);
    let basis = questions::basis_of(&part);
    let tables = Tables::build(&part.matrix.cells, &part.carried);
    safety::judge(&part, &basis, &tables, mask, right, buffer)
}

// Can the right ever come into a cell that lacks it, if the names on the list do nothing? The steps go to the front of the buffer.
pub fn judge_part(
    file: &[u8],
    right: u8,
    list: &[u8],
    buffer: &mut [u8],
) -> Result<Verdict, Refusal>
    ensures { PartJudged file.now right list.now buffer.old (judgement_told result) buffer.new }
{
    let p = policy::read_policy(file)?;
    let basis = questions::basis_of(&p);
    safety::check_caller(&p, &basis, right, buffer.len())?;
    let mask = read_trusted(&p.matrix.kinds, list)?;
    Ok(judge_without(&p, mask, right, buffer))
}
