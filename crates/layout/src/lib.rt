// Where a file holds what: its first bytes and its table of pairs.
#![tactic(auto)]

ghost use Rattle.std.specs.Prelude.{◌≡◌, ◌+◌, ◌*◌, ◌≤◌, ◌<◌, length};
ghost use Rattle.refusals.specs.Numbers.{code};
ghost use Rattle.layout.specs.File.{words, word, rights_of, pairs_of, fixed_pairs};
ghost use Rattle.layout.specs.Refusals.{header_refusal, pairs_refusal, sizes_refusal};

use matrix::Matrix;
use refusals::Refusal;

// Bytes of a file.
pub const BYTES: usize = 4096;

// Commands of a file.
pub const COMMANDS: usize = 32;

// Pairs before the first command's: the kinds, the cells and the carries.
pub const FIXED: usize = 3;

// The fewest pairs, and the most: one more for each command.
const FEWEST: u8 = FIXED as u8;

const MOST: u8 = FEWEST + COMMANDS as u8;

// The first bytes fit: how many bytes there are, rights and pairs.
pub fn check_header(file: &[u8]) -> Result<(), Refusal>
    ensures { code result ≡ header_refusal file.now }
{
    if file.len() < 2 {
        return Err(Refusal::FileLength);
    }
    if BYTES < file.len() {
        return Err(Refusal::FileLength);
    }
    let g = file[0];
    if g < 1 {
        return Err(Refusal::RightCount);
    }
    if Matrix::RIGHTS < g {
        return Err(Refusal::RightCount);
    }
    let n = file[1];
    if n < FEWEST {
        return Err(Refusal::PairCount);
    }
    if MOST < n {
        return Err(Refusal::PairCount);
    }
    if file.len() < 2 + 4 * (n as usize) {
        return Err(Refusal::FileLength);
    }
    Ok(())
}

// A 16-bit value, low byte first.
pub fn word_at(file: &[u8], at: usize) -> usize
    requires { at + 2 ≤ length file.now }
    ensures { (result ≡ word file.now at) × (result < words) }
{
    usize::from(u16::from_le_bytes([file[at], file[at + 1]]))
}

// The pairs fit: each section begins where the one before ends, and the last ends with the file.
pub fn check_pairs(file: &[u8], pairs: usize) -> Result<(), Refusal>
    requires { (pairs ≡ pairs_of file.now) × (2 + 4 * pairs ≤ length file.now) }
    ensures { code result ≡ pairs_refusal file.now }
{
    let mut at = 2 + 4 * pairs;
    for i in 0..pairs {
        let p = 2 + 4 * i;
        let offset = word_at(file, p);
        if offset != at {
            return Err(Refusal::SectionPlace);
        }
        at = offset + word_at(file, p + 2);
    }
    if at != file.len() {
        return Err(Refusal::SectionPlace);
    }
    Ok(())
}

// The lengths of kinds, cells and carries fit.
pub fn check_sizes(file: &[u8], g: u8) -> Result<(), Refusal>
    requires { (g ≡ rights_of file.now) × (2 + 4 * fixed_pairs ≤ length file.now) }
    ensures { code result ≡ sizes_refusal file.now }
{
    if word_at(file, 4) != Matrix::NAMES {
        return Err(Refusal::SectionLength);
    }
    if word_at(file, 8) != rights::bytes::SIZE * (Matrix::NAMES * Matrix::NAMES) {
        return Err(Refusal::SectionLength);
    }
    if word_at(file, 12) != rights::bytes::SIZE * (g as usize) {
        return Err(Refusal::SectionLength);
    }
    Ok(())
}
