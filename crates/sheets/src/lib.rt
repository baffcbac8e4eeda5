// A sheet of questions (document 02, C-17): several rights judged on one file, each on its own part of the buffer; refusal 43.
#![tactic(auto)]

ghost use Rattle.std.specs.Prelude.{◌≡◌, List, ◌++◌, ℕ, ◌+◌, ◌*◌, ◌/◌, ◌^◌, ◌≤◌, ◌<◌, length, take, drop};
ghost use Rattle.refusals.specs.Numbers.{code};
ghost use Rattle.safety.specs.Demand3.{steps_written, judgement_told};
ghost use Rattle.safety.specs.Conclusion.{PreparedOf};
ghost use Rattle.sheets.specs.Sheets.{entry_of, answered, part_filled, sheet_after, buffer_after, Sheeted, FirstSheeted};

use refusals::Refusal;
use safety::{Prepared, Verdict};

// An entry of a sheet: a right, and the place for its answer: the verdict, 0 safe, 255 unsafe, else the refusal, and the number of steps written. A number and no
// enum, since document 02 gives the entry this form and C reads it.
#[derive(Clone, Copy)]
pub struct Entry {
    pub right: u8,
    pub verdict: u8,
    pub count: u16,
}

impl Entry {
    // The most entries of a sheet.
    pub const SHEET: usize = 8;
}

const SAFE: u8 = 0;

const UNSAFE: u8 = 255;

// An entry with its answer.
fn entry_of(right: u8, judgement: Result<Verdict, Refusal>) -> Entry
    requires { steps_written (judgement_told judgement) < 2 ^ 16 }
    ensures { result ≡ entry_of right (judgement_told judgement) }
{
    match judgement {
        Err(by) => Entry {
            right,
            verdict: by.number(),
            count: 0,
        },
        Ok(Verdict::Safe(n)) => Entry {
            right,
            verdict: SAFE,
            count: n as u16,
        },
        Ok(Verdict::Unsafe(n)) => Entry {
            right,
            verdict: UNSAFE,
            count: n as u16,
        },
    }
}

// The bytes of each of n parts.
fn part_length(bytes: usize, n: usize) -> usize
    ensures { result ≡ bytes / n }
{
    bytes.checked_div(n).unwrap_or(0)
}

// Entry i, judged on part i of the buffer, each part of so many bytes.
fn ask(
    file: &Result<Prepared, Refusal>,
    right: u8,
    i: usize,
    part: usize,
    buffer: &mut [u8],
) -> Entry
    requires { ((f : List ℕ) × PreparedOf f file.now) × (i * part + part ≤ length buffer.old) }
    ensures { (f : List ℕ) → PreparedOf f file.now → (result ≡ answered f part right) × (buffer.new ≡ part_filled f right (i * part) part buffer.old) }
{
    let at = i * part;
    let end = at + part;
    let judgement = safety::judge_prepared(file, right, &mut buffer[at..end]);
    entry_of(right, judgement)
}

// Answers every entry of the sheet, each as a call of its own on its part of the buffer; or refuses a sheet that is too long, with 43.
pub fn sheet_file(file: &[u8], sheet: &mut [Entry], buffer: &mut [u8]) -> Result<(), Refusal>
    ensures { Sheeted file.now sheet.old buffer.old (code result) sheet.new buffer.new }
{
    let n = sheet.len();
    if Entry::SHEET < n {
        return Err(Refusal::LongSheet);
    }
    let prepared = safety::prepare_file(file);
    let part = part_length(buffer.len(), n);
    for i in 0..n {
        sheet[i] = ask(&prepared, sheet[i].right, i, part, buffer);
    }
    Ok(())
}

// The first n of eight entries, answered as a sheet; the others as they were.
fn answer_first(
    file: &[u8],
    mut entries: [Entry; Entry::SHEET],
    n: usize,
    buffer: &mut [u8],
) -> [Entry; Entry::SHEET]
    requires { n ≤ 8 }
    ensures { (result ≡ sheet_after file.now (take n entries) buffer.old ++ drop n entries) × (buffer.new ≡ buffer_after file.now (take n entries) buffer.old) }
{
    let _ = sheet_file(file, &mut entries[..n], buffer);
    entries
}

// The same by value, for a caller without a slice of entries: of a sheet of n entries the first eight.
pub fn sheet_of(
    file: &[u8],
    entries: [Entry; Entry::SHEET],
    n: usize,
    buffer: &mut [u8],
) -> Result<[Entry; Entry::SHEET], Refusal>
    ensures { FirstSheeted file.now entries n buffer.old result buffer.new }
{
    if Entry::SHEET < n {
        return Err(Refusal::LongSheet);
    }
    Ok(answer_first(file, entries, n, buffer))
}
