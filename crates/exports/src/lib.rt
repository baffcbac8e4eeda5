// The C boundary: numbers and byte slices, no `requires`. A slice is passed as a pointer and a length, and C has no `Result`: a refusal is its number here.
#![tactic(auto)]

ghost use Rattle.std.specs.Prelude.{◌≡◌, [], ◌∷◌, ◌++◌, ◌+◌, ◌*◌, ◌≤◌, ◌<◌, length, take, drop};
ghost use Rattle.cases.specs.Cases.{tabulate};
ghost use Rattle.policy.specs.Refusals.{refusal};
ghost use Rattle.update.specs.Files.{FileRun};
ghost use Rattle.trace.specs.Replays.{file_replay};
ghost use Rattle.safety.specs.Demand3.{steps_written, judgement_told};
ghost use Rattle.safety.specs.Judgement.{judgement_code};
ghost use Rattle.exports.specs.Replay.{ReplayAnswer};
ghost use Rattle.exports.specs.Judge.{JudgeAnswer};
ghost use Rattle.exports.specs.Part.{PartAnswer};
ghost use Rattle.exports.specs.Need.{NeedAnswer};
ghost use Rattle.exports.specs.Sheet.{entry_at, entry_bytes, entries_written, SheetAnswer};

use needs::Need;
use refusals::Refusal;
use safety::Verdict;
use sheets::Entry;

// The refusal of whoever wrote the file, 1 to 9 or 44, or 0.
#[unsafe(no_mangle)]
pub extern "C" fn access_check(file: &[u8]) -> u8
    ensures { result ≡ refusal file.now }
{
    refusals::code_of(&policy::read_policy(file))
}

// Runs a command (document 01: a rule) on the file: 0 done, else the refusal, with the file as it was.
#[unsafe(no_mangle)]
pub extern "C" fn access_run(file: &mut [u8], command: u8, a0: u8, a1: u8, a2: u8, a3: u8) -> u8
    ensures { FileRun file.old (record { command = command; a0 = a0; a1 = a1; a2 = a2; a3 = a3 }) result file.new }
{
    refusals::code_of(&update::run(file, command, a0, a1, a2, a3))
}

// The answers for a leak: a replay's, and the judge's; and for a need that is met.
const LEAK: u8 = 255;

const UNSAFE: u8 = LEAK;

const HELD: u8 = LEAK;

// Replays a trace: 0 no leak, 255 a leak at the step, else the refusal at the step.
#[unsafe(no_mangle)]
pub extern "C" fn access_replay(file: &[u8], steps: &[u8], right: u8, step: &mut u64) -> u8
    ensures { ReplayAnswer (file_replay file.now steps.now right) result step.new }
{
    match trace::replay_file(file, steps, right) {
        Ok(None) => {
            *step = 0;
            0
        }
        Ok(Some(i)) => {
            *step = i as u64;
            LEAK
        }
        Err(refused) => {
            *step = refused.step as u64;
            refused.by.number()
        }
    }
}

// A judgement as two numbers: 0 safe, 255 unsafe, both with the number of steps written, else the refusal, with 0 steps.
fn numbers(judgement: Result<Verdict, Refusal>, steps: &mut u64) -> u8
    ensures { (result ≡ judgement_code (judgement_told judgement)) × (steps.new ≡ steps_written (judgement_told judgement)) }
{
    match judgement {
        Err(by) => {
            *steps = 0;
            by.number()
        }
        Ok(Verdict::Safe(n)) => {
            *steps = n as u64;
            0
        }
        Ok(Verdict::Unsafe(n)) => {
            *steps = n as u64;
            UNSAFE
        }
    }
}

// Judges whether the right can leak: its judgement as two numbers.
#[unsafe(no_mangle)]
pub extern "C" fn access_judge(file: &[u8], right: u8, buffer: &mut [u8], steps: &mut u64) -> u8
    ensures { JudgeAnswer file.now right buffer.old result steps.new buffer.new }
{
    let judgement = safety::judge_file(file, right, buffer);
    numbers(judgement, steps)
}

// Judges the part of the file that stays without the names on the list, a byte each: its judgement as two numbers.
#[unsafe(no_mangle)]
pub extern "C" fn access_judge_part(
    file: &[u8],
    right: u8,
    trusted: &[u8],
    buffer: &mut [u8],
    steps: &mut u64,
) -> u8
    ensures { PartAnswer file.now right trusted.now buffer.old result steps.new buffer.new }
{
    let judgement = parts::judge_part(file, right, trusted, buffer);
    numbers(judgement, steps)
}

// Asks whether all cells of the list, three bytes each, can be held at the same moment: 255 held, 0 never, both with the number of steps written, else the
// refusal, with 0 steps.
#[unsafe(no_mangle)]
pub extern "C" fn access_need(file: &[u8], list: &[u8], buffer: &mut [u8], steps: &mut u64) -> u8
    ensures { NeedAnswer file.now list.now buffer.old result steps.new buffer.new }
{
    match needs::need_file(file, list, buffer) {
        Err(reason) => {
            *steps = 0;
            reason.number()
        }
        Ok(Need::Held(n)) => {
            *steps = n as u64;
            HELD
        }
        Ok(Need::Never(n)) => {
            *steps = n as u64;
            0
        }
    }
}

// The bytes of an entry of a sheet: the right, the code of its answer, and the number of steps, low byte first.
const ENTRY: usize = 4;

// The question of entry i, its answer not given yet.
fn entry_at(entries: &[u8], i: usize) -> Entry
    requires { i < 8 }
    ensures { result ≡ entry_at entries.now i }
{
    let right = entries.get(ENTRY * i).copied().unwrap_or(0);
    Entry {
        right,
        verdict: 0,
        count: 0,
    }
}

// The first eight.
fn entries_in(entries: &[u8]) -> [Entry; Entry::SHEET]
    ensures { result ≡ tabulate (entry_at entries.now) 8 0 }
{
    [
        entry_at(entries, 0),
        entry_at(entries, 1),
        entry_at(entries, 2),
        entry_at(entries, 3),
        entry_at(entries, 4),
        entry_at(entries, 5),
        entry_at(entries, 6),
        entry_at(entries, 7),
    ]
}

// Entry i, as bytes.
fn write_entry(entries: &mut [u8], i: usize, q: Entry)
    requires { 4 * i + 4 ≤ length entries.old }
    ensures { entries.new ≡ take (4 * i) entries.old ++ (entry_bytes (q ∷ []) ++ drop (4 * i + 4) entries.old) }
{
    let at = ENTRY * i;
    entries[at] = q.right;
    entries[at + 1] = q.verdict;
    [entries[at + 2], entries[at + 3]] = q.count.to_le_bytes();
}

// The first n entries, as bytes.
fn write_entries(entries: &mut [u8], sheet: [Entry; Entry::SHEET], n: usize)
    requires { (n ≤ 8) × (length sheet ≡ 8) × (4 * n ≤ length entries.old) }
    ensures { entries.new ≡ entries_written (take n sheet) entries.old }
{
    for i in 0..n {
        write_entry(entries, i, sheet[i]);
    }
}

// Answers a sheet, its entries as bytes: 0 with every entry's answer in its place, or 43 for more than eight entries.
#[unsafe(no_mangle)]
pub extern "C" fn access_sheet(file: &[u8], entries: &mut [u8], buffer: &mut [u8]) -> u8
    ensures { SheetAnswer file.now entries.old buffer.old result entries.new buffer.new }
{
    let n = entries.len() / ENTRY;
    let asked = entries_in(entries);
    match sheets::sheet_of(file, asked, n, buffer) {
        Err(by) => by.number(),
        Ok(answered) => {
            write_entries(entries, answered, n);
            0
        }
    }
}
