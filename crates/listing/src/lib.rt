// The printed answer, as bytes in a lent buffer.
#![tactic(auto)]

ghost use Rattle.std.specs.Prelude.{◌≡◌, [], ◌∷◌, ◌++◌, ◌+◌, ◌*◌, ◌≤◌, ◌<◌, length, take};
ghost use Rattle.refusals.specs.Numbers.{number_of};
ghost use Rattle.listing.specs.Listing.{refused_word, unsafe_word, decimal, spaced, head, parameters_of, line, lines, printed, buffer_bytes, listing};
ghost use Rattle.listing.specs.Writing.{Put, PutWithin, number_bytes, actual_bytes, line_bytes, shown_actual, Room, listing_bytes, Answered};
ghost use Rattle.trace.specs.Traces.{step_call, calls};
ghost use Rattle.safety.specs.Demand3.{steps_written, judgement_told};

use matrix::Matrix;
use policy::Policy;
use refusals::Refusal;
use safety::Verdict;

// The most steps that the judge writes for an accepted file of at most 30 names: all rights, and 30 names that are all subjects.
const STEPS: usize = (Matrix::RIGHTS as usize) * (Matrix::START + 1) * (Matrix::START + 2) + 4;

// The first line has at most so many bytes, and each of the others.
const HEAD: usize = 13;

const LINE: usize = 20;

// Room for every listing.
pub const BYTES: usize = HEAD + LINE * STEPS;

// Each of these writes from a place on, and answers the place behind what it wrote.
fn put(out: &mut [u8], at: usize, s: &[u8]) -> usize
    requires { at + length s.now ≤ length out.old }
    ensures { Put out.old at s.now result out.new }
{
    let end = at + s.len();
    out[at..end].copy_from_slice(s);
    end
}

fn put_byte(out: &mut [u8], at: usize, b: u8) -> usize
    requires { at < length out.old }
    ensures { Put out.old at (b ∷ []) result out.new }
{
    out[at] = b;
    at + 1
}

// A number in decimal: the last digit behind those of a tenth of it.
fn put_decimal(out: &mut [u8], at: usize, n: usize) -> usize
    requires { at + length (decimal n) ≤ length out.old }
    ensures { Put out.old at (decimal n) result out.new }
{
    if n < 10 {
        return put_byte(out, at, 48 + (n as u8));
    }
    let next = put_decimal(out, at, n / 10);
    put_byte(out, next, 48 + (n % 10) as u8)
}

// A byte in decimal takes at most three digits; the numbers of commands and names have one or two, and they are written directly.
fn put_number(out: &mut [u8], at: usize, n: u8) -> usize
    requires { at + number_bytes ≤ length out.old }
    ensures { PutWithin number_bytes out.old at (decimal n) result out.new }
{
    if n < 10 {
        return put_byte(out, at, 48 + n);
    }
    if n < 100 {
        let next = put_byte(out, at, 48 + n / 10);
        return put_byte(out, next, 48 + n % 10);
    }
    put_decimal(out, at, n as usize)
}

// An actual behind a space, where it is one of the k.
fn put_actual(out: &mut [u8], at: usize, shown: bool, a: u8) -> usize
    requires { at + actual_bytes ≤ length out.old }
    ensures { PutWithin actual_bytes out.old at (shown_actual shown a) result out.new }
{
    if !shown {
        return at;
    }
    let next = put_byte(out, at, b' ');
    put_number(out, next, a)
}

// The first k of four actuals.
fn put_actuals(out: &mut [u8], at: usize, k: u8, a0: u8, a1: u8, a2: u8, a3: u8) -> usize
    requires { at + 4 * actual_bytes ≤ length out.old }
    ensures { PutWithin (4 * actual_bytes) out.old at (spaced (take k (a0 ∷ a1 ∷ a2 ∷ a3 ∷ []))) result out.new }
{
    let b1 = put_actual(out, at, 0 < k, a0);
    let b2 = put_actual(out, b1, 1 < k, a1);
    let b3 = put_actual(out, b2, 2 < k, a2);
    put_actual(out, b3, 3 < k, a3)
}

// A step's line: the command's number and the first k actuals.
fn put_line(out: &mut [u8], at: usize, k: u8, command: u8, a0: u8, a1: u8, a2: u8, a3: u8) -> usize
    requires { at + line_bytes ≤ length out.old }
    ensures { PutWithin line_bytes out.old at (line k (record { command = command; a0 = a0; a1 = a1; a2 = a2; a3 = a3 })) result out.new }
{
    let b1 = put_number(out, at, command);
    let b2 = put_actuals(out, b1, k, a0, a1, a2, a3);
    put_byte(out, b2, b'\n')
}

// The line of step i, whose command has k parameters.
fn put_step(out: &mut [u8], at: usize, k: u8, steps: &[u8], i: usize) -> usize
    requires { (at + line_bytes ≤ length out.old) × (5 * i + 5 ≤ length steps.now) }
    ensures { PutWithin line_bytes out.old at (line k (step_call steps.now i)) result out.new }
{
    let from = 5 * i;
    put_line(
        out,
        at,
        k,
        steps[from],
        steps[from + 1],
        steps[from + 2],
        steps[from + 3],
        steps[from + 4],
    )
}

// How many parameters command i has; a number that no command has stands for none.
fn parameters_of(p: &Policy, i: usize) -> u8
    ensures { result ≡ parameters_of p.now i }
{
    p.command.get(i).map_or(0, |c| c.parameters)
}

// The lines of the first n steps.
fn put_lines(out: &mut [u8], from: usize, p: &Policy, steps: &[u8], n: usize) -> usize
    requires { (from + line_bytes * n ≤ length out.old) × (5 * n ≤ length steps.now) }
    ensures { Put out.old from (lines p.now (calls steps.now n)) result out.new }
{
    let mut at = from;
    for i in 0..n {
        let k = parameters_of(p, steps[5 * i] as usize);
        at = put_step(out, at, k, steps, i);
    }
    at
}

// The first line.
fn put_head(out: &mut [u8], word: &[u8], n: usize) -> usize
    requires { length word.now + length (decimal n) < length out.old }
    ensures { Put out.old 0 (head word.now n) result out.new }
{
    let a = put(out, 0, word);
    let b = put_decimal(out, a, n);
    put_byte(out, b, b'\n')
}

// The answer `REFUSED n`.
fn put_refused(out: &mut [u8], by: Refusal) -> usize
    requires { listing_bytes ≤ length out.old }
    ensures { Put out.old 0 (head refused_word (number_of by)) result out.new }
{
    put_head(out, b"REFUSED ", by.number() as usize)
}

// The answer `UNSAFE n`, with the lines of the n steps.
fn print_unsafe(out: &mut [u8], n: usize, p: &Policy, steps: &[u8]) -> usize
    requires { Room out.old n steps.now }
    ensures { Put out.old 0 (head unsafe_word n ++ lines p.now (calls steps.now n)) result out.new }
{
    let at = put_head(out, b"UNSAFE ", n);
    put_lines(out, at, p, steps, n)
}

// The whole answer, given the judgement and the steps that it wrote.
fn print(out: &mut [u8], judgement: Result<Verdict, Refusal>, p: &Policy, steps: &[u8]) -> usize
    requires { Room out.old (steps_written (judgement_told judgement)) steps.now }
    ensures { Put out.old 0 (printed p.now (judgement_told judgement) (calls steps.now (steps_written (judgement_told judgement)))) result out.new }
{
    match judgement {
        Err(by) => put_refused(out, by),
        Ok(Verdict::Safe(n)) => put_head(out, b"SAFE ", n),
        Ok(Verdict::Unsafe(n)) => print_unsafe(out, n, p, steps),
    }
}

fn step_buffer() -> [u8; 5 * STEPS]
    ensures { length result ≡ buffer_bytes }
{
    [0u8; 5 * STEPS]
}

fn answer_file(out: &mut [u8], file: &[u8], right: u8) -> usize
    requires { listing_bytes ≤ length out.old }
    ensures { Put out.old 0 (listing (right ∷ file.now)) result out.new }
{
    // before the match, so that it is cleared once
    let mut steps = step_buffer();
    match policy::read_policy(file) {
        Err(by) => put_refused(out, by),
        Ok(p) => {
            let judgement = safety::judge_read(Ok(p), right, &mut steps);
            print(out, judgement, &p, &steps)
        }
    }
}

// The answer to the desk program's input: the right, then a file. It stands at the front of out, and its length is handed back; 0 where out is too short.
pub fn answer(input: &[u8], out: &mut [u8]) -> usize
    ensures { Answered input.now out.old result out.new }
{
    if out.len() < BYTES {
        return 0;
    }
    if input.len() == 0 {
        return put_refused(out, Refusal::FileLength);
    }
    let right = input[0];
    answer_file(out, &input[1..], right)
}
