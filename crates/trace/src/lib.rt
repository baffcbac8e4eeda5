// Traces and their replay; refusals 21 and 31.
#![tactic(auto)]

ghost use Rattle.std.specs.Prelude.{◌≡◌, ◌+◌, ◌*◌, ◌^◌, ◌≤◌, ◌<◌, length};
ghost use Rattle.policy.specs.Contents.{system_of};
ghost use Rattle.policy.specs.Fits.{PolicyFits};
ghost use Rattle.matrix.specs.Matrices.{state_of};
ghost use Rattle.execution.specs.Runs.{answer_told};
ghost use Rattle.trace.specs.Traces.{step_at, calls, steps_in};
ghost use Rattle.trace.specs.Replays.{replay_told, replay_from, file_replay};
ghost use Rattle.trace.specs.Ends.{end_of};

use commands::Command;
use execution::Done;
use policy::Policy;
use refusals::Refusal;

// One step of a trace: a command's number and four actuals.
#[derive(Drop)]
struct Step {
    command: u8,
    actuals: [u8; Command::PARAMETERS],
}

// The first refused step, and why; step 0 too, where the file, the right or the trace is refused.
#[derive(Clone, Copy)]
pub struct RefusedStep {
    pub by: Refusal,
    pub step: usize,
}

impl From<Refusal> for RefusedStep {
    ghost from_gives = { λ by refused. refused ≡ record { by = by; step = 0 } };

    fn from(by: Refusal) -> Self {
        RefusedStep { by, step: 0 }
    }
}

// The five bytes of step i.
fn step_at(trace: &[u8], i: usize) -> Step
    requires { 5 * i + 5 ≤ length trace.now }
    ensures { result ≡ step_at trace.now i }
{
    let at = 5 * i;
    Step {
        command: trace[at],
        actuals: [trace[at + 1], trace[at + 2], trace[at + 3], trace[at + 4]],
    }
}

// A reader of a trace: the lent trace, and how many of its steps lie behind the reader.
#[derive(Clone, Copy)]
struct TraceReader<'a> {
    trace: &'a [u8],
    at: usize,
}

impl<'a> TraceReader<'a> {
    // A reader before the first step.
    fn new(trace: &'a [u8]) -> TraceReader<'a>
        ensures { (result.trace ≡ trace.entry) × (result.at ≡ 0) }
    {
        TraceReader { trace, at: 0 }
    }

    // The step that lies before it.
    fn step(self) -> Step
        requires { 5 * self.at + 5 ≤ length self.trace.now }
        ensures { result ≡ step_at self.entry.trace.now self.entry.at }
    {
        step_at(self.trace, self.at)
    }

    // Moved on past that step.
    fn past(self) -> TraceReader<'a>
        requires { self.at + 1 < 2 ^ 64 }
        ensures { (result.trace ≡ self.entry.trace) × (result.at ≡ self.entry.at + 1) }
    {
        TraceReader {
            trace: self.trace,
            at: self.at + 1,
        }
    }
}

// How a replay ends at step i.
fn end_of(answer: Result<Done, Refusal>, i: usize) -> Result<Option<usize>, RefusedStep>
    ensures { replay_told result ≡ end_of (answer_told answer) i }
{
    match answer {
        Err(by) => Err(RefusedStep { by, step: i }),
        Ok(Done::NoLeak) => Ok(None),
        Ok(Done::Leak) => Ok(Some(i)),
    }
}

// The steps in order, on a copy of the matrix: the number of the first leaking one, if there is one, or the first refused one.
fn replay_steps(p: &Policy, trace: &[u8], right: u8) -> Result<Option<usize>, RefusedStep>
    requires { PolicyFits p.now }
    ensures { replay_told result ≡ replay_from (system_of p.now) right (calls trace.now (steps_in trace.now)) 0 (state_of p.now.matrix) }
{
    let n = trace.len() / 5;
    let mut matrix = p.matrix;
    let mut reader = TraceReader::new(trace);
    // the reader itself remembers how far it has come, as document 01 says
    while reader.at < n {
        let step = reader.step();
        let answer = execution::call(p, &mut matrix, step.command, step.actuals, right);
        let Ok(Done::NoLeak) = answer else {
            return end_of(answer, reader.at);
        };
        reader = reader.past();
    }
    Ok(None)
}

// Replays a trace on a file, with the right whose leak is asked about.
pub fn replay_file(file: &[u8], trace: &[u8], right: u8) -> Result<Option<usize>, RefusedStep>
    ensures { replay_told result ≡ file_replay file.now trace.now right }
{
    let p = policy::read_policy(file)?;
    if p.rights <= right {
        return Err(RefusedStep::from(Refusal::NoRight));
    }
    if trace.len() % 5 != 0 {
        return Err(RefusedStep::from(Refusal::TraceLength));
    }
    replay_steps(&p, trace, right)
}
