//! The plan of a text of runs, one a line.

ghost use Rattle.std.specs.Prelude.{◌≡◌, ◌++◌, length, Some, string_bytes, MatchResult, IfErr, OnOk};
ghost use Rattle.lines.specs.Lines.{lines};
ghost use Rattle.planning.specs.declared.plan.PlanError.TheVariants.{NoMemory};
ghost use Rattle.planning.specs.Plans.{outcome, keys_text, line_text, Room, counted, summary_of, plan_text, failure_text, Failed};

use crate::planned::PlannedRun;
use crate::summary::Summary;
use extents::key::Key;
use lines::LineReader;
use run_keys::run::RunError;
use std::alloc::{AllocError, Global};
use std::error::Error;
use std::fmt;
use std::fmt::Write;

/// Why a text has no plan.
#[derive(Clone, Copy, PartialEq, Eq, Debug)]
pub enum PlanError {
    /// The text has 2^32 bytes or more.
    TooLong,
    /// No memory was found.
    NoMemory,
}

impl fmt::Display for PlanError {
    ghost output = { λ error. Some (failure_text error) };

    fn fmt<W: fmt::Write>(&self, f: &mut fmt::Formatter<W>) -> fmt::Result {
        match self {
            PlanError::TooLong => write!(f, "the input has 4 GiB or more"),
            PlanError::NoMemory => write!(f, "there is not enough memory"),
        }
    }
}

impl Error for PlanError {}

/// By hand, as the next: a clause names the case that `?` makes.
impl From<fmt::Error> for PlanError {
    ghost from_gives = { λ _ r. r ≡ NoMemory };

    fn from(_error: fmt::Error) -> PlanError {
        PlanError::NoMemory
    }
}

impl From<AllocError> for PlanError {
    ghost from_gives = { λ _ r. r ≡ NoMemory };

    fn from(_error: AllocError) -> PlanError {
        PlanError::NoMemory
    }
}

/// The answers so far, and what was counted over their lines.
#[derive(Drop)]
struct Draft {
    text: String,
    counts: Summary,
}

impl Draft {
    /// Adds the answer to a line.
    fn add(&mut self, heap: Global, line: &[u8]) -> Result<(), PlanError>
        requires { Room self.old.counts }
        ensures text { OnOk result (string_bytes self.new.text ≡ string_bytes self.old.text ++ line_text (outcome line.now)) }
        ensures counts { OnOk result (self.new.counts ≡ counted self.old.counts (outcome line.now)) }
        ensures failed { IfErr result (λ e. e ≡ NoMemory) }
    {
        match PlannedRun::of_line(heap, line) {
            Ok(planned) => {
                write_keys(&mut self.text, &planned.keys)?;
                self.counts = planned.counted(self.counts);
            }
            Err(RunError::Unadmitted(ground)) => {
                let number = ground.number();
                writeln!(self.text, "no {number}")?;
                self.counts.lines += 1;
                self.counts.refused += 1;
            }
            Err(RunError::NoMemory) => return Err(PlanError::NoMemory),
        }
        Ok(())
    }
}

/// Adds the lines of some keys to a text. What a line says is the planner's, so it is no `Display` of the key.
fn write_keys(text: &mut String, keys: &[Key]) -> Result<(), AllocError>
    ensures { OnOk result (string_bytes text.new ≡ string_bytes text.old ++ keys_text keys.now) }
{
    for key in keys {
        let Key {
            start,
            length,
            board,
        } = *key;
        writeln!(text, "key {start} length {length} board {board}")?;
    }
    Ok(())
}

/// The answers to the lines of a text, and what was counted over them.
/// Every block of every run that is planned reads back right.
#[tactic(auto, using(crate::proofs::Counts::all_lines_right))]
pub fn plan(heap: Global, input: &[u8]) -> Result<String, PlanError>
    ensures answer { MatchResult result (λ text. string_bytes text ≡ plan_text (lines input.now)) (Failed (length input.now)) }
    ensures all_right { (summary_of (lines input.now)).right ≡ (summary_of (lines input.now)).blocks }
{
    if input.len() >= 1 << 32 {
        return Err(PlanError::TooLong);
    }
    let mut draft = Draft {
        text: String::new(heap),
        counts: Summary::default(),
    };
    for line in LineReader::new(input) {
        draft.add(heap, line)?;
    }
    let Draft { mut text, counts } = draft;
    write!(text, "{counts}")?;
    Ok(text)
}
