//! A run with its keys.

ghost use Rattle.std.specs.Prelude.{◌≡◌, ◌+◌, ◌*◌, ◌≤◌, Some, Ok, MatchResult};
ghost use Rattle.lines.specs.Lines.{fields};
ghost use Rattle.extents.specs.Runs.{table_of};
ghost use Rattle.planning.specs.Plans.{run_in_line, outcome, right_in, most_tried, Room, InRange, NoKeys, keys_of, counted};

use crate::summary::{Run, Summary};
use extents::key::Key;
use faults::Ground;
use lines::fields_of;
use look_ups::look_up;
use run_keys::run::{RunError, keys_of_run};
use std::alloc::Global;

/// A run that a line asks for, and its keys.
#[derive(Drop)]
pub(crate) struct PlannedRun {
    run: Run,
    pub(crate) keys: Vec<Key>,
    ghost in_range: { InRange run },
    ghost its_keys: { keys.items ≡ keys_of run },
}

/// How a run reads back.
#[derive(Clone, Copy)]
struct ReadBack {
    right: u32,
    tried: u32,
}

impl PlannedRun {
    /// The run that a line asks for, and its keys.
    pub(crate) fn of_line(heap: Global, line: &[u8]) -> Result<PlannedRun, RunError>
        ensures { MatchResult result (λ p. outcome line.now ≡ Ok p.run) (NoKeys (outcome line.now)) }
    {
        let run = run_in(line).ok_or(Ground::Line)?;
        let keys = keys_of_run(heap, run.first, run.blocks, run.board)?;
        Ok(PlannedRun { run, keys })
    }

    /// Counts the run.
    pub(crate) fn counted(&self, counts: Summary) -> Summary
        requires { Room counts }
        ensures { result ≡ counted counts (Ok self.now.run) }
    {
        let back = self.read_back();
        Summary {
            lines: counts.lines + 1,
            planned: counts.planned + 1,
            refused: counts.refused,
            blocks: counts.blocks + u64::from(self.run.blocks),
            keys: counts.keys + self.keys.len() as u64,
            tried: counts.tried.max(back.tried),
            right: counts.right + u64::from(back.right),
        }
    }

    /// Looks every block of the run up over its keys.
    fn read_back(&self) -> ReadBack
        ensures right { result.right ≡ right_in (table_of self.now.keys.items) self.now.run.first self.now.run.board self.now.run.blocks }
        ensures tried { result.tried ≡ most_tried (table_of self.now.keys.items) self.now.run.first self.now.run.blocks }
        ensures bound { result.right ≤ self.now.run.blocks }
    {
        let Run {
            first,
            blocks,
            board,
        } = self.run;
        // A loop and no fold: it keeps two numbers, each with an invariant of its own.
        let mut right = 0;
        let mut tried: u32 = 0;
        for i in 0..blocks {
            let found = look_up(&self.keys, (first + i) as u16);
            right += u32::from(found.board == Some(board + i));
            tried = tried.max(found.tried);
        }
        ReadBack { right, tried }
    }
}

/// The run that a line has the numbers of.
fn run_in(line: &[u8]) -> Option<Run>
    ensures { result ≡ run_in_line (fields 3 (Some line.now)) }
{
    let [first, blocks, board] = fields_of::<3>(Some(line))?;
    Some(Run {
        first,
        blocks,
        board,
    })
}
