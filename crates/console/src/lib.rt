//! The line console: prints a reply to each line of a text, over one extent map that is empty at first.

#![tactic(auto)]

ghost use Rattle.std.specs.Prelude.{◌≡◌, ◌≤◌, length, Some, IfOk};
ghost use Rattle.replies.specs.Console.{ground_of_console};
ghost use Rattle.console.specs.declared.ConsoleError.TheVariants.{NoMemory};
ghost use Rattle.console.specs.Calls.{failure_text, Answered};

use extent_map::map::ExtentMap;
use faults::{Fault, Ground, Layer};
use probing::table::ProbingTable;
use std::alloc::{AllocError, Global};
use std::error::Error;
use std::fmt;
use tables::spread::Mixing;

mod printing;
mod replying;

/// How many keys the console's map has room for.
const ROOM: u32 = 2048;

/// The longest text that the console takes.
pub const LONGEST_INPUT: usize = 8192;

/// Why nothing was printed.
#[derive(Clone, Copy, PartialEq, Eq, Debug)]
pub enum ConsoleError {
    /// The text is too long, or the output too short for what it may print.
    Refused(Fault),
    /// No memory was found for the map's table.
    NoMemory,
}

impl fmt::Display for ConsoleError {
    ghost output = { λ error. Some (failure_text error) };

    fn fmt<W: fmt::Write>(&self, f: &mut fmt::Formatter<W>) -> fmt::Result {
        f.write_str(match self {
            Self::Refused(_) => "the console refuses the input",
            Self::NoMemory => "there is not enough memory",
        })
    }
}

impl Error for ConsoleError {}

/// By hand: a clause names the case that `?` makes.
impl From<AllocError> for ConsoleError {
    ghost from_gives = { λ _ r. r ≡ NoMemory };

    fn from(_error: AllocError) -> ConsoleError {
        ConsoleError::NoMemory
    }
}

/// Why a text of so many bytes is refused, if it is, with an output of so many bytes: the ground alone, of which the layer makes its answer.
fn console_ground(input: usize, output: usize) -> Option<Ground>
    ensures { result ≡ ground_of_console input output }
{
    (input > LONGEST_INPUT || output < 5 * input + 5).then_some(Ground::Buffer)
}

/// Prints the replies to the lines of a text at the front of the output, and tells how many bytes they have.
///
/// Each call works on a map of its own, which is empty at first. A call that fails leaves the output as it was.
pub fn print_replies(heap: Global, input: &[u8], output: &mut [u8]) -> Result<usize, ConsoleError>
    ensures answered { Answered input.now output.old result output.new }
    ensures inside { IfOk result (λ n. n ≤ length output.new) }
{
    Layer::Console
        .grant_unless(console_ground(input.len(), output.len()), 0, 0)
        .map_err(ConsoleError::Refused)?;
    let mut map = ExtentMap::new(ProbingTable::new(heap, ROOM, Mixing)?);
    Ok(printing::answer_lines(&mut map, input, output))
}
