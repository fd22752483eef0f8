//! Replies printed one behind the other.

ghost use Rattle.std.specs.Prelude.{◌≡◌, ◌+◌, ◌≤◌, length, None};
ghost use Rattle.memory.specs.Memory.{overlaid};
ghost use Rattle.maps.specs.Steps.{nowhere};
ghost use Rattle.replies.specs.Console.{console_room, ground_of_console, transcript};
ghost use Rattle.console.specs.Calls.{printed_over};

use crate::replying::reply_to;
use commands::print::text_of;
use extent_map::map::ExtentMap;
use lines::LineReader;
use maps::Map;
use tables::table::Table;

/// Answers the lines of a text, in turn, and tells how many bytes were printed.
pub(crate) fn answer_lines<T: Table>(
    map: &mut ExtentMap<T>,
    input: &[u8],
    output: &mut [u8],
) -> usize
    requires full_room { ⟦<ExtentMap<T> as Map>⟧.room map.old ≡ console_room }
    requires fresh { ⟦<ExtentMap<T> as Map>⟧.placed map.old ≡ nowhere }
    requires room { ground_of_console (length input.now) (length output.old) ≡ None }
    ensures number { result ≡ length (transcript input.now) }
    ensures output { output.new ≡ printed_over (transcript input.now) output.old }
{
    let mut printed = 0;
    for line in LineReader::new(input) {
        let reply = reply_to(map, line);
        let text = text_of(reply);
        printed = put(output, printed, text.as_bytes());
    }
    printed
}

/// Puts a text into a buffer from a place on, and tells where it ends.
fn put(buffer: &mut [u8], at: usize, text: &[u8]) -> usize
    requires { «at» + length text.now ≤ length buffer.old }
    ensures end { result ≡ «at» + length text.now }
    ensures after { buffer.new ≡ overlaid buffer.old «at» text.now }
{
    let end = at + text.len();
    buffer[at..end].copy_from_slice(text);
    end
}
