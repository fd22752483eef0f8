//! What is replied to a line.

ghost use Rattle.std.specs.Prelude.{◌≡◌};
ghost use Rattle.commands.specs.Commands.{command_in};
ghost use Rattle.replies.specs.Console.{console_room, refusal, reply_to_next};
ghost use Rattle.console.specs.Calls.{changed_to, found_by, Replied};

use commands::command::{Command, command_of};
use commands::reply::Reply;
use extent_map::map::ExtentMap;
use faults::{Fault, Ground};
use look_ups::Found;
use maps::Map;
use tables::table::Table;

/// The reply to a line, after which the map is as the line's command leaves it.
pub(crate) fn reply_to<T: Table>(map: &mut ExtentMap<T>, line: &[u8]) -> Reply
    ensures room { ⟦<ExtentMap<T> as Map>⟧.room map.new ≡ ⟦<ExtentMap<T> as Map>⟧.room map.old }
    ensures step { ⟦<ExtentMap<T> as Map>⟧.room map.old ≡ console_room → Replied (⟦<ExtentMap<T> as Map>⟧.placed map.old) (command_in line.now) result (⟦<ExtentMap<T> as Map>⟧.placed map.new) }
{
    let Some(command) = command_of(line) else {
        return Reply::Refused(Ground::Line.number());
    };
    match command {
        Command::Assign {
            file,
            first,
            n,
            board,
        } => {
            let assigned = map.assign(file, first, n, board);
            change_reply(assigned, map.keys_held())
        }
        Command::Clear { file, first, n } => {
            let cleared = map.clear(file, first, n);
            change_reply(cleared, map.keys_held())
        }
        Command::Find { file, block } => found_reply(map.find_counted(file, block)),
        Command::Next { file, block } => next_reply(map.next(file, block)),
        Command::Keys => Reply::Held(map.keys_held()),
    }
}

/// The reply to a change, after which the map holds so many keys.
fn change_reply(outcome: Result<(), Fault>, keys: u32) -> Reply
    ensures { result ≡ changed_to outcome keys }
{
    match outcome {
        Ok(()) => Reply::Granted(keys),
        Err(fault) => refused(fault),
    }
}

/// The reply to a look-up.
fn found_reply(found: Result<Found, Fault>) -> Reply
    ensures { result ≡ found_by found }
{
    match found {
        Ok(Found { board, tried }) => match board {
            Some(board) => Reply::At { board, tried },
            None => Reply::Hole { tried },
        },
        Err(fault) => refused(fault),
    }
}

/// The reply to the question for the lowest mapped block.
fn next_reply(next: Result<Option<u32>, Fault>) -> Reply
    ensures { result ≡ reply_to_next next }
{
    match next {
        Ok(Some(block)) => Reply::NextAt(block),
        Ok(None) => Reply::NoNext,
        Err(fault) => refused(fault),
    }
}

/// The reply to what the map refuses.
fn refused(fault: Fault) -> Reply
    ensures { result ≡ refusal fault }
{
    Reply::Refused(fault.ground.number())
}
