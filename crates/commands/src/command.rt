//! What a line of the console asks for.

ghost use Rattle.std.specs.Prelude.{◌≡◌};
ghost use Rattle.std.specs.Option.{option_map};
ghost use Rattle.commands.specs.Commands.{command_by_letter, command_in};

use lines::{cut, fields_of};

/// What a line asks the map.
#[derive(Clone, Copy, PartialEq, Eq, Debug)]
pub enum Command {
    /// `a FILE FIRST N BOARD`
    Assign {
        file: u32,
        first: u32,
        n: u32,
        board: u32,
    },
    /// `c FILE FIRST N`
    Clear {
        file: u32,
        first: u32,
        n: u32,
    },
    /// `f FILE BLOCK`
    Find {
        file: u32,
        block: u32,
    },
    /// `n FILE BLOCK`
    Next {
        file: u32,
        block: u32,
    },
    /// `k`
    Keys,
}

/// The command with this letter, by the fields behind it. The letters stand here as a reader finds them in the form of a line.
fn by_letter(letter: char, rest: Option<&[u8]>) -> Option<Command>
    ensures { result ≡ command_by_letter letter (option_map (λ x. x.now) rest.entry) }
{
    match letter {
        'a' => {
            let [file, first, n, board] = fields_of::<4>(rest)?;
            Some(Command::Assign {
                file,
                first,
                n,
                board,
            })
        }
        'c' => {
            let [file, first, n] = fields_of::<3>(rest)?;
            Some(Command::Clear { file, first, n })
        }
        'f' => {
            let [file, block] = fields_of::<2>(rest)?;
            Some(Command::Find { file, block })
        }
        'n' => {
            let [file, block] = fields_of::<2>(rest)?;
            Some(Command::Next { file, block })
        }
        'k' => {
            let [] = fields_of::<0>(rest)?;
            Some(Command::Keys)
        }
        _ => None,
    }
}

/// The command of a line, or none where the line is outside the forms.
pub fn command_of(line: &[u8]) -> Option<Command>
    ensures { result ≡ command_in line.now }
{
    let parts = cut(line, b' ');
    match parts.front {
        [letter] => by_letter(*letter as char, parts.rest),
        _ => None,
    }
}
