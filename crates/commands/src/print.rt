//! The text of a reply.

ghost use Rattle.std.specs.Prelude.{◌≡◌, ◌+◌, ◌≤◌, ◌++◌, length, decimal};
ghost use Rattle.arrayvec.specs.ArrayString.{array_string_len};
ghost use Rattle.commands.specs.Commands.{reply_text};

use crate::reply::Reply;
use arrayvec::ArrayString;
use itoa::Buffer;

/// The line that is printed for a reply.
///
/// It is no `Display` of the reply: to write one into a text of fixed room may fail, as far as its contract says.
pub fn text_of(reply: Reply) -> ArrayString<32>
    ensures { result.bytes ≡ reply_text reply }
{
    let mut text = ArrayString::new();
    match reply {
        Reply::Granted(keys) => add(&mut text, "ok ", keys),
        Reply::Refused(number) => add(&mut text, "no ", number),
        Reply::At { board, tried } => {
            add(&mut text, "at ", board);
            add(&mut text, " tried ", tried);
        }
        Reply::Hole { tried } => add(&mut text, "hole tried ", tried),
        Reply::NextAt(block) => add(&mut text, "next ", block),
        Reply::NoNext => text.push_str("none"),
        Reply::Held(keys) => add(&mut text, "keys ", keys),
    }
    text.push('\n');
    text
}

/// Adds a word and a number.
fn add(text: &mut ArrayString<32>, word: &str, n: u32)
    requires { array_string_len text.old + length word.now + 10 ≤ 32 }
    ensures bytes { text.new.bytes ≡ text.old.bytes ++ word.now ++ decimal n }
    ensures short { array_string_len text.new ≤ array_string_len text.old + length word.now + 10 }
{
    text.push_str(word);
    text.push_str(Buffer::new().format(n));
}
