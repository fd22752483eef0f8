//! Sessions of the console beside the replies that are due.

use console::{ConsoleError, LONGEST_INPUT, print_replies};
use faults::{Fault, Ground, Layer};
use std::alloc::{AllocError, Global};
use std::process::Abort;
use std::test::*;

/// What the output holds where nothing was printed.
const BLANK: u8 = 0xaa;

/// The room that a text asks for.
fn room_for(input: &[u8]) -> usize {
    input.len().saturating_mul(5).saturating_add(5)
}

/// Holds the replies to a text, in just the room that it asks for, to those that are due.
fn replies_are(rt: &impl Abort, heap: Global, input: &[u8], due: &[u8]) -> Result<(), Fail> {
    let mut output = vec![in heap; BLANK; room_for(input)]?;
    assert_eq!(rt;
        print_replies(heap, input, output.as_mut_slice()),
        Ok(due.len())
    );
    assert!(rt; output.as_slice().starts_with(due), "the replies");
    for byte in output.iter().skip(due.len()) {
        assert_eq!(rt; *byte, BLANK, "a byte behind the replies");
    }
    Ok(())
}

/// Sees a text refused, with an output of so many bytes, of which none is touched.
fn is_refused(rt: &impl Abort, heap: Global, input: &[u8], room: usize) -> Result<(), Fail> {
    let mut output = vec![in heap; BLANK; room]?;
    assert_eq!(rt;
        print_replies(heap, input, output.as_mut_slice()),
        Err(ConsoleError::Refused(Fault {
            ground: Ground::Buffer,
            layer: Layer::Console,
            file: 0,
            block: 0,
        }))
    );
    for byte in output.iter() {
        assert_eq!(rt; *byte, BLANK);
    }
    Ok(())
}

/// A text so many times over.
fn repeated(heap: Global, text: &[u8], times: u32) -> Result<Vec<u8>, AllocError> {
    let mut all = Vec::new(heap);
    for _ in 0..times {
        all.extend_from_slice(text)?;
    }
    Ok(all)
}

/// A text of lines, and the replies that are due.
#[derive(Drop)]
struct Session {
    input: String,
    due: String,
}

impl Session {
    fn new(heap: Global) -> Session {
        Session {
            input: String::new(heap),
            due: String::new(heap),
        }
    }

    fn line(&mut self, line: &str, reply: &str) -> Result<(), AllocError> {
        self.input.push_str(line)?;
        self.input.push_str("\n")?;
        self.due.push_str(reply)?;
        self.due.push_str("\n")
    }

    fn lines(&mut self, lines: &[(&str, &str)]) -> Result<(), AllocError> {
        for (line, reply) in lines {
            self.line(line, reply)?;
        }
        Ok(())
    }

    fn run(&self, rt: &impl Abort, heap: Global) -> Result<(), Fail> {
        replies_are(rt, heap, self.input.as_bytes(), self.due.as_bytes())
    }
}

#[test]
fn lines_outside_the_forms(rt: HostRuntime) -> Result<(), Fail> {
    let mut session = Session::new(rt.alloc());
    for line in [
        "",
        " ",
        "k ",
        " k",
        "f 1  7",
        "f  1 7",
        "f 1 7 ",
        "f 01 7",
        "f 1 00",
        "f 100000 7",
        "f 1 123456",
        "k\r",
        "f 1 7\r",
        "q",
        "K",
        "kk",
        "1",
        "f",
        "f 1",
        "f 1 7 2",
        "n 1",
        "n 1 7 2",
        "a 1 2 3",
        "a 1 2 3 4 5",
        "c 1 2",
        "c 1 2 3 4",
        "k 1",
        "f -1 7",
        "f +1 7",
        "f 1 x",
        "f\t1 7",
        "f 1,7",
        "k\0",
        "\0",
        "f 1 7\0",
        "\u{e4}",
        "f 1 \u{661}",
    ] {
        session.line(line, "no 7")?;
    }
    session.run(&rt, rt.alloc())
}

#[test]
fn bytes_that_are_no_text(rt: HostRuntime) -> Result<(), Fail> {
    replies_are(
        &rt,
        rt.alloc(),
        b"\xff\nk\x80\nf 1 \xb2\n\x00\x01\x02\nk",
        b"no 7\nno 7\nno 7\nno 7\nkeys 0\n",
    )
}

#[test]
fn refusals_by_number(rt: HostRuntime) -> Result<(), Fail> {
    let mut session = Session::new(rt.alloc());
    session.lines(&[
        ("f 65536 65536", "no 2"),
        ("f 99999 0", "no 2"),
        ("f 65535 65536", "no 3"),
        ("n 65536 0", "no 2"),
        ("n 0 99999", "no 3"),
        ("a 65536 65536 0 9999", "no 2"),
        ("a 0 65536 0 9999", "no 3"),
        ("a 0 65535 2 0", "no 3"),
        ("a 0 0 0 9999", "no 4"),
        ("a 0 0 4097 0", "no 4"),
        ("a 0 0 1 4096", "no 6"),
        ("a 0 0 4096 1", "no 6"),
        ("c 65536 65536 0", "no 2"),
        ("c 0 65535 2", "no 3"),
        ("c 0 0 0", "no 4"),
        ("c 0 0 4097", "no 4"),
        ("k", "keys 0"),
        ("a 0 0 4096 0", "ok 1"),
        ("a 0 4095 2 0", "no 11"),
        ("a 65535 65535 1 4095", "ok 2"),
        ("f 65535 65535", "at 4095 tried 1"),
        ("f 65535 65534", "hole tried 12"),
        ("f 0 4095", "at 4095 tried 13"),
        ("c 0 1 1", "ok 13"),
        ("c 0 1 1", "ok 13"),
        ("n 0 1", "next 2"),
        ("n 65535 0", "next 65535"),
        ("n 1 0", "none"),
        ("k", "keys 13"),
    ])?;
    session.run(&rt, rt.alloc())
}

/// An extent of 4,094 blocks from block 1 on has 22 keys, so that 93 of them leave room for two keys more.
/// A block that joins its neighbour asks for no key of its own.
#[test]
fn more_keys_than_there_is_room_for(rt: HostRuntime) -> Result<(), Fail> {
    let mut session = Session::new(rt.alloc());
    let mut keys = 0u32;
    for file in 0..93 {
        keys = keys.saturating_add(22);
        let line = format!(in rt.alloc(); "a {file} 1 4094 0")?;
        let reply = format!(in rt.alloc(); "ok {keys}")?;
        session.line(line.as_str(), reply.as_str())?;
    }
    session.lines(&[
        ("a 93 1 4094 0", "no 13"),
        ("a 93 1 1 0", "ok 2047"),
        ("a 93 3 1 5", "ok 2048"),
        ("a 93 5 1 0", "no 13"),
        ("a 93 2 1 4", "ok 2048"),
        ("c 0 5 1", "no 13"),
        ("f 0 5", "at 4 tried 2"),
        ("c 0 1 1", "ok 2047"),
        ("c 0 5 1", "ok 2048"),
        ("k", "keys 2048"),
    ])?;
    session.run(&rt, rt.alloc())
}

#[test]
fn a_last_line_without_newline(rt: HostRuntime) -> Result<(), Fail> {
    replies_are(&rt, rt.alloc(), b"", b"")?;
    replies_are(&rt, rt.alloc(), b"k", b"keys 0\n")?;
    replies_are(
        &rt,
        rt.alloc(),
        b"a 1 3 8 103\nf 1 7",
        b"ok 4\nat 107 tried 3\n",
    )?;
    replies_are(&rt, rt.alloc(), b"k\nx", b"keys 0\nno 7\n")?;
    replies_are(&rt, rt.alloc(), b"k\n\n", b"keys 0\nno 7\n")
}

#[test]
fn each_call_has_a_map_of_its_own(rt: HostRuntime) -> Result<(), Fail> {
    replies_are(&rt, rt.alloc(), b"a 1 3 8 103\nk\n", b"ok 4\nkeys 4\n")?;
    replies_are(&rt, rt.alloc(), b"k\nf 1 7\n", b"keys 0\nhole tried 4\n")
}

#[test]
fn an_output_that_is_too_short(rt: HostRuntime) -> Result<(), Fail> {
    is_refused(&rt, rt.alloc(), b"", 4)?;
    is_refused(&rt, rt.alloc(), b"k", 9)?;
    is_refused(&rt, rt.alloc(), b"x\n", 14)?;
    is_refused(&rt, rt.alloc(), b"x\n", 0)?;
    replies_are(&rt, rt.alloc(), b"x\n", b"no 7\n")
}

#[test]
fn the_longest_text(rt: HostRuntime) -> Result<(), Fail> {
    let mut text = repeated(rt.alloc(), b"k\n", 4096)?;
    let due = repeated(rt.alloc(), b"keys 0\n", 4096)?;
    assert_eq!(rt; text.len(), LONGEST_INPUT);
    replies_are(&rt, rt.alloc(), text.as_slice(), due.as_slice())?;
    is_refused(&rt, rt.alloc(), text.as_slice(), 5 * LONGEST_INPUT + 4)?;
    text.push(b'k')?;
    is_refused(&rt, rt.alloc(), text.as_slice(), 5 * LONGEST_INPUT + 10)
}

/// 8,192 bytes are 1,365 lines of six bytes and the first two bytes of one more.
#[test]
fn a_text_that_is_cut_in_a_line(rt: HostRuntime) -> Result<(), Fail> {
    let mut text = repeated(rt.alloc(), b"n 1 7\n", 1366)?;
    text.truncate(LONGEST_INPUT);
    let mut due = repeated(rt.alloc(), b"none\n", 1365)?;
    due.extend_from_slice(b"no 7\n")?;
    replies_are(&rt, rt.alloc(), text.as_slice(), due.as_slice())
}
