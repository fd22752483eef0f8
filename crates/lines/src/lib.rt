//! Lines of text and their decimal fields.

#![tactic(auto)]

ghost use Rattle.std.specs.Prelude.{◌≡◌, ◌-◌, ◌==◌, position, length};
ghost use Rattle.std.specs.Option.{option_map};
ghost use Rattle.lines.specs.Lines.{before, behind, NextLine, unread, shaped, number, fields};
ghost use Rattle.std.specs.Iterator.{at_most};

/// A text cut at a byte: what stands before the first such byte, and what stands behind it, if it is there.
#[derive(Clone, Copy)]
pub struct Parts<'a> {
    pub front: &'a [u8],
    pub rest: Option<&'a [u8]>,
}

/// Where the first byte of a text that is `at` stands.
fn place_of(text: &[u8], at: u8) -> Option<usize>
    ensures { result ≡ position (λ c. c == «at») text.now }
{
    text.iter().position(|byte| *byte == at)
}

/// Cuts a text at the first byte that is `at`.
pub fn cut(text: &[u8], at: u8) -> Parts<'_>
    ensures front { result.front.now ≡ before «at» text.now }
    ensures rest { option_map (λ x. x.now) result.rest ≡ behind «at» text.now }
{
    match place_of(text, at) {
        Some(end) => Parts {
            front: &text[..end],
            rest: Some(&text[end + 1..]),
        },
        None => Parts {
            front: text,
            rest: None,
        },
    }
}

/// Reads a text line by line: each line ends at a newline, and a last one may lack it.
/// It borrows the text and walks it by a position, so that nothing is copied.
#[derive(Drop)]
pub struct LineReader<'a> {
    input: &'a [u8],
    at: usize,
}

impl<'a> LineReader<'a> {
    /// A reader at the front of a text.
    pub fn new(input: &'a [u8]) -> LineReader<'a>
        ensures { unread result ≡ input.now }
    {
        LineReader { input, at: 0 }
    }
}

impl<'a> Iterator for LineReader<'a> {
    type Item = &'a [u8];

    ghost next_gives = { NextLine };

    ghost remaining = { λ r. at_most (length r.input.now - r.«at») };

    fn next(&mut self) -> Option<&'a [u8]> {
        if self.at >= self.input.len() {
            return None;
        }
        let line = cut(&self.input[self.at..], b'\n').front;
        self.at += line.len() + 1;
        Some(line)
    }
}

/// A field has at most so many digits.
const MOST_DIGITS: usize = 5;

/// Whether a field has one to five bytes, and no needless zero in front.
fn is_shaped(field: &[u8]) -> bool
    ensures { result ≡ shaped field.now }
{
    match field {
        [] | [b'0', _, ..] => false,
        _ => field.len() <= MOST_DIGITS,
    }
}

/// The number that a decimal field of one to five digits stands for, if it has no needless zero in front.
pub fn number_of(field: &[u8]) -> Option<u32>
    ensures { result ≡ number field.now }
{
    if !is_shaped(field) {
        return None;
    }
    let mut value = 0;
    for digit in field {
        if !digit.is_ascii_digit() {
            return None;
        }
        value = 10 * value + u32::from(*digit - b'0');
    }
    Some(value)
}

/// The numbers of a line's fields, where it has just K of them, with one space between each and the next.
/// No line is one that has no field left.
pub fn fields_of<const K: usize>(line: Option<&[u8]>) -> Option<[u32; K]>
    ensures { result ≡ fields K (option_map (λ x. x.now) line.entry) }
{
    let mut numbers = [0; K];
    let mut rest = line;
    for number in numbers.iter_mut() {
        let parts = cut(rest?, b' ');
        *number = number_of(parts.front)?;
        rest = parts.rest;
    }
    match rest {
        Some(_) => None,
        None => Some(numbers),
    }
}
