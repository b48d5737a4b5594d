//! Escapes, a command at a time.
ghost use Rattle.std.specs.Prelude.{◌≡◌, ◌<◌, ◌≤◌, [], ◌∷◌, length, MatchOption, IfSome, Some, None, if◌then◌else◌};
ghost use Rattle.escapes.specs.Escapes.{alone, chain, minus_length, language, escape, escape_length};
ghost use Rattle.hpgl_text.specs.Bytes.{begins_with};
ghost use Rattle.escapes.specs.declared.command.Sign.TheVariants.{Unsigned, Minus};
ghost use Rattle.escapes.specs.Views.{left, all_of};

use crate::bytes::{after, begins_group, byte_at, is_alone, is_large_letter, is_small_letter};
use crate::command::{Command, Sign};
use crate::finished::finish;
use crate::value::{first_integer, first_value};

/// A group of commands that goes on.
#[derive(Clone, Copy)]
pub struct Chain {
    /// The byte that begins it.
    pub group: u8,
    /// The small letter after that.
    pub parameter: Option<u8>,
}

/// A command of an escape, and what follows it.
#[derive(Clone, Copy)]
pub struct Step<'a> {
    /// The command.
    pub command: Command<'a>,
    /// The group, if it goes on.
    pub more: Option<Chain>,
    /// The text after the command and its data.
    pub rest: &'a [u8],
}

impl<'a> Step<'a> {
    /// The next command of the escape. None after the last one, and if the group breaks off: then the escape ends where the
    /// rest begins.
    pub fn following(self) -> Option<Step<'a>>
        ensures value { MatchOption result
            (left self.entry.more self.entry.rest.now ≡ ([], self.entry.rest.now))
            (λ next. left self.entry.more self.entry.rest.now ≡ all_of next) }
        ensures shorter { IfSome result (λ next. length next.rest.now < length self.entry.rest.now) }
    {
        match self.more {
            None => None,
            Some(group) => next_step(group, self.rest),
        }
    }

    /// The text after the last command of the escape.
    pub fn end(self) -> &'a [u8]
        ensures value { result.now ≡ (all_of self.entry).1 }
        ensures within { length result.now ≤ length self.entry.rest.now }
    {
        let mut last = self;
        'commands: while let Some(next) = last.following() {
            last = next;
        }
        last.rest
    }
}

/// The first command of an escape, from the byte after the ESC on. None if the ESC is a stray, or if a device control follows
/// (`.`).
pub fn first_step<'a>(text: &'a [u8]) -> Option<Step<'a>>
    ensures value { MatchOption result (escape text.now ≡ None) (λ s. escape text.now ≡ Some (all_of s)) }
    ensures shorter { IfSome result (λ s. length s.rest.now < length text.now) }
{
    let first = byte_at(text, 0);
    if is_alone(first) {
        return Some(alone(first, after(text, 1)));
    }
    if first == b'%' {
        return first_language(after(text, 1));
    }
    if !begins_group(first) {
        return None;
    }
    let parameter = byte_at(text, 1);
    if is_small_letter(parameter) {
        return next_step(
            Chain {
                group: first,
                parameter: Some(parameter),
            },
            after(text, 2),
        );
    }
    next_step(
        Chain {
            group: first,
            parameter: None,
        },
        after(text, 1),
    )
}

// The next command of a group that goes on. None if it breaks off.
fn next_step<'a>(of: Chain, text: &'a [u8]) -> Option<Step<'a>>
    ensures value { MatchOption result (chain (length text.now) of.group of.parameter text.now ≡ ([], text.now))
        (λ s. chain (length text.now) of.group of.parameter text.now ≡ all_of s) }
    ensures shorter { IfSome result (λ s. length s.rest.now < length text.now) }
{
    let value = first_value(text);
    let letter = byte_at(value.rest, 0);
    let goes_on = is_small_letter(letter);
    if !goes_on && !is_large_letter(letter) {
        return None;
    }
    let done = finish(
        Some(of.group),
        of.parameter,
        value.sign,
        value.millionths,
        value.rest,
    );
    Some(Step {
        command: done.command,
        more: more_of(goes_on, of),
        rest: done.rest,
    })
}

/// How many bytes an escape takes, from the byte after the ESC on. None if the ESC is a stray, or if a device control follows.
pub fn escape_length(text: &[u8]) -> Option<usize>
    ensures { result ≡ escape_length text.now }
{
    match first_step(text) {
        None => None,
        Some(first) => Some(text.len() - first.end().len()),
    }
}

// The group, if it goes on.
fn more_of(goes_on: bool, of: Chain) -> Option<Chain>
    ensures { result ≡ (if goes_on then Some of else None) }
{
    if goes_on { Some(of) } else { None }
}

// A byte that is an escape of its own.
fn alone<'a>(letter: u8, rest: &'a [u8]) -> Step<'a>
    ensures value { all_of result ≡ (alone letter ∷ [], rest.now) }
    ensures rest { result.rest.now ≡ rest.now }
{
    Step {
        command: Command {
            group: None,
            parameter: None,
            sign: Sign::Unsigned,
            millionths: 0,
            letter,
            input: &[],
        },
        more: None,
        rest,
    }
}

// A change between languages, from the byte after the % on.
fn first_language<'a>(text: &'a [u8]) -> Option<Step<'a>>
    ensures value { MatchOption result (language text.now ≡ None) (λ s. language text.now ≡ Some (all_of s)) }
    ensures shorter { IfSome result (λ s. length s.rest.now < length text.now) }
{
    let integer = first_integer(after(text, minus_count(text)));
    let letter = byte_at(integer.rest, 0);
    if !letter.is_ascii_alphabetic() && letter != b'@' {
        return None;
    }
    let done = finish(
        Some(b'%'),
        None,
        minus_sign(text),
        integer.value * 1_000_000,
        integer.rest,
    );
    Some(Step {
        command: done.command,
        more: None,
        rest: done.rest,
    })
}

// How many bytes a minus sign takes that the text begins with.
fn minus_count(text: &[u8]) -> usize
    ensures { result ≡ minus_length text.now }
{
    if byte_at(text, 0) == b'-' { 1 } else { 0 }
}

// The sign of a number that may begin with a minus sign.
fn minus_sign(text: &[u8]) -> Sign
    ensures { result ≡ (if begins_with "-" text.now then Minus else Unsigned) }
{
    if byte_at(text, 0) == b'-' {
        Sign::Minus
    } else {
        Sign::Unsigned
    }
}
