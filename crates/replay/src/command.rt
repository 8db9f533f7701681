// What a line asks for.
ghost use Rattle.std.specs.Prelude.{◌≡◌, IfOk, map, codes};
ghost use Rattle.replay.specs.Commands.{number_behind, number_of, site_of, operation_in, named, after_word, connection, filling, entry, command_in, command_of};

use journal::record::Record;
use operation::entry::Entry;
use operation::operation::Operation;
use std::alloc::{AllocError, Global};

#[derive(Clone, Copy, PartialEq, Eq, Debug)]
pub enum Command {
    Open,
    Show,
    Append(Record),
    Commit,
    // So many entries are appended, with a commit behind each that many.
    Fill { count: u32, every: u32 },
}

// The number that digits write behind those of `number`, if they are digits and 32 bits hold it.
#[tactic(auto, unfolding(crate::specs::Commands::number_behind))]
fn number_behind(number: u32, digits: &[u8]) -> Option<u32>
    ensures { result ≡ number_behind number digits.now }
{
    match digits {
        [] => Some(number),
        [digit @ b'0'..=b'9', rest @ ..] => {
            let digit = u32::from(*digit - b'0');
            number_behind(number.checked_mul(10)?.checked_add(digit)?, rest)
        }
        _ => None,
    }
}

// The decimal number that a word is.
fn parse_number(word: &[u8]) -> Option<u32>
    ensures { result ≡ number_of word.now }
{
    if word.is_empty() {
        return None;
    }
    number_behind(0, word)
}

fn parse_site(word: &[u8]) -> Option<u8>
    ensures { result ≡ site_of word.now }
{
    u8::try_from(parse_number(word)?).ok()
}

fn parse_operation(site: u8, words: &[&[u8]]) -> Option<Operation>
    ensures { result ≡ operation_in site (map (λ w. w.now) words.now) }
{
    match words {
        [b"nothing"] => Some(Operation::Noop { site }),
        [b"insert", place, letter] => Some(Operation::Insert {
            site,
            place: parse_number(place)?,
            letter: parse_number(letter)?,
        }),
        [b"delete", place] => Some(Operation::Delete {
            site,
            place: parse_number(place)?,
        }),
        _ => None,
    }
}

// A command that is a word alone.
fn parse_word(word: &[u8]) -> Option<Command>
    ensures { result ≡ named word.now }
{
    match word {
        b"open" => Some(Command::Open),
        b"show" => Some(Command::Show),
        b"commit" => Some(Command::Commit),
        _ => None,
    }
}

fn parse_connection(verb: &[u8], number: &[u8]) -> Option<Command>
    ensures { result ≡ after_word (codes "connection") verb.now (connection number.now) }
{
    match verb {
        b"connection" => Some(Command::Append(Record::Connection(parse_number(number)?))),
        _ => None,
    }
}

fn parse_filling(verb: &[u8], count: &[u8], every: &[u8]) -> Option<Command>
    ensures { result ≡ after_word (codes "fill") verb.now (filling count.now every.now) }
{
    match verb {
        b"fill" => Some(Command::Fill {
            count: parse_number(count)?,
            every: parse_number(every)?,
        }),
        _ => None,
    }
}

fn parse_entry(verb: &[u8], place: &[u8], site: &[u8], rest: &[&[u8]]) -> Option<Command>
    ensures { result ≡ after_word (codes "entry") verb.now (entry place.now site.now (map (λ w. w.now) rest.now)) }
{
    match verb {
        b"entry" => Some(Command::Append(Record::Entry(Entry {
            place: parse_number(place)?,
            op: parse_operation(parse_site(site)?, rest)?,
        }))),
        _ => None,
    }
}

fn parse_words(words: &[&[u8]]) -> Option<Command>
    ensures { result ≡ command_in (map (λ w. w.now) words.now) }
{
    match words {
        [] => None,
        [word] => parse_word(word),
        [verb, number] => parse_connection(verb, number),
        [verb, count, every] => parse_filling(verb, count, every),
        [verb, place, site, rest @ ..] => parse_entry(verb, place, site, rest),
    }
}

// The command on a line, if it is one: words with a space between each two.
pub(crate) fn parse(heap: Global, line: &[u8]) -> Result<Option<Command>, AllocError>
    ensures { IfOk result (λ c. c ≡ command_of line.now) }
{
    let words: Vec<&[u8]> = line.split(|b| *b == b' ').collect(heap)?;
    Ok(parse_words(words.as_slice()))
}
