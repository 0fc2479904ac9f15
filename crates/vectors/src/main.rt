// Runs cases that an independent program made over unpack and both fillings, and prints how many there are and which differ.
#![tactic(auto)]

use dayfile::{Room, unpack};
use dayformat::Lengths;
use refusals::Refusal;
use std::fs;
use std::str::SplitWhitespace;
use timetable::book::HeadwayBook;
use timetable::records::{Connection, Footpath, Line};
use timetable::table::DayTable;

// The most that is counted, of cases and of those that differ.
const MOST: usize = u32::MAX as usize;

// How many bytes of a file are read, and how many records they hold at the most: with more room than that no list is ever full.
const BYTES: usize = 1024;

const RECORDS: usize = BYTES / 8;

// A refusal's number and place.
type Told = (u8, Option<usize>);

// What a case comes to: the refusal of unpacking, how many records of each kind there were, and the refusals of the table and the book. A refused file has no records, and its table and book are not refused.
#[derive(Clone, Copy, Debug, Default, PartialEq, Eq)]
struct Outcome {
    unpacking: Option<Told>,
    lengths: Lengths,
    table: Option<Told>,
    book: Option<Told>,
}

fn told(refusal: Refusal) -> Told {
    (refusal.number(), refusal.place())
}

fn number(word: Option<&str>) -> Option<usize> {
    word?.parse::<usize>().ok()
}

// Writes the bytes that a word writes in hexadecimal, but for an odd last digit and what there is no room for, and answers them. A word with anything but 0 to 9 and a to f stands for none.
fn decode<'a>(word: &str, file: &'a mut [u8]) -> Option<&'a [u8]> {
    if !word.bytes().all(|c| matches!(c, b'0'..=b'9' | b'a'..=b'f')) {
        return None;
    }
    let size = file.len().min(word.len() / 2);
    let bytes = &mut file[..size];
    hex::decode_to_slice(&word.as_bytes()[..size * 2], bytes).ok()?;
    Some(bytes)
}

// The answer of our calls to a file in hexadecimal, with the room of three lists.
fn answer(word: &str, room: &mut Room, table: &mut DayTable, book: &mut HeadwayBook) -> Outcome {
    let mut file = [0u8; BYTES];
    let file = decode(word, &mut file).unwrap_or_default();
    match unpack(file, room) {
        Ok(lengths) => {
            let lists = room.front(&lengths);
            let of_table = table.fill(lists.connections, lists.footpaths);
            let of_book = book.fill(lists.lines);
            Outcome {
                unpacking: None,
                lengths,
                table: of_table.err().map(told),
                book: of_book.err().map(told),
            }
        }
        Err(refusal) => Outcome {
            unpacking: Some(told(refusal)),
            ..Outcome::default()
        },
    }
}

// Three numbers, each 0 where there is none.
fn numbers(mut words: SplitWhitespace) -> Lengths {
    Lengths {
        connections: number(words.next()).unwrap_or(0),
        footpaths: number(words.next()).unwrap_or(0),
        lines: number(words.next()).unwrap_or(0),
    }
}

// A case, which is a file in hexadecimal, a word and the room of the three lists.
fn asked(case: &str) -> (&str, Lengths) {
    let mut words = case.split_whitespace();
    let file = words.next().unwrap_or("");
    let _room = words.next();
    (file, numbers(words))
}

// A refusal's number and place, written as `refused 14 2`; the number 0 with no place is no refusal.
fn refused(text: &str) -> Option<Told> {
    let mut words = text.split_whitespace();
    words.find(|word| *word == "refused")?;
    let refusal = number(words.next()).unwrap_or(0).min(255) as u8;
    match (refusal, number(words.next())) {
        (0, None) => None,
        told => Some(told),
    }
}

// How many records there are of each kind, written as `lengths 3 2 1`.
fn lengths(text: &str) -> Lengths {
    let mut words = text.split_whitespace();
    if words.next() != Some("lengths") {
        return Lengths::default();
    }
    numbers(words)
}

// The answer that a case should have.
fn expected(text: &str) -> Outcome {
    let mut parts = text.split(';');
    let unpacked = parts.next().unwrap_or("");
    Outcome {
        unpacking: refused(unpacked),
        lengths: lengths(unpacked),
        table: refused(parts.next().unwrap_or("")),
        book: refused(parts.next().unwrap_or("")),
    }
}

fn main(rt: HostRuntime) -> anyhow::Result<()> {
    let mut table = DayTable::new(rt.alloc())?;
    let mut book = HeadwayBook::new(rt.alloc())?;
    let text = fs::read_to_string(&rt, "files.txt")?;
    // Every case has its room in these lists.
    let mut connections = [Connection::default(); RECORDS];
    let mut footpaths = [Footpath::default(); RECORDS];
    let mut lines = [Line::default(); RECORDS];
    let mut cases = 0;
    let mut differing = 0u32;
    for (i, line) in text.lines().enumerate() {
        cases = i.saturating_add(1).min(MOST);
        let (case, text) = line.split_once(" = ").unwrap_or((line, ""));
        let (word, n) = asked(case);
        let mut room = Room {
            connections: &mut connections[..n.connections.min(RECORDS)],
            footpaths: &mut footpaths[..n.footpaths.min(RECORDS)],
            lines: &mut lines[..n.lines.min(RECORDS)],
        };
        if answer(word, &mut room, &mut table, &mut book) != expected(text) {
            differing = differing.saturating_add(1);
            println!(rt; "case {cases} differs")?;
        }
    }
    println!(rt; "{cases} cases, {differing} differ")?;
    Ok(())
}
