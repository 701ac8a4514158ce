// Writes the report of a session file: the one that is named, or standard input.
#![tactic(auto)]

ghost use Rattle.std.specs.Prelude.{◌≡◌, length};
ghost use Rattle.report.specs.Whole.{most_part};

use places::first_octets;
use report::NoPart;
use std::env::{Env, FillError};
use std::io::Read;
use std::rt::Files;
use std::{fs, io, str};

// One octet more than the largest session file has: the count, 48 entries of the table, a setup and 47 bodies of 1,024.
// No more is looked at: a longer file is refused as these octets are (`longer-same` of the crate files).
const LOOKED_AT: u64 = 48348;

// No name that the system takes is longer.
const LONGEST_NAME: usize = 4096;

fn main(rt: HostRuntime) -> io::Result<()> {
    let mut path = [0u8; LONGEST_NAME];
    if has_second_word(&rt, &mut path) {
        return rt.eprintln("usage: replay [FILE]");
    }
    match rt.arg(1, &mut path) {
        Ok(n) => replay_named(&rt, first_octets(&path, n)),
        Err(FillError::NotPresent) => replay_input(&rt, rt.reader(), "standard input"),
        Err(FillError::TooLong) => rt.eprintln("FILE: File name too long"),
    }
}

fn has_second_word(rt: &impl Env, buffer: &mut [u8]) -> bool {
    !matches!(rt.arg(2, buffer), Err(FillError::NotPresent))
}

fn replay_named(rt: &(impl Files + Print + Eprint + AllocGlobal), path: &[u8]) -> io::Result<()> {
    let Ok(name) = str::from_utf8(path) else {
        return rt.eprintln("FILE: File name is not UTF-8");
    };
    match fs::open(rt, name) {
        Ok(file) => replay_input(rt, file, name),
        Err(error) => complain(rt, name, error),
    }
}

fn replay_input(
    rt: &(impl Print + Eprint + AllocGlobal),
    input: impl Read + Drop,
    name: &str,
) -> io::Result<()> {
    match streams::read_most(rt.alloc(), input, LOOKED_AT) {
        Ok(file) => replay_file(rt, file.as_slice()),
        Err(error) => complain(rt, name, error),
    }
}

// Says on standard error what went wrong with something, in the words that the system has for it.
fn complain(rt: &(impl Eprint + AllocGlobal), name: &str, error: io::Error) -> io::Result<()> {
    let text = format!(in rt.alloc(); "{error}")?;
    let words = without_number(text.as_str());
    eprintln!(rt; "{name}: {words}")
}

// The words of an error of the system, behind which its number stands.
fn without_number(text: &str) -> &str {
    match text.split_once(" (os error ") {
        Some((words, _)) => words,
        None => text,
    }
}

// The header or the refusal, then a line for each entry. Each part has room, and the last is behind the last entry
// (`room-enough`, `goes_on` of the crate report).
fn replay_file(rt: &(impl Print + Eprint + AllocGlobal), file: &[u8]) -> io::Result<()> {
    let mut out = part_buffer();
    let mut next = report::start(file, &mut out);
    while let Ok(part) = next {
        if let Err(error) = rt.write_all(first_octets(&out, part.written)) {
            return complain(rt, "standard output", error);
        }
        next = report::next(file, part.replay, &mut out);
    }
    match next {
        Err(NoPart::NoRoom) => rt.eprintln("the report is cut short"),
        _ => Ok(()),
    }
}

// Room for the longest part of a report. The `ensures` gives only the length.
fn part_buffer() -> [u8; 98324]
    ensures size { 98324 ≡ length result }
    ensures most { most_part ≡ length result }
{
    [0; 98324]
}
