// The lines of a session file's report, field by field. A line goes in whole or not at all.
#![tactic(auto)]

ghost use Rattle.std.specs.Prelude.{◌≡◌, ◌++◌, ◌+◌, ◌<◌, leb, length};
ghost use Rattle.rules.specs.Octets.{decimal};
ghost use Rattle.output.specs.Buffer.{Put, PutInRoom};
ghost use Rattle.fields.specs.Report.{hex_glyph, stands_as_itself, shown, field, entry_line, header_line};
ghost use Rattle.fields.specs.Parts.{room_after, done_of};

use output::{decimal_length, put, put_decimal};

#[tactic(auto, unfolding(crate::specs::Report::stands_as_itself))]
fn stands_as_itself(x: u8) -> bool
    ensures { result ≡ stands_as_itself x }
{
    match x {
        b'-' | b'\\' => false,
        _ => x.is_ascii_graphic(),
    }
}

// A lower-case hex digit.
fn hex_digit(n: u8) -> u8
    requires { n < 16 }
    ensures { result ≡ hex_glyph n }
{
    if n < 10 { b'0' + n } else { b'a' + n - 10 }
}

fn shown_length(x: u8) -> usize
    ensures { result ≡ length (shown x) }
{
    if stands_as_itself(x) { 1 } else { 3 }
}

// An octet as itself, or as a backslash and two hex digits.
fn put_shown(out: &mut [u8], at: usize, x: u8) -> usize
    ensures { Put out.old at (shown x) result out.new }
{
    if stands_as_itself(x) {
        return put(out, at, &[x]);
    }
    put(out, at, &[b'\\', hex_digit(x / 16), hex_digit(x % 16)])
}

// The room that is left after a field, where it fits. Counting down, it can not run over however long the octets are.
fn room_after(room: usize, octets: &[u8]) -> Option<usize>
    ensures { result ≡ room_after room (length (field octets.now)) }
{
    if octets.is_empty() {
        return room.checked_sub(1);
    }
    let mut left = room;
    for x in octets {
        left = left.checked_sub(shown_length(*x))?;
    }
    Some(left)
}

// All of a field from `at` on, or nothing; the next position.
pub fn put_field(out: &mut [u8], at: usize, octets: &[u8]) -> usize
    ensures { Put out.old at (field octets.now) result out.new }
{
    if octets.is_empty() {
        return put(out, at, b"-");
    }
    let Some(room) = out.len().checked_sub(at) else {
        return at;
    };
    if room_after(room, octets).is_none() {
        return at;
    }
    let mut next = at;
    for x in octets {
        next = put_shown(out, next, *x);
    }
    next
}

// A number and the octets after it, where both have room.
fn put_number(out: &mut [u8], at: usize, n: u16, after: &[u8]) -> usize
    ensures { PutInRoom out.old at (decimal n ++ after.now) result out.new }
{
    let next = put_decimal(out, at, n);
    put(out, next, after)
}

// A field and the octets after it, where both have room.
fn put_part(out: &mut [u8], at: usize, octets: &[u8], after: &[u8]) -> usize
    ensures { PutInRoom out.old at (field octets.now ++ after.now) result out.new }
{
    let next = put_field(out, at, octets);
    put(out, next, after)
}

// The report's first line, or nothing where it does not fit; the next position.
pub fn put_header(out: &mut [u8], at: usize, count: u16) -> usize
    ensures { Put out.old at (header_line count) result out.new }
{
    if out.len() < at {
        return at;
    }
    // the text before the count, the count, LF
    if out.len() - at < 13 + decimal_length(count) + 1 {
        return at;
    }
    let next = put(out, at, b"FTP64 REPORT ");
    put_number(out, next, count, b"\n")
}

// Whether the line of an entry has room from `at` on in a buffer of this size. A line tells the number of an answer, so
// it is a number here.
pub fn line_fits(
    size: usize,
    at: usize,
    n: u16,
    taken: u16,
    number: u8,
    to_server: &[u8],
    to_client: &[u8],
) -> bool
    ensures { let line = entry_line n (done_of taken number to_server.now to_client.now) in
        result ≡ leb (at + length line) size }
{
    // three numbers, four spaces, LF
    let numbers = decimal_length(n) + decimal_length(taken) + decimal_length(u16::from(number)) + 5;
    if size < at || size - at < numbers {
        return false;
    }
    let first = room_after(size - at - numbers, to_server);
    let Some(left) = first else {
        return false;
    };
    room_after(left, to_client).is_some()
}

// The line of an entry, or nothing where it does not fit; the next position.
pub fn put_entry_line(
    out: &mut [u8],
    at: usize,
    n: u16,
    taken: u16,
    number: u8,
    to_server: &[u8],
    to_client: &[u8],
) -> usize
    ensures { let line = entry_line n (done_of taken number to_server.now to_client.now) in
        Put out.old at line result out.new }
{
    if !line_fits(out.len(), at, n, taken, number, to_server, to_client) {
        return at;
    }
    let mut next = put_number(out, at, n, b" ");
    next = put_number(out, next, taken, b" ");
    next = put_number(out, next, u16::from(number), b" ");
    next = put_part(out, next, to_server, b" ");
    put_part(out, next, to_client, b"\n")
}
