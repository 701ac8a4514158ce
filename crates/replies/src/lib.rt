// What a server line is to its reply, and the 227 reader.
#![tactic(auto)]

ghost use Rattle.std.specs.Prelude.{◌≡◌, Some, None, ◌≤◌, ◌<◌, length, drop};
ghost use Rattle.rules.specs.Octets.{choose};
ghost use Rattle.rules.specs.Replies.{starts_with_code, reply_code, reply_end, line_outside, line_inside, reply_line};
ghost use Rattle.rules.specs.Replies.{opening_after, numbers, passive_at, passive_reply};
ghost use Rattle.replies.specs.Numbers.{number_at};

use rules::{PassiveReply, ReplyLine};

// The code that a content starts with, if it does: a digit 1 to 5 and two digits.
fn code_of(content: &[u8]) -> Option<u32>
    ensures { result ≡ choose (starts_with_code content.now) (Some (reply_code content.now)) None }
{
    let [first, second, third, ..] = content else {
        return None;
    };
    if !(b'1'..=b'5').contains(first) || !second.is_ascii_digit() || !third.is_ascii_digit() {
        return None;
    }
    let tens = u32::from(*second - b'0');
    Some(u32::from(*first - b'0') * 100 + tens * 10 + u32::from(*third - b'0'))
}

// A line that ends a reply, by its first octet.
fn reply_end(content: &[u8]) -> ReplyLine
    requires { 0 < length content.now }
    ensures { result ≡ reply_end content.now }
{
    if content[0] == b'1' {
        ReplyLine::Preliminary
    } else {
        ReplyLine::Final
    }
}

// A line where no reply is open.
fn line_outside(content: &[u8]) -> ReplyLine
    ensures { result ≡ line_outside content.now }
{
    let Some(code) = code_of(content) else {
        return ReplyLine::StandsAlone;
    };
    // A bare code is one with a space.
    match content.get(3).copied().unwrap_or(b' ') {
        b' ' => reply_end(content),
        b'-' => ReplyLine::Opens(code),
        _ => ReplyLine::StandsAlone,
    }
}

// A line in a reply that this code opened.
fn line_inside(opening: u32, content: &[u8]) -> ReplyLine
    ensures { result ≡ line_inside opening content.now }
{
    if code_of(content) == Some(opening) && content.get(3).copied() == Some(b' ') {
        reply_end(content)
    } else {
        ReplyLine::Belongs
    }
}

// What a server line with this content is, in the reply that this code opened, or in none where it is 0.
pub fn reply_line(opening: u32, content: &[u8]) -> ReplyLine
    ensures { result ≡ reply_line opening content.now }
{
    if opening == 0 {
        line_outside(content)
    } else {
        line_inside(opening, content)
    }
}

// The code that opened the reply in which the next line stands, or 0.
pub fn opening_after(opening: u32, reply: ReplyLine) -> u32
    ensures { result ≡ opening_after opening reply }
{
    match reply {
        ReplyLine::Opens(code) => code,
        ReplyLine::Belongs => opening,
        ReplyLine::Preliminary | ReplyLine::Final | ReplyLine::StandsAlone => 0,
    }
}

// Reads a whole run of 1 to 3 digits, 0 to 255, at a position: its value, and where its digits end.
fn number_at(s: &[u8], at: usize) -> Option<(u8, usize)>
    requires { at ≤ length s.now }
    ensures { result ≡ number_at s.now at }
{
    let end = octets::digits_end(s, at);
    let n = octets::read_number(&s[at..end], 3, 0, 255)?;
    Some((n as u8, end))
}

// The address and the port of the six numbers that stand at `from`.
fn named_at(s: &[u8], from: usize) -> Option<PassiveReply>
    requires { from ≤ length s.now }
    ensures { result ≡ passive_at (numbers 5 (drop from s.now)) }
{
    let mut at = from;
    // The numbers that a comma follows.
    let mut read = [0u8; 5];
    for i in 0..5 {
        let (n, end) = number_at(s, at)?;
        if end >= s.len() || s[end] != b',' {
            return None;
        }
        read[i] = n;
        at = end + 1;
    }
    let (sixth, _) = number_at(s, at)?;
    let port = u16::from_be_bytes([read[4], sixth]);
    if port == 0 {
        return None;
    }
    let address = [read[0], read[1], read[2], read[3]];
    Some(PassiveReply { address, port })
}

// What a line with this content names, if it is a 227 that can be read.
pub fn passive_reply(content: &[u8]) -> Option<PassiveReply>
    ensures { result ≡ passive_reply content.now }
{
    let text = content.strip_prefix(b"227 ")?;
    let from = octets::first_digit(text, 0);
    named_at(text, from)
}
