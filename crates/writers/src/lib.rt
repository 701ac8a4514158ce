// The lines that the gateway writes for a command or a reply, each with its length known before it is written. A line
// goes in whole or not at all.
#![tactic(auto)]

ghost use Rattle.std.specs.Prelude.{◌≡◌, [], ◌∷◌, ◌++◌, ◌≤◌, length};
ghost use Rattle.rules.specs.Commands.{commas, pasv_line, port_line};
ghost use Rattle.rules.specs.Replies.{extended_passive_line, cannot_open_line};
ghost use Rattle.output.specs.Buffer.{Put, PutInRoom};

use output::{decimal_length, has_room, put, put_decimal};
use rules::IPV4;

const PASV: &[u8] = b"PASV\r\n";

const CANNOT_OPEN: &[u8] = b"425 Can't open data connection.\r\n";

// The 229 line before its port, and after it.
const EXTENDED_PASSIVE: &[u8] = b"229 Entering Extended Passive Mode (|||";

const CLOSING: &[u8] = b"|)\r\n";

// The PORT line before its numbers.
const PORT: &[u8] = b"PORT ";

// A fixed line has two functions of one line each, whose clauses name it: one over any text would name none.
pub fn pasv_length() -> usize
    ensures { result ≡ length pasv_line }
{
    PASV.len()
}

pub fn put_pasv(out: &mut [u8], at: usize) -> usize
    ensures { Put out.old at pasv_line result out.new }
{
    put(out, at, PASV)
}

pub fn extended_passive_length(port: u16) -> usize
    ensures { result ≡ length (extended_passive_line port) }
{
    EXTENDED_PASSIVE.len() + decimal_length(port) + CLOSING.len()
}

pub fn put_extended_passive(out: &mut [u8], at: usize, port: u16) -> usize
    ensures { Put out.old at (extended_passive_line port) result out.new }
{
    if !has_room(out.len(), at, extended_passive_length(port)) {
        return at;
    }
    let mut next = put(out, at, EXTENDED_PASSIVE);
    next = put_decimal(out, next, port);
    put(out, next, CLOSING)
}

pub fn cannot_open_length() -> usize
    ensures { result ≡ length cannot_open_line }
{
    CANNOT_OPEN.len()
}

pub fn put_cannot_open(out: &mut [u8], at: usize) -> usize
    ensures { Put out.old at cannot_open_line result out.new }
{
    put(out, at, CANNOT_OPEN)
}

pub fn port_line_length(mapped: [u8; IPV4], port: u16) -> usize
    ensures { result ≡ length (port_line mapped port) }
{
    let [high, low] = port.to_be_bytes();
    let numbers = pair_length(mapped[0], mapped[1])
        + pair_length(mapped[2], mapped[3])
        + pair_length(high, low);
    // two commas between the pairs, CR LF
    PORT.len() + numbers + 2 + 2
}

pub fn put_port_line(out: &mut [u8], at: usize, mapped: [u8; IPV4], port: u16) -> usize
    ensures { Put out.old at (port_line mapped port) result out.new }
{
    if !has_room(out.len(), at, port_line_length(mapped, port)) {
        return at;
    }
    let [high, low] = port.to_be_bytes();
    let mut next = put(out, at, PORT);
    next = put_pair(out, next, mapped[0], mapped[1], b",");
    next = put_pair(out, next, mapped[2], mapped[3], b",");
    put_pair(out, next, high, low, b"\r\n")
}

fn pair_length(a: u8, b: u8) -> usize
    ensures result { result ≡ length (commas (a ∷ b ∷ [])) }
    ensures most { result ≤ 11 }
{
    decimal_length(u16::from(a)) + 1 + decimal_length(u16::from(b))
}

// Two numbers with a comma between and the octets after them, where all have room.
fn put_pair(out: &mut [u8], at: usize, a: u8, b: u8, after: &[u8]) -> usize
    ensures { PutInRoom out.old at (commas (a ∷ b ∷ []) ++ after.now) result out.new }
{
    let mut next = put_decimal(out, at, u16::from(a));
    next = put(out, next, b",");
    next = put_decimal(out, next, u16::from(b));
    put(out, next, after)
}
