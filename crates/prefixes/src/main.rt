// Puts IPv4 addresses behind prefixes and takes them out again, as the lines of its standard input ask: a prefix, `/`
// and its length, a space and an IPv4 address behind `::`, where it is the end of an IPv6 text; or an IPv6 address, `/`
// and the length of its prefix. For each it writes the number of the answer and the octets of the address.
#![tactic(auto)]

use rules::IPV6;
use std::io;
use std::io::{BufWriter, Write};

// How many octets of its input it reads at most.
const MOST: u64 = 65536;

fn main(rt: HostRuntime) -> io::Result<()> {
    let text = streams::read_most(rt.alloc(), rt.reader(), MOST)?;
    let mut out = BufWriter::new(rt.alloc(), io::writer(&rt))?;
    print_lines(&mut out, text.as_slice())?;
    out.flush()
}

fn print_lines(out: &mut impl Write, text: &[u8]) -> io::Result<()> {
    for line in text.split(|x| *x == b'\n') {
        print_line(out, line)?;
    }
    Ok(())
}

// Nothing of an empty line or a comment.
fn print_line(out: &mut impl Write, line: &[u8]) -> io::Result<()> {
    if line.is_empty() || line[0] == b'#' {
        return Ok(());
    }
    let mut parts = line.splitn(2, |x| *x == b'/');
    let (Some(text), Some(rest)) = (parts.next(), parts.next()) else {
        return print_unreadable(out);
    };
    match address::ipv6(text) {
        Some(ipv6) => print_rest(out, ipv6, rest),
        None => print_unreadable(out),
    }
}

// What is asked of an address by the text behind its `/`: a length, and an IPv4 address where one is put in.
fn print_rest(out: &mut impl Write, ipv6: [u8; IPV6], rest: &[u8]) -> io::Result<()> {
    let mut words = rest.splitn(2, |x| *x == b' ');
    let Some(length) = words
        .next()
        .and_then(|word| octets::read_number(word, 10, 0, u32::MAX))
    else {
        return print_unreadable(out);
    };
    match words.next() {
        Some(text) => print_embedded(out, ipv6, u64::from(length), text),
        None => print_extracted(out, ipv6, u64::from(length)),
    }
}

fn print_extracted(out: &mut impl Write, ipv6: [u8; IPV6], length: u64) -> io::Result<()> {
    let taken = prefix::extract(ipv6, length);
    print_answer(out, u8::from(taken.answer), &taken.ipv4)
}

fn print_embedded(
    out: &mut impl Write,
    given: [u8; IPV6],
    length: u64,
    text: &[u8],
) -> io::Result<()> {
    let Some(tail) = address::ipv6(text) else {
        return print_unreadable(out);
    };
    let made = prefix::embed(given, length, [tail[12], tail[13], tail[14], tail[15]]);
    print_answer(out, u8::from(made.answer), &made.ipv6)
}

fn print_answer(out: &mut impl Write, number: u8, octets: &[u8]) -> io::Result<()> {
    write!(out, "{number} ")?;
    for x in octets {
        write!(out, "{x:02x}")?;
    }
    writeln!(out)
}

fn print_unreadable(out: &mut impl Write) -> io::Result<()> {
    writeln!(out, "unreadable")
}
