// Runs the readers and writers of lines on the vectors of its standard input, one on each line: a letter that says
// which reader, a space, the text. For each it writes what was read, so that the output can be compared with what
// others read.
#![tactic(auto)]

use places::first_octets;
use rules::{Command, Does, Fixed, IPV4, IPV6, ReplyLine, Switches, Telnet};
use std::io;
use std::io::{BufWriter, Write};

// How many octets of its input it reads at most.
const MOST: u64 = 65536;

// 2001:db8:2::31
const CLIENT: [u8; IPV6] = [
    0x20, 0x01, 0x0d, 0xb8, 0, 2, 0, 0, 0, 0, 0, 0, 0, 0, 0, 0x31,
];

const MAPPED: [u8; IPV4] = [192, 0, 2, 31];

// The two halves of an Adler-32, each below 65,521.
#[derive(Clone, Copy)]
struct Adler {
    a: u16,
    b: u16,
}

impl Adler {
    fn of_nothing() -> Adler {
        Adler { a: 1, b: 0 }
    }

    fn with_octet(self, x: u8) -> Adler {
        let a = (u32::from(self.a) + u32::from(x)) % 65521;
        let b = (u32::from(self.b) + a) % 65521;
        Adler {
            a: a as u16,
            b: b as u16,
        }
    }

    // With the line that `put` writes at the front of a buffer, and how long it is.
    fn with_line<Put: Fn(&mut [u8]) -> usize>(self, put: Put) -> Adler
        requires { Put.IsAlwaysCallable put }
    {
        let mut out = [0u8; 64];
        let n = put(&mut out);
        first_octets(&out, n)
            .iter()
            .fold(self, |sum, x| sum.with_octet(*x))
    }

    fn number(self) -> u64 {
        u64::from(self.b) * 65536 + u64::from(self.a)
    }
}

fn main(rt: HostRuntime) -> io::Result<()> {
    let text = streams::read_most(rt.alloc(), rt.reader(), MOST)?;
    let mut out = BufWriter::new(rt.alloc(), io::writer(&rt))?;
    print_lines(&mut out, text.as_slice())?;
    out.flush()
}

// The lines that end with LF: what stands behind the last of these is none.
fn print_lines(out: &mut impl Write, text: &[u8]) -> io::Result<()> {
    for part in text.split_inclusive(|x| *x == b'\n') {
        if let Some((b'\n', line)) = part.split_last() {
            print_line(out, line)?;
        }
    }
    Ok(())
}

// What is made of a vector; nothing of an empty line or a comment.
fn print_line(out: &mut impl Write, line: &[u8]) -> io::Result<()> {
    match line {
        [b'A', ..] => print_sums(out),
        [b'#', ..] | [] | [_] => Ok(()),
        [reader, _, text @ ..] => print_vector(out, *reader, text),
    }
}

fn print_vector(out: &mut impl Write, reader: u8, text: &[u8]) -> io::Result<()> {
    if reader == b'6' {
        return print_address(out, text);
    }
    let mut put = [0u8; 64];
    let n = put_line(&mut put, reader, text);
    out.write_all(first_octets(&put, n))
}

// IPv6 text: its sixteen octets in hexadecimal, or a hyphen.
fn print_address(out: &mut impl Write, text: &[u8]) -> io::Result<()> {
    let Some(octets) = address::ipv6(text) else {
        return writeln!(out, "-");
    };
    for x in octets {
        write!(out, "{x:02x}")?;
    }
    writeln!(out)
}

// By the letter of the reader: a table of closures would only say the letters again.
fn put_line(out: &mut [u8], reader: u8, text: &[u8]) -> usize {
    match reader {
        b'C' => put_command(out, text),
        b'R' => put_reply_line(out, 0, text),
        b'I' => put_reply_line(out, 214, text),
        b'J' => put_reply_line(out, 150, text),
        b'P' => put_passive_reply(out, text),
        b'T' => put_telnet(out, text),
        _ => output::put(out, 0, b"no such reader\n"),
    }
}

// A client line with everything on: the line that takes its place or answers it.
fn put_command(out: &mut [u8], line: &[u8]) -> usize {
    let on = Switches {
        epsv: true,
        eprt: true,
    };
    let fixed = Fixed {
        client: CLIENT,
        mapped: MAPPED,
        server: MAPPED,
        supported: true,
        strict: false,
    };
    match commands::command(line, fixed, on) {
        Command::Passes => output::put(out, 0, b"passes\n"),
        Command::Auth => output::put(out, 0, b"passes, AUTH\n"),
        Command::Passive => writers::put_pasv(out, 0),
        Command::Port(port) => writers::put_port_line(out, 0, MAPPED, port),
        Command::Answered(answer) => own::put_answer(out, 0, answer),
    }
}

// A server line, in the reply that this code opened, or in none where it is 0.
fn put_reply_line(out: &mut [u8], opening: u32, content: &[u8]) -> usize {
    match replies::reply_line(opening, content) {
        ReplyLine::Opens(code) => put_opens(out, code),
        ReplyLine::Belongs => output::put(out, 0, b"belongs\n"),
        ReplyLine::Preliminary => output::put(out, 0, b"preliminary\n"),
        ReplyLine::Final => output::put(out, 0, b"final\n"),
        ReplyLine::StandsAlone => output::put(out, 0, b"stands alone\n"),
    }
}

// A line that opens a reply, with the number that its code writes.
fn put_opens(out: &mut [u8], code: u32) -> usize {
    let at = output::put(out, 0, b"opens ");
    let next = output::put_decimal(out, at, (code % 1000) as u16);
    output::put(out, next, b"\n")
}

fn put_passive_reply(out: &mut [u8], content: &[u8]) -> usize {
    match replies::passive_reply(content) {
        Some(named) => writers::put_extended_passive(out, 0, named.port),
        None => output::put(out, 0, b"passes\n"),
    }
}

// A Telnet octet, in decimal behind the name of the state before it and a space: the state after it, and what it does.
fn put_telnet(out: &mut [u8], text: &[u8]) -> usize {
    let Some(end) = text.iter().position(|x| *x == b' ') else {
        return output::put(out, 0, b"no such state\n");
    };
    let state = state_named(&text[..end]);
    let Some(x) = octets::read_number(&text[end + 1..], 3, 0, 255) else {
        return output::put(out, 0, b"no octet\n");
    };
    let step = telnet::octet(state, (x % 256) as u8);
    let at = put_state(out, step.telnet);
    put_does(out, at, step.does)
}

// The state of a name, which is given in capitals; Clear for any that is none. Letter case does not count, so it is no
// `match` on the name.
fn state_named(name: &[u8]) -> Telnet {
    if octets::alike(name, b"IAC") {
        return Telnet::Iac;
    }
    if octets::alike(name, b"WILL") {
        return Telnet::Will;
    }
    if octets::alike(name, b"WONT") {
        return Telnet::Wont;
    }
    if octets::alike(name, b"DO") {
        return Telnet::Do;
    }
    if octets::alike(name, b"DONT") {
        return Telnet::Dont;
    }
    if octets::alike(name, b"WITHIN") {
        return Telnet::Within;
    }
    if octets::alike(name, b"WITHINIAC") {
        return Telnet::WithinIac;
    }
    Telnet::Clear
}

fn put_state(out: &mut [u8], telnet: Telnet) -> usize {
    match telnet {
        Telnet::Clear => output::put(out, 0, b"Clear "),
        Telnet::Iac => output::put(out, 0, b"Iac "),
        Telnet::Will => output::put(out, 0, b"Will "),
        Telnet::Wont => output::put(out, 0, b"Wont "),
        Telnet::Do => output::put(out, 0, b"Do "),
        Telnet::Dont => output::put(out, 0, b"Dont "),
        Telnet::Within => output::put(out, 0, b"Within "),
        Telnet::WithinIac => output::put(out, 0, b"WithinIac "),
    }
}

fn put_does(out: &mut [u8], at: usize, does: Does) -> usize {
    match does {
        Does::Data(x) => put_told(out, at, b"data ", u32::from(x)),
        Does::Nothing => output::put(out, at, b"nothing\n"),
        Does::AnswersDont(x) => put_told(out, at, b"answers 255 254 ", u32::from(x)),
        Does::AnswersWont(x) => put_told(out, at, b"answers 255 252 ", u32::from(x)),
        Does::Passes(x) => put_told(out, at, b"passes 255 ", u32::from(x)),
        Does::Removes(n) => put_told(out, at, b"removes ", n),
    }
}

// A word and a number behind it.
fn put_told(out: &mut [u8], at: usize, word: &[u8], n: u32) -> usize {
    let next = output::put(out, at, word);
    let end = output::put_decimal(out, next, (n % 1000) as u16);
    output::put(out, end, b"\n")
}

// The sums of the PORT lines of all ports and of their 229 lines.
fn print_sums(out: &mut impl Write) -> io::Result<()> {
    let mut ports = Adler::of_nothing();
    let mut passives = Adler::of_nothing();
    for port in 0..=u16::MAX {
        ports = ports.with_line(|out| writers::put_port_line(out, 0, MAPPED, port));
        passives = passives.with_line(|out| writers::put_extended_passive(out, 0, port));
    }
    writeln!(out, "{} {}", ports.number(), passives.number())
}
