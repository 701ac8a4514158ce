// Runs the scripts of its standard input, each preceded by its length in four octets, high first, and writes the
// results of each, preceded by theirs.
// A script is a setup of 25 octets and then calls: kind (0 arrival, 1 end), direction, server room, client room and
// length in two octets each, and that many octets.
// A call's result is its answer, the octets taken, written to the server and written to the client in four octets
// each, those written, and the offsets.
#![tactic(auto)]

ghost use Rattle.std.specs.Prelude.{◌≡◌, ◌<◌, length, IfSome};

use places::first_octets;
use records::Session;
use rules::SETUP;
use session::Called;
use std::io;
use std::io::{BufWriter, Write};

// How many octets of its input it reads at most.
const MOST: u64 = 65536;

// As much room as a call can ask for, and one octet more.
const ROOM: usize = 65536;

// A call as a script tells it.
#[derive(Drop)]
struct Call<'a> {
    ends: bool,
    direction: u8,
    server_room: u16,
    client_room: u16,
    octets: &'a [u8],
}

fn main(rt: HostRuntime) -> io::Result<()> {
    let input = streams::read_most(rt.alloc(), rt.reader(), MOST)?;
    let mut out = BufWriter::new(rt.alloc(), io::writer(&rt))?;
    run_scripts(&mut out, input.as_slice())?;
    out.flush()
}

fn run_scripts(out: &mut impl Write, input: &[u8]) -> io::Result<()> {
    let mut rest = input;
    while let Some((script, behind)) = split_script(rest) {
        run_script(out, script)?;
        rest = behind;
    }
    Ok(())
}

// The script in front, and what stands behind it; none where there is no whole one.
fn split_script(input: &[u8]) -> Option<(&[u8], &[u8])>
    ensures { IfSome result (λ p. length p.1.now < length input.now) }
{
    let (size, rest) = input.split_first_chunk::<4>()?;
    rest.split_at_checked(u32::from_be_bytes(*size) as usize)
}

// Runs a script twice: its results are measured before they are written, and not kept in between.
fn run_script(out: &mut impl Write, script: &[u8]) -> io::Result<()> {
    let Some((setup, calls)) = script.split_at_checked(SETUP) else {
        return write_number(out, 0);
    };
    let prepared = setups::setup_from(setup);
    let length = run_calls(out, prepared.session, calls, false)?;
    write_number(out, length.wrapping_add(1))?;
    write_octet(out, u8::from(prepared.answer))?;
    run_calls(out, prepared.session, calls, true)?;
    Ok(())
}

// How long the results of a script's calls are; they are written, one behind the other, where that is asked for. One
// loop does both: with two, each call's record is copied once more.
fn run_calls(out: &mut impl Write, start: Session, calls: &[u8], writes: bool) -> io::Result<u32> {
    let mut to_server = [0u8; ROOM];
    let mut to_client = [0u8; ROOM];
    let mut session = start;
    let mut length = 0u32;
    let mut rest = calls;
    while let Some((call, behind)) = split_call(rest) {
        let called = run_call(session, call, &mut to_server, &mut to_client);
        if writes {
            write_called(out, called, &to_server, &to_client)?;
        }
        session = called.session;
        length = length.wrapping_add(called_length(called));
        rest = behind;
    }
    Ok(length)
}

// The call in front, and what stands behind it; none where there is no whole one.
fn split_call(calls: &[u8]) -> Option<(Call<'_>, &[u8])>
    ensures { IfSome result (λ p. length p.1.now < length calls.now) }
{
    let (head, rest) = calls.split_first_chunk::<8>()?;
    if head[0] > 1 {
        return None;
    }
    let size = u16::from_be_bytes([head[6], head[7]]);
    let (octets, behind) = rest.split_at_checked(size as usize)?;
    let call = Call {
        ends: head[0] == 1,
        direction: head[1],
        server_room: u16::from_be_bytes([head[2], head[3]]),
        client_room: u16::from_be_bytes([head[4], head[5]]),
        octets,
    };
    Some((call, behind))
}

// An arrival or an end, with as much of each buffer as the call has room for.
fn run_call(session: Session, call: Call<'_>, to_server: &mut [u8], to_client: &mut [u8]) -> Called
    requires server { length to_server.old ≡ 65536 }
    requires client { length to_client.old ≡ 65536 }
{
    let to_server = &mut to_server[..call.server_room as usize];
    let to_client = &mut to_client[..call.client_room as usize];
    if call.ends {
        session::end(session, call.direction, to_server, to_client)
    } else {
        session::arrive(session, call.direction, call.octets, to_server, to_client)
    }
}

fn write_called(
    out: &mut impl Write,
    called: Called,
    to_server: &[u8],
    to_client: &[u8],
) -> io::Result<()> {
    write_octet(out, u8::from(called.answer))?;
    write_number(out, low_half(called.taken))?;
    write_number(out, low_half(called.written.server))?;
    write_number(out, low_half(called.written.client))?;
    out.write_all(first_octets(to_server, called.written.server))?;
    out.write_all(first_octets(to_client, called.written.client))?;
    write_number(out, offset(called.session, 0))?;
    write_number(out, offset(called.session, 1))
}

// How long the result of a call is: one octet, five numbers, and what was written.
fn called_length(called: Called) -> u32 {
    let written = low_half(called.written.server).wrapping_add(low_half(called.written.client));
    written.wrapping_add(21)
}

fn offset(session: Session, direction: u8) -> u32 {
    counts::offset(session, direction).unwrap_or(0)
}

fn write_octet(out: &mut impl Write, x: u8) -> io::Result<()> {
    out.write_all(&[x])
}

// Four octets, high first.
fn write_number(out: &mut impl Write, n: u32) -> io::Result<()> {
    out.write_all(&n.to_be_bytes())
}

fn low_half(n: usize) -> u32 {
    (n % 4294967296) as u32
}
