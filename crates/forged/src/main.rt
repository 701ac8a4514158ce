// Hands records to arrive and end that no session leads to, in both directions. Number 4 refuses each record of the
// first group, and takes nothing, writes nothing and leaves the record; those of the second group stand on the edge
// and are taken; an unknown direction comes before a bad record.
//
// A line is the answer's number, the octets taken, those written to the server and to the client, the first and the
// last octet of each buffer (7 where it is untouched), and of the record: the replies owed, the octets held of either
// direction, and the octets taken from either side.
#![tactic(auto)]

use places::{Direction, Place};
use records::{Control, Session};
use rules::{HELD, IPV4, IPV6, Layer, Setup, Telnet};
use session::Called;
use std::io;
use std::io::{BufWriter, Write};

const SIZE: usize = 600;

fn main(rt: HostRuntime) -> io::Result<()> {
    let mut out = BufWriter::new(rt.alloc(), io::writer(&rt))?;
    try_forged(&mut out)?;
    out.flush()
}

fn try_forged(out: &mut impl Write) -> io::Result<()> {
    let fresh = setups::setup(Setup {
        client: [0u8; IPV6],
        mapped: [0u8; IPV4],
        flags: 7,
        server: [0u8; IPV4],
    })
    .session;
    writeln!(out, "refused")?;
    try_all(out, dead(fresh))?;
    try_all(out, with_control(fresh, owing(fresh, 17)))?;
    try_all(out, with_kind(fresh, 0, 9))?;
    try_all(out, with_kind(with_control(fresh, owing(fresh, 16)), 15, 9))?;
    try_places(out, fresh, Place::Holding, HELD + 1)?;
    try_places(out, fresh, Place::Flowing, 1)?;
    try_places(out, fresh, Place::Passing, 1)?;
    try_places(out, fresh, Place::Ended, 1)?;
    writeln!(out, "taken")?;
    try_all(out, with_kind(fresh, 0, 8))?;
    try_all(out, with_kind(fresh, 1, 9))?;
    try_all(out, with_control(fresh, owing(fresh, 16)))?;
    try_places(out, fresh, Place::Holding, HELD)?;
    try_all(out, with_control(fresh, unfinished_and_passing(fresh)))?;
    writeln!(out, "no such direction")?;
    try_call(out, dead(fresh), 2)
}

fn dead(session: Session) -> Session {
    Session {
        live: false,
        ..session
    }
}

fn with_kind(session: Session, place: u8, kind: u8) -> Session {
    let mut s = session;
    s.kinds[(place % 16) as usize] = kind;
    s
}

fn with_control(session: Session, control: Control) -> Session {
    Session { control, ..session }
}

fn owing(session: Session, owed: usize) -> Control {
    Control {
        owed,
        ..session.control
    }
}

// The client's octets pass at once, though a Telnet command of the client is unfinished: nothing written depends on
// that.
fn unfinished_and_passing(session: Session) -> Control {
    let passing = Direction {
        place: Place::Passing,
        held: 0,
    };
    let begun = Layer {
        telnet: Telnet::Iac,
        removed: 0,
    };
    Control {
        client: passing,
        up: begun,
        ..session.control
    }
}

// Both directions forged, each by itself.
fn try_places(out: &mut impl Write, session: Session, place: Place, held: usize) -> io::Result<()> {
    let forged = Direction { place, held };
    let said = Control {
        client: forged,
        ..session.control
    };
    try_all(out, with_control(session, said))?;
    let answered = Control {
        server: forged,
        ..session.control
    };
    try_all(out, with_control(session, answered))
}

fn try_all(out: &mut impl Write, session: Session) -> io::Result<()> {
    try_call(out, session, 0)?;
    try_call(out, session, 1)
}

// An arrival of one octet and an end, each of the record as it came.
fn try_call(out: &mut impl Write, session: Session, direction: u8) -> io::Result<()> {
    let mut to_server = [7u8; SIZE];
    let mut to_client = [7u8; SIZE];
    let arrived = session::arrive(session, direction, b"x", &mut to_server, &mut to_client);
    print(out, arrived, &to_server, &to_client)?;
    let mut to_server = [7u8; SIZE];
    let mut to_client = [7u8; SIZE];
    let ended = session::end(session, direction, &mut to_server, &mut to_client);
    print(out, ended, &to_server, &to_client)
}

fn print(
    out: &mut impl Write,
    called: Called,
    to_server: &[u8],
    to_client: &[u8],
) -> io::Result<()> {
    print_number(out, usize::from(u8::from(called.answer)))?;
    print_number(out, called.taken)?;
    print_number(out, called.written.server)?;
    print_number(out, called.written.client)?;
    print_edges(out, to_server)?;
    print_edges(out, to_client)?;
    print_record(out, called.session)?;
    writeln!(out)
}

fn print_edges(out: &mut impl Write, buffer: &[u8]) -> io::Result<()> {
    for edge in [buffer.first(), buffer.last()] {
        print_number(out, edge.copied().unwrap_or(0) as usize)?;
    }
    Ok(())
}

fn print_record(out: &mut impl Write, session: Session) -> io::Result<()> {
    let control = session.control;
    print_number(out, control.owed)?;
    print_number(out, control.client.held)?;
    print_number(out, control.server.held)?;
    print_number(out, session.up.taken as usize)?;
    print_number(out, session.down.taken as usize)
}

fn print_number(out: &mut impl Write, n: usize) -> io::Result<()> {
    write!(out, "{n} ")
}
