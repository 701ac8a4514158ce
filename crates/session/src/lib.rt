// The session: arrival and end, for every record and every buffer.
#![tactic(auto)]

ghost use Rattle.std.specs.Prelude.{◌≡◌, List, ◌++◌, length, ℕ};
ghost use Rattle.rules.specs.Answers.{client as client_side, server as server_side, most_owed};
ghost use Rattle.rules.specs.Lines.{most_held};
ghost use Rattle.rules.specs.Setup.{ipv6_width, ipv4_width};
ghost use Rattle.session.specs.Calls.{session_after, arrived, held_end, buffer_after, end_called};
ghost use Rattle.session.specs.Calls.{refused as refused_outcome};
ghost use Rattle.records.specs.Sound.{side_if};
ghost use Rattle.steps.specs.Steps.{held_of};
ghost use Rattle.steps.specs.Takes.{state_from};

use arrivals::take;
use counts::{counts_then, written_from};
use gives::{passed_length, put_passed};
use output::{array_from, put};
use places::first_octets;
use records::layout::{LENT_COMMAND, LENT_KINDS, LENT_MAPPED, LENT_REPLY, LENT_SERVER, LENT_SIZE};
use records::{Control, Session, refusal_of, unfinished_of, with_ended};
use rules::{Answer, IPV4, IPV6, Kinds, Line};
use steps::Written;
use telnet::{put_unfinished, unfinished_length};

// What arrive and end return: all of it in every case, whatever is answered.
#[derive(Clone, Copy)]
pub struct Called {
    pub answer: Answer,
    pub taken: usize,
    pub written: Written,
    pub session: Session,
}

// Octets of a direction arrive; what they give goes into the two buffers. A direction is a number, since number 3
// refuses one that there is not.
pub fn arrive(
    session: Session,
    direction: u8,
    octets: &[u8],
    to_server: &mut [u8],
    to_client: &mut [u8],
) -> Called
    ensures result { let server = to_server.old in
        let client = to_client.old in
        let o = arrived session direction octets.now (length server) (length client) in
        result ≡ o.called }
    ensures buffers { let server = to_server.old in
        let client = to_client.old in
        let o = arrived session direction octets.now (length server) (length client) in
        (to_server.new ≡ buffer_after client_side o server)
        × (to_client.new ≡ buffer_after server_side o client) }
{
    if let Some(answer) = refusal_of(session, direction) {
        return refused(answer, session);
    }
    let from_client = direction == 0;
    let fixed = session.fixed;
    let client = fixed.client;
    let mapped = fixed.mapped;
    let server = fixed.server;
    let control = session.control;
    let kinds = session.kinds;
    let said = session.command;
    let answered = session.reply;
    let mut lent = laid(client, mapped, server, kinds, said, answered);
    let t = take(
        fixed.supported,
        fixed.strict,
        from_client,
        control,
        octets,
        &mut lent,
        to_server,
        to_client,
    );
    let left = array_from(&lent[LENT_KINDS..LENT_COMMAND]);
    let command = array_from(&lent[LENT_COMMAND..LENT_REPLY]);
    let reply = array_from(&lent[LENT_REPLY..]);
    let then = t.control;
    let written = t.written;
    let answer = t.answer;
    Called {
        answer,
        taken: t.taken,
        written,
        session: after(
            session,
            from_client,
            t.taken,
            written,
            then,
            command,
            reply,
            left,
        ),
    }
}

// The arrays of a record behind each other, as `take` has them.
fn laid(
    client: [u8; IPV6],
    mapped: [u8; IPV4],
    server: [u8; IPV4],
    kinds: Kinds,
    command: Line,
    reply: Line,
) -> [u8; LENT_SIZE]
    ensures arrays { result ≡ client ++ (mapped ++ (server ++ (kinds ++ (command ++ reply)))) }
    ensures lengths { (length client ≡ ipv6_width) × (length mapped ≡ ipv4_width) × (length server ≡ ipv4_width)
        × (length kinds ≡ most_owed) × (length command ≡ most_held) × (length reply ≡ most_held) }
{
    let mut lent = [0u8; LENT_SIZE];
    put(&mut lent, 0, &client);
    put(&mut lent, LENT_MAPPED, &mapped);
    put(&mut lent, LENT_SERVER, &server);
    put(&mut lent, LENT_KINDS, &kinds);
    put(&mut lent, LENT_COMMAND, &command);
    put(&mut lent, LENT_REPLY, &reply);
    lent
}

// A call that is refused: nothing taken, nothing written, the record as it came.
fn refused(answer: Answer, session: Session) -> Called
    ensures { result ≡ (refused_outcome answer session).called }
{
    let written = Written {
        server: 0,
        client: 0,
    };
    Called {
        answer,
        taken: 0,
        written,
        session,
    }
}

// The record after a call on a direction.
fn after(
    session: Session,
    from_client: bool,
    taken: usize,
    written: Written,
    control: Control,
    command: Line,
    reply: Line,
    kinds: Kinds,
) -> Session
    ensures { result ≡ session_after session (side_if from_client) taken written.server written.client
        (state_from control command reply kinds) }
{
    let fixed = session.fixed;
    let sent = session.up;
    let answered = session.down;
    let counts = counts_then(sent, answered, from_client, taken, written);
    let up = counts.up;
    let down = counts.down;
    Session {
        live: session.live,
        fixed,
        control,
        command,
        reply,
        kinds,
        up,
        down,
    }
}

// A direction ends: its held octets pass, and a Telnet command that is unfinished behind them.
pub fn end(session: Session, direction: u8, to_server: &mut [u8], to_client: &mut [u8]) -> Called
    ensures result { let server = to_server.old in
        let client = to_client.old in
        let o = end_called session direction (length server) (length client) in
        result ≡ o.called }
    ensures buffers { let server = to_server.old in
        let client = to_client.old in
        let o = end_called session direction (length server) (length client) in
        (to_server.new ≡ buffer_after client_side o server)
        × (to_client.new ≡ buffer_after server_side o client) }
{
    if let Some(answer) = refusal_of(session, direction) {
        return refused(answer, session);
    }
    if direction == 0 {
        return end_held(session, true, to_server);
    }
    end_held(session, false, to_client)
}

// The same where nothing refuses it: what is held of the direction's line goes into its one buffer.
fn end_held(session: Session, from_client: bool, out: &mut [u8]) -> Called
    ensures { let d = side_if from_client in
        let o = held_end session d (length out.old) in
        (result ≡ o.called) × (out.new ≡ buffer_after d o out.old) }
{
    let before = session.control;
    let command = session.command;
    let reply = session.reply;
    let kinds = session.kinds;
    let held = held_of(before, from_client, &command, &reply);
    let tail = unfinished_of(before, from_client);
    if out.len() < passed_length(held) + unfinished_length(tail) {
        return refused(Answer::NoRoom, session);
    }
    let next = put_passed(out, 0, held);
    let written = written_from(from_client, put_unfinished(out, next, tail));
    let control = with_ended(before, from_client);
    Called {
        answer: Answer::Done,
        taken: 0,
        written,
        session: after(
            session,
            from_client,
            0,
            written,
            control,
            command,
            reply,
            kinds,
        ),
    }
}

// The held octets of a side: the front of its line.
fn held_of<'a>(control: Control, from_client: bool, command: &'a [u8], reply: &'a [u8]) -> &'a [u8]
    ensures { (kinds : List ℕ) → result.now
        ≡ held_of (side_if from_client) (state_from control command.now reply.now kinds) }
{
    if from_client {
        let client = control.client;
        return first_octets(command, client.held);
    }
    let server = control.server;
    first_octets(reply, server.held)
}
