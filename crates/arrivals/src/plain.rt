// Plain lines: they pass as they are, and nothing leaves the queue behind them but the kind that a reply is for. Most
// lines are such. They are taken here with a few numbers in hand; any other goes the way of every octet. A plain line
// of the client owes a plain kind, but others do too: a translated EPRT is no plain line.
ghost use Rattle.std.specs.Prelude.{◌≡◌, true, false, ◌&&◌, List, [], ◌∷◌, ◌++◌, ℕ, ◌+◌, ◌-◌, ◌≤◌, ◌<◌, length, get_or};
ghost use Rattle.std.specs.ControlFlow.{MatchControlFlow};
ghost use Rattle.rules.specs.Octets.{lf, iac, is_not, every};
ghost use Rattle.rules.specs.Answers.{client, server, most_owed};
ghost use Rattle.rules.specs.Lines.{most_held};
ghost use Rattle.rules.specs.Telnet.{is_clear};
ghost use Rattle.output.specs.Buffer.{Put};
ghost use Rattle.places.specs.Places.{is_holding};
ghost use Rattle.rules.specs.declared.Fixed.{Fixed};
ghost use Rattle.records.specs.Sound.{side_if, Counted};
ghost use Rattle.steps.specs.Takes.{addresses_lent, core_lent, kinds_lent};
ghost use Rattle.steps.specs.Core.{Bounded};
ghost use Rattle.arrivals.specs.Runs.{Ran};
ghost use Rattle.queue.specs.Kinds.{is_still};
ghost use Rattle.arrivals.specs.PlainRuns.{is_plain_first, plain_removes, keeps_still, SaidPlain, AnsweredPlain};

use crate::running::{RunPart, hold_run};
use output::put;
use places::{Direction, LF, Place, is_holding};
use queue::{is_still, shift};
use records::layout::{LENT_COMMAND, LENT_KINDS, LENT_REPLY, LENT_SIZE};
use records::{Control, with_client, with_server};
use rules::{OWED, ReplyLine, Telnet};
use search::find_iac;
use std::ops::ControlFlow;
use steps::Written;
use telnet::is_clear;

// The client's lines and the server's are taken by functions of one shape that differ in every line: what a line is,
// what it leaves in the queue and where it goes.

// How far one plain line of the client, or several, reach; and how many octets are held, replies owed and octets
// written then.
#[derive(Clone, Copy)]
pub struct Said {
    pub taken: usize,
    pub held: usize,
    pub owed: usize,
    pub at: usize,
}

// The same of the server, and the code that opened the reply in which it stands, or 0.
#[derive(Clone, Copy)]
pub struct Answered {
    pub taken: usize,
    pub held: usize,
    pub owed: usize,
    pub opening: u32,
    pub at: usize,
}

// A line's octets, which are all in the arrival where none was held before. Read there, they need
// not wait for the store into the array.
fn text<'a>(held: usize, part: &'a [u8], line: &'a [u8]) -> &'a [u8]
    requires { held ≡ 0 → part.now ≡ line.now }
    ensures { result.now ≡ line.now }
{
    if held == 0 {
        return part;
    }
    line
}

// Octets as they are, and an LF.
fn put_ended(out: &mut [u8], at: usize, octets: &[u8]) -> usize
    ensures { Put out.old at (octets.now ++ (lf ∷ [])) result out.new }
{
    if out.len() < at || out.len() - at <= octets.len() {
        return at;
    }
    let next = put(out, at, octets);
    put(out, next, &[LF])
}

// A line ends with the LF at j and leaves as it came, into so much room: no octet of it is 255, which would leave
// doubled. Only octets held before are searched, those that arrived are ordinary.
fn may_end(octets: &[u8], j: usize, before: usize, line: &[u8], room: usize) -> bool
    requires { before ≡ 0 → every (is_not iac) line.now ≡ true }
    ensures { let l = octets.now in
        let text = line.now in
        (result ≡ true
        → (j < length l) × (get_or l j 0 ≡ lf) × (length text < room) × (every (is_not iac) text ≡ true)) }
{
    if octets.len() <= j || octets[j] != LF || room <= line.len() {
        return false;
    }
    if before == 0 {
        return true;
    }
    line.len() <= find_iac(line, 0)
}

// The octets of a client line from i on, and its end if it is plain: another may follow only then.
fn client_line(
    held: usize,
    owed: usize,
    octets: &[u8],
    i: usize,
    lent: &mut [u8; LENT_SIZE],
    to_server: &mut [u8],
    at: usize,
) -> ControlFlow<Said, Said>
    requires counts { (held ≤ most_held) × (owed < most_owed) × (is_still (kinds_lent lent.old) 0 owed ≡ true) }
    requires within { (i ≤ length octets.now) × (at ≤ length to_server.old) }
    ensures { let line = octets.now in
        let before = lent.old in
        let out = to_server.old in
        let after = lent.new in
        let then = to_server.new in
        MatchControlFlow result
        (λ said. SaidPlain line i held owed before out at said after then × (i < said.taken))
        (λ said. SaidPlain line i held owed before out at said after then) }
{
    let j = hold_run(octets, i, &mut lent[LENT_COMMAND..LENT_REPLY], held);
    let n = held + (j - i);
    let line = text(held, &octets[i..j], &lent[LENT_COMMAND..LENT_COMMAND + n]);
    if may_end(octets, j, held, line, to_server.len() - at) {
        if commands::is_plain(line) {
            let next = put_ended(to_server, at, line);
            // The number of a plain kind, as a record has it.
            lent[LENT_KINDS + owed] = 0;
            return ControlFlow::Continue(Said {
                taken: j + 1,
                held: 0,
                owed: owed + 1,
                at: next,
            });
        }
    }
    ControlFlow::Break(Said {
        taken: j,
        held: n,
        owed,
        at,
    })
}

// Plain lines of a client that holds its octets, with `start` octets held.
fn client_lines(
    start: usize,
    before: usize,
    octets: &[u8],
    from: usize,
    lent: &mut [u8; LENT_SIZE],
    to_server: &mut [u8],
    first: usize,
) -> Said
    requires counts { (start ≤ most_held) × (before ≤ most_owed) × (is_still (kinds_lent lent.old) 0 before ≡ true) }
    requires within { (from ≤ length octets.now) × (first ≤ length to_server.old) }
    ensures { SaidPlain octets.now from start before lent.old to_server.old first result
        lent.new to_server.new }
{
    let mut held = start;
    let mut owed = before;
    let mut at = first;
    let mut i = from;
    // No `for` over the octets: a turn goes past a whole line.
    while i < octets.len() && owed < OWED {
        match client_line(held, owed, octets, i, lent, to_server, at) {
            ControlFlow::Break(said) => return said,
            ControlFlow::Continue(said) => {
                held = said.held;
                owed = said.owed;
                at = said.at;
                i = said.taken;
            }
        }
    }
    Said {
        taken: i,
        held,
        owed,
        at,
    }
}

// How many kinds a reply's line removes, where the first owed is none of the gateway's own answers.
fn removed(reply: ReplyLine, owed: usize) -> usize
    ensures { result ≡ plain_removes reply owed }
{
    match reply {
        ReplyLine::Opens(_) => 0,
        ReplyLine::Belongs => 0,
        ReplyLine::Preliminary => 0,
        ReplyLine::Final => owed.min(1),
        ReplyLine::StandsAlone => 0,
    }
}

// In a still queue: no kind is removed; or a plain one is, or the reply began before, and behind it the queue is still.
fn keeps_still(kinds: &[u8], inside: bool, removes: usize, owed: usize) -> bool
    ensures { result ≡ keeps_still kinds.now inside removes owed }
{
    if removes == 0 {
        return true;
    }
    if !inside && !is_plain_first(kinds) {
        return false;
    }
    is_still(kinds, removes, owed)
}

fn is_plain_first(kinds: &[u8]) -> bool
    ensures { result ≡ is_plain_first kinds.now }
{
    kinds.first().copied().unwrap_or(0) == 0
}

// The octets of a server line from i on, and its end if it is plain: another may follow only then.
fn server_line(
    held: usize,
    owed: usize,
    opening: u32,
    octets: &[u8],
    i: usize,
    lent: &mut [u8; LENT_SIZE],
    to_client: &mut [u8],
    at: usize,
) -> ControlFlow<Answered, Answered>
    requires counts { (held ≤ most_held) × (owed ≤ most_owed) × (is_still (kinds_lent lent.old) 0 owed ≡ true) }
    requires within { (i ≤ length octets.now) × (at ≤ length to_client.old) }
    ensures { let line = octets.now in
        let before = lent.old in
        let out = to_client.old in
        let after = lent.new in
        let then = to_client.new in
        MatchControlFlow result
        (λ answered. AnsweredPlain line i held owed opening before out at answered after then × (i < answered.taken))
        (λ answered. AnsweredPlain line i held owed opening before out at answered after then) }
{
    let j = hold_run(octets, i, &mut lent[LENT_REPLY..], held);
    let n = held + (j - i);
    let read = text(held, &octets[i..j], &lent[LENT_REPLY..LENT_REPLY + n]);
    if may_end(octets, j, held, read, to_client.len() - at) {
        let reply = replies::reply_line(opening, lines::content(read));
        let removes = removed(reply, owed);
        if keeps_still(&lent[LENT_KINDS..LENT_COMMAND], opening != 0, removes, owed) {
            // Asked for again: the kinds were lent in between.
            let line = text(held, &octets[i..j], &lent[LENT_REPLY..LENT_REPLY + n]);
            let next = put_ended(to_client, at, line);
            shift(&mut lent[LENT_KINDS..LENT_COMMAND], removes, owed);
            return ControlFlow::Continue(Answered {
                taken: j + 1,
                held: 0,
                owed: owed - removes,
                opening: replies::opening_after(opening, reply),
                at: next,
            });
        }
    }
    ControlFlow::Break(Answered {
        taken: j,
        held: n,
        owed,
        opening,
        at,
    })
}

// Plain lines of a server that holds its octets, with `start` octets held and the reply of this code open, or none.
fn server_lines(
    start: usize,
    before: usize,
    code: u32,
    octets: &[u8],
    from: usize,
    lent: &mut [u8; LENT_SIZE],
    to_client: &mut [u8],
    first: usize,
) -> Answered
    requires counts { (start ≤ most_held) × (before ≤ most_owed) × (is_still (kinds_lent lent.old) 0 before ≡ true) }
    requires within { (from ≤ length octets.now) × (first ≤ length to_client.old) }
    ensures { AnsweredPlain octets.now from start before code lent.old to_client.old
        first result lent.new to_client.new }
{
    let mut held = start;
    let mut owed = before;
    let mut opening = code;
    let mut at = first;
    let mut i = from;
    // No `for` over the octets: a turn goes past a whole line.
    while i < octets.len() {
        match server_line(held, owed, opening, octets, i, lent, to_client, at) {
            ControlFlow::Break(answered) => return answered,
            ControlFlow::Continue(answered) => {
                held = answered.held;
                owed = answered.owed;
                opening = answered.opening;
                at = answered.at;
                i = answered.taken;
            }
        }
    }
    Answered {
        taken: i,
        held,
        owed,
        opening,
        at,
    }
}

// A direction holds its octets, and no Telnet command of it is unfinished.
fn may_run(direction: Direction, telnet: Telnet) -> bool
    ensures { result ≡ (is_holding direction.place && is_clear telnet) }
{
    is_holding(direction) && is_clear(telnet)
}

// Plain lines of the client from i on, where it holds its octets.
fn plain_commands(
    control: Control,
    octets: &[u8],
    i: usize,
    lent: &mut [u8; LENT_SIZE],
    to_server: &mut [u8],
    written: Written,
) -> RunPart
    requires counts { Counted control × (is_still (kinds_lent lent.old) 0 control.owed ≡ true) }
    requires within { (i ≤ length octets.now) × (written.server ≤ length to_server.old) }
    ensures ran { let l = octets.now in
        let out = to_server.old in
        let after = to_server.new in
        ((f : Fixed) (to_client : List ℕ) → written.client ≤ length to_client
        → Ran f client l (core_lent control lent.old out to_client written) i
        (core_lent result.control lent.new after to_client result.written) result.taken) }
    ensures fixed { addresses_lent lent.new ≡ addresses_lent lent.old }
{
    let direction = control.client;
    if !may_run(direction, control.up.telnet) {
        return RunPart {
            taken: i,
            control,
            written,
        };
    }
    let said = client_lines(
        direction.held,
        control.owed,
        octets,
        i,
        lent,
        to_server,
        written.server,
    );
    let then = Direction {
        place: Place::Holding,
        held: said.held,
    };
    RunPart {
        taken: said.taken,
        control: with_client(control, control.switches, then, said.owed),
        written: Written {
            server: said.at,
            client: written.client,
        },
    }
}

// Plain lines of the server from i on, where it holds its octets.
fn plain_replies(
    control: Control,
    octets: &[u8],
    i: usize,
    lent: &mut [u8; LENT_SIZE],
    to_client: &mut [u8],
    written: Written,
) -> RunPart
    requires counts { Counted control × (is_still (kinds_lent lent.old) 0 control.owed ≡ true) }
    requires within { (i ≤ length octets.now) × (written.client ≤ length to_client.old) }
    ensures ran { let l = octets.now in
        let out = to_client.old in
        let after = to_client.new in
        ((f : Fixed) (to_server : List ℕ) → written.server ≤ length to_server
        → Ran f server l (core_lent control lent.old to_server out written) i
        (core_lent result.control lent.new to_server after result.written) result.taken) }
    ensures fixed { addresses_lent lent.new ≡ addresses_lent lent.old }
{
    let direction = control.server;
    if !may_run(direction, control.down.telnet) {
        return RunPart {
            taken: i,
            control,
            written,
        };
    }
    let answered = server_lines(
        direction.held,
        control.owed,
        control.opening,
        octets,
        i,
        lent,
        to_client,
        written.client,
    );
    let then = Direction {
        place: Place::Holding,
        held: answered.held,
    };
    RunPart {
        taken: answered.taken,
        control: with_server(control, then, answered.owed, answered.opening),
        written: Written {
            server: written.server,
            client: answered.at,
        },
    }
}

// Plain lines of a direction from i on, if any begin there.
pub fn plain_lines(
    from_client: bool,
    control: Control,
    octets: &[u8],
    i: usize,
    lent: &mut [u8; LENT_SIZE],
    to_server: &mut [u8],
    to_client: &mut [u8],
    written: Written,
) -> RunPart
    requires bounds { Bounded control written to_server.old to_client.old }
    requires within { i ≤ length octets.now }
    ensures ran { let k = core_lent control lent.old to_server.old to_client.old written in
        let m = core_lent result.control lent.new to_server.new to_client.new
        result.written in
        ((fixed : Fixed) → Ran fixed (side_if from_client) octets.now k i m result.taken) }
    ensures fixed { addresses_lent lent.new ≡ addresses_lent lent.old }
{
    if !is_still(&lent[LENT_KINDS..LENT_COMMAND], 0, control.owed) {
        return RunPart {
            taken: i,
            control,
            written,
        };
    }
    if from_client {
        return plain_commands(control, octets, i, lent, to_server, written);
    }
    plain_replies(control, octets, i, lent, to_client, written)
}
