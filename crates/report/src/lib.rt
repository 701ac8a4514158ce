// The report of a session file, written part by part into a lent buffer: the header or the refusal, then the line of
// each entry.
#![tactic(auto)]

ghost use Rattle.std.specs.Prelude.{◌≡◌, ◌≤◌, Ok, Err, eqb, length};
ghost use Rattle.rules.specs.Answers.{answer_number};
ghost use Rattle.rules.specs.Octets.{choose};
ghost use Rattle.output.specs.Buffer.{Put, put_at};
ghost use Rattle.setups.specs.Setups.{dead_session, prepared_from};
ghost use Rattle.files.specs.Contents.{verdict_number};
ghost use Rattle.fields.specs.Report.{out_room, refused_line, run_entry};
ghost use Rattle.fields.specs.Parts.{done_of};
ghost use Rattle.report.specs.Replays.{first_text, first_part, is_due, entry_text, next_text, left_after};
ghost use Rattle.report.specs.Replays.{next_part, no_replay as none_left};
ghost use Rattle.report.specs.Ran.{done_in, ran_of, setup_kept};

use fields::{line_fits, put_entry_line, put_header};
use files::{FileFault, judge, pair_at};
use output::put;
use records::Session;
use rules::Answer;
use session::{Called, arrive, end};
use setups::{refused_setup, setup_from};
use steps::Written;

// Where a replay stands: the record, the number of the next entry and where its body begins, and how many entries are
// left.
#[derive(Clone, Copy)]
pub struct Replay {
    pub session: Session,
    pub number: u16,
    pub body: usize,
    pub left: u16,
}

// A part that was written whole: how many octets, and where the replay stands then.
#[derive(Clone, Copy)]
pub struct Part {
    pub written: usize,
    pub replay: Replay,
}

// Why no part was written: it has no room, or there is none, since no entry of the file is left where the replay
// stands. The replay that the caller passed still stands where it stood.
#[derive(Clone, Copy)]
pub enum NoPart {
    NoRoom,
    Over,
}

// What an entry did: octets taken, the answer, how much it wrote into each buffer, and the record then.
#[derive(Clone, Copy)]
struct EntryRan {
    taken: u16,
    answer: Answer,
    written: Written,
    session: Session,
}

// The report's first line: the header, or the refusal, after which no entry is left.
pub fn start(file: &[u8], out: &mut [u8]) -> Result<Part, NoPart>
    ensures result { result ≡ first_part file.now (length out.old) }
    ensures buffer { out.new ≡ put_at out.old 0 (first_text file.now) }
{
    match judge(file) {
        Err(fault) => part_of(put_refusal(out, fault), no_replay()),
        Ok(()) => {
            let count = pair_at(file, 0);
            let whole = Replay {
                session: no_session(),
                number: 0,
                body: 2 + 4 * count,
                left: count as u16,
            };
            part_of(put_header(out, 0, count as u16), whole)
        }
    }
}

// The line of a refusal, or nothing where it does not fit; the next position.
fn put_refusal(out: &mut [u8], fault: FileFault) -> usize
    ensures { Put out.old 0 (refused_line (verdict_number (Err fault))) result out.new }
{
    match fault {
        FileFault::WrongLength => put(out, 0, b"REFUSED 7\n"),
        FileFault::WrongTable => put(out, 0, b"REFUSED 8\n"),
    }
}

// The line of the next entry, and STOPPED where no more follow it.
pub fn next(file: &[u8], replay: Replay, out: &mut [u8]) -> Result<Part, NoPart>
    ensures result { result ≡ next_part file.now replay (length out.old) }
    ensures buffer { out.new ≡ put_at out.old 0 (next_text file.now replay) }
{
    if !is_due(file, replay) {
        return Err(NoPart::Over);
    }
    let number = replay.number;
    let at = 2 + 4 * number as usize;
    let body = replay.body;
    let body_end = body + pair_at(file, at + 2);
    let mut to_server = empty();
    let mut to_client = empty();
    let ran = run_entry(
        replay.session,
        file[at],
        &file[body..body_end],
        &mut to_server,
        &mut to_client,
    );
    let after = Replay {
        session: ran.session,
        number: number + 1,
        body: body_end,
        left: left_after(ran.answer, replay.left),
    };
    let written = put_entry(
        out,
        number,
        ran.taken,
        ran.answer,
        &to_server[..ran.written.server],
        &to_client[..ran.written.client],
    );
    part_of(written, after)
}

// A part of which so many octets were written: no text is empty, so none means that it had no room.
fn part_of(written: usize, replay: Replay) -> Result<Part, NoPart>
    ensures { result ≡ choose (eqb written 0) (Err NoPart.NoRoom)
        (Ok (record { written = written; replay = replay })) }
{
    if written == 0 {
        return Err(NoPart::NoRoom);
    }
    Ok(Part { written, replay })
}

// The record before any setup: the one that a refused setup leaves.
fn no_session() -> Session
    ensures { result ≡ dead_session }
{
    refused_setup().session
}

fn no_replay() -> Replay
    ensures { result ≡ none_left }
{
    Replay {
        session: no_session(),
        number: 0,
        body: 0,
        left: 0,
    }
}

// Whether an entry is left, and it and its body lie within a file that is not refused.
fn is_due(file: &[u8], replay: Replay) -> bool
    ensures { result ≡ is_due file.now replay }
{
    if replay.left == 0 {
        return false;
    }
    if judge(file).is_err() {
        return false;
    }
    let number = replay.number as usize;
    if pair_at(file, 0) <= number {
        return false;
    }
    let length = pair_at(file, 2 + 4 * number + 2);
    if file.len() < length {
        return false;
    }
    replay.body <= file.len() - length
}

fn left_after(answer: Answer, left: u16) -> u16
    ensures { result ≡ left_after (answer_number answer) left }
{
    match answer {
        Answer::Done => left.saturating_sub(1),
        _ => 0,
    }
}

// An out buffer, emptied for each entry. The `ensures` gives only its length.
fn empty() -> [u8; 16384]
    ensures { 16384 ≡ length result }
{
    [0; 16384]
}

// Kinds are the file's numbers: 0 and 1 are arrivals, 2 and 3 ends, of the direction 0 or 1, and 4 is the setup. An
// enum would be no plainer: it would carry the direction, which arrive and end take as a number. What was written
// stands at the front of the buffers.
fn run_entry(
    session: Session,
    kind: u8,
    body: &[u8],
    to_server: &mut [u8],
    to_client: &mut [u8],
) -> EntryRan
    requires most { length body.now ≤ 1024 }
    requires server { length to_server.old ≡ out_room }
    requires client { length to_client.old ≡ out_room }
    ensures result { done_in result to_server.new to_client.new ≡ run_entry session kind body.now }
    ensures server { result.written.server ≤ length to_server.new }
    ensures client { result.written.client ≤ length to_client.new }
{
    match kind {
        0 | 1 => ran_of(arrive(session, kind, body, to_server, to_client)),
        2 | 3 => ran_of(end(session, kind - 2, to_server, to_client)),
        _ => set_up(body),
    }
}

fn ran_of(called: Called) -> EntryRan
    requires { called.taken ≤ 1024 }
    ensures { result ≡ ran_of called }
{
    EntryRan {
        taken: called.taken as u16,
        answer: called.answer,
        written: called.written,
        session: called.session,
    }
}

// The record of a setup, from its octets.
fn set_up(body: &[u8]) -> EntryRan
    ensures { result ≡ setup_kept (prepared_from body.now) }
{
    let prepared = setup_from(body);
    EntryRan {
        taken: 0,
        answer: prepared.answer,
        written: Written {
            server: 0,
            client: 0,
        },
        session: prepared.session,
    }
}

// An entry's line, with STOPPED after an answer other than 0: all of it from the front on, or nothing; the next
// position.
fn put_entry(
    out: &mut [u8],
    number: u16,
    taken: u16,
    answer: Answer,
    to_server: &[u8],
    to_client: &[u8],
) -> usize
    ensures { let done = done_of taken (answer_number answer) to_server.now to_client.now in
        let text = entry_text number done in
        Put out.old 0 text result out.new }
{
    let printed = u8::from(answer);
    if printed == 0 {
        return put_entry_line(out, 0, number, taken, printed, to_server, to_client);
    }
    // the 8 octets of STOPPED and its LF have room too
    if !line_fits(out.len(), 8, number, taken, printed, to_server, to_client) {
        return 0;
    }
    let stop = put_entry_line(out, 0, number, taken, printed, to_server, to_client);
    put(out, stop, b"STOPPED\n")
}
