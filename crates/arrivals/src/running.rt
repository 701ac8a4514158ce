// Runs: octets that pass, flow or are held all do the same, so where nothing is left to settle they are taken in one
// part.
ghost use Rattle.std.specs.Prelude.{◌≡◌, true, ◌+◌, ◌-◌, ◌≤◌, length, take, drop};
ghost use Rattle.rules.specs.Octets.{every};
ghost use Rattle.rules.specs.Lines.{is_ordinary};
ghost use Rattle.records.specs.Layout.{lines_size};
ghost use Rattle.output.specs.Buffer.{put_at};
ghost use Rattle.rules.specs.declared.Fixed.{Fixed};
ghost use Rattle.steps.specs.Core.{Bounded};
ghost use Rattle.arrivals.specs.Runs.{Quiet, GivesOn, DirectionRan, Ran};
ghost use Rattle.records.specs.Sound.{side_if};
ghost use Rattle.steps.specs.Takes.{core_in};

use output::put;
use places::{Direction, Place, has_ended, is_flowing, is_holding, is_passing};
use queue::planned;
use records::{Control, blocked, layer_of, queue_full, with_client, with_server};
use rules::{HELD, Kinds};
use search::{is_ordinary, ordinary_end};
use steps::Written;
use telnet::is_clear;

// How far a run goes, and the control and the counts then.
#[derive(Clone, Copy)]
pub struct RunPart {
    pub taken: usize,
    pub control: Control,
    pub written: Written,
}

// How far a run of one direction goes, where the direction stands then, and where its output ends.
#[derive(Clone, Copy)]
pub struct DirectionRun {
    pub taken: usize,
    pub direction: Direction,
    pub at: usize,
}

// Nothing is left to settle: no own answer leaves the queue, and AUTH is not first or its step is done, as it is
// where the server passes or has ended. It may say no where that holds; the octets are then taken one by one.
fn is_settled(control: Control, kinds: Kinds) -> bool
    ensures { result ≡ true → Quiet control kinds }
{
    let plan = planned(kinds, 0, control.owed, blocked(control));
    if plan.leaving != 0 {
        return false;
    }
    if !plan.auth {
        return true;
    }
    let server = control.server;
    if server.held != 0 || !is_clear(control.down.telnet) {
        return false;
    }
    if is_passing(server) {
        return true;
    }
    has_ended(server)
}

// Where the ordinary octets from i on end, those that are neither LF nor 255, or where `most` of them do. Only so far
// is searched: else a long arrival would be searched to its end for each line or room that is full before.
fn run_end(octets: &[u8], i: usize, most: usize) -> usize
    requires { i ≤ length octets.now }
    ensures within { (i ≤ result) × (result ≤ length octets.now) × (result - i ≤ most) }
    ensures run { every is_ordinary (take (result - i) (drop i octets.now)) ≡ true }
{
    let e = i + (octets.len() - i).min(most);
    // An octet that arrives alone is looked at here, which costs less than a search.
    if e - i == 1 {
        if is_ordinary(octets[i]) {
            return e;
        }
        return i;
    }
    let n = ordinary_end(&octets[i..e], 0);
    i + n
}

// The ordinary octets from i on, as many as may be held, are put behind those held; where they end.
pub fn hold_run(octets: &[u8], i: usize, line: &mut [u8], held: usize) -> usize
    requires { (i ≤ length octets.now) × (held ≤ length line.old) }
    ensures within { (i ≤ result) × (result ≤ length octets.now) × (held + (result - i) ≤ length line.old) }
    ensures run { every is_ordinary (take (result - i) (drop i octets.now)) ≡ true }
    ensures buffer { line.new ≡ put_at line.old held (take (result - i) (drop i octets.now)) }
{
    let j = run_end(octets, i, line.len() - held);
    put(line, held, &octets[i..j]);
    j
}

// Where the octets from i on that a direction gives on as they come end, or where `most` of them do. None are given on
// where octets are held by a direction that does not hold, which number 4 refuses. How far is left open: what a run
// leaves is taken octet by octet.
fn given_end(direction: Direction, octets: &[u8], i: usize, most: usize) -> usize
    requires { i ≤ length octets.now }
    ensures within { (i ≤ result) × (result ≤ length octets.now) × (result - i ≤ most) }
    ensures run { GivesOn direction (take (result - i) (drop i octets.now)) }
{
    if direction.held != 0 {
        return i;
    }
    if is_flowing(direction) {
        return run_end(octets, i, most);
    }
    if is_passing(direction) {
        return i + (octets.len() - i).min(most);
    }
    i
}

// A run of a direction's octets from i on, if one begins there: those of a held line are put behind those held, others
// into `out`, as far as it has room.
fn direction_run(
    direction: Direction,
    octets: &[u8],
    i: usize,
    line: &mut [u8],
    out: &mut [u8],
    at: usize,
) -> DirectionRun
    requires held { direction.held ≤ length line.old }
    requires within { (i ≤ length octets.now) × (at ≤ length out.old) }
    ensures { let l = octets.now in
        let before = out.old in
        DirectionRan l i direction line.old before at result line.new out.new }
{
    if is_holding(direction) {
        let held = direction.held;
        let j = hold_run(octets, i, line, held);
        return DirectionRun {
            taken: j,
            direction: Direction {
                place: Place::Holding,
                held: held + (j - i),
            },
            at,
        };
    }
    let j = given_end(direction, octets, i, out.len() - at);
    let next = put(out, at, &octets[i..j]);
    DirectionRun {
        taken: j,
        direction,
        at: next,
    }
}

// A run of a direction's octets from i on, if one begins there: number 1 is not given for it, no Telnet command is
// unfinished, and nothing is left to settle. The two lines are a slice, as `steps` has them.
pub fn any_run(
    from_client: bool,
    control: Control,
    kinds: Kinds,
    octets: &[u8],
    i: usize,
    lines: &mut [u8],
    to_server: &mut [u8],
    to_client: &mut [u8],
    written: Written,
) -> RunPart
    requires bounds { Bounded control written to_server.old to_client.old }
    requires within { (i ≤ length octets.now) × (length lines.old ≡ lines_size) }
    ensures { let k = core_in control lines.old kinds to_server.old to_client.old
        written in
        let m = core_in result.control lines.new kinds to_server.new to_client.new
        result.written in
        ((fixed : Fixed) → Ran fixed (side_if from_client) octets.now k i m result.taken) }
{
    let none = RunPart {
        taken: i,
        control,
        written,
    };
    if queue_full(from_client, control) {
        return none;
    }
    let layer = layer_of(control, from_client);
    if !is_clear(layer.telnet) {
        return none;
    }
    if !is_settled(control, kinds) {
        return none;
    }
    if from_client {
        let run = direction_run(
            control.client,
            octets,
            i,
            &mut lines[..HELD],
            to_server,
            written.server,
        );
        return RunPart {
            taken: run.taken,
            control: with_client(control, control.switches, run.direction, control.owed),
            written: Written {
                server: run.at,
                client: written.client,
            },
        };
    }
    let run = direction_run(
        control.server,
        octets,
        i,
        &mut lines[HELD..],
        to_client,
        written.client,
    );
    RunPart {
        taken: run.taken,
        control: with_server(control, run.direction, control.owed, control.opening),
        written: Written {
            server: written.server,
            client: run.at,
        },
    }
}
