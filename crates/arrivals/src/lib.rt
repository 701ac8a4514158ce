// The octets of an arrival, by lines, runs and octets, until one has to wait.
#![tactic(auto)]

ghost use Rattle.std.specs.Prelude.{◌≡◌, ◌≤◌, length};
ghost use Rattle.records.specs.Sound.{Counted, side_if};
ghost use Rattle.rules.specs.declared.Fixed.{Fixed};
ghost use Rattle.steps.specs.Takes.{takes, took_in, fixed_lent, addresses_lent, state_lent, core_lent, Given};
ghost use Rattle.steps.specs.Core.{Bounded};
ghost use Rattle.arrivals.specs.Runs.{Ran};

use output::array_from;
use places::{Direction, LF};
use plain::plain_lines;
use records::layout::{LENT_COMMAND, LENT_KINDS, LENT_SIZE};
use records::{Control, holdable};
use rules::{Answer, Layer, Switches};
use running::{RunPart, any_run};
use steps::{Written, next_octet};

mod plain;
mod running;

// What stopped an arrival and how many octets it took; and the control and the counts then, all of it in every case.
#[derive(Clone, Copy)]
pub struct Taken {
    pub answer: Answer,
    pub taken: usize,
    pub control: Control,
    pub written: Written,
}

// The octets of an arrival, until one has to wait; from counts that can't be, or another number of lent octets, nothing
// is taken.
pub fn take(
    supported: bool,
    strict: bool,
    from_client: bool,
    start: Control,
    octets: &[u8],
    lent: &mut [u8],
    to_server: &mut [u8],
    to_client: &mut [u8],
) -> Taken
    ensures given { let server = to_server.old in
        let client = to_client.old in
        let t = took_in supported strict (side_if from_client) start lent.old octets.now
        (length server) (length client) in
        let after = core_lent result.control lent.new to_server.new to_client.new
        result.written in
        Given t server client result.answer result.taken after }
    ensures fixed { addresses_lent lent.new ≡ addresses_lent lent.old }
    ensures counts { Counted start → Counted result.control }
{
    if !holdable(start) {
        return nothing_taken(start);
    }
    let Some(lent) = lent.as_mut_array() else {
        return nothing_taken(start);
    };
    take_each(
        supported,
        strict,
        from_client,
        start,
        octets,
        lent,
        to_server,
        to_client,
    )
}

// What is refused as a record that can't be.
fn nothing_taken(control: Control) -> Taken
    ensures { result ≡ record {
      answer = Answer.BadRecord;
      taken = 0;
      control = control;
      written = record { server = 0; client = 0 };
    } }
{
    Taken {
        answer: Answer::BadRecord,
        taken: 0,
        control,
        written: Written {
            server: 0,
            client: 0,
        },
    }
}

// Plain lines and a run behind them, and the octet behind those, again and again, where the counts can be held.
fn take_each(
    supported: bool,
    strict: bool,
    from_client: bool,
    start: Control,
    octets: &[u8],
    lent: &mut [u8; LENT_SIZE],
    to_server: &mut [u8],
    to_client: &mut [u8],
) -> Taken
    requires counts { Counted start }
    ensures given { let server = to_server.old in
        let client = to_client.old in
        let fixed = fixed_lent supported strict lent.old in
        let t = takes fixed (side_if from_client) (state_lent start lent.old) octets.now
        (length server) (length client) in
        let after = core_lent result.control lent.new to_server.new to_client.new
        result.written in
        Given t server client result.answer result.taken after }
    ensures fixed { addresses_lent lent.new ≡ addresses_lent lent.old }
    ensures counts { Counted result.control }
{
    let mut control = start;
    let mut written = Written {
        server: 0,
        client: 0,
    };
    let mut i = 0;
    // No `for` over the octets: a turn goes past whole lines and runs.
    while i < octets.len() {
        let run = next_run(
            from_client,
            control,
            octets,
            i,
            lent,
            to_server,
            to_client,
            written,
        );
        control = rebuilt(run.control);
        written = run.written;
        i = run.taken;
        if i < octets.len() {
            let o = next_octet(
                supported,
                strict,
                from_client,
                control,
                octets[i],
                lent,
                to_server,
                to_client,
                written,
            );
            control = rebuilt(o.control);
            written = o.written;
            let answer = o.answer;
            let Answer::Done = answer else {
                return Taken {
                    answer,
                    taken: i,
                    control,
                    written,
                };
            };
            i += 1;
        }
    }
    Taken {
        answer: Answer::Done,
        taken: i,
        control,
        written,
    }
}

// The control, field by field: a struct that is copied whole drags its padding through the loop.
fn rebuilt(control: Control) -> Control
    ensures { result ≡ control }
{
    let switches = control.switches;
    let client = control.client;
    let server = control.server;
    let client_place = client.place;
    let server_place = server.place;
    let up = control.up;
    let down = control.down;
    let said = up.telnet;
    let answered = down.telnet;
    Control {
        switches: Switches {
            epsv: switches.epsv,
            eprt: switches.eprt,
        },
        client: Direction {
            place: client_place,
            held: client.held,
        },
        server: Direction {
            place: server_place,
            held: server.held,
        },
        owed: control.owed,
        opening: control.opening,
        up: Layer {
            telnet: said,
            removed: up.removed,
        },
        down: Layer {
            telnet: answered,
            removed: down.removed,
        },
    }
}

// Plain lines from i on, and a run behind them. An LF begins no run of held or flowing octets, so none is looked for;
// where octets pass, it goes by itself and the run begins behind it. So does a 255, which no run of a line has.
fn next_run(
    from_client: bool,
    control: Control,
    octets: &[u8],
    i: usize,
    lent: &mut [u8; LENT_SIZE],
    to_server: &mut [u8],
    to_client: &mut [u8],
    written: Written,
) -> RunPart
    requires bounds { Bounded control written to_server.old to_client.old }
    requires within { i ≤ length octets.now }
    ensures ran { let k = core_lent control lent.old to_server.old to_client.old written in
        let m = core_lent result.control lent.new to_server.new to_client.new
        result.written in
        ((fixed : Fixed) → Ran fixed (side_if from_client) octets.now k i m result.taken) }
    ensures fixed { addresses_lent lent.new ≡ addresses_lent lent.old }
{
    let plain = plain_lines(
        from_client,
        control,
        octets,
        i,
        lent,
        to_server,
        to_client,
        written,
    );
    let j = plain.taken;
    if octets.len() <= j || octets[j] == LF {
        return plain;
    }
    let kinds = array_from(&lent[LENT_KINDS..LENT_COMMAND]);
    any_run(
        from_client,
        plain.control,
        kinds,
        octets,
        j,
        &mut lent[LENT_COMMAND..],
        to_server,
        to_client,
        plain.written,
    )
}
