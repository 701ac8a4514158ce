// The record of a session, its control rebuilt, and what is refused or has to wait.
#![tactic(auto)]

ghost use Rattle.std.specs.Prelude.{◌≡◌};
ghost use Rattle.rules.specs.Octets.{every};
ghost use Rattle.rules.specs.Answers.{side_of, is_queue_full};
ghost use Rattle.places.specs.Places.{is_passing};
ghost use Rattle.queue.specs.Kinds.{is_listed};
ghost use Rattle.records.specs.Controls.{with_client, with_server, layer_in, with_layers, with_layer};
ghost use Rattle.records.specs.Controls.{telnet_read, with_ended};
ghost use Rattle.records.specs.Sound.{sound_direction, sound_of, direction_of, refusal_on, refusal_of};
ghost use Rattle.records.specs.Sound.{blocked as is_blocked, holdable as are_holdable, side_if};

use places::{Direction, Place, copied, first_octets, has_ended, in_lines, is_holding, is_passing};
use rules::{Answer, Fixed, HELD, Kinds, Layer, Line, OWED, Switches, Telnet};
use telnet::cleared;

pub mod layout;

// What the session does next, apart from the octets held and the kinds owed.
#[derive(Clone, Copy)]
pub struct Control {
    pub switches: Switches,
    pub client: Direction,
    pub server: Direction,
    pub owed: usize,
    // The code that opened the server's reply of several lines, as a number; 0 where none is open, as the record of C
    // has it.
    pub opening: u32,
    // The Telnet layer of the client's octets, and of the server's.
    pub up: Layer,
    pub down: Layer,
}

// Octets taken from a direction and written for it, in 32 bits that wrap.
#[derive(Clone, Copy)]
pub struct Counts {
    pub taken: u32,
    pub written: u32,
}

// The record. The lengths `held` and `owed` stand beside arrays: it has a fixed size, in the memory of a host in C, and
// nothing is allocated.
#[derive(Clone, Copy)]
pub struct Session {
    pub live: bool,
    pub fixed: Fixed,
    pub control: Control,
    pub command: Line,
    pub reply: Line,
    pub kinds: Kinds,
    pub up: Counts,
    pub down: Counts,
}

// Every kind is listed.
fn kinds_listed(kinds: &[u8]) -> bool
    ensures { result ≡ every is_listed kinds.now }
{
    kinds.iter().all(|kind| *kind <= queue::LAST)
}

// A direction holds octets only where it may, and not too many. Mostly none are held, which decides it.
fn sound_direction(direction: Direction) -> bool
    ensures { result ≡ sound_direction direction }
{
    direction.held == 0 || (is_holding(direction) && direction.held <= HELD)
}

// A record of these parts is none that number 4 refuses.
fn sound(live: bool, control: Control, kinds: &[u8]) -> bool
    ensures { result ≡ sound_of live control kinds.now }
{
    live && control.owed <= OWED
        && kinds_listed(first_octets(kinds, control.owed))
        && sound_direction(control.client)
        && sound_direction(control.server)
}

// The direction of a side.
pub fn direction_of(control: Control, from_client: bool) -> Direction
    ensures { result ≡ direction_of (side_if from_client) control }
{
    if from_client {
        return control.client;
    }
    control.server
}

// What refuses a call on the direction of a number: 3, 4, 6, in this order. Hosts in C give directions as numbers, and
// number 3 refuses one that there is not, so it is no enum. These parts of the record decide. The kinds are read where
// they lie, those owed alone, or as many as there are: a load of all sixteen would wait for the store of the last one.
pub fn refusal_on(live: bool, control: Control, kinds: &[u8], direction: u8) -> Option<Answer>
    ensures { result ≡ refusal_on live control kinds.now direction }
{
    if 2 <= direction {
        return Some(Answer::UnknownDirection);
    }
    if !sound(live, control, kinds) {
        return Some(Answer::BadRecord);
    }
    if has_ended(direction_of(control, direction == 0)) {
        return Some(Answer::DirectionEnded);
    }
    None
}

// The same of a whole record.
pub fn refusal_of(session: Session, direction: u8) -> Option<Answer>
    ensures { result ≡ refusal_of session direction }
{
    let control = session.control;
    let kinds = session.kinds;
    refusal_on(session.live, control, &kinds, direction)
}

// Own answers have to wait.
pub fn blocked(control: Control) -> bool
    ensures { result ≡ is_blocked control }
{
    control.opening != 0 || matches!(control.server.place, Place::Flowing | Place::Ended)
}

// The control with what the client's octets change. It is built field by field: a struct that is copied whole is loaded
// in wide loads, which wait for the narrow stores before them.
pub fn with_client(control: Control, switches: Switches, client: Direction, owed: usize) -> Control
    ensures { result ≡ with_client control switches client owed }
{
    let other = control.server;
    let up = control.up;
    let down = control.down;
    Control {
        switches: Switches {
            epsv: switches.epsv,
            eprt: switches.eprt,
        },
        client: copied(client),
        server: copied(other),
        owed,
        opening: control.opening,
        up,
        down,
    }
}

// The control with what the server's octets, and the queue that settles, change; field by field too.
pub fn with_server(control: Control, server: Direction, owed: usize, opening: u32) -> Control
    ensures { result ≡ with_server control server owed opening }
{
    let switches = control.switches;
    let other = control.client;
    let up = control.up;
    let down = control.down;
    Control {
        switches: Switches {
            epsv: switches.epsv,
            eprt: switches.eprt,
        },
        client: copied(other),
        server: copied(server),
        owed,
        opening,
        up,
        down,
    }
}

// The Telnet layer of a side.
pub fn layer_of(control: Control, from_client: bool) -> Layer
    ensures { result ≡ layer_in (side_if from_client) control }
{
    if from_client {
        return control.up;
    }
    control.down
}

// The Telnet state of a side, as far as it is read: clear where its octets are not read as lines.
pub fn unfinished_of(control: Control, from_client: bool) -> Telnet
    ensures { result ≡ telnet_read (side_if from_client) control }
{
    if !in_lines(direction_of(control, from_client)) {
        return Telnet::Clear;
    }
    let layer = layer_of(control, from_client);
    layer.telnet
}

// The control with these Telnet layers; field by field, as `with_client` is, and not by `..control`.
fn with_layers(control: Control, up: Layer, down: Layer) -> Control
    ensures { result ≡ with_layers control up down }
{
    let on = control.switches;
    let said = control.client;
    let answered = control.server;
    let code = control.opening;
    Control {
        switches: on,
        client: said,
        server: answered,
        owed: control.owed,
        opening: code,
        up,
        down,
    }
}

// The control with another Telnet layer of a side.
pub fn with_layer(control: Control, from_client: bool, layer: Layer) -> Control
    ensures { result ≡ with_layer (side_if from_client) control layer }
{
    if from_client {
        return with_layers(control, layer, control.down);
    }
    with_layers(control, control.up, layer)
}

// The control with what the end of a side changes: of its line and of a Telnet command nothing is left.
pub fn with_ended(control: Control, from_client: bool) -> Control
    ensures { result ≡ with_ended (side_if from_client) control }
{
    let ended = Direction {
        place: Place::Ended,
        held: 0,
    };
    if from_client {
        let left = with_layers(control, cleared(control.up), control.down);
        return with_client(left, control.switches, ended, control.owed);
    }
    let left = with_layers(control, control.up, cleared(control.down));
    with_server(left, ended, control.owed, control.opening)
}

// The next octet is the client's, AUTH is not yet recognised, and 16 replies are owed.
pub fn queue_full(from_client: bool, control: Control) -> bool
    ensures { result ≡ is_queue_full (side_if from_client) (is_passing control.client.place) control.owed }
{
    from_client && !is_passing(control.client) && OWED <= control.owed
}

// The record's arrays can hold these counts.
pub fn holdable(counts: Control) -> bool
    ensures { result ≡ are_holdable counts }
{
    counts.owed <= OWED && counts.client.held <= HELD && counts.server.held <= HELD
}
