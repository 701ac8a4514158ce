// What one octet of the client does on the client's side: what it gives, where its direction stands then, and what is
// owed for it.
#![tactic(auto)]

ghost use Rattle.std.specs.Prelude.{◌≡◌, eqb, take};
ghost use Rattle.rules.specs.Octets.{lf, choose};
ghost use Rattle.rules.specs.Commands.{answer_switches};
ghost use Rattle.places.specs.Places.{at as direction_at};
ghost use Rattle.upstream.specs.Upstream.{client_effect_of, judged_effect, join_effect, place_effect, client_effect};

use gives::Gives;
use places::{Direction, LF, Place, first_octets, is_held};
use rules::{Command, Fixed, Kind, OwnAnswer, Switches};

// What a client octet does on the client's side.
#[derive(Clone, Copy)]
pub struct ClientEffect {
    pub gives: Gives,
    pub direction: Direction,
    pub switches: Switches,
    pub owes: Option<Kind>,
}

// The switches after an own answer: a 216 tells the state that then holds.
fn switches_answered(switches: Switches, answer: OwnAnswer) -> Switches
    ensures { result ≡ answer_switches switches answer }
{
    match answer {
        OwnAnswer::ProtocolNotSupported => switches,
        OwnAnswer::ParameterNotImplemented => switches,
        OwnAnswer::State(told) => told,
    }
}

// A client effect at the end of a line that owes one kind.
fn owed(gives: Gives, place: Place, switches: Switches, kind: Kind) -> ClientEffect
    ensures { result ≡ client_effect_of gives (direction_at place 0) switches (Some kind) }
{
    ClientEffect {
        gives,
        direction: Direction { place, held: 0 },
        switches,
        owes: Some(kind),
    }
}

// The LF of a client line that is judged whole. After AUTH the client's octets pass at once.
fn judged_effect(switches: Switches, command: Command) -> ClientEffect
    ensures { result ≡ judged_effect switches command }
{
    match command {
        Command::Passes => owed(Gives::HeldAndOctet, Place::Holding, switches, Kind::Plain),
        Command::Passive => owed(Gives::Pasv, Place::Holding, switches, Kind::TranslatedEpsv),
        Command::Port(port) => owed(Gives::Port(port), Place::Holding, switches, Kind::Plain),
        Command::Answered(answer) => owed(
            Gives::Nothing,
            Place::Holding,
            switches_answered(switches, answer),
            Kind::Own(answer),
        ),
        Command::Auth => owed(Gives::HeldAndOctet, Place::Passing, switches, Kind::Auth),
    }
}

// A client effect that owes nothing. That a kind is owed, or none, is said by the function called, and by no argument.
fn unowed(gives: Gives, place: Place, held: usize, switches: Switches) -> ClientEffect
    ensures { result ≡ client_effect_of gives (direction_at place held) switches None }
{
    ClientEffect {
        gives,
        direction: Direction { place, held },
        switches,
        owes: None,
    }
}

// Another octet of a held client line; `line` is what is held of it.
fn join_effect(switches: Switches, held: usize, line: &[u8]) -> ClientEffect
    ensures { result ≡ join_effect switches held line.now }
{
    if is_held(held) {
        return unowed(Gives::Held, Place::Holding, held + 1, switches);
    }
    if commands::starts_auth(line) {
        return owed(Gives::HeldAndOctet, Place::Passing, switches, Kind::Auth);
    }
    unowed(Gives::HeldAndOctet, Place::Flowing, 0, switches)
}

// An octet of a client line whose octets are held in `line`.
fn hold_effect(fixed: Fixed, switches: Switches, held: usize, line: &[u8], x: u8) -> ClientEffect
    ensures { result ≡ place_effect fixed switches Place.Holding held (take held line.now) (eqb x lf) }
{
    let octets = first_octets(line, held);
    if x == LF {
        return judged_effect(switches, commands::command(octets, fixed, switches));
    }
    join_effect(switches, held, octets)
}

// An octet of a client line that flows: at its LF a plain reply is owed.
fn flow_effect(switches: Switches, x: u8) -> ClientEffect
    ensures { result ≡ choose (eqb x lf)
        (client_effect_of Gives.LineOctet (direction_at Place.Holding 0) switches (Some Kind.Plain))
        (client_effect_of Gives.LineOctet (direction_at Place.Flowing 0) switches None) }
{
    if x == LF {
        return owed(Gives::LineOctet, Place::Holding, switches, Kind::Plain);
    }
    unowed(Gives::LineOctet, Place::Flowing, 0, switches)
}

// What a client octet x does; `line` is the array that holds the client's octets.
pub fn client_effect(
    fixed: Fixed,
    switches: Switches,
    direction: Direction,
    line: &[u8],
    x: u8,
) -> ClientEffect
    ensures { result ≡ client_effect fixed switches direction line.now x }
{
    let place = direction.place;
    match place {
        Place::Holding => hold_effect(fixed, switches, direction.held, line, x),
        Place::Flowing => flow_effect(switches, x),
        Place::Passing => unowed(Gives::Octet, Place::Passing, 0, switches),
        Place::Ended => unowed(Gives::Nothing, Place::Ended, 0, switches),
    }
}
