// Setup: the record of a session, from a setup or from its octets.
#![tactic(auto)]

ghost use Rattle.std.specs.Prelude.{◌≡◌, ◌<◌};
ghost use Rattle.rules.specs.Setup.{bit};
ghost use Rattle.setups.specs.Setups.{prepared, start_session, start_control, refused_setup, prepared_from};

use output::array_from;
use places::{Direction, Place};
use records::{Control, Counts, Session};
use rules::{Answer, Fixed, HELD, IPV4, IPV6, Layer, OWED, SETUP, Setup, Switches, Telnet};

// What setup returns. A setup that is refused has a record too, which a host in C is left with (`fashlemor_setup`), so
// this is no `Result`.
#[derive(Clone, Copy)]
pub struct Prepared {
    pub answer: Answer,
    pub session: Session,
}

// Bit i of the flags is set.
fn has_flag(flags: u8, i: u8) -> bool
    requires { i < 8 }
    ensures { result ≡ bit i flags }
{
    (flags >> i) & 1 == 1
}

// A session from what a setup gives.
pub fn setup(setup: Setup) -> Prepared
    ensures { result ≡ prepared setup }
{
    let Setup {
        client,
        mapped,
        flags,
        server,
    } = setup;
    let epsv = has_flag(flags, 0);
    let supported = has_flag(flags, 1);
    let eprt = has_flag(flags, 2);
    let strict = has_flag(flags, 3);
    if flags >> 4 != 0 || (eprt && !supported) {
        return refused_setup();
    }
    let fixed = Fixed {
        client,
        mapped,
        server,
        supported,
        strict,
    };
    Prepared {
        answer: Answer::Done,
        session: start(true, fixed, Switches { epsv, eprt }, 1),
    }
}

// The same from octets, for all who have a setup as octets: another number of them is refused.
pub fn setup_from(octets: &[u8]) -> Prepared
    ensures { result ≡ prepared_from octets.now }
{
    if octets.len() != SETUP {
        return refused_setup();
    }
    let client = array_from(&octets[..IPV6]);
    let mapped = array_from(&octets[IPV6..IPV6 + IPV4]);
    let server = array_from(&octets[IPV6 + IPV4 + 1..SETUP]);
    setup(Setup {
        client,
        mapped,
        flags: octets[IPV6 + IPV4],
        server,
    })
}

// A session in which nothing is held yet and nothing counted.
fn start(live: bool, fixed: Fixed, switches: Switches, owed: usize) -> Session
    ensures { result ≡ start_session live fixed (start_control switches owed) }
{
    let direction = Direction {
        place: Place::Holding,
        held: 0,
    };
    let nothing = Layer {
        telnet: Telnet::Clear,
        removed: 0,
    };
    let control = Control {
        switches,
        client: direction,
        server: direction,
        owed,
        opening: 0,
        up: nothing,
        down: nothing,
    };
    let none = Counts {
        taken: 0,
        written: 0,
    };
    Session {
        live,
        fixed,
        control,
        command: [0u8; HELD],
        reply: [0u8; HELD],
        kinds: [0u8; OWED],
        up: none,
        down: none,
    }
}

// What a setup returns that is refused: a record that is not live, and otherwise zero.
pub fn refused_setup() -> Prepared
    ensures { result ≡ refused_setup }
{
    let off = Switches {
        epsv: false,
        eprt: false,
    };
    let none = Fixed {
        client: [0u8; IPV6],
        mapped: [0u8; IPV4],
        server: [0u8; IPV4],
        supported: false,
        strict: false,
    };
    Prepared {
        answer: Answer::BadSetup,
        session: start(false, none, off, 0),
    }
}
