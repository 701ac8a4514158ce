// The session's functions once more, with the promises that demand 3 is proved from as their contracts: that the
// session keeps them is proved, not read.
#![tactic(auto)]

ghost use Rattle.std.specs.Prelude.{◌≡◌, ◌<◌, length};
ghost use Rattle.rules.specs.Answers.{side_of};
ghost use Rattle.rules.specs.Demand3.{arrival, ending};
ghost use Rattle.session.specs.Bounds.{Progress};
ghost use Rattle.setups.specs.Setups.{prepared};
ghost use Rattle.counts.specs.Counts.{offset as offset_in};
ghost use Rattle.history.specs.Gateway.{gateway, returned};

use records::Session;
use rules::{Answer, Setup};
use session::Called;
use setups::Prepared;

// A setup that answers 0 returns a fresh session.
pub fn promised_setup(setup: Setup) -> Prepared
    ensures result { result ≡ prepared setup }
    ensures fresh { result.answer ≡ Answer.Done → gateway.Fresh setup result.session }
{
    setups::setup(setup)
}

// An arrival keeps the promise of a call, and goes on where there is room.
pub fn promised_arrival(
    session: Session,
    direction: u8,
    octets: &[u8],
    to_server: &mut [u8],
    to_client: &mut [u8],
) -> Called
    ensures promise { let c = arrival direction octets.now to_server.old to_client.old in
        gateway.Promise session c (returned session c result to_server.new to_client.new) }
    ensures progress { let server_room = length to_server.old in
        let client_room = length to_client.old in
        Progress octets.now server_room client_room result.answer result.taken }
{
    session::arrive(session, direction, octets, to_server, to_client)
}

// An end keeps the promise of a call.
pub fn promised_end(
    session: Session,
    direction: u8,
    to_server: &mut [u8],
    to_client: &mut [u8],
) -> Called
    ensures { let c = ending direction to_server.old to_client.old in
        gateway.Promise session c (returned session c result to_server.new to_client.new) }
{
    session::end(session, direction, to_server, to_client)
}

// The offset of a direction that there is, is the gateway's.
pub fn promised_offset(session: Session, direction: u8) -> Option<u32>
    ensures result { result ≡ offset_in session direction }
    ensures offset { direction < 2 → result ≡ Some (gateway.offset session (side_of direction)) }
{
    counts::offset(session, direction)
}
