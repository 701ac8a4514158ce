// What one octet of the server does on the server's side: what it gives, where its direction stands then, and how
// many owed kinds it removes.
#![tactic(auto)]

ghost use Rattle.std.specs.Prelude.{◌≡◌, eqb};
ghost use Rattle.rules.specs.Octets.{lf, choose};
ghost use Rattle.rules.specs.Replies.{is_open, passive_reply, foreign};
ghost use Rattle.places.specs.Places.{at as direction_at};
ghost use Rattle.downstream.specs.Downstream.{kind_removed, head_removed, line_removes, passive_effect, kind_effect};
ghost use Rattle.downstream.specs.Downstream.{head_effect, line_gives, whole_line, flowing_line, reply_octet};
ghost use Rattle.downstream.specs.Downstream.{reply_effect, server_effect, server_effect_of};

use gives::Gives;
use places::{Direction, LF, Place, first_octets, is_held};
use rules::{Fixed, IPV4, Kind, ReplyLine};

// What a server octet does on the server's side; also how many owed kinds it removes, and the code of the reply that
// is open then.
#[derive(Clone, Copy)]
pub struct ServerEffect {
    pub gives: Gives,
    pub direction: Direction,
    pub removes: usize,
    pub opening: u32,
}

// How many owed kinds a final reply removes, by the first one owed.
fn kind_removed(kind: Kind) -> usize
    ensures { result ≡ kind_removed kind }
{
    match kind {
        Kind::Plain => 1,
        Kind::TranslatedEpsv => 1,
        Kind::Own(_) => 0,
        Kind::Auth => 1,
    }
}

fn head_removed(first: Option<Kind>) -> usize
    ensures { result ≡ head_removed first }
{
    first.map_or(0, kind_removed)
}

fn line_removes(reply: ReplyLine, first: Option<Kind>) -> usize
    ensures { result ≡ line_removes reply first }
{
    match reply {
        ReplyLine::Opens(_) => 0,
        ReplyLine::Belongs => 0,
        ReplyLine::Preliminary => 0,
        ReplyLine::Final => head_removed(first),
        ReplyLine::StandsAlone => 0,
    }
}

// What the only line of a final reply gives, by the first kind owed.
fn kind_gives(fixed: Fixed, kind: Kind, content: &[u8]) -> Gives
    ensures { result ≡ kind_effect fixed kind content.now }
{
    match kind {
        Kind::Plain => Gives::HeldAndOctet,
        Kind::TranslatedEpsv => passive_gives(fixed, content),
        Kind::Own(_) => Gives::HeldAndOctet,
        Kind::Auth => Gives::HeldAndOctet,
    }
}

// The 227 that answers a translated EPSV: in the strict form one that names another address than the server's is
// refused.
fn passive_gives(fixed: Fixed, content: &[u8]) -> Gives
    ensures { result ≡ passive_effect fixed (passive_reply content.now) }
{
    match replies::passive_reply(content) {
        Some(named) => named_gives(is_foreign(fixed, named.address), named.port),
        None => Gives::HeldAndOctet,
    }
}

fn named_gives(refused: bool, port: u16) -> Gives
    ensures { result ≡ choose refused Gives.CannotOpen (Gives.ExtendedPassive port) }
{
    if refused {
        return Gives::CannotOpen;
    }
    Gives::ExtendedPassive(port)
}

// Whether an address is one to refuse.
fn is_foreign(fixed: Fixed, address: [u8; IPV4]) -> bool
    ensures { result ≡ foreign fixed address }
{
    fixed.strict && address != fixed.server
}

fn head_gives(fixed: Fixed, first: Option<Kind>, content: &[u8]) -> Gives
    ensures { result ≡ head_effect fixed first content.now }
{
    first.map_or(Gives::HeldAndOctet, |kind| kind_gives(fixed, kind, content))
}

// What a line gives that ends a final reply: itself, unless it is the only one of its reply.
fn final_gives(fixed: Fixed, opening: u32, first: Option<Kind>, content: &[u8]) -> Gives
    ensures { result ≡ choose (is_open opening) Gives.HeldAndOctet (head_effect fixed first content.now) }
{
    if opening != 0 {
        return Gives::HeldAndOctet;
    }
    head_gives(fixed, first, content)
}

// What a line judged whole gives: itself, unless it ends a final reply.
fn line_gives(
    fixed: Fixed,
    reply: ReplyLine,
    opening: u32,
    first: Option<Kind>,
    content: &[u8],
) -> Gives
    ensures { result ≡ line_gives fixed reply opening first content.now }
{
    match reply {
        ReplyLine::Opens(_) => Gives::HeldAndOctet,
        ReplyLine::Belongs => Gives::HeldAndOctet,
        ReplyLine::Preliminary => Gives::HeldAndOctet,
        ReplyLine::Final => final_gives(fixed, opening, first, content),
        ReplyLine::StandsAlone => Gives::HeldAndOctet,
    }
}

// The LF of a server line that is judged whole.
fn whole_line(fixed: Fixed, opening: u32, first: Option<Kind>, content: &[u8]) -> ServerEffect
    ensures { result ≡ whole_line fixed opening first content.now }
{
    let reply = replies::reply_line(opening, content);
    ServerEffect {
        gives: line_gives(fixed, reply, opening, first, content),
        direction: Direction {
            place: Place::Holding,
            held: 0,
        },
        removes: line_removes(reply, first),
        opening: replies::opening_after(opening, reply),
    }
}

// The LF of a server line that flows, whose first four octets are still in the array.
fn flowing_line(opening: u32, first: Option<Kind>, line: &[u8]) -> ServerEffect
    ensures { result ≡ flowing_line opening first line.now }
{
    let reply = replies::reply_line(opening, first_octets(line, 4));
    ServerEffect {
        gives: Gives::LineOctet,
        direction: Direction {
            place: Place::Holding,
            held: 0,
        },
        removes: line_removes(reply, first),
        opening: replies::opening_after(opening, reply),
    }
}

// A server effect that removes nothing and leaves the reply as it was.
fn unremoved(gives: Gives, place: Place, held: usize, opening: u32) -> ServerEffect
    ensures { result ≡ server_effect_of gives (direction_at place held) 0 opening }
{
    ServerEffect {
        gives,
        direction: Direction { place, held },
        removes: 0,
        opening,
    }
}

// Another octet of a held server line.
fn reply_octet(opening: u32, held: usize) -> ServerEffect
    ensures { result ≡ reply_octet opening held }
{
    if is_held(held) {
        return unremoved(Gives::Held, Place::Holding, held + 1, opening);
    }
    unremoved(Gives::HeldAndOctet, Place::Flowing, 0, opening)
}

// An octet of a server line whose octets are held in `line`.
fn hold_reply(
    fixed: Fixed,
    opening: u32,
    first: Option<Kind>,
    held: usize,
    line: &[u8],
    x: u8,
) -> ServerEffect
    ensures { result ≡ reply_effect fixed opening first Place.Holding held line.now (eqb x lf) }
{
    if x == LF {
        return whole_line(
            fixed,
            opening,
            first,
            lines::content(first_octets(line, held)),
        );
    }
    reply_octet(opening, held)
}

// An octet of a server line that flows.
fn flow_reply(opening: u32, first: Option<Kind>, line: &[u8], x: u8) -> ServerEffect
    ensures { result ≡ choose (eqb x lf) (flowing_line opening first line.now)
        (server_effect_of Gives.LineOctet (direction_at Place.Flowing 0) 0 opening) }
{
    if x == LF {
        return flowing_line(opening, first, line);
    }
    unremoved(Gives::LineOctet, Place::Flowing, 0, opening)
}

// What a server octet x does, with the first kind owed; `line` is the array that holds the server's octets.
pub fn server_effect(
    fixed: Fixed,
    opening: u32,
    first: Option<Kind>,
    direction: Direction,
    line: &[u8],
    x: u8,
) -> ServerEffect
    ensures { result ≡ server_effect fixed opening first direction line.now x }
{
    let place = direction.place;
    match place {
        Place::Holding => hold_reply(fixed, opening, first, direction.held, line, x),
        Place::Flowing => flow_reply(opening, first, line, x),
        Place::Passing => unremoved(Gives::Octet, Place::Passing, 0, opening),
        Place::Ended => unremoved(Gives::Nothing, Place::Ended, 0, opening),
    }
}
