// The record as octets in lent memory, so that a host can keep it between calls.
#![tactic(auto)]

ghost use Rattle.std.specs.Prelude.{◌≡◌, ◌+◌, ◌≤◌, ◌++◌, length};
ghost use Rattle.rules.specs.Lines.{most_held};
ghost use Rattle.records.specs.Layout.{number_width, epsv_at, opening_at, image_size};
ghost use Rattle.output.specs.Buffer.{Put, put_at, PutInRoom};
ghost use Rattle.records.specs.Sound.{refusal_of, Counted};
ghost use Rattle.setups.specs.Setups.{dead_session};
ghost use Rattle.image.specs.Image.{mark_of as bit_of, place_number, telnet_number, four_octets, capped as capped_at};
ghost use Rattle.image.specs.Image.{marks_in, marks_from, numbers_by, numbers_from, arrays_of, image_of, place_of};
ghost use Rattle.image.specs.Image.{telnet_of, count_at, counts_at, control_in, fields_in};
ghost use Rattle.image.specs.Image.{at_most, is_image, session_of};

use output::{array_from, put};
use places::{Direction, Place};
use records::{Control, Counts, Session, layout, refusal_on};
use rules::{Answer, Fixed, Layer, Switches, Telnet};
use setups::refused_setup;

mod arrival;
mod ending;

pub use arrival::{Told, arrive_at};
pub use ending::end_at;

// Puts a record's image at the front of lent memory, or nothing where it does not fit.
pub fn put_image(image: &mut [u8], session: Session)
    ensures { image.new ≡ put_at image.old 0 (image_of session) }
{
    if image.len() < layout::SIZE {
        return;
    }
    let control = session.control;
    let fixed = session.fixed;
    let up = session.up;
    let down = session.down;
    put_marks(
        image,
        layout::LIVE,
        session.live,
        fixed.supported,
        fixed.strict,
        control,
    );
    let said = control.client;
    let answered = control.server;
    let owed = capped(control.owed);
    let command = capped(said.held);
    let reply = capped(answered.held);
    put_numbers(image, control, owed, command, reply, up, down);
    put_arrays(image, layout::CLIENT, session);
}

fn put_marks(
    out: &mut [u8],
    at: usize,
    live: bool,
    supported: bool,
    strict: bool,
    control: Control,
) -> usize
    ensures { PutInRoom out.old at (marks_from live supported strict control) result out.new }
{
    let fixed = [bit(live), bit(supported), bit(strict)];
    let next = put(out, at, &fixed);
    put_control(out, next, control)
}

// The marks that calls can change. Four octets, and two behind them, are a store each, where six would be six stores.
fn put_control(out: &mut [u8], at: usize, control: Control) -> usize
    ensures { PutInRoom out.old at (marks_in control) result out.new }
{
    let switches = control.switches;
    let client = control.client;
    let server = control.server;
    let client_place = client.place;
    let server_place = server.place;
    let up = control.up;
    let down = control.down;
    let client_telnet = up.telnet;
    let server_telnet = down.telnet;
    let marks = [
        bit(switches.epsv),
        bit(switches.eprt),
        place_number(client_place),
        place_number(server_place),
    ];
    let states = [telnet_number(client_telnet), telnet_number(server_telnet)];
    let next = put(out, at, &marks);
    put(out, next, &states)
}

fn bit(set: bool) -> u8
    ensures { result ≡ bit_of set }
{
    u8::from(set)
}

// The numbers of places and Telnet states are the image's, and the types are not: so there is no `From` for them.
fn place_number(place: Place) -> u8
    ensures { result ≡ place_number place }
{
    place as u8
}

fn telnet_number(telnet: Telnet) -> u8
    ensures { result ≡ telnet_number telnet }
{
    telnet as u8
}

// The opening code, the replies owed and the octets held of the client's and the server's line, then what is counted,
// and the octets removed, each at its own place, so that the compiler knows that there is room. The control's own
// counts are given in 32 bits.
fn put_numbers(
    image: &mut [u8],
    control: Control,
    owed: u32,
    command: u32,
    reply: u32,
    up: Counts,
    down: Counts,
)
    requires { image_size ≤ length image.old }
    ensures { let text = numbers_by control owed command reply up down in
        image.new ≡ put_at image.old opening_at text }
{
    let said = control.up;
    let answered = control.down;
    put_number(image, layout::OPENING, control.opening);
    put_number(image, layout::COUNT_OWED, owed);
    put_number(image, layout::CLIENT_HELD, command);
    put_number(image, layout::SERVER_HELD, reply);
    put_number(image, layout::UP_TAKEN, up.taken);
    put_number(image, layout::UP_WRITTEN, up.written);
    put_number(image, layout::DOWN_TAKEN, down.taken);
    put_number(image, layout::DOWN_WRITTEN, down.written);
    put_number(image, layout::UP_REMOVED, said.removed);
    put_number(image, layout::DOWN_REMOVED, answered.removed);
}

// A count in 32 bits. One that is larger is refused as a record before and after.
fn capped(n: usize) -> u32
    ensures { result ≡ capped_at n }
{
    u32::try_from(n).unwrap_or(u32::MAX)
}

// A count that an array can hold needs no cap: a call writes three of them.
fn uncapped(n: usize) -> u32
    requires { n ≤ most_held }
    ensures { result ≡ capped_at n }
{
    n as u32
}

// A number in four octets, low octet first.
fn put_number(out: &mut [u8], at: usize, n: u32) -> usize
    ensures { Put out.old at (four_octets n) result out.new }
{
    put(out, at, &n.to_le_bytes())
}

fn put_arrays(out: &mut [u8], at: usize, session: Session) -> usize
    ensures { PutInRoom out.old at (arrays_of session) result out.new }
{
    let fixed = session.fixed;
    let client = fixed.client;
    let mapped = fixed.mapped;
    let server = fixed.server;
    let kinds = session.kinds;
    let command = session.command;
    let reply = session.reply;
    let mut next = put(out, at, &client);
    next = put(out, next, &mapped);
    next = put(out, next, &server);
    next = put(out, next, &kinds);
    next = put(out, next, &command);
    put(out, next, &reply)
}

// Writes what calls can change of the marks and numbers back. The rest lies there already.
fn put_back(image: &mut [u8], control: Control, up: Counts, down: Counts)
    requires { (image_size ≤ length image.old) × Counted control }
    ensures { image.new ≡ put_at image.old epsv_at (marks_in control ++ numbers_from control up down) }
{
    let said = control.client;
    let answered = control.server;
    let owed = uncapped(control.owed);
    let command = uncapped(said.held);
    let reply = uncapped(answered.held);
    put_control(image, layout::EPSV, control);
    put_numbers(image, control, owed, command, reply, up, down);
}

// The record of an image. Octets that are no image are a record that number 4 refuses.
pub fn read_image(image: &[u8]) -> Session
    ensures { result ≡ session_of image.now }
{
    if !is_image(image) {
        return dead();
    }
    fields(image)
}

// Whether there are octets enough, and each mark has a value of its field.
fn is_image(image: &[u8]) -> bool
    ensures { result ≡ is_image image.now }
{
    if image.len() < layout::SIZE {
        return false;
    }
    if !at_most(&image[layout::LIVE..layout::CLIENT_PLACE], 1) {
        return false;
    }
    if !at_most(&image[layout::CLIENT_PLACE..layout::CLIENT_TELNET], 3) {
        return false;
    }
    at_most(&image[layout::CLIENT_TELNET..layout::OPENING], 7)
}

fn dead() -> Session
    ensures { result ≡ dead_session }
{
    let p = refused_setup();
    p.session
}

// Whether no octet is over a bound.
fn at_most(octets: &[u8], most: u8) -> bool
    ensures { result ≡ at_most most octets.now }
{
    octets.iter().all(|x| *x <= most)
}

fn fields(image: &[u8]) -> Session
    requires { image_size ≤ length image.now }
    ensures { result ≡ fields_in image.now }
{
    let live = image[layout::LIVE] == 1;
    let supported = image[layout::SUPPORTED] == 1;
    let strict = image[layout::STRICT] == 1;
    let client = array_from(&image[layout::CLIENT..layout::MAPPED]);
    let mapped = array_from(&image[layout::MAPPED..layout::SERVER]);
    let server = array_from(&image[layout::SERVER..layout::KINDS]);
    let kinds = array_from(&image[layout::KINDS..layout::COMMAND]);
    let command = array_from(&image[layout::COMMAND..layout::REPLY]);
    let reply = array_from(&image[layout::REPLY..layout::SIZE]);
    let control = control_in(image);
    let up = counts_at(image, layout::UP_TAKEN);
    let down = counts_at(image, layout::DOWN_TAKEN);
    let fixed = Fixed {
        client,
        mapped,
        server,
        supported,
        strict,
    };
    Session {
        live,
        fixed,
        control,
        command,
        reply,
        kinds,
        up,
        down,
    }
}

// What refuses a call on the record of lent memory, which may be no image.
fn refusal_at(image: &[u8], direction: u8) -> Option<Answer>
    ensures { result ≡ refusal_of (session_of image.now) direction }
{
    if 2 <= direction {
        return Some(Answer::UnknownDirection);
    }
    if !is_image(image) {
        return Some(Answer::BadRecord);
    }
    refusal_in(image, direction)
}

// The same of an image, told from its marks, numbers and kinds alone.
fn refusal_in(image: &[u8], direction: u8) -> Option<Answer>
    requires { image_size ≤ length image.now }
    ensures { result ≡ refusal_of (fields_in image.now) direction }
{
    let control = control_in(image);
    let kinds = &image[layout::KINDS..layout::COMMAND];
    refusal_on(image[layout::LIVE] == 1, control, kinds, direction)
}

fn control_in(image: &[u8]) -> Control
    requires { image_size ≤ length image.now }
    ensures { result ≡ control_in image.now }
{
    let switches = Switches {
        epsv: image[layout::EPSV] == 1,
        eprt: image[layout::EPRT] == 1,
    };
    let client = Direction {
        place: place_of(image[layout::CLIENT_PLACE]),
        held: number_at(image, layout::CLIENT_HELD) as usize,
    };
    let server = Direction {
        place: place_of(image[layout::SERVER_PLACE]),
        held: number_at(image, layout::SERVER_HELD) as usize,
    };
    let up = Layer {
        telnet: telnet_of(image[layout::CLIENT_TELNET]),
        removed: number_at(image, layout::UP_REMOVED),
    };
    let down = Layer {
        telnet: telnet_of(image[layout::SERVER_TELNET]),
        removed: number_at(image, layout::DOWN_REMOVED),
    };
    Control {
        switches,
        client,
        server,
        owed: number_at(image, layout::COUNT_OWED) as usize,
        opening: number_at(image, layout::OPENING),
        up,
        down,
    }
}

// The place and the Telnet state of a number: no `From`, as for `place_number`.
fn place_of(n: u8) -> Place
    ensures { result ≡ place_of n }
{
    match n {
        0 => Place::Holding,
        1 => Place::Flowing,
        2 => Place::Passing,
        _ => Place::Ended,
    }
}

fn telnet_of(n: u8) -> Telnet
    ensures { result ≡ telnet_of n }
{
    match n {
        0 => Telnet::Clear,
        1 => Telnet::Iac,
        2 => Telnet::Will,
        3 => Telnet::Wont,
        4 => Telnet::Do,
        5 => Telnet::Dont,
        6 => Telnet::Within,
        _ => Telnet::WithinIac,
    }
}

fn counts_at(image: &[u8], at: usize) -> Counts
    requires { at + (number_width + number_width) ≤ length image.now }
    ensures { result ≡ counts_at image.now at }
{
    Counts {
        taken: number_at(image, at),
        written: number_at(image, at + layout::NUMBER),
    }
}

// The number in four octets, low octet first, as the one sum that the compiler makes one load of.
fn number_at(image: &[u8], at: usize) -> u32
    requires { at + number_width ≤ length image.now }
    ensures { result ≡ count_at image.now at }
{
    let first = wide(image[at]);
    let second = wide(image[at + 1]);
    let third = wide(image[at + 2]);
    let fourth = wide(image[at + 3]);
    first + second * 256 + third * 65536 + fourth * 16777216
}

fn wide(octet: u8) -> u32
    ensures result { result ≡ octet }
    ensures most { result ≤ 255 }
{
    octet as u32
}
