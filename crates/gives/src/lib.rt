// What an octet gives to the other side, and its octets put into a buffer. Those of a line leave with each 255 doubled.
#![tactic(auto)]

ghost use Rattle.std.specs.Prelude.{◌≡◌, ◌++◌, ◌∷◌, [], min, ◌≤◌, length};
ghost use Rattle.rules.specs.Lines.{passed, most_held};
ghost use Rattle.output.specs.Buffer.{Put, PutInRoom};
ghost use Rattle.gives.specs.Text.{gives_text, most_counted};

use output::{has_room, put};
use rules::Fixed;
use search::find_iac;

const IAC: u8 = 255;

// What an octet gives: nothing since it is held; nothing; itself, as it passes at once; itself, in a line that flows;
// the held octets and itself; or a line of the gateway's.
#[derive(Clone, Copy)]
pub enum Gives {
    Held,
    Nothing,
    Octet,
    LineOctet,
    HeldAndOctet,
    Pasv,
    Port(u16),
    ExtendedPassive(u16),
    CannotOpen,
}

// How many octets are given, as far as they are counted: all of them where no more are held than a line holds.
pub fn gives_length(gives: Gives, fixed: Fixed, held: &[u8], x: u8) -> usize
    ensures counted { result ≡ min (length (gives_text fixed held.now x gives)) most_counted }
    ensures all { let text = gives_text fixed held.now x gives in
        (length held.now ≤ most_held → result ≡ length text) }
{
    let mapped = fixed.mapped;
    match gives {
        Gives::Held | Gives::Nothing => 0,
        Gives::Octet => 1,
        Gives::LineOctet => octet_length(x),
        Gives::HeldAndOctet => line_length(held, x),
        Gives::Pasv => writers::pasv_length(),
        Gives::Port(port) => writers::port_line_length(mapped, port),
        Gives::ExtendedPassive(port) => writers::extended_passive_length(port),
        Gives::CannotOpen => writers::cannot_open_length(),
    }
}

// How many octets an octet of a line gives.
fn octet_length(x: u8) -> usize
    ensures result { result ≡ length (passed (x ∷ [])) }
    ensures most { result ≤ 2 }
{
    if x == IAC { 2 } else { 1 }
}

// And held ones with it. Only those of a slice as long as a slice may be, all of them 255, are one too many to count.
fn line_length(held: &[u8], x: u8) -> usize
    ensures { result ≡ min (length (passed held.now ++ passed (x ∷ []))) most_counted }
{
    passed_length(held).saturating_add(octet_length(x))
}

// The octets given are put into a buffer; where they do not fit, nothing is.
pub fn put_gives(out: &mut [u8], at: usize, gives: Gives, fixed: Fixed, held: &[u8], x: u8) -> usize
    ensures { let text = gives_text fixed held.now x gives in
        Put out.old at text result out.new }
{
    let mapped = fixed.mapped;
    match gives {
        Gives::Held | Gives::Nothing => at,
        Gives::Octet => put_octet(out, at, x),
        Gives::LineOctet => put_line_octet(out, at, x),
        Gives::HeldAndOctet => put_line(out, at, held, x),
        Gives::Pasv => writers::put_pasv(out, at),
        Gives::Port(port) => writers::put_port_line(out, at, mapped, port),
        Gives::ExtendedPassive(port) => writers::put_extended_passive(out, at, port),
        Gives::CannotOpen => writers::put_cannot_open(out, at),
    }
}

// One octet as a slice of its own.
fn put_octet(out: &mut [u8], at: usize, x: u8) -> usize
    ensures { Put out.old at (x ∷ []) result out.new }
{
    put(out, at, &[x])
}

// One octet of a line.
fn put_line_octet(out: &mut [u8], at: usize, x: u8) -> usize
    ensures { Put out.old at (passed (x ∷ [])) result out.new }
{
    if x == IAC {
        return put(out, at, &[IAC, IAC]);
    }
    put_octet(out, at, x)
}

// How many octets held octets give where they leave. Up to the first 255 they are as many as they are.
pub fn passed_length(held: &[u8]) -> usize
    ensures { result ≡ length (passed held.now) }
{
    let front = find_iac(held, 0);
    let mut n = front;
    for x in &held[front..] {
        n += octet_length(*x);
    }
    n
}

// What they give is put into a buffer, all or nothing; the next position.
pub fn put_passed(out: &mut [u8], at: usize, held: &[u8]) -> usize
    ensures { Put out.old at (passed held.now) result out.new }
{
    let n = passed_length(held);
    if !has_room(out.len(), at, n) {
        return at;
    }
    put_counted(out, at, held, n)
}

// Where they have room, and are known to give n: as many as they are, and they leave as they came.
fn put_counted(out: &mut [u8], at: usize, held: &[u8], n: usize) -> usize
    requires { n ≡ length (passed held.now) }
    ensures { PutInRoom out.old at (passed held.now) result out.new }
{
    if n == held.len() {
        return put(out, at, held);
    }
    put_doubled(out, at, held)
}

// By the runs between the octets 255, each found many octets at once and moved whole.
fn put_doubled(out: &mut [u8], at: usize, held: &[u8]) -> usize
    ensures { PutInRoom out.old at (passed held.now) result out.new }
{
    let mut next = at;
    let mut i = 0;
    while i < held.len() {
        let e = find_iac(held, i);
        next = put(out, next, &held[i..e]);
        if e >= held.len() {
            return next;
        }
        next = put_line_octet(out, next, held[e]);
        i = e + 1;
    }
    next
}

// What a line's held octets give and one octet more of it behind them, all or nothing; the next position.
fn put_line(out: &mut [u8], at: usize, held: &[u8], x: u8) -> usize
    ensures { let text = passed held.now ++ passed (x ∷ []) in
        Put out.old at text result out.new }
{
    let n = passed_length(held);
    if !has_room(out.len(), at, n) || !has_room(out.len(), at + n, octet_length(x)) {
        return at;
    }
    let next = put_counted(out, at, held, n);
    put_line_octet(out, next, x)
}
