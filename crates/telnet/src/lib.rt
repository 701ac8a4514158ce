// The Telnet layer: what each octet of a direction does in it, before any line is looked at.
#![tactic(auto)]

ghost use Rattle.std.specs.Prelude.{◌≡◌, ◌≤◌, length};
ghost use Rattle.rules.specs.Telnet.{after_iac, telnet_octet, layer_octet, answer_of, command_of, unfinished};
ghost use Rattle.rules.specs.Telnet.{removed_after};
ghost use Rattle.rules.specs.Telnet.{is_clear, cleared as cleared_of};
ghost use Rattle.output.specs.Buffer.{Put};

use output::put;
use rules::{Does, Layer, Telnet, TelnetStep};

// The octets of RFC 854's commands.
const SE: u8 = 240;

const SB: u8 = 250;

const WILL: u8 = 251;

const WONT: u8 = 252;

const DO: u8 = 253;

const DONT: u8 = 254;

const IAC: u8 = 255;

// One octet: the Telnet state after it, and what it does.
pub fn octet(telnet: Telnet, x: u8) -> TelnetStep
    ensures { result ≡ telnet_octet telnet x }
{
    match telnet {
        Telnet::Clear if x == IAC => to(Telnet::Iac, Does::Nothing),
        Telnet::Clear => to(Telnet::Clear, Does::Data(x)),
        Telnet::Iac => after_iac(x),
        Telnet::Will => to(Telnet::Clear, Does::AnswersDont(x)),
        Telnet::Do => to(Telnet::Clear, Does::AnswersWont(x)),
        Telnet::Wont | Telnet::Dont => to(Telnet::Clear, Does::Nothing),
        Telnet::Within if x == IAC => to(Telnet::WithinIac, Does::Removes(1)),
        Telnet::Within => to(Telnet::Within, Does::Removes(1)),
        Telnet::WithinIac if x == SE => to(Telnet::Clear, Does::Removes(1)),
        Telnet::WithinIac => to(Telnet::Within, Does::Removes(1)),
    }
}

fn to(telnet: Telnet, does: Does) -> TelnetStep
    ensures { result ≡ record { telnet = telnet; does = does } }
{
    TelnetStep { telnet, does }
}

// An octet behind 255.
fn after_iac(x: u8) -> TelnetStep
    ensures { result ≡ after_iac x }
{
    match x {
        IAC => to(Telnet::Clear, Does::Data(IAC)),
        SB => to(Telnet::Within, Does::Removes(2)),
        WILL => to(Telnet::Will, Does::Nothing),
        WONT => to(Telnet::Wont, Does::Nothing),
        DO => to(Telnet::Do, Does::Nothing),
        DONT => to(Telnet::Dont, Does::Nothing),
        _ => to(Telnet::Clear, Does::Passes(x)),
    }
}

// An octet of a direction: its layer after it, and what it does.
#[derive(Clone, Copy)]
pub struct Layered {
    pub layer: Layer,
    pub does: Does,
}

// An octet of a direction whose octets are read as lines, or are not: then it only passes.
pub fn through(in_lines: bool, layer: Layer, x: u8) -> Layered
    ensures { let s = layer_octet in_lines layer x in
        (result.layer ≡ s.layer) × (result.does ≡ s.does) }
{
    if !in_lines {
        return Layered {
            layer,
            does: Does::Data(x),
        };
    }
    let TelnetStep { telnet, does } = octet(layer.telnet, x);
    Layered {
        layer: Layer {
            telnet,
            removed: removed_after(layer.removed, does),
        },
        does,
    }
}

// The count of octets removed, which wraps.
fn removed_after(removed: u32, does: Does) -> u32
    ensures { result ≡ removed_after removed does }
{
    match does {
        Does::Removes(n) => removed.wrapping_add(n),
        _ => removed,
    }
}

// A direction of which no command is unfinished any more.
pub fn cleared(layer: Layer) -> Layer
    ensures { result ≡ cleared_of layer }
{
    Layer {
        telnet: Telnet::Clear,
        removed: layer.removed,
    }
}

// Whether no command is unfinished.
pub fn is_clear(telnet: Telnet) -> bool
    ensures { result ≡ is_clear telnet }
{
    matches!(telnet, Telnet::Clear)
}

// How many octets go back to the sender. Texts as values would need a function more for each length and put below.
pub fn answer_length(does: Does) -> usize
    ensures result { result ≡ length (answer_of does) }
    ensures most { result ≤ 3 }
{
    match does {
        Does::AnswersDont(_) | Does::AnswersWont(_) => 3,
        _ => 0,
    }
}

pub fn put_answer(out: &mut [u8], at: usize, does: Does) -> usize
    ensures { Put out.old at (answer_of does) result out.new }
{
    match does {
        Does::AnswersDont(x) => put(out, at, &[IAC, DONT, x]),
        Does::AnswersWont(x) => put(out, at, &[IAC, WONT, x]),
        _ => at,
    }
}

// How many octets of a command pass to the other side.
pub fn command_length(does: Does) -> usize
    ensures result { result ≡ length (command_of does) }
    ensures most { result ≤ 2 }
{
    match does {
        Does::Passes(_) => 2,
        _ => 0,
    }
}

pub fn put_command(out: &mut [u8], at: usize, does: Does) -> usize
    ensures { Put out.old at (command_of does) result out.new }
{
    match does {
        Does::Passes(x) => put(out, at, &[IAC, x]),
        _ => at,
    }
}

// How many octets an unfinished command passes on.
pub fn unfinished_length(telnet: Telnet) -> usize
    ensures result { result ≡ length (unfinished telnet) }
    ensures most { result ≤ 2 }
{
    match telnet {
        Telnet::Clear | Telnet::Within | Telnet::WithinIac => 0,
        Telnet::Iac => 1,
        Telnet::Will | Telnet::Wont | Telnet::Do | Telnet::Dont => 2,
    }
}

pub fn put_unfinished(out: &mut [u8], at: usize, telnet: Telnet) -> usize
    ensures { Put out.old at (unfinished telnet) result out.new }
{
    match telnet {
        Telnet::Clear | Telnet::Within | Telnet::WithinIac => at,
        Telnet::Iac => put(out, at, &[IAC]),
        Telnet::Will => put(out, at, &[IAC, WILL]),
        Telnet::Wont => put(out, at, &[IAC, WONT]),
        Telnet::Do => put(out, at, &[IAC, DO]),
        Telnet::Dont => put(out, at, &[IAC, DONT]),
    }
}
