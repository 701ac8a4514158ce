// The gateway's own answers, each with its length known before it is written. An answer goes in whole or not at all.
#![tactic(auto)]

ghost use Rattle.std.specs.Prelude.{◌≡◌, length};
ghost use Rattle.rules.specs.Replies.{state_line, answer_line};
ghost use Rattle.output.specs.Buffer.{Put};

use output::put;
use rules::{OwnAnswer, Switches};

pub fn answer_length(a: OwnAnswer) -> usize
    ensures { result ≡ length (answer_line a) }
{
    text(a).len()
}

pub fn put_answer(out: &mut [u8], at: usize, a: OwnAnswer) -> usize
    ensures { Put out.old at (answer_line a) result out.new }
{
    put(out, at, text(a))
}

fn text(a: OwnAnswer) -> &'static [u8]
    ensures { result.now ≡ answer_line a }
{
    match a {
        OwnAnswer::ProtocolNotSupported => b"522 Network protocol not supported\r\n",
        OwnAnswer::ParameterNotImplemented => b"504 Command not implemented for that parameter\r\n",
        OwnAnswer::State(on) => state(on),
    }
}

// The 216 line, by the switches that are on.
fn state(on: Switches) -> &'static [u8]
    ensures { result.now ≡ state_line on.epsv on.eprt }
{
    match (on.epsv, on.eprt) {
        (false, false) => b"216 NONE\r\n",
        (true, false) => b"216 EPSV\r\n",
        (false, true) => b"216 EPRT\r\n",
        (true, true) => b"216 EPSVEPRT\r\n",
    }
}
