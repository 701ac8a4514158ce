// What the programs read.
#![tactic(auto)]

ghost use Rattle.std.specs.Prelude.{◌≡◌, take, IfOk, IfSome};

use std::alloc::Global;
use std::io;
use std::io::Read;

// The octets that the input gives until it ends, and of an input that has more the first `most`: no more is read.
pub fn read_most<R: Read + Drop>(alloc: Global, input: R, most: u64) -> io::Result<Vec<u8>>
    ensures { IfOk result (λ octets. IfSome (R.remaining input) (λ all. octets.items ≡ take most all)) }
{
    let mut octets = Vec::new(alloc);
    input.take(most).read_to_end(&mut octets)?;
    Ok(octets)
}
