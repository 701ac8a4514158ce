// Where the ordinary octets of a line end, and where the first 255 stands. A loop with a way out at each octet compares
// one octet at a time; a block that is read whole, with no way out in its middle, is compiled to comparisons of many
// octets at once. So blocks of ordinary octets are gone over first, large ones and then small ones, and only what is
// left octet by octet.
#![tactic(auto)]

ghost use Rattle.std.specs.Prelude.{◌≡◌, not, ◌+◌, ◌<◌, drop};
ghost use Rattle.rules.specs.Octets.{run, is_not, every, iac};
ghost use Rattle.rules.specs.Lines.{is_ordinary};

const LF: u8 = 10;

const IAC: u8 = 255;

// An octet by itself.
pub fn is_ordinary(x: u8) -> bool
    ensures { result ≡ is_ordinary x }
{
    (x != LF) & (x != IAC)
}

// Whether an LF or a 255 stands in a block. Each has a mark of its own: the compiler makes one test of two that are
// joined at each octet, and then compares no longer many octets at once.
fn has(block: &[u8]) -> bool
    ensures { result ≡ not (every is_ordinary block.now) }
{
    let mut lf = false;
    let mut iac = false;
    for b in block {
        lf |= *b == LF;
        iac |= *b == IAC;
    }
    lf | iac
}

// Goes over blocks of this size that are ordinary: the search from there ends where the one from `from` does.
fn skip(octets: &[u8], from: usize, size: usize) -> usize
    requires { 0 < size }
    ensures { let s = octets.now in
        result + run is_ordinary (drop result s) ≡ from + run is_ordinary (drop from s) }
{
    let mut at = from;
    // It goes on by whole blocks; `saturating_sub` in place of the first two tests is slower.
    while at < octets.len() && size <= octets.len() - at && !has(&octets[at..at + size]) {
        at += size;
    }
    at
}

// The same by blocks of each size; fewer than eight octets have none.
fn skip_blocks(octets: &[u8], from: usize) -> usize
    ensures { let s = octets.now in
        result + run is_ordinary (drop result s) ≡ from + run is_ordinary (drop from s) }
{
    if octets.len() < 8 {
        return from;
    }
    let a = skip(octets, from, 128);
    let b = skip(octets, a, 32);
    skip(octets, b, 8)
}

// Where the first LF or 255 stands at or after `from`, or else the end of the octets, or `from` where that lies behind
// it: up to there the octets are ordinary.
pub fn ordinary_end(octets: &[u8], from: usize) -> usize
    ensures { result ≡ from + run is_ordinary (drop from octets.now) }
{
    let start = skip_blocks(octets, from);
    for i in start..octets.len() {
        let x = octets[i];
        if (x == LF) | (x == IAC) {
            return i;
        }
    }
    start.max(octets.len())
}

// Where the first 255 stands, in the same way: the LFs before it are gone over. A line has none, so that one search
// serves both.
pub fn find_iac(octets: &[u8], from: usize) -> usize
    ensures { result ≡ from + run (is_not iac) (drop from octets.now) }
{
    let mut i = ordinary_end(octets, from);
    // It jumps from one LF to the next.
    while i < octets.len() && octets[i] != IAC {
        i = ordinary_end(octets, i + 1);
    }
    i
}
