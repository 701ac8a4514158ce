// Scans, comparisons and decimal numbers over slices of octets.
#![tactic(auto)]

ghost use Rattle.std.specs.Prelude.{◌≡◌, true, ◌+◌, drop, ℕ, Bool};
ghost use Rattle.rules.specs.Octets.{run, is, is_not, every, digit, not_digit, alike as alike_of};
ghost use Rattle.rules.specs.Octets.{value as value_of, number as number_of};
ghost use Rattle.octets.specs.Numbers.{between};
ghost use Rattle.octets.specs.Tests.{Tests};

// Where the octets from `from` on that pass a test end.
fn run_end<F: Fn(u8) -> bool>(s: &[u8], from: usize, passes: F) -> usize
    requires { F.IsAlwaysCallable passes }
    ensures { (p : ℕ → Bool) → Tests (F.post passes) p → result ≡ from + run p (drop from s.now) }
{
    for i in from..s.len() {
        if !passes(s[i]) {
            return i;
        }
    }
    from.max(s.len())
}

// Where the first octet x stands at or after `from`, or the end of s.
pub fn find(s: &[u8], from: usize, x: u8) -> usize
    ensures { result ≡ from + run (is_not x) (drop from s.now) }
{
    run_end(s, from, |y| y != x)
}

// Where the octets x that stand from `from` on end.
pub fn run_of(s: &[u8], from: usize, x: u8) -> usize
    ensures { result ≡ from + run (is x) (drop from s.now) }
{
    run_end(s, from, |y| y == x)
}

// Where the first digit stands at or after `from`, or the end of s.
pub fn first_digit(s: &[u8], from: usize) -> usize
    ensures { result ≡ from + run not_digit (drop from s.now) }
{
    run_end(s, from, |x| !x.is_ascii_digit())
}

// Where the digits that stand from `from` on end.
pub fn digits_end(s: &[u8], from: usize) -> usize
    ensures { result ≡ from + run digit (drop from s.now) }
{
    run_end(s, from, |x| x.is_ascii_digit())
}

// Whether s is the word w, which is in capitals, without regard to letter case.
pub fn alike(s: &[u8], w: &[u8]) -> bool
    ensures { result ≡ alike_of s.now w.now }
{
    s.len() == w.len() && s.iter().zip(w).all(|(x, y)| x.to_ascii_uppercase() == *y)
}

// The number that digits write, if it is low to high. Once it is over high more digits can not bring it back.
fn value(s: &[u8], low: u32, high: u32) -> Option<u32>
    requires { every digit s.now ≡ true }
    ensures { result ≡ between low high (value_of s.now) }
{
    let mut n = 0u64;
    for x in s {
        n = n * 10 + u64::from(*x - b'0');
        if n > u64::from(high) {
            return None;
        }
    }
    if n < u64::from(low) {
        return None;
    }
    Some(n as u32)
}

// The number that 1 to `most` digits write, if it is low to high.
pub fn read_number(s: &[u8], most: usize, low: u32, high: u32) -> Option<u32>
    ensures { result ≡ number_of most low high s.now }
{
    if s.is_empty() || s.len() > most || !s.iter().all(|x| x.is_ascii_digit()) {
        return None;
    }
    value(s, low, high)
}
