// Octets and decimal numbers put into a lent buffer, or octets into an array, whole or not at all.
#![tactic(auto)]

ghost use Rattle.std.specs.Prelude.{◌≡◌, ◌+◌, ◌/◌, ◌%◌, ◌≤◌, leb, length, replicate};
ghost use Rattle.rules.specs.Octets.{decimal};
ghost use Rattle.output.specs.Buffer.{Put, put_at};

// The most octets that are moved at once.
const BLOCK: usize = 1024;

// Whether a buffer of this length has room for n octets from `at` on.
pub fn has_room(length: usize, at: usize, n: usize) -> bool
    ensures { result ≡ leb (at + n) length }
{
    at <= length && n <= length - at
}

// All of `src` from `at` on, or nothing; the next position.
pub fn put(out: &mut [u8], at: usize, src: &[u8]) -> usize
    ensures { Put out.old at src.now result out.new }
{
    if !has_room(out.len(), at, src.len()) {
        return at;
    }
    // One octet alone is one store, which costs less than a move.
    if src.len() == 1 {
        out[at] = src[0];
        return at + 1;
    }
    let mut done = 0;
    while done < src.len() {
        let n = BLOCK.min(src.len() - done);
        put_block(out, at + done, &src[done..done + n]);
        done += n;
    }
    at + done
}

// Through an array of its own, which lies in neither slice: the compiler then makes one move of the two copies, and
// no array.
fn put_block(out: &mut [u8], at: usize, src: &[u8])
    requires { (length src.now ≤ 1024) × (at + length src.now ≤ length out.old) }
    ensures { out.new ≡ put_at out.old at src.now }
{
    let n = src.len();
    let mut block = [0u8; BLOCK];
    block[..n].copy_from_slice(src);
    out[at..at + n].copy_from_slice(&block[..n]);
}

// Octets as an array: zeros where there are more than it has, and behind fewer.
pub fn array_from<const N: usize>(octets: &[u8]) -> [u8; N]
    ensures { result ≡ put_at (replicate N 0) 0 octets.now }
{
    let mut array = [0u8; N];
    put(&mut array, 0, octets);
    array
}

pub fn decimal_length(n: u16) -> usize
    ensures result { result ≡ length (decimal n) }
    ensures most { result ≤ 5 }
{
    match n {
        0..=9 => 1,
        10..=99 => 2,
        100..=999 => 3,
        1000..=9999 => 4,
        _ => 5,
    }
}

// The five last digits of the number, without the zeros in front.
pub fn put_decimal(out: &mut [u8], at: usize, n: u16) -> usize
    ensures { Put out.old at (decimal n) result out.new }
{
    let tens = tenth(n);
    let hundreds = tenth(tens);
    let thousands = tenth(hundreds);
    let ten_thousands = tenth(thousands);
    let digits = [
        digit(ten_thousands),
        digit(thousands),
        digit(hundreds),
        digit(tens),
        digit(n),
    ];
    let start = 5 - decimal_length(n);
    put(out, at, &digits[start..])
}

// A product divided by 2^19: ten times the factor is that and 2 more, which is too little to show in 16 bits.
fn tenth(n: u16) -> u16
    ensures { result ≡ n / 10 }
{
    (u32::from(n) * 52429 / 524288) as u16
}

// The last digit of a number: what ten times its tenth leaves of it.
fn digit(n: u16) -> u8
    ensures { result ≡ 48 + n % 10 }
{
    48 + (n - 10 * tenth(n)) as u8
}
