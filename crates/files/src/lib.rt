// Session files: which are refused.
#![tactic(auto)]

ghost use Rattle.std.specs.Prelude.{◌≡◌, ◌+◌, ◌<◌, ◌≤◌, length, get_or, drop};
ghost use Rattle.files.specs.Contents.{pair_at, entry_of, good_entry, verdict};

use rules::SETUP;

// Why a session file is refused: the report of the first gives number 7, of the second number 8.
#[derive(Clone, Copy)]
pub enum FileFault {
    WrongLength,
    WrongTable,
}

// An octet of the file; past its end they count as 0.
fn octet_at(file: &[u8], at: usize) -> u8
    ensures { result ≡ get_or file.now at 0 }
{
    file.get(at).copied().unwrap_or(0)
}

// The number of the two octets at a position, high octet first.
pub fn pair_at(file: &[u8], at: usize) -> usize
    ensures result { result ≡ pair_at file.now at }
    ensures most { result < 65536 }
{
    let Some((_, rest)) = file.split_at_checked(at) else {
        return 0;
    };
    u16::from_be_bytes([octet_at(rest, 0), octet_at(rest, 1)]) as usize
}

// Whether the entry whose four octets stand at a position is right by itself.
fn good_entry(file: &[u8], at: usize) -> bool
    requires { at + 4 ≤ length file.now }
    ensures { result ≡ good_entry (entry_of (drop at file.now)) }
{
    if file[at + 1] != 0 {
        return false;
    }
    let octets = pair_at(file, at + 2);
    match file[at] {
        0 | 1 => octets <= 1024,
        2 | 3 => octets == 0,
        4 => octets == SETUP,
        _ => false,
    }
}

// Whether a file is a session file: two octets present, count, table present, entries, total.
pub fn judge(file: &[u8]) -> Result<(), FileFault>
    ensures { result ≡ verdict file.now }
{
    if file.len() < 2 {
        return Err(FileFault::WrongLength);
    }
    let entries = pair_at(file, 0);
    if entries < 1 || entries > 48 {
        return Err(FileFault::WrongTable);
    }
    let table_end = 2 + 4 * entries;
    if file.len() < table_end {
        return Err(FileFault::WrongLength);
    }
    if file[2] != 4 || !good_entry(file, 2) {
        return Err(FileFault::WrongTable);
    }
    let mut total = table_end + pair_at(file, 4);
    for i in 1..entries {
        let at = 2 + 4 * i;
        if file[at] == 4 || !good_entry(file, at) {
            return Err(FileFault::WrongTable);
        }
        total += pair_at(file, at + 2);
    }
    if file.len() != total {
        return Err(FileFault::WrongLength);
    }
    Ok(())
}
