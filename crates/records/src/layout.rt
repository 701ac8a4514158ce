// The record as octets: its fields in their order, each where the one before it ends (`Layout`, docs/RECORD.md).
use rules::{HELD, IPV4, IPV6, OWED};

// How wide a mark and a number are.
const MARK: usize = 1;

pub const NUMBER: usize = 4;

// Three marks that stay from the setup on.
pub const LIVE: usize = 0;

pub const SUPPORTED: usize = LIVE + MARK;

pub const STRICT: usize = SUPPORTED + MARK;

// The marks that calls can change.
pub const EPSV: usize = STRICT + MARK;

pub const EPRT: usize = EPSV + MARK;

pub const CLIENT_PLACE: usize = EPRT + MARK;

pub const SERVER_PLACE: usize = CLIENT_PLACE + MARK;

pub const CLIENT_TELNET: usize = SERVER_PLACE + MARK;

pub const SERVER_TELNET: usize = CLIENT_TELNET + MARK;

// The numbers.
pub const OPENING: usize = SERVER_TELNET + MARK;

pub const COUNT_OWED: usize = OPENING + NUMBER;

pub const CLIENT_HELD: usize = COUNT_OWED + NUMBER;

pub const SERVER_HELD: usize = CLIENT_HELD + NUMBER;

pub const UP_TAKEN: usize = SERVER_HELD + NUMBER;

pub const UP_WRITTEN: usize = UP_TAKEN + NUMBER;

pub const DOWN_TAKEN: usize = UP_WRITTEN + NUMBER;

pub const DOWN_WRITTEN: usize = DOWN_TAKEN + NUMBER;

pub const UP_REMOVED: usize = DOWN_WRITTEN + NUMBER;

pub const DOWN_REMOVED: usize = UP_REMOVED + NUMBER;

// The arrays.
pub const CLIENT: usize = DOWN_REMOVED + NUMBER;

pub const MAPPED: usize = CLIENT + IPV6;

pub const SERVER: usize = MAPPED + IPV4;

pub const KINDS: usize = SERVER + IPV4;

pub const COMMAND: usize = KINDS + OWED;

pub const REPLY: usize = COMMAND + HELD;

pub const SIZE: usize = REPLY + HELD;

// The arrays by themselves, as an arrival is lent them, and where each begins there.
pub const LENT_MAPPED: usize = MAPPED - CLIENT;

pub const LENT_SERVER: usize = SERVER - CLIENT;

pub const LENT_KINDS: usize = KINDS - CLIENT;

pub const LENT_COMMAND: usize = COMMAND - CLIENT;

pub const LENT_REPLY: usize = REPLY - CLIENT;

pub const LENT_SIZE: usize = SIZE - CLIENT;
