// The sizes of the rules, and their terms as types: the definitions in specs/ go by cases on them, and functions take
// and return them.
#![tactic(auto)]

ghost use Rattle.std.specs.Prelude.{◌≡◌};
ghost use Rattle.rules.specs.Answers.{answer_number};

// The most octets of an unfinished line that are held; with its LF such a line is judged whole.
pub const HELD: usize = 511;

// The octets that are held of a line.
pub type Line = [u8; HELD];

// The most replies that are owed.
pub const OWED: usize = 16;

// The kinds owed, as numbers.
pub type Kinds = [u8; OWED];

// What a call answers. `answer_number` gives the number of each case.
#[derive(Clone, Copy)]
pub enum Answer {
    Done,
    QueueFull,
    NoRoom,
    UnknownDirection,
    BadRecord,
    BadSetup,
    DirectionEnded,
}

// Which translations are on.
#[derive(Clone, Copy)]
pub struct Switches {
    pub epsv: bool,
    pub eprt: bool,
}

// How many octets an address of either kind has.
pub const IPV6: usize = 16;

pub const IPV4: usize = 4;

// And a setup: the client's two addresses, the flags, and the server's address.
pub const SETUP: usize = IPV6 + IPV4 + 1 + IPV4;

// What a setup gives: the client's address, its mapped address, the flags, and the server's address.
#[derive(Clone, Copy)]
pub struct Setup {
    pub client: [u8; IPV6],
    pub mapped: [u8; IPV4],
    pub flags: u8,
    pub server: [u8; IPV4],
}

// What a setup fixes for the whole session: the client's address, its mapped address, the server's address, whether
// EPRT is supported, and whether a 227 that names another address than the server's is refused.
#[derive(Clone, Copy)]
pub struct Fixed {
    pub client: [u8; IPV6],
    pub mapped: [u8; IPV4],
    pub server: [u8; IPV4],
    pub supported: bool,
    pub strict: bool,
}

// The gateway's own answers: 522, 504, and 216 with the state of the switches.
#[derive(Clone, Copy)]
pub enum OwnAnswer {
    ProtocolNotSupported,
    ParameterNotImplemented,
    State(Switches),
}

// The kinds of replies owed.
#[derive(Clone, Copy)]
pub enum Kind {
    Plain,
    TranslatedEpsv,
    Own(OwnAnswer),
    Auth,
}

// The command words that the gateway knows.
#[derive(Clone, Copy)]
pub enum CommandWord {
    Epsv,
    Eprt,
    Algs,
    Auth,
    Other,
}

// What the argument of EPSV asks for: IPv6 or nothing in particular, another protocol, ALL, or something else.
#[derive(Clone, Copy)]
pub enum EpsvArgument {
    Passive,
    OtherProtocol,
    All,
    Other,
}

// The argument of ALGS: one of its three, or another.
#[derive(Clone, Copy)]
pub enum AlgsArgument {
    Status64,
    Enable64,
    Disable64,
    Other,
}

// What a client line judged whole is to the gateway.
#[derive(Clone, Copy)]
pub enum Command {
    // It goes to the server as it came.
    Passes,
    // It becomes PASV.
    Passive,
    // It becomes PORT with this port.
    Port(u16),
    // It goes nowhere, and the gateway answers.
    Answered(OwnAnswer),
    // It goes to the server as it came, and is AUTH.
    Auth,
}

// What a server line is to the reply that it stands in.
#[derive(Clone, Copy)]
pub enum ReplyLine {
    // A reply opens, with this code.
    Opens(u32),
    // It belongs to the open reply, which goes on.
    Belongs,
    // A reply ends; its first digit is 1.
    Preliminary,
    // A reply ends; its first digit is 2 to 5.
    Final,
    // It stands in no reply and is none.
    StandsAlone,
}

// What of a Telnet command has come from a direction and is not finished.
#[derive(Clone, Copy)]
pub enum Telnet {
    // Nothing.
    Clear,
    // 255.
    Iac,
    // 255 and one of these four; the option is to come.
    Will,
    Wont,
    Do,
    Dont,
    // A subnegotiation, up to now.
    Within,
    // The same, and 255 last.
    WithinIac,
}

// A direction's Telnet state, and how many octets of subnegotiations were removed from it, in 32 bits that wrap.
#[derive(Clone, Copy)]
pub struct Layer {
    pub telnet: Telnet,
    pub removed: u32,
}

// What an octet does in the Telnet layer.
#[derive(Clone, Copy)]
pub enum Does {
    // It makes this octet of a line.
    Data(u8),
    // It is dropped, or begins a command.
    Nothing,
    // DONT or WONT with this option goes back to its sender.
    AnswersDont(u8),
    AnswersWont(u8),
    // 255 and this octet pass at once.
    Passes(u8),
    // So many octets of a subnegotiation are removed, it and the 255 before the one that begins it.
    Removes(u32),
}

// An octet in the Telnet layer: the state after it, and what it does.
#[derive(Clone, Copy)]
pub struct TelnetStep {
    pub telnet: Telnet,
    pub does: Does,
}

// What a 227 line names.
#[derive(Clone, Copy)]
pub struct PassiveReply {
    pub address: [u8; IPV4],
    pub port: u16,
}

// The number of an answer, for hosts and reports, which tell numbers.
impl From<Answer> for u8 {
    ghost from_gives = { λ answer number. number ≡ answer_number answer };

    fn from(answer: Answer) -> u8 {
        match answer {
            Answer::Done => 0,
            Answer::QueueFull => 1,
            Answer::NoRoom => 2,
            Answer::UnknownDirection => 3,
            Answer::BadRecord => 4,
            Answer::BadSetup => 5,
            Answer::DirectionEnded => 6,
        }
    }
}
