// What a client line judged whole is to the gateway.
#![tactic(auto)]

ghost use Rattle.std.specs.Prelude.{◌≡◌, true, ◌<◌, eqb, length};
ghost use Rattle.rules.specs.Octets.{choose, every, digit, value};
ghost use Rattle.rules.specs.Lines.{word as word_of, starts_auth};
ghost use Rattle.rules.specs.Commands.{command_word, epsv_command, epsv_argument, eprt_command, eprt_argument};
ghost use Rattle.rules.specs.Commands.{algs_command};
ghost use Rattle.rules.specs.Commands.{algs_argument, command as command_of};
ghost use Rattle.commands.specs.Plain.{is_plain};

use rules::{AlgsArgument, Command, CommandWord, EpsvArgument, Fixed, IPV6, OwnAnswer, Switches};

// Which of the command words a word is, without regard to letter case.
fn command_word(word: &[u8]) -> CommandWord
    ensures { result ≡ command_word word.now }
{
    if octets::alike(word, b"EPSV") {
        return CommandWord::Epsv;
    }
    if octets::alike(word, b"EPRT") {
        return CommandWord::Eprt;
    }
    if octets::alike(word, b"ALGS") {
        return CommandWord::Algs;
    }
    if octets::alike(word, b"AUTH") {
        return CommandWord::Auth;
    }
    CommandWord::Other
}

// Which command a content begins with. Its first five octets tell: the words looked for have four, and no space.
pub fn content_word(content: &[u8]) -> CommandWord
    ensures { result ≡ command_word (word_of content.now) }
{
    let n = content.len();
    if n < 4 {
        return CommandWord::Other;
    }
    if n > 4 && content[4] != b' ' {
        return CommandWord::Other;
    }
    command_word(&content[..4])
}

// Whether a line judged whole has none of the words looked for, so that it passes whatever the switches are.
pub fn is_plain(line: &[u8]) -> bool
    ensures { result ≡ is_plain line.now }
{
    matches!(content_word(lines::content(line)), CommandWord::Other)
}

// What the argument of EPSV asks for.
pub fn epsv_argument(argument: &[u8]) -> EpsvArgument
    ensures { result ≡ epsv_argument argument.now }
{
    if argument.is_empty() {
        return EpsvArgument::Passive;
    }
    if octets::digits_end(argument, 0) == argument.len() {
        return protocol(argument);
    }
    if octets::alike(argument, b"ALL") {
        return EpsvArgument::All;
    }
    EpsvArgument::Other
}

// What a protocol number of any length asks for: 2 is IPv6.
fn protocol(digits: &[u8]) -> EpsvArgument
    requires { (0 < length digits.now) × (every digit digits.now ≡ true) }
    ensures { result ≡ choose (eqb (value digits.now) 2) EpsvArgument.Passive EpsvArgument.OtherProtocol }
{
    match octets::read_number(digits, digits.len(), 2, 2) {
        Some(_) => EpsvArgument::Passive,
        None => EpsvArgument::OtherProtocol,
    }
}

// What the argument of ALGS asks for.
pub fn algs_argument(argument: &[u8]) -> AlgsArgument
    ensures { result ≡ algs_argument argument.now }
{
    if octets::alike(argument, b"STATUS64") {
        return AlgsArgument::Status64;
    }
    if octets::alike(argument, b"ENABLE64") {
        return AlgsArgument::Enable64;
    }
    if octets::alike(argument, b"DISABLE64") {
        return AlgsArgument::Disable64;
    }
    AlgsArgument::Other
}

// Whether a line that flows is AUTH.
pub fn starts_auth(line: &[u8]) -> bool
    ensures { result ≡ starts_auth line.now }
{
    line.len() >= 5 && octets::alike(&line[..5], b"AUTH ")
}

// With EPSV translation on or off, what EPSV is.
fn epsv_command(on: bool, argument: &[u8]) -> Command
    ensures { result ≡ choose on (epsv_command (epsv_argument argument.now)) Command.Passes }
{
    if !on {
        return Command::Passes;
    }
    match epsv_argument(argument) {
        EpsvArgument::Passive => Command::Passive,
        EpsvArgument::OtherProtocol => Command::Answered(OwnAnswer::ProtocolNotSupported),
        EpsvArgument::All => Command::Answered(OwnAnswer::ParameterNotImplemented),
        EpsvArgument::Other => Command::Passes,
    }
}

// With EPRT translation on or off, what EPRT is.
fn eprt_command(on: bool, argument: &[u8], client: [u8; IPV6]) -> Command
    ensures { result ≡ choose on (eprt_command (eprt_argument client argument.now)) Command.Passes }
{
    if !on {
        return Command::Passes;
    }
    match eprt::eprt_argument(argument, client) {
        Some(port) => Command::Port(port),
        None => Command::Passes,
    }
}

// What ALGS is: it never goes to the server.
fn algs_command(argument: &[u8], supported: bool, switches: Switches) -> Command
    ensures { result ≡ algs_command supported switches (algs_argument argument.now) }
{
    match algs_argument(argument) {
        AlgsArgument::Status64 => Command::Answered(OwnAnswer::State(switches)),
        AlgsArgument::Enable64 => Command::Answered(OwnAnswer::State(Switches {
            epsv: true,
            eprt: supported | switches.eprt,
        })),
        AlgsArgument::Disable64 => Command::Answered(OwnAnswer::State(Switches {
            epsv: false,
            eprt: false,
        })),
        AlgsArgument::Other => Command::Answered(OwnAnswer::ParameterNotImplemented),
    }
}

// What a line judged whole is to the gateway; it is given without its LF.
pub fn command(line: &[u8], fixed: Fixed, switches: Switches) -> Command
    ensures { result ≡ command_of fixed switches line.now }
{
    let client = fixed.client;
    let content = lines::content(line);
    match content_word(content) {
        CommandWord::Epsv => epsv_command(switches.epsv, lines::argument(content)),
        CommandWord::Eprt => eprt_command(switches.eprt, lines::argument(content), client),
        CommandWord::Algs => algs_command(lines::argument(content), fixed.supported, switches),
        CommandWord::Auth => Command::Auth,
        CommandWord::Other => Command::Passes,
    }
}
