// The queue of replies owed, as the record has it: kinds as numbers, the first kind, the own answers at its head, and
// what is put in and leaves.
#![tactic(auto)]

ghost use Rattle.std.specs.Prelude.{◌≡◌, ◌+◌, ◌≤◌, length, drop};
ghost use Rattle.rules.specs.Replies.{head_answers, auth_at_head};
ghost use Rattle.rules.specs.Answers.{most_answers};
ghost use Rattle.output.specs.Buffer.{Put};
ghost use Rattle.queue.specs.Kinds.{answer_code, code_of, state_kind, kind_of, queue_of, head_of, answers_at_head};
ghost use Rattle.queue.specs.Kinds.{pushed, shifted_in, is_still};
ghost use Rattle.queue.specs.Heads.{next_of, next_first, next_is_auth, plan_of};

use own::{answer_length, put_answer};
use rules::{Kind, Kinds, OWED, OwnAnswer, Switches};

// AUTH's number, and the last of a kind: a record with a higher one is refused.
const AUTH: u8 = 8;

pub const LAST: u8 = AUTH;

// The number of a kind in the record. The numbers are the queue's, and the type is not: so there is no `From` for them.
fn code_of(kind: Kind) -> u8
    ensures { result ≡ code_of kind }
{
    match kind {
        Kind::Plain => 0,
        Kind::TranslatedEpsv => 1,
        Kind::Own(answer) => answer_code(answer),
        Kind::Auth => AUTH,
    }
}

fn answer_code(answer: OwnAnswer) -> u8
    ensures { result ≡ answer_code answer }
{
    match answer {
        OwnAnswer::ProtocolNotSupported => 2,
        OwnAnswer::ParameterNotImplemented => 3,
        OwnAnswer::State(switches) => {
            if switches.epsv {
                if switches.eprt { 7 } else { 5 }
            } else {
                if switches.eprt { 6 } else { 4 }
            }
        }
    }
}

// The kind of a number; one that is not listed counts as plain.
fn kind_of(code: u8) -> Kind
    ensures { result ≡ kind_of code }
{
    match code {
        1 => Kind::TranslatedEpsv,
        2 => Kind::Own(OwnAnswer::ProtocolNotSupported),
        3 => Kind::Own(OwnAnswer::ParameterNotImplemented),
        4 => state_kind(false, false),
        5 => state_kind(true, false),
        6 => state_kind(false, true),
        7 => state_kind(true, true),
        8 => Kind::Auth,
        _ => Kind::Plain,
    }
}

fn state_kind(epsv: bool, eprt: bool) -> Kind
    ensures { result ≡ state_kind epsv eprt }
{
    Kind::Own(OwnAnswer::State(Switches { epsv, eprt }))
}

// How the queue will settle: how many kinds leave it, how long their answers are, and whether AUTH is first then.
#[derive(Clone, Copy)]
pub struct Plan {
    pub leaving: usize,
    pub answers: usize,
    pub auth: bool,
}

// What comes next: an own answer, AUTH, or neither.
#[derive(Clone, Copy)]
enum Next {
    Answer(OwnAnswer),
    Auth,
    Other,
}

// The first kind owed.
pub fn first_owed(kinds: Kinds, owed: usize) -> Option<Kind>
    ensures { result ≡ head_of kinds owed }
{
    if owed == 0 {
        return None;
    }
    Some(kind_of(kinds[0]))
}

// What a kind is, where it comes next.
fn next_of(kind: Kind) -> Next
    ensures { result ≡ next_of kind }
{
    match kind {
        Kind::Own(answer) => Next::Answer(answer),
        Kind::Auth => Next::Auth,
        Kind::Plain => Next::Other,
        Kind::TranslatedEpsv => Next::Other,
    }
}

// What is number `i` of the kinds owed.
fn next_at(kinds: Kinds, i: usize, owed: usize) -> Next
    ensures { result ≡ next_first (drop i (queue_of kinds owed)) }
{
    if owed <= i {
        return Next::Other;
    }
    if OWED <= i {
        return Next::Other;
    }
    next_of(kind_of(kinds[i]))
}

fn is_auth(next: Next) -> bool
    ensures { result ≡ next_is_auth next }
{
    matches!(next, Next::Auth)
}

// The own answers at the head of what is owed from number `from` on.
fn due(kinds: Kinds, from: usize, owed: usize) -> Plan
    ensures result { let rest = drop from (queue_of kinds owed) in
        (result.leaving ≡ from + answers_at_head rest) × (result.answers ≡ length (head_answers rest)) }
    ensures after { result.auth ≡ auth_at_head (drop result.leaving (queue_of kinds owed)) }
    ensures most { result.answers ≤ most_answers }
{
    let mut leaving = from;
    let mut answers = 0;
    // `leaving` is told, and no mere index.
    while let Next::Answer(answer) = next_at(kinds, leaving, owed) {
        answers += answer_length(answer);
        leaving += 1;
    }
    Plan {
        leaving,
        answers,
        auth: is_auth(next_at(kinds, leaving, owed)),
    }
}

// Those answers from `at` on, or nothing where they do not all fit; the next position.
pub fn put_answers(out: &mut [u8], at: usize, kinds: Kinds, from: usize, owed: usize) -> usize
    ensures { let text = head_answers (drop from (queue_of kinds owed)) in
        Put out.old at text result out.new }
{
    if out.len() < at {
        return at;
    }
    let own = due(kinds, from, owed);
    if out.len() - at < own.answers {
        return at;
    }
    let mut place = at;
    // By the same walk, whose end the queue itself tells.
    let mut i = from;
    while let Next::Answer(answer) = next_at(kinds, i, owed) {
        place = put_answer(out, place, answer);
        i += 1;
    }
    place
}

// A kind is put behind the last one owed.
pub fn push(kinds: Kinds, owed: usize, owes: Option<Kind>) -> Kinds
    ensures { result ≡ pushed kinds owed owes }
{
    let Some(kind) = owes else {
        return kinds;
    };
    if OWED <= owed {
        return kinds;
    }
    let mut longer = kinds;
    longer[owed] = code_of(kind);
    longer
}

// Behind the first `from` kinds none is owed, or the first one's number is that of a plain reply or a translated
// EPSV: no own answer and not AUTH.
pub fn is_still(kinds: &[u8], from: usize, owed: usize) -> bool
    ensures { result ≡ is_still kinds.now from owed }
{
    if owed <= from {
        return true;
    }
    if kinds.len() <= from {
        return true;
    }
    kinds[from] < 2
}

// What own answers and the AUTH step will do once the first `from` kinds are removed, where `blocked` answers wait.
pub fn planned(kinds: Kinds, from: usize, owed: usize, blocked: bool) -> Plan
    ensures result { result ≡ plan_of blocked (queue_of kinds owed) from }
    ensures most { result.answers ≤ most_answers }
{
    if is_still(&kinds, from, owed) {
        return Plan {
            leaving: from,
            answers: 0,
            auth: false,
        };
    }
    if blocked {
        return Plan {
            leaving: from,
            answers: 0,
            auth: is_auth(next_at(kinds, from, owed)),
        };
    }
    due(kinds, from, owed)
}

// The kinds are moved `by` positions to the front, where they lie.
pub fn shift(kinds: &mut [u8], by: usize, owed: usize)
    ensures { kinds.new ≡ shifted_in kinds.old by owed }
{
    // Mostly nothing is left to move.
    if kinds.len() < owed || owed <= by || by == 0 {
        return;
    }
    kinds.copy_within(by..owed, 0);
}
