// One octet of a direction, over what is lent of a record.
#![tactic(auto)]

ghost use Rattle.std.specs.Prelude.{◌≡◌, false, length, is_some, unwrap_or};
ghost use borrow.Rule.Slice.PartMut.{put_mid};
ghost use Rattle.rules.specs.Answers.{is_queue_full, most_owed};
ghost use Rattle.records.specs.Layout.{lent_kinds, lent_size};
ghost use Rattle.places.specs.Places.{is_passing};
ghost use Rattle.records.specs.Sound.{side_if, Counted};
ghost use Rattle.steps.specs.Takes.{fixed_lent, addresses_lent, kinds_lent, core_lent, core_behind, is_within};
ghost use Rattle.steps.specs.Takes.{took_next};
ghost use Rattle.steps.specs.Core.{Bounded, Stepped};

use octet::any_octet;
use output::{array_from, put};
use records::layout::{LENT_COMMAND, LENT_KINDS, LENT_MAPPED, LENT_SERVER, LENT_SIZE};
use records::{Control, holdable, queue_full};
use rules::{Answer, Fixed, Kinds};

mod octet;
mod settling;

// How many octets have been written into each buffer.
#[derive(Clone, Copy)]
pub struct Written {
    pub server: usize,
    pub client: usize,
}

// What an octet answers, 0, 1 or 2, or 4 from what can't be; and the control and the counts then.
#[derive(Clone, Copy)]
pub struct Next {
    pub answer: Answer,
    pub control: Control,
    pub written: Written,
}

// The control and the counts after an octet whose output fits. Where it does not fit there is `None`, and all is as it
// was.
#[derive(Clone, Copy)]
struct Fitted {
    control: Control,
    written: Written,
}

// What a setup fixed, as it is lent.
fn fixed_in(supported: bool, strict: bool, lent: &[u8; LENT_SIZE]) -> Fixed
    ensures { result ≡ fixed_lent supported strict lent.now }
{
    let client = array_from(&lent[..LENT_MAPPED]);
    let mapped = array_from(&lent[LENT_MAPPED..LENT_SERVER]);
    let server = array_from(&lent[LENT_SERVER..LENT_KINDS]);
    Fixed {
        client,
        mapped,
        server,
        supported,
        strict,
    }
}

fn kinds_in(lent: &[u8; LENT_SIZE]) -> Kinds
    ensures { result ≡ kinds_lent lent.now }
{
    array_from(&lent[LENT_KINDS..LENT_COMMAND])
}

fn put_kinds(lent: &mut [u8; LENT_SIZE], kinds: Kinds)
    ensures { (lent.new ≡ put_mid lent_kinds most_owed lent.old kinds) × (length kinds ≡ most_owed) }
{
    put(&mut lent[LENT_KINDS..LENT_COMMAND], 0, &kinds);
}

// Counts and positions can be.
fn within(control: Control, server: usize, client: usize, written: Written) -> bool
    ensures { result ≡ is_within control lent_size server client written }
{
    if !holdable(control) {
        return false;
    }
    written.server <= server && written.client <= client
}

// An octet of a direction: its output goes behind what is written already. From counts and positions that
// can't be, or where it has to wait, all is left as it was.
pub fn next_octet(
    supported: bool,
    strict: bool,
    from_client: bool,
    control: Control,
    x: u8,
    lent: &mut [u8],
    to_server: &mut [u8],
    to_client: &mut [u8],
    written: Written,
) -> Next
    ensures stepped { let k = core_lent control lent.old to_server.old to_client.old written in
        let m = core_lent result.control lent.new to_server.new to_client.new
        result.written in
        let can = is_within control (length lent.old) (length to_server.old)
        (length to_client.old) written in
        let t = took_next can (fixed_lent supported strict lent.old) (side_if from_client) x k in
        (result.answer ≡ t.answer) × (m ≡ core_behind t k) }
    ensures fixed { addresses_lent lent.new ≡ addresses_lent lent.old }
    ensures counts { Counted control → Counted result.control }
{
    let Some(lent) = lent.as_mut_array() else {
        return answered(Answer::BadRecord, control, written);
    };
    if !within(control, to_server.len(), to_client.len(), written) {
        return answered(Answer::BadRecord, control, written);
    }
    if queue_full(from_client, control) {
        return answered(Answer::QueueFull, control, written);
    }
    let Some(o) = lent_octet(
        supported,
        strict,
        from_client,
        control,
        x,
        lent,
        to_server,
        to_client,
        written,
    ) else {
        return answered(Answer::NoRoom, control, written);
    };
    answered(Answer::Done, o.control, o.written)
}

fn answered(answer: Answer, control: Control, written: Written) -> Next
    ensures { result ≡ record { answer = answer; control = control; written = written } }
{
    Next {
        answer,
        control,
        written,
    }
}

// The same where the counts can be held and the queue is not full.
fn lent_octet(
    supported: bool,
    strict: bool,
    from_client: bool,
    control: Control,
    x: u8,
    lent: &mut [u8; LENT_SIZE],
    to_server: &mut [u8],
    to_client: &mut [u8],
    written: Written,
) -> Option<Fitted>
    requires bounds { Bounded control written to_server.old to_client.old }
    requires queue { is_queue_full (side_if from_client) (is_passing control.client.place) control.owed
        ≡ false }
    ensures stepped { let k = core_lent control lent.old to_server.old to_client.old written in
        let o = unwrap_or result (record { control = control; written = written }) in
        let m = core_lent o.control lent.new to_server.new to_client.new o.written in
        Stepped (fixed_lent supported strict lent.old) (side_if from_client) x k (is_some result) m }
    ensures fixed { addresses_lent lent.new ≡ addresses_lent lent.old }
{
    let fixed = fixed_in(supported, strict, lent);
    let kinds = kinds_in(lent);
    let o = any_octet(
        fixed,
        from_client,
        control,
        kinds,
        x,
        &mut lent[LENT_COMMAND..],
        to_server,
        to_client,
        written,
    )?;
    put_kinds(lent, o.kinds);
    Some(Fitted {
        control: o.control,
        written: o.written,
    })
}
