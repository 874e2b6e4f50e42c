// A frame fed to a collator in lent bytes. The roster is read, and then the frame's own place alone is read, stepped and stored.
ghost use Rattle.std.specs.Prelude.{◌≡◌, ◌<◌, ◌≤◌, length, Ok};
ghost use Rattle.wire.specs.Number.{number_at};
ghost use Rattle.refusals.specs.Refusals.{as_number};
ghost use Rattle.refusals.specs.Numbers.{answer_of};
ghost use Rattle.layouts.specs.Field.{row_stored};
ghost use Rattle.epochs.specs.Collator.{came_to, happened_of};
ghost use Rattle.places.specs.State.{state_size, senders_in, seat_in, seats_in};
ghost use Rattle.states.specs.Feed.{report_fields, report_size, report_row, epoch_number, happened_number, happened_stored, step_in, place_left, fed_in};

use crate::sizes::{REPORT_SIZE, STATE_SIZE};
use epochs::{Place, Report, Roster};
use packets::Packet;
use places::sizes::{SEAT_SIZE, SEATS_AT};
use places::{place_in, put_place};
use refusals::Refusal;
use wire::InBytes;

fn byte_in(s: &[u8], at: usize) -> u8
    requires { at < length s.now }
    ensures { result ≡ number_at 1 s.now at }
{
    s[at]
}

fn seat_in(s: &[u8], i: usize) -> u16
    requires i_bound { i < 8 }
    requires state_size_in_bounds { state_size ≤ length s.now }
    ensures { result ≡ seat_in s.now i }
{
    let at = SEATS_AT + i * SEAT_SIZE;
    (byte_in(s, at) as u16) + 0x100 * (byte_in(s, at + 1) as u16)
}

// The state's length was tested. With a test for each byte this was too long to be compiled into its callers, and feeding took twice as long.
fn seats_in(s: &[u8]) -> [u16; 8]
    requires { state_size ≤ length s.now }
    ensures { result ≡ seats_in s.now }
{
    [
        seat_in(s, 0),
        seat_in(s, 1),
        seat_in(s, 2),
        seat_in(s, 3),
        seat_in(s, 4),
        seat_in(s, 5),
        seat_in(s, 6),
        seat_in(s, 7),
    ]
}

pub(crate) fn roster_in(s: &[u8]) -> Roster
    requires { state_size ≤ length s.now }
    ensures { result ≡ record { senders = seats_in s.now; count = senders_in s.now } }
{
    Roster {
        senders: seats_in(s),
        count: usize::from(byte_in(s, 0)),
    }
}

// Place i takes a packet, which may end an epoch.
fn take(s: &mut [u8], i: usize, sender: u16, packet: Packet) -> Result<Option<Report>, Refusal>
    requires { i < 8 }
    ensures value { happened_of result ≡ came_to sender packet (step_in s.old i packet) }
    ensures s_after { s.new ≡ place_left s.old i (step_in s.old i packet) }
{
    let place = place_in(s, i);
    let stepped = groups::step(place.group, packet)?;
    put_place(
        s,
        i,
        Place {
            group: stepped.group,
        },
    );
    Ok(epochs::outcome(sender, packet, stepped.ended))
}

fn put_report(buf: &mut [u8], e: Report)
    ensures { buf.new ≡ row_stored report_fields (report_row e) buf.old 0 }
{
    e.sender.store(buf, 0);
    e.wn.store(buf, 2);
    e.tow.store(buf, 4);
    e.n.store(buf, 8);
    e.observations.store(buf, 9);
}

// Whether there is an epoch, whose row is then at the start of buf.
fn put_epoch(buf: &mut [u8], epoch: Option<Report>) -> bool
    requires { report_size ≤ length buf.old }
    ensures value { epoch_number result ≡ happened_number (happened_of (Ok epoch)) }
    ensures buf_after { buf.new ≡ happened_stored (happened_of (Ok epoch)) buf.old }
{
    let Some(report) = epoch else {
        return false;
    };
    put_report(buf, report);
    true
}

// Whether the frame ended an epoch, whose row is then at the start of report; 32 where state or report is too short, then 46, 22, 43, 44, 45, 47.
pub fn feed(
    state: &mut [u8],
    kind: u16,
    sender: u16,
    payload: &[u8],
    report: &mut [u8],
) -> Result<bool, Refusal>
    ensures value { as_number epoch_number (answer_of result) ≡ (fed_in state.old (record { kind = kind; sender = sender; payload = payload.now }) report.old).answer }
    ensures state_after { state.new ≡ (fed_in state.old (record { kind = kind; sender = sender; payload = payload.now }) report.old).state }
    ensures report_after { report.new ≡ (fed_in state.old (record { kind = kind; sender = sender; payload = payload.now }) report.old).report }
{
    if state.len() < STATE_SIZE || report.len() < REPORT_SIZE {
        return Err(Refusal::NoRoom);
    }
    let (i, packet) = roster_in(state).recognise(kind, sender, payload)?;
    let epoch = take(state, i, sender, packet)?;
    Ok(put_epoch(report, epoch))
}
