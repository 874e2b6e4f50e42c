// A group of packets, and its step.
ghost use Rattle.std.specs.Prelude.{◌≡◌};
ghost use Rattle.refusals.specs.Numbers.{answer_of};
ghost use Rattle.refusals.specs.Refusals.{reply};
ghost use Rattle.groups.specs.Group.{bit_of, all_come, goes_on, begun, added, stepping};

use packets::{Key, Packet};
use refusals::Refusal;

// An open group: its key, which counters have come, a bit for each, and the observations so far.
#[derive(Clone, Copy)]
pub struct Part {
    pub key: Key,
    pub come: u16,
    pub total: u16,
}

// What a packet leaves open, and the observations of the epoch that it ended, if it did.
#[derive(Clone, Copy)]
pub struct Stepped {
    pub group: Option<Part>,
    pub ended: Option<u16>,
}

// The bit of a counter.
fn bit_of(counter: u8) -> u16
    ensures { result ≡ bit_of counter }
{
    1u16 << (counter & 15)
}

// Whether all of 0 to n - 1 have come, and nothing else.
fn all_come(come: u16, n: u8) -> bool
    ensures { result ≡ all_come come n }
{
    if 16 < n {
        return false;
    }
    come as u32 + 1 == 1u32 << n
}

// The group with its latest packet: whole where all have come, else open.
fn goes_on(key: Key, come: u16, total: u16) -> Stepped
    ensures { result ≡ goes_on key come total }
{
    if all_come(come, key.n) {
        return Stepped {
            group: None,
            ended: Some(total),
        };
    }
    Stepped {
        group: Some(Part { key, come, total }),
        ended: None,
    }
}

// A packet opens a group of its own.
fn begun(packet: Packet) -> Stepped
    ensures { result ≡ begun packet }
{
    goes_on(
        packet.key,
        bit_of(packet.counter),
        u16::from(packet.observations),
    )
}

// A packet with the open key and a new counter is added.
fn added(part: Part, packet: Packet) -> Stepped
    ensures { result ≡ added part packet }
{
    goes_on(
        packet.key,
        part.come | bit_of(packet.counter),
        part.total.wrapping_add(u16::from(packet.observations)),
    )
}

// 47 for a counter that has come already; another key drops what is open.
pub fn step(group: Option<Part>, packet: Packet) -> Result<Stepped, Refusal>
    ensures { answer_of result ≡ reply (stepping group packet) }
{
    match group {
        None => Ok(begun(packet)),
        Some(part) => {
            if packets::same_key(part.key, packet.key) {
                if wire::flag(part.come as u32, packet.counter as u32) {
                    return Err(Refusal::Copied);
                }
                return Ok(added(part, packet));
            }
            Ok(begun(packet))
        }
    }
}
