// A frame recognised as a packet, in two steps, since a collator looks for the frame's sender between them: its type and length, its numbers.
ghost use Rattle.std.specs.Prelude.{◌≡◌};
ghost use Rattle.packets.specs.Packet.{same_key, packet_of, read_packet, numbered};
ghost use Rattle.refusals.specs.Numbers.{answer_of};

use observation::Obs;
use refusals::Refusal;

// What the packets of one epoch have in common.
#[derive(Clone, Copy, PartialEq, Eq)]
pub struct Key {
    pub tow: u32,
    pub wn: u16,
    pub n: u8,
}

// An observation frame: its key, its counter, and how many observations it has.
#[derive(Clone, Copy)]
pub struct Packet {
    pub key: Key,
    pub counter: u8,
    pub observations: u8,
}

// By this name, since the crates above never look into a key.
#[tactic(auto, unfolding(crate::specs::Packet::same_key))]
// The definition of this name is what the crates above reason by, so that the function stays, though it is `==`.
pub fn same_key(a: Key, b: Key) -> bool
    ensures { result ≡ same_key a b }
{
    a == b
}

// The upper four bits are n, the lower four the counter.
fn packet_of(o: Obs) -> Packet
    ensures { result ≡ packet_of o }
{
    let n = o.n_obs >> 4;
    let counter = o.n_obs & 15;
    Packet {
        key: Key {
            tow: o.tow,
            wn: o.wn,
            n,
        },
        counter,
        observations: o.count,
    }
}

// 46 for another type, then 22.
#[tactic(auto, unfolding(crate::specs::Packet::shape, crate::specs::Packet::packet_in, observation::specs::Obs::read_obs))]
pub fn read_packet(kind: u16, payload: &[u8]) -> Result<Packet, Refusal>
    ensures { answer_of result ≡ read_packet kind payload.now }
{
    if !observation::is_obs(kind) {
        return Err(Refusal::NotObservations);
    }
    let obs = observation::read_obs(payload)?;
    Ok(packet_of(obs))
}

// 44 where n is 0, then 45 where the counter is not below n.
#[tactic(auto, unfolding(crate::specs::Packet::numbering))]
pub fn numbered(packet: Packet) -> Result<Packet, Refusal>
    ensures { answer_of result ≡ numbered packet }
{
    if packet.key.n == 0 {
        return Err(Refusal::NoPackets);
    }
    if packet.counter >= packet.key.n {
        return Err(Refusal::PastLast);
    }
    Ok(packet)
}
