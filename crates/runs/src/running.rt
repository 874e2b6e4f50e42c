// A run of packets, and its step.
ghost use Rattle.std.specs.Prelude.{◌≡◌};
ghost use Rattle.runs.specs.Run.{goes_on, dropped, stepped};

use packets::{Key, Packet};

// An open run: its key, the counter that comes next, and the observations so far.
#[derive(Clone, Copy)]
pub struct Part {
    pub key: Key,
    pub next: u8,
    pub total: u16,
}

// The run that a packet leaves open, and the observations of the epoch that it ended; each where there is one.
#[derive(Clone, Copy)]
pub struct Stepped {
    pub run: Option<Part>,
    pub ended: Option<u16>,
}

// The run that ends with this packet: whole where its counter is the last, else open for the next.
#[tactic(auto, unfolding(crate::specs::Run::goes_on))]
fn goes_on(packet: Packet, total: u16) -> Stepped
    ensures { result ≡ goes_on packet total }
{
    let key = packet.key;
    let next = packet.counter.wrapping_add(1);
    if next == key.n {
        return Stepped {
            run: None,
            ended: Some(total),
        };
    }
    Stepped {
        run: Some(Part { key, next, total }),
        ended: None,
    }
}

// Nothing is open, and nothing ended.
fn dropped() -> Stepped
    ensures { result ≡ dropped }
{
    Stepped {
        run: None,
        ended: None,
    }
}

// Counter 0 begins a run; the next counter of the open run goes on; anything else leaves none open.
#[tactic(auto, unfolding(crate::specs::Run::stepped, crate::specs::Run::continued))]
pub fn step(run: Option<Part>, packet: Packet) -> Stepped
    ensures { result ≡ stepped run packet }
{
    if packet.counter == 0 {
        return goes_on(packet, u16::from(packet.observations));
    }
    match run {
        Some(part) if packets::same_key(part.key, packet.key) && part.next == packet.counter => {
            let total = part.total.wrapping_add(u16::from(packet.observations));
            goes_on(packet, total)
        }
        _ => dropped(),
    }
}
