// What a frame is to a collator: a packet for one of its places, or a refusal. The roster and the frame decide, and no state.
ghost use Rattle.std.specs.Prelude.{◌≡◌};
ghost use Rattle.refusals.specs.Numbers.{answer_of};
ghost use Rattle.epochs.specs.Listed.{listed};
ghost use Rattle.epochs.specs.Collator.{for_place};

use crate::seating::Roster;
use packets::Packet;
use refusals::Refusal;

impl Roster {
    // The frame's packet, and the number of its place; else 46, 22, 43, 44, 45: the first that holds.
    pub fn recognise(
        self,
        kind: u16,
        sender: u16,
        payload: &[u8],
    ) -> Result<(usize, Packet), Refusal>
        ensures { answer_of result ≡ for_place (listed self) (record { kind = kind; sender = sender; payload = payload.now }) }
    {
        let packet = packets::read_packet(kind, payload)?;
        let Some(at) = self.seat_of(sender) else {
            return Err(Refusal::NotListed);
        };
        let formed = packets::numbered(packet)?;
        Ok((at, formed))
    }
}
