// Who sends a frame that is written (document 02, P6). Read specs/Senders.antt: the number that a frame carries. specs/Carries.antt says it in
// document 02's numbers, specs/Calls.antt of calls, by their contracts.
// All are inner parts: nothing is refused.
#![tactic(auto)]

ghost use Rattle.std.specs.Prelude.{◌≡◌};
ghost use Rattle.senders.specs.Senders.{carried, made_with, naming, writer_from};

// Who writes: the recorder's own number, and the sender that is given, if any. Writers hand it on as it is.
#[derive(Clone, Copy)]
pub struct Writer {
    pub own: u16,
    pub sender: Option<u16>,
}

impl Writer {
    // A recorder's writer, with the recorder's own number; it is given no sender.
    pub fn made(number: u16) -> Writer
        ensures { result ≡ made_with number }
    {
        Writer {
            own: number,
            sender: None,
        }
    }

    // The same writer with a sender named, for one frame.
    pub fn named(self, sender: u16) -> Writer
        ensures { result ≡ naming self sender }
    {
        Writer {
            own: self.own,
            sender: Some(sender),
        }
    }
}

// The number that a frame of a type carries; nothing else decides it.
pub fn sender_number(kind: u16, writer: Writer) -> u16
    ensures { result ≡ carried kind writer }
{
    let sender = writer.sender;
    match sender {
        Some(n) => n,
        // types by number: the crate that names the messages stands above this one
        None => match kind {
            0x00a1 => 0x42,
            0x00a2 => 0x42,
            _ => writer.own,
        },
    }
}

// As C has it: a sender above 65535, as SBP_NO_SENDER is, means that none is given.
pub fn writer_from(own: u16, sender: u32) -> Writer
    ensures { result ≡ writer_from own sender }
{
    Writer {
        own: own,
        sender: u16::try_from(sender).ok(),
    }
}
