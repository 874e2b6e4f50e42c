// A roster, and the one search of it.
ghost use Rattle.std.specs.Prelude.{◌≡◌, min, take, drop};
ghost use Rattle.epochs.specs.Search.{seat_of};
ghost use Rattle.epochs.specs.Listed.{listed};

// Who is listed: the first count of eight seats.
#[derive(Clone, Copy)]
pub struct Roster {
    pub senders: [u16; 8],
    pub count: usize,
}

// How many seats have a sender. A loop to here is not written out eight times, and so whoever recognises a frame is compiled into its callers.
fn seats_listed(count: usize) -> usize
    ensures { result ≡ min count 8 }
{
    count.min(8)
}

// The first seat that lists a sender, from one on. No `position`: it would count from there, and `repeated` looks behind each sender.
pub(crate) fn search(roster: &[u16], from: usize, sender: u16) -> Option<usize>
    ensures { result ≡ seat_of (drop from roster.now) sender from }
{
    for i in from..roster.len() {
        if roster[i] == sender {
            return Some(i);
        }
    }
    None
}

impl Roster {
    // The first seat that lists a sender.
    pub fn seat_of(self, sender: u16) -> Option<usize>
        ensures { result ≡ seat_of (listed self) sender 0 }
    {
        let end = seats_listed(self.count);
        search(&self.senders[..end], 0, sender)
    }
}
