// The collator: a place for each listed sender.
ghost use Rattle.std.specs.Prelude.{◌≡◌, ◌≤◌, ◌++◌, [], length, take, replicate, Ok, OnErr};
ghost use Rattle.refusals.specs.Refusals.{reply};
ghost use Rattle.refusals.specs.Numbers.{answer_of};
ghost use Rattle.epochs.specs.Search.{repeats};
ghost use Rattle.epochs.specs.Collator.{idle, outcome, happened_of, rostering, fed_frame, made};

use crate::seating::{Roster, search};
use groups::Part;
use packets::Packet;
use refusals::Refusal;

// A listed sender's place: idle, or an open group.
#[derive(Clone, Copy)]
pub struct Place {
    pub group: Option<Part>,
}

// The senders are the first count of the roster, and place i is that of sender i. The three are the form that the scope names.
#[derive(Clone, Copy)]
pub struct Collator {
    pub places: [Place; 8],
    pub roster: [u16; 8],
    pub count: usize,
}

// A whole epoch: its sender, its time, how many packets and how many observations.
#[derive(Clone, Copy)]
pub struct Report {
    pub sender: u16,
    pub wn: u16,
    pub tow: u32,
    pub n: u8,
    pub observations: u16,
}

// A collator after a frame, and what came of it.
#[derive(Clone, Copy)]
pub struct FedCollator {
    pub collator: Collator,
    pub happened: Result<Option<Report>, Refusal>,
}

// The places of senders that have sent nothing.
fn fresh(roster: [u16; 8], count: usize) -> Collator
    ensures { result ≡ record { places = replicate 8 idle; roster = roster; count = count } }
{
    Collator {
        places: [Place { group: None }; 8],
        roster,
        count,
    }
}

// Whether a roster names a sender twice.
fn repeated(roster: &[u16]) -> bool
    ensures { result ≡ repeats roster.now }
{
    for i in 0..roster.len() {
        if search(roster, i + 1, roster[i]).is_some() {
            return true;
        }
    }
    false
}

// The senders of a roster, and 0 in the seats that are left.
fn seats(roster: &[u16]) -> [u16; 8]
    requires { length roster.now ≤ 8 }
    ensures { result ≡ take 8 (roster.now ++ replicate 8 0) }
{
    let mut all = [0u16; 8];
    all[..roster.len()].copy_from_slice(roster);
    all
}

// The epoch that a packet ended, if it did.
pub fn outcome(sender: u16, packet: Packet, ended: Option<u16>) -> Option<Report>
    ensures { happened_of (Ok result) ≡ outcome sender packet ended }
{
    let total = ended?;
    Some(Report {
        sender,
        wn: packet.key.wn,
        tow: packet.key.tow,
        n: packet.key.n,
        observations: total,
    })
}

impl Collator {
    // It lists nobody.
    pub fn empty() -> Collator
        ensures { result ≡ (made []).collator }
    {
        fresh([0u16; 8], 0)
    }

    // 41 for a roster that is empty or longer than 8, then 42 for a sender twice.
    pub fn made(roster: &[u16]) -> Result<Collator, Refusal>
        ensures { answer_of result ≡ reply (rostering roster.now) }
    {
        let n = roster.len();
        if n < 1 || 8 < n {
            return Err(Refusal::RosterLength);
        }
        if repeated(roster) {
            return Err(Refusal::RosterRepeats);
        }
        Ok(fresh(seats(roster), n))
    }

    // The same where a collator is wanted in any case: of a roster that is refused it lists nobody, so that it refuses every frame.
    pub fn made_or_empty(roster: &[u16]) -> Collator
        ensures { result ≡ (made roster.now).collator }
    {
        match Collator::made(roster) {
            Ok(collator) => collator,
            Err(_) => Collator::empty(),
        }
    }

    pub fn listed(&self) -> Roster
        ensures senders { result.senders ≡ self.now.roster }
        ensures count { result.count ≡ self.now.count }
    {
        Roster {
            senders: self.roster,
            count: self.count,
        }
    }

    // The frame's own place takes it; a refusal, 46, 22, 43, 44, 45 or 47, leaves the collator as it was.
    pub fn feed(
        &mut self,
        kind: u16,
        sender: u16,
        payload: &[u8],
    ) -> Result<Option<Report>, Refusal>
        ensures value { happened_of result ≡ (fed_frame self.old (record { kind = kind; sender = sender; payload = payload.now })).happened }
        ensures self_after { self.new ≡ (fed_frame self.old (record { kind = kind; sender = sender; payload = payload.now })).collator }
        ensures unchanged { OnErr result (self.new ≡ self.old) }
    {
        let (at, packet) = self.listed().recognise(kind, sender, payload)?;
        let stepped = groups::step(self.places[at].group, packet)?;
        self.places[at] = Place {
            group: stepped.group,
        };
        Ok(outcome(sender, packet, stepped.ended))
    }

    // The same with the collator taken by value and handed back.
    pub fn fed(mut self, kind: u16, sender: u16, payload: &[u8]) -> FedCollator
        ensures collator { result.collator ≡ (fed_frame self (record { kind = kind; sender = sender; payload = payload.now })).collator }
        ensures happened { happened_of result.happened ≡ (fed_frame self (record { kind = kind; sender = sender; payload = payload.now })).happened }
    {
        let happened = self.feed(kind, sender, payload);
        FedCollator {
            collator: self,
            happened,
        }
    }
}
