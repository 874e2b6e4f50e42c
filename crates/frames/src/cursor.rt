// A cursor that goes from frame to frame through a lent capture, and the totals of a whole closed reading.
ghost use Rattle.std.specs.Prelude.{◌≡◌, true, false};
ghost use Rattle.frames.specs.Reading.{counts_of, closed_steps};
ghost use Rattle.frames.specs.Inner.{over_junk};
ghost use Rattle.frames.specs.Cursors.{passes, past, over, ended, begun, counts_in, next_of, no_frame, reached_in};

use crate::junk::junk_run;
use crate::step::{Frame, Step, no_frame, step_at};

// The bytes in frames, and those passed over as junk, bad or short.
#[derive(Clone, Copy)]
pub struct Counts {
    pub framed: usize,
    pub junk: usize,
    pub bad: usize,
    pub short: usize,
}

// A position in a reading, open or closed, with the counts so far.
#[derive(Clone, Copy)]
pub struct Cursor {
    pub at: usize,
    pub opened: bool,
    pub framed: usize,
    pub junk: usize,
    pub bad: usize,
    pub short: usize,
}

// What comes next: a frame, the end of the capture, or (open) a position from which so many bytes are needed.
#[derive(Clone, Copy)]
pub enum Next {
    Frame(Frame, Cursor),
    End(Cursor),
    Needs(usize, Cursor),
}

// The same in numbers: 0 a frame, 1 the end, 2 more bytes are needed. Where there is no frame its numbers are 0. They stay numbers, since the
// demands state `reach` by them (`ReadOff`).
#[derive(Clone, Copy)]
pub struct Reached {
    pub number: u8,
    pub needed: usize,
    pub frame: Frame,
    pub cursor: Cursor,
}

// Frame bytes, junk, bad and short.
fn tally(framed: usize, junk: usize, bad: usize, short: usize) -> Counts
    ensures { result ≡ record { framed = framed; junk = junk; bad = bad; short = short } }
{
    Counts {
        framed,
        junk,
        bad,
        short,
    }
}

// Whether a reading passes over what stands there, on the way to the next frame.
fn passes(opened: bool, step: Step) -> bool
    ensures { result ≡ passes opened step }
{
    match step {
        Step::Finished => false,
        Step::Junk => true,
        Step::Short(_) => !opened,
        Step::Bad => true,
        Step::Found(_) => false,
    }
}

impl Cursor {
    fn begun(opened: bool) -> Self
        ensures { result ≡ begun opened }
    {
        Cursor {
            at: 0,
            opened,
            framed: 0,
            junk: 0,
            bad: 0,
            short: 0,
        }
    }

    // The capture is complete: a short passes one byte.
    pub fn closed() -> Self
        ensures { result ≡ begun false }
    {
        Cursor::begun(false)
    }

    // More may come: a short stops the reading.
    pub fn opened() -> Self
        ensures { result ≡ begun true }
    {
        Cursor::begun(true)
    }

    // Further by n bytes, and with what they count. The sums wrap, so that no value of a cursor traps.
    fn past(self, n: usize, k: Counts) -> Self
        ensures { result ≡ past self n k }
    {
        Cursor {
            at: std::num::wrapping_add_usize(self.at, n),
            opened: self.opened,
            framed: std::num::wrapping_add_usize(self.framed, k.framed),
            junk: std::num::wrapping_add_usize(self.junk, k.junk),
            bad: std::num::wrapping_add_usize(self.bad, k.bad),
            short: std::num::wrapping_add_usize(self.short, k.short),
        }
    }

    // Past what stands there: a frame, or one byte, counted under its kind.
    fn over(self, step: Step) -> Self
        ensures { result ≡ over self step }
    {
        match step {
            Step::Finished => self.past(0, tally(0, 0, 0, 0)),
            Step::Junk => self.past(1, tally(0, 1, 0, 0)),
            Step::Short(_) => self.past(1, tally(0, 0, 0, 1)),
            Step::Bad => self.past(1, tally(0, 0, 1, 0)),
            Step::Found(frame) => {
                let n = frame.length as usize + 8;
                self.past(n, tally(n, 0, 0, 0))
            }
        }
    }

    // Past n bytes of junk at once.
    fn past_junk(self, n: usize) -> Self
        ensures { result ≡ over_junk self n }
    {
        self.past(n, tally(0, n, 0, 0))
    }

    // No frame: the reading stands here.
    fn stopped(self, number: u8, needed: usize) -> Reached
        ensures { result ≡ record { number = number; needed = needed; frame = no_frame; cursor = self } }
    {
        Reached {
            number,
            needed,
            frame: no_frame(),
            cursor: self,
        }
    }

    // The answer at what is not passed over. Junk and bad are passed over and never stand here; the definition gives them the end.
    fn reached(self, step: Step) -> Reached
        ensures { result ≡ reached_in (ended self step) }
    {
        match step {
            Step::Finished | Step::Junk | Step::Bad => self.stopped(1, 0),
            Step::Short(needed) => self.stopped(2, needed),
            Step::Found(frame) => Reached {
                number: 0,
                needed: 0,
                frame,
                cursor: self.over(step),
            },
        }
    }

    // Over what is passed over, to the next frame of the reading or its end.
    fn search(self, s: &[u8]) -> Reached
        ensures { result ≡ reached_in (next_of s.now self) }
    {
        let mut c = self;
        loop {
            let at = c.at;
            let step = step_at(s, at);
            if let Step::Junk = step {
                c = c.past_junk(junk_run(&s[at..]));
            } else if passes(c.opened, step) {
                c = c.over(step);
            } else {
                return c.reached(step);
            }
        }
    }

    // The next frame of the reading, or its end. Mostly a frame stands right here, so the first step is looked at before the loop. `next` asks
    // `search`, not this: with one caller, `reach` is compiled into it.
    pub fn reach(self, s: &[u8]) -> Reached
        ensures { result ≡ reached_in (next_of s.now self) }
    {
        let step = step_at(s, self.at);
        if passes(self.opened, step) {
            return self.over(step).search(s);
        }
        self.reached(step)
    }

    // The same as an enum.
    pub fn next(self, s: &[u8]) -> Next
        ensures { result ≡ next_of s.now self }
    {
        let r = self.search(s);
        let number = r.number;
        let frame = r.frame;
        let cursor = r.cursor;
        match number {
            0 => Next::Frame(frame, cursor),
            1 => Next::End(cursor),
            _ => Next::Needs(r.needed, cursor),
        }
    }

    pub fn counts(self) -> Counts
        ensures { result ≡ counts_in self }
    {
        tally(self.framed, self.junk, self.bad, self.short)
    }
}

// The counts of a whole closed reading.
pub fn totals(s: &[u8]) -> Counts
    ensures { result ≡ counts_of (closed_steps s.now) }
{
    let mut c = Cursor::closed();
    loop {
        let at = c.at;
        let step = step_at(s, at);
        if let Step::Finished = step {
            return c.counts();
        }
        if let Step::Junk = step {
            c = c.past_junk(junk_run(&s[at..]));
        } else {
            c = c.over(step);
        }
    }
}
