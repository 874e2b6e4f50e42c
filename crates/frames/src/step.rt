// What stands at a position of a capture.
ghost use Rattle.std.specs.Prelude.{◌≡◌, ◌+◌, min};
ghost use Rattle.frames.specs.Step.{step_at, payload_in};
ghost use Rattle.frames.specs.Cursors.{no_frame};

use wire::InBytes;

// A frame that was found: its position, type, sender and payload length. Its payload starts at + 6.
#[derive(Clone, Copy)]
pub struct Frame {
    pub at: usize,
    pub kind: u16,
    pub sender: u16,
    pub length: u8,
}

// Document 01's five lines. Short says how many bytes from the position are needed.
#[derive(Clone, Copy)]
pub enum Step {
    Finished,
    Junk,
    Short(usize),
    Bad,
    Found(Frame),
}

// Where none was found.
pub(crate) fn no_frame() -> Frame
    ensures { result ≡ no_frame }
{
    Frame {
        at: 0,
        kind: 0,
        sender: 0,
        length: 0,
    }
}

pub fn step_at(s: &[u8], at: usize) -> Step
    ensures { result ≡ step_at s.now at }
{
    if s.len() <= at {
        return Step::Finished;
    }
    if s[at] != 0x55 {
        return Step::Junk;
    }
    let left = s.len() - at;
    if left < 6 {
        return Step::Short(6);
    }
    let length = s[at + 5];
    let n = length as usize;
    if left < n + 8 {
        return Step::Short(n + 8);
    }
    let first = at + 1;
    let end = at + n + 6;
    if crc::crc(0, &s[first..end]) != u16::read(s, end) {
        return Step::Bad;
    }
    Step::Found(Frame {
        at,
        kind: u16::read(s, first),
        sender: u16::read(s, at + 3),
        length,
    })
}

// n bytes on from a position, or the end where that comes first.
pub(crate) fn onward(at: usize, n: usize, size: usize) -> usize
    ensures { result ≡ min (at + n) size }
{
    if size <= at {
        return size;
    }
    if size - at < n {
        return size;
    }
    at + n
}

// The payload of a frame as that part of the capture; of a frame that does not fit, what is there.
pub fn payload(s: &[u8], frame: Frame) -> &[u8]
    ensures { result.now ≡ payload_in s.now frame }
{
    let at = frame.at;
    let n = frame.length as usize;
    let size = s.len();
    let start = onward(at, 6, size);
    let end = onward(start, n, size);
    &s[start..end]
}
