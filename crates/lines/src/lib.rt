// The three lines of a listing: of a frame, of an epoch, of the totals, each put where it has room. Read specs/Lines.antt.
// All are inner parts: total, and a line is whole or nothing. buf and at stay apart: a struct of both would hold the buffer from line to line,
// and say no more than the number that each hands back.
#![tactic(auto)]

ghost use Rattle.std.specs.Prelude.{◌≡◌, ◌+◌, ◌%◌, ◌^◌, length, Ok};
ghost use Rattle.wire.specs.Number.{bytes_stored};
ghost use Rattle.epochs.specs.Collator.{happened_of};
ghost use Rattle.lines.specs.Lines.{frame_shown, totals_shown, epoch_part};

use epochs::Report;
use frames::{Counts, Frame};

// `F` offset type sender length payload-answer
pub fn put_frame(buf: &mut [u8], at: usize, f: Frame, answer: u8) -> usize
    ensures value { result ≡ (at + length (frame_shown f answer)) % 2 ^ 64 }
    ensures buf_after { buf.new ≡ bytes_stored (frame_shown f answer) buf.old at }
{
    text::put_line(
        buf,
        at,
        0x46,
        [
            f.at as u64,
            f.kind as u64,
            f.sender as u64,
            f.length as u64,
            answer as u64,
        ],
    )
}

// `E` sender wn tow n observations, where an epoch ended; else nothing, whatever the frame was refused with
#[tactic(auto, using(crate::proofs::Puts::nothing_stored))]
pub fn put_epoch(buf: &mut [u8], at: usize, ended: Option<Report>) -> usize
    ensures value { result ≡ (at + length (epoch_part (happened_of (Ok ended)))) % 2 ^ 64 }
    ensures buf_after { buf.new ≡ bytes_stored (epoch_part (happened_of (Ok ended))) buf.old at }
{
    let Some(epoch) = ended else {
        return at;
    };
    text::put_line(
        buf,
        at,
        0x45,
        [
            epoch.sender as u64,
            epoch.wn as u64,
            epoch.tow as u64,
            epoch.n as u64,
            epoch.observations as u64,
        ],
    )
}

// `T` length, frame bytes, junk, bad, short
pub fn put_totals(buf: &mut [u8], at: usize, n: usize, c: Counts) -> usize
    ensures value { result ≡ (at + length (totals_shown n c)) % 2 ^ 64 }
    ensures buf_after { buf.new ≡ bytes_stored (totals_shown n c) buf.old at }
{
    text::put_line(
        buf,
        at,
        0x54,
        [
            n as u64,
            c.framed as u64,
            c.junk as u64,
            c.bad as u64,
            c.short as u64,
        ],
    )
}
