// OBS written into a lent buffer.
ghost use Rattle.std.specs.Prelude.{◌+◌, ◌*◌, ◌≤◌, ◌≡◌, length, take};
ghost use Rattle.layouts.specs.Field.{row_stored};
ghost use Rattle.layouts.specs.Inner.{rows_stored};
ghost use Rattle.layouts.specs.Description.{rows_of};
ghost use Rattle.refusals.specs.Numbers.{answer_of};
ghost use Rattle.observation.specs.Edition.{head, observation, first};
ghost use Rattle.obs_writer.specs.ObsWriter.{head_of, obs_write_answer, obs_written};

use observation::{EACH, HEAD, MOST, Obs, Observation};
use refusals::Refusal;
use senders::Writer;
use wire::InBytes;

// Where the observations go in a frame: behind the six bytes before the payload, and the header.
const ENTRIES: usize = 6 + HEAD;

// Stores the header at buf[6..].
fn put_head(buf: &mut [u8], obs: Obs)
    ensures { buf.new ≡ row_stored head.fields (head.row (head_of obs)) buf.old 6 }
{
    obs.tow.store(buf, 6);
    obs.wn.store(buf, 10);
    obs.n_obs.store(buf, 12);
}

// Stores an observation at the start of buf.
fn put(buf: &mut [u8], r: Observation)
    ensures { buf.new ≡ row_stored observation.fields (observation.row r) buf.old 0 }
{
    r.p.store(buf, 0);
    r.l_i.store(buf, 4);
    r.l_f.store(buf, 8);
    r.cn0.store(buf, 9);
    r.lock.store(buf, 10);
    r.sat.store(buf, 12);
    r.code.store(buf, 14);
    r.reserved.store(buf, 15);
}

// Stores observations one after the other at buf[13..].
fn put_entries(buf: &mut [u8], entries: &[Observation])
    requires entries_in_bounds { 13 + length entries.now * 16 ≤ length buf.old }
    ensures { buf.new ≡ rows_stored observation.fields (rows_of observation entries.now) buf.old 13 }
{
    for (i, entry) in entries.iter().enumerate() {
        let start = ENTRIES + i * EACH;
        put(&mut buf[start..], *entry);
    }
}

// A header and the first count of the observations: 31 for over 15, then 32. A slice could be shorter than the count, the array never is.
pub fn write_obs(
    buf: &mut [u8],
    writer: Writer,
    obs: Obs,
    entries: [Observation; MOST],
) -> Result<usize, Refusal>
    ensures result_value { answer_of result ≡ obs_write_answer first obs.count (length buf.old) }
    ensures buf_after { buf.new ≡ obs_written first writer (head_of obs) obs.count entries buf.old }
{
    let k = obs.count as usize;
    if MOST < k {
        return Err(Refusal::TooLong);
    }
    let n = HEAD + k * EACH;
    let written = frame_writer::plan(n, buf.len())?;
    put_head(buf, obs);
    put_entries(buf, &entries[..k]);
    frame_writer::seal(buf, 0x0049, writer, n);
    Ok(written)
}
