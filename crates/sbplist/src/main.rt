// Lists the frames and epochs of a capture on standard input: what `listing` makes of it, in one write.
// A capture over 65536 bytes prints `R 11` alone; a read that fails says why on standard error and prints nothing.
// Read `output` in listing's specs/Listing.antt first: what is put into the buffer before that one write is proved to be it.
#![tactic(auto)]

ghost use Rattle.std.specs.Prelude.{◌≡◌, ◌≤◌, length, take, IfOk};
ghost use Rattle.listing.specs.Listing.{longest_text, output};

use std::io;
use std::io::{ErrorKind, Read, Stdin};

// Puts document 01's whole output at the start of text, and says how long it is: the listing, or `R 11` alone. The text has room for every
// listing, so that 11 is the only refusal.
fn put_output(capture: &[u8], text: &mut [u8]) -> usize
    requires { longest_text ≤ length text.old }
    ensures value { result ≡ length (output capture.now) }
    ensures text_after { take result text.new ≡ output capture.now }
    ensures upper_bound { result ≤ length text.new }
{
    if let Ok(n) = listing::list(capture, text) {
        return n;
    }
    text[..5].copy_from_slice(b"R 11\n");
    5
}

// Reads to the end of the input, or until buf is full, and says how many bytes came. A read that a signal interrupts is tried again. The turns are
// counted so that the loop is seen to end. Read::read_to_end would do it into a Vec, whose memory can fail: what the program does may not change.
fn read_all(input: &mut Stdin, buf: &mut [u8]) -> io::Result<usize>
    ensures { IfOk result (λ n. n ≤ length buf.new) }
{
    let mut n: usize = 0;
    for _ in 0..u64::MAX {
        match input.read(&mut buf[n..]) {
            Ok(0) => return Ok(n),
            Ok(k) => n += k,
            Err(e) if e.kind() == ErrorKind::Interrupted => {}
            Err(e) => return Err(e),
        }
    }
    Ok(n)
}

fn main(rt: HostRuntime) -> io::Result<()> {
    // one byte more than is taken, to know that there are more; an array, since a Vec can fail where this cannot
    let mut capture = [0u8; 65537];
    let mut text = vec![in rt.alloc(); 0u8; 524320]?;
    match read_all(&mut rt.stdin(), &mut capture) {
        Ok(n) => {
            let length = put_output(&capture[..n], &mut text);
            if let Err(e) = rt.write_all(&text[..length]) {
                return eprintln!(rt; "write: {e}");
            }
            Ok(())
        }
        Err(e) => eprintln!(rt; "read: {e}"),
    }
}
