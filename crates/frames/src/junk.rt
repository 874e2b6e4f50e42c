// Runs of bytes that begin no frame, looked at 32 at a time.
ghost use Rattle.std.specs.Prelude.{◌≡◌, ◌+◌, ◌≤◌, length, drop, nat_le};
ghost use Rattle.frames.specs.Inner.{junk_run};

// Whether none of 32 bytes is 0x55. There is no way out before the last, so that the compiler tests sixteen of them at once.
fn clear(s: &[u8], from: usize) -> bool
    requires { from + 32 ≤ length s.now }
    ensures { result ≡ nat_le 32 (junk_run (drop from s.now)) }
{
    let mut hit = false;
    for i in 0..32 {
        hit |= s[from + i] == 0x55;
    }
    !hit
}

// Over as many whole blocks of junk as there are: where to go on is what is looked for, so that a for over chunks would count all the same.
fn past_blocks(s: &[u8]) -> usize
    ensures { result ≤ junk_run s.now }
{
    let mut to = 0;
    while 32 <= s.len() - to && clear(s, to) {
        to += 32;
    }
    to
}

// How many bytes stand before the first 0x55, or the end.
pub(crate) fn junk_run(s: &[u8]) -> usize
    ensures { result ≡ junk_run s.now }
{
    for i in past_blocks(s)..s.len() {
        if s[i] == 0x55 {
            return i;
        }
    }
    s.len()
}
