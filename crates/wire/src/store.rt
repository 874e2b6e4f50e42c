// Bytes stored at an offset, where all have room.
ghost use Rattle.std.specs.Prelude.{◌≡◌, ◌+◌, leb};
ghost use Rattle.wire.specs.Number.{bytes_stored};

// Whether w bytes from an offset on lie within the length.
pub fn room(length: usize, at: usize, w: usize) -> bool
    ensures { result ≡ leb (at + w) length }
{
    if length < at {
        return false;
    }
    w <= length - at
}

pub fn store_bytes(buf: &mut [u8], at: usize, bytes: &[u8])
    ensures { buf.new ≡ bytes_stored bytes.now buf.old at }
{
    if room(buf.len(), at, bytes.len()) {
        // a loop, since copy_from_slice would have the library for C ask for memmove
        for i in 0..bytes.len() {
            buf[at + i] = bytes[i];
        }
    }
}
