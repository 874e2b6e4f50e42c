// The CRC of a frame whose header and payload lie apart.
ghost use Rattle.std.specs.Prelude.{◌≡◌};
ghost use Rattle.frames.specs.Apart.{sum_apart};

use crate::step::onward;

// The header's first byte is the preamble, which the CRC leaves out.
pub fn frame_crc(header: &[u8], payload: &[u8]) -> u16
    ensures { result ≡ sum_apart header.now payload.now }
{
    let size = header.len();
    let start = onward(0, 1, size);
    crc::crc_apart(0, &header[start..size], payload)
}
