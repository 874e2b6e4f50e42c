// The CRC of some bytes and of a frame in two buffers, and the answer of a payload.
ghost use Rattle.std.specs.Prelude.{◌≡◌};
ghost use Rattle.crc.specs.Crc.{crc_from};
ghost use Rattle.frames.specs.Apart.{sum_apart};
ghost use Rattle.payloads.specs.Payloads.{answer_for};

pub fn sbp_crc(start: u16, bytes: &[u8]) -> u16
    ensures { result ≡ crc_from start bytes.now }
{
    crc::crc(start, bytes)
}

// Of the header but for its first byte, the preamble, and of the payload.
pub fn sbp_frame_crc(header: &[u8], payload: &[u8]) -> u16
    ensures { result ≡ sum_apart header.now payload.now }
{
    frames::frame_crc(header, payload)
}

// 0, 21, 22 or 23.
pub fn sbp_answer(kind: u16, payload: &[u8]) -> u8
    ensures { result ≡ answer_for kind payload.now }
{
    refusals::code(payloads::answer(kind, payload))
}
