// BASE_POS_LLH, 0x0044: the base station, in degrees and m.
ghost use Rattle.std.specs.Prelude.{◌≡◌};
ghost use Rattle.base_positions.specs.BasePosLlh.{base_pos_llh, fixed};

use frame_writer::FixedMessage;
use wire::{Double, InBytes};

#[derive(Clone, Copy)]
pub struct BasePosLlh {
    pub lat: Double,
    pub lon: Double,
    pub height: Double,
}

impl FixedMessage for BasePosLlh {
    type Record = BasePosLlh;

    const KIND: u16 = 0x0044;

    const LENGTH: usize = 24;

    ghost KIND = { 0x0044 };

    ghost LENGTH = { 24 };

    ghost description = { base_pos_llh };

    fn take(s: &[u8]) -> BasePosLlh {
        BasePosLlh {
            lat: Double::read(s, 0),
            lon: Double::read(s, 8),
            height: Double::read(s, 16),
        }
    }

    fn put(buf: &mut [u8], r: BasePosLlh) {
        r.lat.store(buf, 6);
        r.lon.store(buf, 14);
        r.height.store(buf, 22);
    }

    fn allowed(_r: BasePosLlh) -> bool {
        true
    }

    ghost fixed = { fixed };
}
