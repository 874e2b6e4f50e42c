// BASE_POS_ECEF, 0x0048: the base station, Earth centred, in m.
ghost use Rattle.std.specs.Prelude.{◌≡◌};
ghost use Rattle.base_positions.specs.BasePosEcef.{base_pos_ecef, fixed};

use frame_writer::FixedMessage;
use wire::{Double, InBytes};

#[derive(Clone, Copy)]
pub struct BasePosEcef {
    pub x: Double,
    pub y: Double,
    pub z: Double,
}

impl FixedMessage for BasePosEcef {
    type Record = BasePosEcef;

    const KIND: u16 = 0x0048;

    const LENGTH: usize = 24;

    ghost KIND = { 0x0048 };

    ghost LENGTH = { 24 };

    ghost description = { base_pos_ecef };

    fn take(s: &[u8]) -> BasePosEcef {
        BasePosEcef {
            x: Double::read(s, 0),
            y: Double::read(s, 8),
            z: Double::read(s, 16),
        }
    }

    fn put(buf: &mut [u8], r: BasePosEcef) {
        r.x.store(buf, 6);
        r.y.store(buf, 14);
        r.z.store(buf, 22);
    }

    fn allowed(_r: BasePosEcef) -> bool {
        true
    }

    ghost fixed = { fixed };
}
