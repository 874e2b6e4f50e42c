// SV_CONFIGURATION_GPS, 0x0091: which satellites send L2C.
ghost use Rattle.atmosphere.specs.SvConfigurationGps.{sv_configuration_gps, fixed};

use frame_writer::FixedMessage;
use parts::TimeOfWeek;
use wire::InBytes;

#[derive(Clone, Copy)]
pub struct SvConfigurationGps {
    pub t_nmct: TimeOfWeek,
    pub l2c_mask: u32,
}

impl FixedMessage for SvConfigurationGps {
    type Record = SvConfigurationGps;

    const KIND: u16 = 0x0091;

    const LENGTH: usize = 10;

    ghost KIND = { 0x0091 };

    ghost LENGTH = { 10 };

    ghost description = { sv_configuration_gps };

    fn take(s: &[u8]) -> SvConfigurationGps {
        SvConfigurationGps {
            t_nmct: TimeOfWeek::take(s, 0),
            l2c_mask: u32::read(s, 6),
        }
    }

    fn put(buf: &mut [u8], r: SvConfigurationGps) {
        r.t_nmct.put(buf, 6);
        r.l2c_mask.store(buf, 12);
    }

    fn allowed(_r: SvConfigurationGps) -> bool {
        true
    }

    ghost fixed = { fixed };
}
