//! Packets without an Ethernet header, as a TUN device has them.
ghost use Rattle.std.specs.Prelude.{◌≡◌, ◌++◌, ◌⊎◌, ◌↔◌, true, length, drop};
ghost use Rattle.burst_c.specs.Front.{front_for, is_ip_behind};

use crate::codes::{OK, USAGE};

/// An Ethernet header with addresses of zeros, before IPv4.
const BEFORE_IP4: [u8; 14] = [0, 0, 0, 0, 0, 0, 0, 0, 0, 0, 0, 0, 0x08, 0x00];

/// The same before IPv6.
const BEFORE_IP6: [u8; 14] = [0, 0, 0, 0, 0, 0, 0, 0, 0, 0, 0, 0, 0x86, 0xdd];

/// Writes an Ethernet header into the first 14 bytes of a frame, for the IP packet behind them, by its version.
///
/// 0: it stands there. 2: behind 14 bytes there is no packet of version 4 or 6, and the frame stays as it is.
#[unsafe(no_mangle)]
pub extern "C" fn offload_put_ethernet(frame: &mut [u8]) -> u32
    ensures front { result ≡ 0 → frame.new ≡ front_for frame.old ++ drop 14 frame.old }
    ensures told { (result ≡ 0) ↔ (is_ip_behind frame.old ≡ true) }
    ensures untouched { result ≡ 2 → frame.new ≡ frame.old }
    ensures codes { (result ≡ 0) ⊎ (result ≡ 2) }
    ensures size { length frame.new ≡ length frame.old }
{
    if frame.len() <= 14 {
        return USAGE;
    }
    let version = frame[14] / 16;
    if version == 4 {
        frame[..14].copy_from_slice(&BEFORE_IP4);
        return OK;
    }
    if version == 6 {
        frame[..14].copy_from_slice(&BEFORE_IP6);
        return OK;
    }
    USAGE
}
