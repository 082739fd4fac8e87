//! How long a generated capture is.
ghost use Rattle.std.specs.Prelude.{◌≡◌, length};
ghost use Rattle.cap_make.specs.Capture.{made};

use crate::maker::Maker;
use crate::record::RecordBytes;

/// The number of bytes of the capture of this seed, of `count` records. It takes the time of making them.
pub fn made_len(seed: u64, count: u32) -> u64
    ensures len { result ≡ length (made seed count) }
{
    let mut maker = Maker::new(seed);
    let mut buffer = RecordBytes::of_file_header();
    let mut len = buffer.bytes().len() as u64;
    for number in 0..count {
        maker.next_record(number, &mut buffer);
        len += buffer.bytes().len() as u64;
    }
    len
}
