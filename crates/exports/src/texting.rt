// The listing of a capture.
ghost use Rattle.std.specs.Prelude.{◌≡◌, length};
ghost use Rattle.listing.specs.Listing.{with_listing};
ghost use Rattle.exports.specs.Text.{text_answer, size_after};

use crate::sizes::size_or_code;

// 0 with the text's length through size, or 11, then 32.
pub fn sbp_list(capture: &[u8], text: &mut [u8], size: &mut u64) -> u8
    ensures value { result ≡ text_answer capture.now (length text.old) }
    ensures text_after { text.new ≡ with_listing capture.now text.old }
    ensures size_after { size.new ≡ size_after capture.now (length text.old) size.old }
{
    size_or_code(listing::list(capture, text), size)
}
