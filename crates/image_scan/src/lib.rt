// How far an image is good, and whether it is sound: bytes alone, without a machine, and for any kind and size of Config's record.
#![tactic(auto)]

ghost use Rattle.std.specs.Prelude.{◌≡◌, ◌≤◌};
ghost use Rattle.format.specs.Places.{place_most};
ghost use Rattle.image_layout.specs.Image.{bodies};
ghost use Rattle.image_layout.specs.Sound.{scanned};

mod control;
mod stores;
mod waits;

use format::check::good_across;
use image_layout::{CONFIG_BODY_AT, DEST_AT, GPRS_AT, IMAGE_BYTES, SRC_A_AT};

// The bytes of Dest and its marks, and of all that stands after Config.
const DEST_BYTES: usize = SRC_A_AT - DEST_AT;

const PAST_CONFIG: usize = IMAGE_BYTES - DEST_AT;

// How far an image is good. Internal: the image's size is a small number.
fn image_good(s: &[u8], kind: u32, words: usize) -> usize
    requires { (bodies kind words).size ≤ place_most }
    ensures { result ≡ (bodies kind words).good s.now }
{
    let dest_at = CONFIG_BODY_AT + words * 4;
    let sources_at = dest_at + DEST_BYTES;
    let c = crate::control::control_good(s);
    let w = crate::stores::words_good(s, kind, words);
    let d = crate::stores::dest_good(s, dest_at);
    let a = good_across(c, GPRS_AT, w);
    let b = good_across(a, dest_at, d);
    good_across(b, sources_at, crate::stores::sources_good(s, sources_at))
}

// Whether bytes are an image whose Config record is of a kind and has so many words: all is there, in range, and no more; or the
// offset of the first field missing, cut or out of range, or the image's size. Internal: its size is a small number.
pub fn scan(s: &[u8], kind: u32, words: usize) -> Result<(), usize>
    requires { (bodies kind words).size ≤ place_most }
    ensures { result ≡ scanned (bodies kind words) s.now }
{
    let size = CONFIG_BODY_AT + words * 4 + PAST_CONFIG;
    let good = image_good(s, kind, words);
    if s.len() == size && good == size {
        Ok(())
    } else {
        Err(good)
    }
}
