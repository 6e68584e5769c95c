// How far the first record is good: ThreadConfig and the control part.
ghost use Rattle.std.specs.Prelude.{◌≡◌, ◌≤◌, drop};
ghost use Rattle.image_layout.specs.Control.{locks_format, waits_format, banks_format};
ghost use Rattle.image_layout.specs.Image.{control_record};
ghost use Rattle.image_layout.specs.Places.{settings_at, waits_at, owners_at};

use format::HEAD_BYTES;
use format::check::{fields, good_across, head};
use image_layout::{
    CONTROL_BYTES, MUTEXES_AT, OWNERS_AT, POINTERS_AT, SEMAPHORES_AT, SETTINGS_AT, WAIT_0_AT,
    WAIT_1_AT, WAIT_2_AT,
};
use machine::sizes::{
    BANK_OWNERS, BANK_POINTERS, HOLDER_MOST, MUTEXES, SEMAPHORE_MOST, SEMAPHORES, SETTINGS,
};

// How far the parts stand into the body, and the second and third waits into the waits.
const TO_MUTEXES: usize = MUTEXES_AT - SETTINGS_AT;

const TO_SEMAPHORES: usize = SEMAPHORES_AT - SETTINGS_AT;

const TO_WAITS: usize = WAIT_0_AT - SETTINGS_AT;

const TO_WAIT_1: usize = WAIT_1_AT - WAIT_0_AT;

const TO_WAIT_2: usize = WAIT_2_AT - WAIT_0_AT;

const TO_OWNERS: usize = OWNERS_AT - SETTINGS_AT;

const SEMAPHORE_NUMBERS: usize = SEMAPHORES * 2;

// The largest numbers of a setting, a mutex and a semaphore.
const SETTING_MOST: u32 = u16::MAX as u32;

const MUTEX_MOST: u32 = HOLDER_MOST as u32;

const VALUE_MOST: u32 = SEMAPHORE_MOST as u32;

// How far ThreadConfig, mutexes and semaphores are good.
fn locks_good(s: &[u8]) -> usize
    ensures { (result ≡ locks_format.good (drop settings_at s.now)) × (result ≤ locks_format.size) }
{
    let a = fields::<2>(s, SETTINGS_AT, SETTINGS, SETTING_MOST);
    let b = fields::<1>(s, MUTEXES_AT, MUTEXES, MUTEX_MOST);
    let c = fields::<1>(s, SEMAPHORES_AT, SEMAPHORE_NUMBERS, VALUE_MOST);
    good_across(good_across(a, TO_MUTEXES, b), TO_SEMAPHORES, c)
}

// How far the three waits are good.
fn waits_good(s: &[u8]) -> usize
    ensures { (result ≡ waits_format.good (drop waits_at s.now)) × (result ≤ waits_format.size) }
{
    let a = crate::waits::thread_good(s, WAIT_0_AT);
    let b = crate::waits::thread_good(s, WAIT_1_AT);
    let c = crate::waits::thread_good(s, WAIT_2_AT);
    good_across(good_across(a, TO_WAIT_1, b), TO_WAIT_2, c)
}

// How far the owners and pointers are good.
fn banks_good(s: &[u8]) -> usize
    ensures { (result ≡ banks_format.good (drop owners_at s.now)) × (result ≤ banks_format.size) }
{
    let a = fields::<1>(s, OWNERS_AT, BANK_OWNERS, 1);
    let b = fields::<1>(s, POINTERS_AT, BANK_POINTERS, 1);
    good_across(a, BANK_OWNERS, b)
}

// How far the first record is good.
pub(crate) fn control_good(s: &[u8]) -> usize
    ensures { (result ≡ control_record.good s.now) × (result ≤ control_record.size) }
{
    let h = head(s, 0, CONTROL_BYTES, 1);
    let l = locks_good(s);
    let w = waits_good(s);
    let b = banks_good(s);
    let body = good_across(good_across(l, TO_WAITS, w), TO_OWNERS, b);
    good_across(h, HEAD_BYTES, body)
}
