// The image's first record read and written: ThreadConfig and the control part.
#![tactic(auto)]

mod waits;

ghost use Rattle.std.specs.Prelude.{◌≡◌, ◌+◌, ◌≤◌, length, drop};
ghost use Rattle.machine.specs.Sizes.{semaphore_count};
ghost use Rattle.bits.specs.Bytes.{le};
ghost use Rattle.bits.specs.Overwrite.{Wrote};
ghost use Rattle.format.specs.Format.{many, many_get};
ghost use Rattle.image_layout.specs.Control.{semaphore_format, locks_format, waits_format, banks_format, decided};
ghost use Rattle.image_layout.specs.Image.{control_record};
ghost use Rattle.image_layout.specs.Places.{settings_at, semaphores_at, waits_at, owners_at, gprs_at};

use crate::waits::{read_thread, write_thread};
use format::run::{read_run, write_head, write_run};
use image_layout::{
    CONTROL_BYTES, MUTEXES_AT, OWNERS_AT, POINTERS_AT, SEMAPHORES_AT, SETTINGS_AT, WAIT_0_AT,
    WAIT_1_AT, WAIT_2_AT,
};
use machine::control::{Control, Semaphore};
use machine::sizes::{SEMAPHORES, SETTINGS};

// The N bytes from `at`. Internal: they are there.
fn read_bytes<const N: usize>(s: &[u8], at: usize) -> [u8; N]
    requires { at + N ≤ length s.now }
    ensures { result ≡ many_get (le 1) 1 N (drop at s.now) }
{
    let mut bytes = [0u8; N];
    read_run::<u8, 1>(s, at, &mut bytes);
    bytes
}

// Reads the semaphores. Internal: their bytes are there.
fn read_semaphores(s: &[u8]) -> [Semaphore; SEMAPHORES]
    requires { waits_at ≤ length s.now }
    ensures { result ≡ (many semaphore_count semaphore_format).get (drop semaphores_at s.now) }
{
    let mut all = [Semaphore {
        value: 0,
        maximum: 0,
    }; SEMAPHORES];
    for i in 0..SEMAPHORES {
        all[i] = Semaphore {
            value: s[SEMAPHORES_AT + i * 2],
            maximum: s[SEMAPHORES_AT + i * 2 + 1],
        };
    }
    all
}

// Reads the control part. Internal: its bytes are there.
pub fn read_control(s: &[u8]) -> Control
    requires { gprs_at ≤ length s.now }
    ensures { result ≡ (control_record.get s.now).control }
{
    Control {
        t0: read_thread(s, WAIT_0_AT),
        t1: read_thread(s, WAIT_1_AT),
        t2: read_thread(s, WAIT_2_AT),
        mutexes: read_bytes(s, MUTEXES_AT),
        semaphores: read_semaphores(s),
        owners: read_bytes(s, OWNERS_AT),
        pointers: read_bytes(s, POINTERS_AT),
    }
}

// Writes a semaphore. Internal: there is room.
fn write_semaphore(out: &mut [u8], at: usize, s: Semaphore)
    requires { at + semaphore_format.size ≤ length out.old }
    ensures { Wrote out.old at (semaphore_format.put s) out.new (at + semaphore_format.size) }
{
    out[at] = s.value;
    out[at + 1] = s.maximum;
}

// Writes the semaphores. Internal: there is room.
fn write_semaphores(out: &mut [u8], all: &[Semaphore; SEMAPHORES])
    requires { waits_at ≤ length out.old }
    ensures { Wrote out.old semaphores_at ((many semaphore_count semaphore_format).put all.now) out.new waits_at }
{
    for i in 0..SEMAPHORES {
        write_semaphore(out, SEMAPHORES_AT + i * 2, all[i]);
    }
}

// Writes ThreadConfig, mutexes and semaphores. Internal: there is room.
fn write_locks(out: &mut [u8], settings: &[u16; SETTINGS], c: Control)
    requires { waits_at ≤ length out.old }
    ensures { Wrote out.old settings_at (locks_format.put ((settings.now, c.mutexes), c.semaphores)) out.new waits_at }
{
    write_run::<u16, 2>(out, SETTINGS_AT, settings);
    write_run::<u8, 1>(out, MUTEXES_AT, &c.mutexes);
    write_semaphores(out, &c.semaphores);
}

// Writes the three waits. Internal: there is room.
fn write_waits(out: &mut [u8], c: Control)
    requires { owners_at ≤ length out.old }
    ensures { Wrote out.old waits_at (waits_format.put ((c.t0, c.t1), c.t2)) out.new owners_at }
{
    write_thread(out, WAIT_0_AT, c.t0);
    write_thread(out, WAIT_1_AT, c.t1);
    write_thread(out, WAIT_2_AT, c.t2);
}

// Writes the owners and pointers. Internal: there is room.
fn write_banks(out: &mut [u8], c: Control)
    requires { gprs_at ≤ length out.old }
    ensures { Wrote out.old owners_at (banks_format.put (c.owners, c.pointers)) out.new gprs_at }
{
    write_run::<u8, 1>(out, OWNERS_AT, &c.owners);
    write_run::<u8, 1>(out, POINTERS_AT, &c.pointers);
}

// Writes the first record. Internal: there is room.
pub fn write_control(out: &mut [u8], settings: &[u16; SETTINGS], c: Control)
    requires { gprs_at ≤ length out.old }
    ensures { Wrote out.old 0 (control_record.put (decided settings.now c)) out.new gprs_at }
{
    write_head(out, 0, CONTROL_BYTES, 1);
    write_locks(out, settings, c);
    write_waits(out, c);
    write_banks(out, c);
}
