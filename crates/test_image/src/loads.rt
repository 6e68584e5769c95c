// The loads of a group, each over the machine that the group names, with as much lent of each part as is asked for.
use crate::group::OUT_MOST;
use crate::lines::{sum_of, write_refused, write_taken};
use format::number::read;
use image_layout::IMAGE_BYTES;
use std::{io, mem};
use test_machines::lengths::lent_lengths;
use test_machines::made::Made;
use test_machines::parts::{Parts, digest_parts, lent_view, make};

// A load is three numbers of 4 bytes.
pub(crate) const LOAD_BYTES: usize = 12;

// A load's place, byte and image length.
#[derive(Clone, Copy)]
struct Damage {
    at: u32,
    byte: u32,
    length: u32,
}

// Sets a byte, where the place is inside, and answers what stood there.
fn set_byte(out: &mut [u8], at: u32, b: u8) -> Option<u8> {
    let place = out.get_mut(at as usize)?;
    Some(mem::replace(place, b))
}

// The line of a machine that was loaded, which is saved again.
fn write_loaded(rt: &HostRuntime, p: Parts, m: Made, again: &mut [u8]) -> io::Result<()> {
    let _ = image::save(lent_view(&p, m), again);
    write_taken(rt, digest_parts(p), sum_of(again))
}

// One load over a machine, lent as `m` says, and its line. The output is as it was afterwards.
fn run_load(
    rt: &HostRuntime,
    over: Parts,
    m: Made,
    out: &mut [u8],
    again: &mut [u8],
    d: Damage,
) -> io::Result<()> {
    let n = lent_lengths(m);
    let k = (d.length as usize).min(out.len());
    let mut p = over;
    let old = set_byte(out, d.at, (d.byte % 256) as u8);
    let loaded = image::load(
        &out[..k],
        p.control,
        &mut p.settings[..n.settings],
        &mut p.gprs[..n.gprs],
        &mut p.config[..n.config],
        &mut p.dest[..n.dest],
        &mut p.marks[..n.marks],
        &mut p.src_a[..n.src_a],
        &mut p.src_b[..n.src_b],
    );
    if let Some(b) = old {
        set_byte(out, d.at, b);
    }
    p.control = loaded.control;
    match loaded.answer {
        Err(r) => write_refused(rt, r, digest_parts(p)),
        Ok(()) => write_loaded(rt, p, m, again),
    }
}

// All loads of a group, each over the machine that `m` is of.
pub(crate) fn run_loads(
    rt: &HostRuntime,
    m: Made,
    out: &mut [u8; OUT_MOST],
    again: &mut [u8; IMAGE_BYTES],
    loads: &[u8],
) -> io::Result<()> {
    let p = make(m);
    for load in loads.chunks_exact(LOAD_BYTES) {
        let d = Damage {
            at: read::<4>(load, 0),
            byte: read::<4>(load, 4),
            length: read::<4>(load, 8),
        };
        run_load(rt, p, m, out, again, d)?;
    }
    Ok(())
}
