// A machine by value, in parts that have more than the machine's size, so that they can be lent too long.
use crate::digest::digest_lent;
use crate::lengths::lent_lengths;
use crate::made::Made;
use crate::number::{Kind, set_cell, set_number};
use crate::whole::seeded_machine;
use machine::control::Control;
use machine::lent::MachineView;
use machine::sizes::{CONFIG_WORDS, DEST_CELLS, DEST_ROWS, GPRS, SETTINGS, SOURCE_CELLS};

// How many times the machine's size each part has.
pub const ROOM: usize = 2;

#[derive(Clone, Copy)]
pub struct Parts {
    pub control: Control,
    pub settings: [u16; ROOM * SETTINGS],
    pub gprs: [u32; ROOM * GPRS],
    pub config: [u32; ROOM * CONFIG_WORDS],
    pub dest: [u16; ROOM * DEST_CELLS],
    pub marks: [bool; ROOM * DEST_ROWS],
    pub src_a: [u32; ROOM * SOURCE_CELLS],
    pub src_b: [u32; ROOM * SOURCE_CELLS],
}

// The machine that is asked for, with zeros after each part.
pub fn make(m: Made) -> Parts {
    let whole = seeded_machine(m.seed);
    let mut p = Parts {
        control: set_number(whole.control, m.number),
        settings: [0; ROOM * SETTINGS],
        gprs: [0; ROOM * GPRS],
        config: [0; ROOM * CONFIG_WORDS],
        dest: [0; ROOM * DEST_CELLS],
        marks: [false; ROOM * DEST_ROWS],
        src_a: [0; ROOM * SOURCE_CELLS],
        src_b: [0; ROOM * SOURCE_CELLS],
    };
    p.settings[..SETTINGS].copy_from_slice(&whole.settings);
    p.gprs[..GPRS].copy_from_slice(&whole.gprs);
    p.config[..CONFIG_WORDS].copy_from_slice(&whole.config);
    p.dest[..DEST_CELLS].copy_from_slice(&whole.dest);
    p.marks[..DEST_ROWS].copy_from_slice(&whole.marks);
    p.src_a[..SOURCE_CELLS].copy_from_slice(&whole.src_a);
    p.src_b[..SOURCE_CELLS].copy_from_slice(&whole.src_b);
    set_cell(&mut p.src_a, m.number, Kind::CellOfA);
    set_cell(&mut p.src_b, m.number, Kind::CellOfB);
    p
}

// The machine that is asked for as it is lent.
pub fn lent_view(p: &Parts, m: Made) -> MachineView<'_> {
    let n = lent_lengths(m);
    MachineView {
        control: p.control,
        settings: &p.settings[..n.settings],
        gprs: &p.gprs[..n.gprs],
        config: &p.config[..n.config],
        dest: &p.dest[..n.dest],
        marks: &p.marks[..n.marks],
        src_a: &p.src_a[..n.src_a],
        src_b: &p.src_b[..n.src_b],
    }
}

// The digest of the parts, with what stands after the machine's.
pub fn digest_parts(p: Parts) -> u32 {
    digest_lent(MachineView {
        control: p.control,
        settings: &p.settings,
        gprs: &p.gprs,
        config: &p.config,
        dest: &p.dest,
        marks: &p.marks,
        src_a: &p.src_a,
        src_b: &p.src_b,
    })
}
