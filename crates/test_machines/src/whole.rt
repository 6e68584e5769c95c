// A whole machine of a seed, and the digest of one.
use crate::controls::draw_control;
use crate::digest::digest_lent;
use crate::fills::{fill_halves, fill_marks, fill_words};
use machine::fresh::{WholeMachine, fresh};
use machine::lent::MachineView;
use machine::sizes::CELL_MOST;

// The machine of a seed.
pub fn seeded_machine(seed: u32) -> WholeMachine {
    let drawn = draw_control(seed);
    let mut m = fresh();
    m.control = drawn.control;
    let x1 = fill_halves(drawn.state, &mut m.settings);
    let x2 = fill_words(x1, u32::MAX, &mut m.gprs);
    let x3 = fill_words(x2, u32::MAX, &mut m.config);
    let x4 = fill_halves(x3, &mut m.dest);
    let x5 = fill_marks(x4, &mut m.marks);
    let x6 = fill_words(x5, CELL_MOST, &mut m.src_a);
    fill_words(x6, CELL_MOST, &mut m.src_b);
    m
}

// The machine of a seed; of 0, a fresh one.
pub fn seeded_or_fresh(seed: u32) -> WholeMachine {
    if seed == 0 {
        return fresh();
    }
    seeded_machine(seed)
}

// The same, with a fresh control part.
pub fn with_fresh_control(seed: u32) -> WholeMachine {
    WholeMachine {
        control: fresh().control,
        ..seeded_or_fresh(seed)
    }
}

pub fn digest_whole(m: &WholeMachine) -> u32 {
    digest_lent(MachineView {
        control: m.control,
        settings: &m.settings,
        gprs: &m.gprs,
        config: &m.config,
        dest: &m.dest,
        marks: &m.marks,
        src_a: &m.src_a,
        src_b: &m.src_b,
    })
}
