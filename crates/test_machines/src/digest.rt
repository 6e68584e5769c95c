// The digest of a whole machine: Adler-32 over the bytes of its parts.
use crate::sums::{
    Sums, add_byte, add_bytes, add_half, add_halves, add_marks, add_words, checksum, start,
};
use machine::control::{Control, Semaphore, Wait};
use machine::lent::MachineView;
use machine::sizes::SEMAPHORES;

fn add_semaphore(s: Sums, x: Semaphore) -> Sums {
    add_byte(add_byte(s, x.value), x.maximum)
}

fn add_semaphores(s: Sums, all: &[Semaphore; SEMAPHORES]) -> Sums {
    let mut t = s;
    for x in all {
        t = add_semaphore(t, *x);
    }
    t
}

fn add_fields(s: Sums, kind: u8, block: u16, low: u16) -> Sums {
    add_half(add_half(add_byte(s, kind), block), low)
}

fn add_wait(s: Sums, w: Wait) -> Sums {
    match w {
        Wait::Clear => add_fields(s, 0, 0, 0),
        Wait::OnStall { block, conditions } => add_fields(s, 1, block, (conditions % 65536) as u16),
        Wait::OnSemaphore {
            block,
            mask,
            condition,
        } => add_fields(s, 2, block, mask as u16 * 4 + condition as u16),
    }
}

fn add_waits(s: Sums, c: Control) -> Sums {
    add_wait(add_wait(add_wait(s, c.t0.wait), c.t1.wait), c.t2.wait)
}

fn add_control(s: Sums, c: Control) -> Sums {
    let a = add_semaphores(add_bytes(s, &c.mutexes), &c.semaphores);
    let b = add_waits(a, c);
    add_bytes(add_bytes(b, &c.owners), &c.pointers)
}

// The digest of a machine, of whatever sizes and numbers.
pub fn digest_lent(m: MachineView<'_>) -> u32 {
    let a = add_control(add_halves(start(), m.settings), m.control);
    let b = add_words(add_words(a, m.gprs), m.config);
    let c = add_marks(add_halves(b, m.dest), m.marks);
    checksum(add_words(add_words(c, m.src_a), m.src_b))
}
