// One number of a machine, set.
use crate::parts::ROOM;
use bits::word::field;
use machine::control::{Control, Semaphore, Thread, Wait};
use machine::sizes::{BANK_OWNERS, BANK_POINTERS, MUTEXES, SEMAPHORES, SOURCE_CELLS, THREADS};
use machine::units::ThreadNumber;

// Which number of a machine.
#[derive(Clone, Copy, PartialEq, Eq)]
pub enum Kind {
    Mutex,
    Semaphore,
    Owner,
    Pointer,
    StallWait,
    SemaphoreWait,
    CellOfA,
    CellOfB,
    None,
}

impl From<u32> for Kind {
    fn from(n: u32) -> Kind {
        match n {
            1 => Kind::Mutex,
            2 => Kind::Semaphore,
            3 => Kind::Owner,
            4 => Kind::Pointer,
            5 => Kind::StallWait,
            6 => Kind::SemaphoreWait,
            7 => Kind::CellOfA,
            8 => Kind::CellOfB,
            _ => Kind::None,
        }
    }
}

// Its kind, its place among those of its kind, and its value, of several fields the first in its lowest bits.
#[derive(Clone, Copy)]
pub struct Number {
    pub kind: Kind,
    pub place: u32,
    pub value: u32,
}

// The control part with a thread's wait, the thread by its number, and by what is left of it where it is over 2.
fn with_wait(c: Control, place: u32, wait: Wait) -> Control {
    let Some(t) = ThreadNumber::new(place % THREADS as u32) else {
        return c;
    };
    c.with_thread(t, Thread { wait })
}

// The control part with the number set, where it is one of its own.
pub fn set_number(c: Control, n: Number) -> Control {
    let mut d = c;
    let place = n.place as usize;
    let byte = field::<0, 8>(n.value) as u8;
    let block = field::<0, 16>(n.value) as u16;
    match n.kind {
        Kind::Mutex => d.mutexes[place % MUTEXES] = byte,
        Kind::Semaphore => {
            d.semaphores[place % SEMAPHORES] = Semaphore {
                value: byte,
                maximum: field::<8, 8>(n.value) as u8,
            }
        }
        Kind::Owner => d.owners[place % BANK_OWNERS] = byte,
        Kind::Pointer => d.pointers[place % BANK_POINTERS] = byte,
        Kind::StallWait => {
            let conditions = field::<16, 16>(n.value);
            return with_wait(c, n.place, Wait::OnStall { block, conditions });
        }
        Kind::SemaphoreWait => {
            let wait = Wait::OnSemaphore {
                block,
                mask: field::<16, 8>(n.value) as u8,
                condition: field::<24, 8>(n.value) as u8,
            };
            return with_wait(c, n.place, wait);
        }
        _ => (),
    }
    d
}

// The cells with the number set, where it is of this kind and its place is there.
pub fn set_cell(cells: &mut [u32; ROOM * SOURCE_CELLS], n: Number, kind: Kind) {
    if n.kind != kind {
        return;
    }
    if let Some(cell) = cells.get_mut(n.place as usize) {
        *cell = n.value;
    }
}
