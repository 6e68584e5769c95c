// A fresh machine.
ghost use Rattle.std.specs.Prelude.{◌≡◌, true};
ghost use Rattle.machine.specs.Formed.{well_formed};
ghost use Rattle.machine.specs.Fresh.{fresh_control, fresh_machine, machine_of, EveryZero};

use crate::control::{Control, Semaphore, Thread, Wait};
use crate::sizes::{
    BANK_OWNERS, BANK_POINTERS, CONFIG_WORDS, DEST_CELLS, DEST_ROWS, GPRS, MUTEXES, SEMAPHORES,
    SETTINGS, SOURCE_CELLS,
};

// A whole machine by value; the entries take its stores lent.
#[derive(Drop)]
pub struct WholeMachine {
    pub control: Control,
    pub settings: [u16; SETTINGS],
    pub gprs: [u32; GPRS],
    pub config: [u32; CONFIG_WORDS],
    pub dest: [u16; DEST_CELLS],
    pub marks: [bool; DEST_ROWS],
    pub src_a: [u32; SOURCE_CELLS],
    pub src_b: [u32; SOURCE_CELLS],
}

// Mutexes free, no waits, all owners Unpackers, all pointers 0.
fn fresh_control() -> Control
    ensures { result ≡ fresh_control }
{
    Control {
        t0: Thread { wait: Wait::Clear },
        t1: Thread { wait: Wait::Clear },
        t2: Thread { wait: Wait::Clear },
        mutexes: [0; MUTEXES],
        semaphores: [Semaphore {
            value: 0,
            maximum: 0,
        }; SEMAPHORES],
        owners: [0; BANK_OWNERS],
        pointers: [0; BANK_POINTERS],
    }
}

// Every word and cell zero, every Dest row invalid, and the fresh control part.
pub fn fresh() -> WholeMachine
    ensures whole { machine_of result ≡ fresh_machine }
    ensures zero { EveryZero (machine_of result) }
    ensures formed { well_formed (machine_of result) ≡ true }
{
    WholeMachine {
        control: fresh_control(),
        settings: [0; SETTINGS],
        gprs: [0; GPRS],
        config: [0; CONFIG_WORDS],
        dest: [0; DEST_CELLS],
        marks: [false; DEST_ROWS],
        src_a: [0; SOURCE_CELLS],
        src_b: [0; SOURCE_CELLS],
    }
}
