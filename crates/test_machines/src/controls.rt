// A control part from the draws: mutexes, semaphores, waits, owners, pointers.
use crate::draws::{draw, next_state, small, state_after};
use crate::fills::fill_small;
use machine::control::{Control, Semaphore, Thread, Wait};
use machine::sizes::{BANK_OWNERS, BANK_POINTERS, MUTEXES, SEMAPHORES};

// A control part, and the state after its last draw.
#[derive(Clone, Copy)]
pub struct DrawnControl {
    pub control: Control,
    pub state: u32,
}

// Two draws: value, maximum.
fn semaphore(x: u32) -> Semaphore {
    Semaphore {
        value: small(x, 15),
        maximum: small(next_state(x), 15),
    }
}

fn semaphores(x: u32) -> [Semaphore; SEMAPHORES] {
    let mut all = [Semaphore {
        value: 0,
        maximum: 0,
    }; SEMAPHORES];
    let mut state = x;
    for s in &mut all {
        *s = semaphore(state);
        state = state_after(state, 2);
    }
    all
}

// Three draws: kind, block, low field.
fn wait(x: u32) -> Wait {
    let y = next_state(x);
    let block = draw(y) % 512;
    let low = draw(next_state(y));
    match draw(x) % 3 {
        0 => Wait::Clear,
        1 => Wait::OnStall {
            block,
            conditions: (low % 32768) as u32,
        },
        _ => Wait::OnSemaphore {
            block,
            mask: (low / 4 % 256) as u8,
            condition: (low % 4) as u8,
        },
    }
}

// The control part that is drawn from a state on.
pub fn draw_control(x: u32) -> DrawnControl {
    let mut mutexes = [0; MUTEXES];
    let mut owners = [0; BANK_OWNERS];
    let mut pointers = [0; BANK_POINTERS];
    let x1 = fill_small(x, 3, &mut mutexes);
    let all = semaphores(x1);
    let x2 = state_after(x1, 16);
    let w0 = wait(x2);
    let x3 = state_after(x2, 3);
    let w1 = wait(x3);
    let x4 = state_after(x3, 3);
    let w2 = wait(x4);
    let x5 = state_after(x4, 3);
    let x6 = fill_small(x5, 1, &mut owners);
    let x7 = fill_small(x6, 1, &mut pointers);
    DrawnControl {
        control: Control {
            t0: Thread { wait: w0 },
            t1: Thread { wait: w1 },
            t2: Thread { wait: w2 },
            mutexes,
            semaphores: all,
            owners,
            pointers,
        },
        state: x7,
    }
}
