// The checks of a machine's control part, in proved code.
ghost use Rattle.std.specs.Prelude.{◌≡◌};
ghost use Rattle.bits.specs.Ranges.{all_at_most};
ghost use Rattle.machine.specs.Formed.{wait_formed, semaphores_formed, mutexes_formed, banks_formed, waits_formed, control_formed};

use machine::control::{Control, Semaphore, Wait};
use machine::sizes::{
    BLOCK_MOST, CONDITION_MOST, CONDITIONS_MOST, HOLDER_MOST, MASK_MOST, SEMAPHORE_MOST, SEMAPHORES,
};

// Whether a wait's masks are within the fields of the word that sets it.
fn wait_formed(w: Wait) -> bool
    ensures { result ≡ wait_formed w }
{
    match w {
        Wait::Clear => true,
        Wait::OnStall { block, conditions } => block <= BLOCK_MOST && conditions <= CONDITIONS_MOST,
        Wait::OnSemaphore {
            block,
            mask,
            condition,
        } => block <= BLOCK_MOST && mask <= MASK_MOST && condition <= CONDITION_MOST,
    }
}

fn semaphores_formed(all: &[Semaphore; SEMAPHORES]) -> bool
    ensures { result ≡ semaphores_formed all.now }
{
    all.iter().all(|s| s.value <= SEMAPHORE_MOST && s.maximum <= SEMAPHORE_MOST)
}

// Whether every number of `a` is at most `most`.
fn bytes_at_most(a: &[u8], most: u8) -> bool
    ensures { result ≡ all_at_most most a.now }
{
    a.iter().all(|x| *x <= most)
}

fn mutexes_formed(c: Control) -> bool
    ensures { result ≡ mutexes_formed c }
{
    bytes_at_most(&c.mutexes, HOLDER_MOST)
}

fn banks_formed(c: Control) -> bool
    ensures { result ≡ banks_formed c }
{
    bytes_at_most(&c.owners, 1) && bytes_at_most(&c.pointers, 1)
}

fn waits_formed(c: Control) -> bool
    ensures { result ≡ waits_formed c }
{
    wait_formed(c.t0.wait) && wait_formed(c.t1.wait) && wait_formed(c.t2.wait)
}

// Whether each number of the control part is in its range.
pub fn control_formed(c: Control) -> bool
    ensures { result ≡ control_formed c }
{
    mutexes_formed(c) && semaphores_formed(&c.semaphores) && banks_formed(c) && waits_formed(c)
}
