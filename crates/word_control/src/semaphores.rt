// Semaphores under a mask, changed.
ghost use Rattle.std.specs.Prelude.{◌≡◌};
ghost use Rattle.word_rules.specs.SyncWords.{changed_by, masked_change, change_masked, change_semaphores};

use machine::control::{Control, Semaphore};
use machine::sizes::{SEMAPHORE_MOST, SEMAPHORES};
use word_rules::semaphore_change::SemaphoreChange;

fn changed(s: Semaphore, k: SemaphoreChange) -> Semaphore
    ensures { result ≡ changed_by k s }
{
    match k {
        SemaphoreChange::Init { value, maximum } => Semaphore { value, maximum },
        SemaphoreChange::Up => {
            if s.value < SEMAPHORE_MOST {
                return Semaphore {
                    value: s.value + 1,
                    ..s
                };
            }
            s
        }
        SemaphoreChange::Down => {
            if 0 < s.value {
                return Semaphore {
                    value: s.value - 1,
                    ..s
                };
            }
            s
        }
    }
}

// The same where the mask's lowest bit is the semaphore's.
fn changed_if(s: Semaphore, m: u8, k: SemaphoreChange) -> Semaphore
    ensures { result ≡ masked_change k s m }
{
    if m % 2 == 1 { changed(s, k) } else { s }
}

// Each semaphore of the mask changed.
fn change_masked(
    all: [Semaphore; SEMAPHORES],
    mask: u8,
    k: SemaphoreChange,
) -> [Semaphore; SEMAPHORES]
    ensures { result ≡ change_masked k all mask }
{
    let mut a = all;
    let mut m = mask;
    for s in &mut a {
        *s = changed_if(*s, m, k);
        m /= 2;
    }
    a
}

// The semaphores of a mask changed.
pub(crate) fn change_semaphores(c: Control, mask: u8, k: SemaphoreChange) -> Control
    ensures { result ≡ change_semaphores c mask k }
{
    let mut d = c;
    d.semaphores = change_masked(c.semaphores, mask, k);
    d
}
