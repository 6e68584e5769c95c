// What SEMINIT, SEMPOST and SEMGET do to each semaphore of their mask.
#[derive(Clone, Copy)]
pub enum SemaphoreChange {
    Init { value: u8, maximum: u8 },
    Up,
    Down,
}
