// What came of a word, and the control part after it.
use machine::control::Control;
use machine::refusal::Outcome;

#[derive(Clone, Copy)]
pub struct Stepped {
    pub outcome: Outcome,
    pub control: Control,
}
