// The MOP stage: what a word and a stream of words give, counted, judged by refusal 7, and written out (document 01, "Expander").
#![tactic(auto)]

pub mod count;
pub mod limits;
pub mod mask;
pub mod stream;
