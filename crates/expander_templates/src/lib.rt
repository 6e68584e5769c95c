// The two templates of a MOP, counted, and written out word by word (document 01, "Expander").
#![tactic(auto)]

pub mod count;
pub mod template_0;
pub mod template_1;
