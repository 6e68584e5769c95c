// The input of `emulate`: records 32 to 35.
ghost use Rattle.std.specs.Prelude.{◌≡◌};
ghost use Rattle.program_records.specs.Script.{script_of};

use crate::counts::{Counts, count_words};
use crate::fixed::{BUDGET_BYTES, budget_record};
use crate::head::BadRecord;
use format::HEAD_BYTES;
use machine::sizes::MOST_TURNS;

// The most words of a thread.
pub const SCRIPT_WORDS: usize = 1024;

// The most bytes of a body of words.
const BODY_BYTES: u32 = SCRIPT_WORDS as u32 * 4;

// The longest sound input.
pub const SCRIPT_BYTES: usize = 3 * (HEAD_BYTES + BODY_BYTES as usize) + BUDGET_BYTES;

// What a sound input holds.
#[derive(Clone, Copy)]
pub struct Script {
    pub counts: Counts,
    pub budget: u32,
}

// The whole input: what it holds, or the offset of the first bad or missing record or of extra bytes.
#[tactic(auto, unfolding(crate::specs::Script::script_of))]
pub fn read_script(s: &[u8]) -> Result<Script, BadRecord>
    ensures { result ≡ script_of s.now }
{
    let counts = count_words(s, BODY_BYTES)?;
    let at = counts.words_end();
    let budget = budget_record(s, at, MOST_TURNS).ok_or(BadRecord { at })?;
    let end = at + BUDGET_BYTES;
    if s.len() != end {
        return Err(BadRecord { at: end });
    }
    Ok(Script { counts, budget })
}
