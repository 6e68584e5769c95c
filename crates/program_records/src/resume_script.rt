// The input of `resume` after its image: records 32 to 36.
ghost use Rattle.std.specs.Prelude.{◌≡◌};
ghost use Rattle.program_records.specs.ResumeScript.{resume_script_of};

use crate::counts::{Counts, count_words};
use crate::fixed::{BUDGET_BYTES, CURSOR_BYTES, budget_record, cursor_record};
use crate::head::BadRecord;
use format::HEAD_BYTES;
use machine::sizes::STREAM_WORDS;
use run_order::cursor::Cursor;

// The most bytes of a body of words.
const STREAM_BYTES: u32 = STREAM_WORDS as u32 * 4;

// The longest sound input after the image.
pub const RESUME_SCRIPT_BYTES: usize = 3 * (HEAD_BYTES + STREAM_BYTES as usize)
    + BUDGET_BYTES
    + CURSOR_BYTES;

// What sound records hold. The budget and the cursor are any numbers.
#[derive(Clone, Copy)]
pub struct ResumeScript {
    pub counts: Counts,
    pub budget: u32,
    pub cursor: Cursor,
}

// The records after the image: what they hold, or the offset of the first bad or missing record or of extra bytes.
#[tactic(auto, unfolding(crate::specs::ResumeScript::resume_script_of))]
pub fn read_resume_script(s: &[u8]) -> Result<ResumeScript, BadRecord>
    ensures { result ≡ resume_script_of s.now }
{
    let counts = count_words(s, STREAM_BYTES)?;
    let at = counts.words_end();
    let budget = budget_record(s, at, u32::MAX).ok_or(BadRecord { at })?;
    let at = at + BUDGET_BYTES;
    let cursor = cursor_record(s, at).ok_or(BadRecord { at })?;
    let end = at + CURSOR_BYTES;
    if s.len() != end {
        return Err(BadRecord { at: end });
    }
    Ok(ResumeScript {
        counts,
        budget,
        cursor,
    })
}
