// Where a run stands in its streams of words, what it finds there, and how a turn moves it.
ghost use Rattle.std.specs.Prelude.{◌≡◌, ◌≤◌};
ghost use Rattle.machine.specs.Sizes.{stream_most};
ghost use Rattle.machine.specs.Outcomes.{told_outcome};
ghost use Rattle.run_order.specs.Cursor.{following, onward_of, past_of, moved_of, streams_in, word_at, next_word, used_up};

use machine::refusal::Outcome;

// A position in each stream, and the thread whose turn is next.
#[derive(Clone, Copy, Debug, PartialEq, Eq)]
pub struct Cursor {
    pub at0: usize,
    pub at1: usize,
    pub at2: usize,
    pub next: u32,
}

// The words of threads 0, 1 and 2, lent to be read.
#[derive(Clone, Copy)]
pub struct StreamsView<'a> {
    pub s0: &'a [u32],
    pub s1: &'a [u32],
    pub s2: &'a [u32],
}

// The word at a position, unless the stream is used up there.
#[tactic(auto, unfolding(crate::specs::Cursor::word_at))]
fn word_at(s: &[u32], at: usize) -> Option<u32>
    ensures { result ≡ word_at s.now at }
{
    if at < s.len() { Some(s[at]) } else { None }
}

impl StreamsView<'_> {
    // The next thread's word.
    #[tactic(auto, unfolding(crate::specs::Cursor::next_word))]
    pub fn next_word(self, c: Cursor) -> Option<u32>
        ensures { result ≡ next_word (streams_in self.entry) c }
    {
        match c.next {
            0 => word_at(self.s0, c.at0),
            1 => word_at(self.s1, c.at1),
            _ => word_at(self.s2, c.at2),
        }
    }

    // Whether all streams are used up.
    #[tactic(auto, unfolding(crate::specs::Cursor::used_up))]
    pub(crate) fn used_up(self, c: Cursor) -> bool
        ensures { result ≡ used_up (streams_in self.entry) c }
    {
        self.s0.len() <= c.at0 && self.s1.len() <= c.at1 && self.s2.len() <= c.at2
    }
}

// The following thread, 0 after 2.
#[tactic(auto, unfolding(crate::specs::Cursor::following))]
fn following_thread(t: u32) -> u32
    ensures { result ≡ following t }
{
    if t < 2 { t + 1 } else { 0 }
}

impl Cursor {
    // The turn goes on to the following thread, and every position is kept.
    #[tactic(auto, unfolding(crate::specs::Cursor::onward_of))]
    pub fn onward(self) -> Self
        ensures { result ≡ onward_of self }
    {
        Cursor {
            next: following_thread(self.next),
            ..self
        }
    }

    // The same, past the word of the thread whose turn it was. Internal: each position is within a stream.
    #[tactic(auto, unfolding(crate::specs::Cursor::past_of, crate::specs::Cursor::onward_of))]
    fn past(self) -> Self
        requires { (self.at0 ≤ stream_most) × (self.at1 ≤ stream_most) × (self.at2 ≤ stream_most) }
        ensures { result ≡ past_of self }
    {
        let mut d = self.onward();
        match self.next {
            0 => d.at0 += 1,
            1 => d.at1 += 1,
            _ => d.at2 += 1,
        }
        d
    }

    // After a turn with this outcome. Internal: each position is within a stream.
    #[tactic(auto, unfolding(crate::specs::Cursor::moved_of))]
    pub fn moved(self, o: Outcome) -> Self
        requires { (self.at0 ≤ stream_most) × (self.at1 ≤ stream_most) × (self.at2 ≤ stream_most) }
        ensures { result ≡ moved_of (told_outcome o) self }
    {
        match o {
            Outcome::Passed => self.past(),
            Outcome::Idle | Outcome::Stalled(_) => self.onward(),
            Outcome::Refused(_) => self,
        }
    }
}
