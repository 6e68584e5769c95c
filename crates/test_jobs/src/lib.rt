// A job as `test_speed` and `test_expander_speed` read it, and a line as they write it. benches/jobs.py says what each kind makes of
// its numbers and words.
#![tactic(auto)]

ghost use Rattle.std.specs.Prelude.{◌≡◌, ◌+◌};

use format::number::read;
use format::run::read_run;
use program_io::read_full;
use std::io;

#[derive(Clone, Copy)]
pub enum Kind {
    Run,
    Save,
    Load,
    Expand,
}

#[derive(Clone, Copy)]
pub struct Job {
    pub kind: Kind,
    pub times: u32,
    pub seed: u32,
    pub limit: u32,
    pub n0: u32,
    pub n1: u32,
    pub n2: u32,
}

// What is printed of a job: of an image two numbers, of words that ran or were expanded four.
#[derive(Clone, Copy)]
pub enum Line {
    OfImage([u32; 2]),
    OfWords([u32; 4]),
}

// Three streams' words, and their bytes.
pub const WORDS_MOST: usize = 196608;

pub const BYTES_MOST: usize = 4 * WORDS_MOST;

// A job is seven numbers of 4 bytes, and then its words.
const JOB_BYTES: usize = 28;

impl Kind {
    // By its number; none of any other.
    fn of(n: u32) -> Option<Kind> {
        match n {
            1 => Some(Kind::Run),
            2 => Some(Kind::Save),
            3 => Some(Kind::Load),
            4 => Some(Kind::Expand),
            _ => None,
        }
    }

    fn name(self) -> &'static [u8] {
        match self {
            Kind::Run => b"run",
            Kind::Save => b"save",
            Kind::Load => b"load",
            Kind::Expand => b"expand",
        }
    }
}

// How many words a job has.
pub fn words_of(j: Job) -> usize
    ensures { result ≡ j.n0 + j.n1 + j.n2 }
{
    j.n0 as usize + j.n1 as usize + j.n2 as usize
}

// None where the kind is none.
fn job_in(bytes: &[u8; JOB_BYTES]) -> Option<Job> {
    Some(Job {
        kind: Kind::of(read::<4>(bytes, 0))?,
        times: read::<4>(bytes, 4),
        seed: read::<4>(bytes, 8),
        limit: read::<4>(bytes, 12),
        n0: read::<4>(bytes, 16),
        n1: read::<4>(bytes, 20),
        n2: read::<4>(bytes, 24),
    })
}

// Fills the words from standard input, their bytes in the room lent; false where there is not room or input enough.
fn read_input(rt: &HostRuntime, room: &mut [u8], words: &mut [u32]) -> io::Result<bool> {
    let n = words.len();
    if room.len() / 4 < n {
        return Ok(false);
    }
    if read_full(&mut rt.stdin(), &mut room[..4 * n])? < 4 * n {
        return Ok(false);
    }
    read_run::<u32, 4>(room, 0, words);
    Ok(true)
}

// The next job of standard input, and its words; none where there is none, or its words are too many or not there.
fn next_job(
    rt: &HostRuntime,
    room: &mut [u8; BYTES_MOST],
    words: &mut [u32; WORDS_MOST],
) -> io::Result<Option<Job>> {
    let mut record = [0u8; JOB_BYTES];
    if read_full(&mut rt.stdin(), &mut record)? < JOB_BYTES {
        return Ok(None);
    }
    let Some(job) = job_in(&record) else {
        return Ok(None);
    };
    let n = words_of(job);
    if words.len() < n || !read_input(rt, room, &mut words[..n])? {
        return Ok(None);
    }
    Ok(Some(job))
}

// The kind, and each number after a space.
fn write_numbers(rt: &HostRuntime, kind: Kind, numbers: &[u32]) -> io::Result<()> {
    rt.write_all(kind.name())?;
    for n in numbers {
        rt.write_all(b" ")?;
        rt.print(*n as u64)?;
    }
    rt.write_all(b"\n")
}

fn write_line(rt: &HostRuntime, kind: Kind, line: Line) -> io::Result<()> {
    match line {
        Line::OfImage(numbers) => write_numbers(rt, kind, &numbers),
        Line::OfWords(numbers) => write_numbers(rt, kind, &numbers),
    }
}

// Reads a job, does it and writes its line; whether there was one that was done.
fn one_job<F: Fn(Job, &[u32]) -> Option<Line>>(
    rt: &HostRuntime,
    room: &mut [u8; BYTES_MOST],
    words: &mut [u32; WORDS_MOST],
    do_job: &F,
) -> io::Result<bool>
    requires { F.IsAlwaysCallable do_job.now }
{
    let Some(job) = next_job(rt, room, words)? else {
        return Ok(false);
    };
    let Some(line) = do_job(job, words) else {
        return Ok(false);
    };
    write_line(rt, job.kind, line)?;
    Ok(true)
}

// The jobs of standard input, up to the first that is not done. No input uses the turns up: they are what a proved loop counts down.
pub fn all_jobs<F: Fn(Job, &[u32]) -> Option<Line>>(
    rt: &HostRuntime,
    room: &mut [u8; BYTES_MOST],
    words: &mut [u32; WORDS_MOST],
    do_job: F,
) -> io::Result<()>
    requires { F.IsAlwaysCallable do_job }
{
    for _ in 0..u32::MAX {
        if !one_job(rt, room, words, &do_job)? {
            break;
        }
    }
    Ok(())
}
