// What the programs have in common that hold answers against recorded ones: the numbers of a record, lower byte first, the
// run through the records, and the lines that say how it went. Each program has its own records, and says by a `Result` what
// it makes of one. The definitions are in specs/Numbers.antt and specs/Run.antt.
#![tactic(auto)]

ghost use Rattle.std.specs.Prelude.{◌≡◌, ◌+◌, ◌*◌, ◌≤◌, ◌<◌, eqb, length};
ghost use Rattle.scan.specs.Bytes.{same_bytes};
ghost use Rattle.replay.specs.Numbers.{byte_at, two_at, twos_of};
ghost use Rattle.replay.specs.Run.{begun_of, stopped_of, RunFits, after_of};

// A whole record whose answers are ours: how many bytes it has, and what it adds to two counts.
#[derive(Clone, Copy)]
pub struct Agreed {
    pub size: usize,
    pub names: usize,
    pub bindings: usize,
}

// Why what stands at the front of some bytes is no such record.
#[derive(Clone, Copy)]
pub enum RecordError {
    // Its answers are not ours.
    Differs,
    // Too few bytes for one, or none that can be read.
    Cut,
}

// Why a run stops before the last byte, and where.
#[derive(Clone, Copy)]
pub enum RunError {
    Differs(usize),
    Cut(usize),
}

// A run: the place, what agreed before it, and how it ends. One that has stopped stands behind the last byte.
#[derive(Clone, Copy)]
pub struct Replayed {
    pub at: usize,
    pub records: usize,
    pub names: usize,
    pub bindings: usize,
    pub end: Result<(), RunError>,
}

pub fn wide(n: u16) -> usize
    ensures { result ≡ n }
{
    usize::from(n)
}

// The number of two bytes at a place.
pub fn two_at(s: &[u8], at: usize) -> u16
    requires { at + 1 < length s.now }
    ensures { result ≡ two_at s.now at }
{
    u16::from(s[at]) + 256 * u16::from(s[at + 1])
}

// The same as a length or an index.
pub fn number_at(s: &[u8], at: usize) -> usize
    requires { at + 1 < length s.now }
    ensures { result ≡ two_at s.now at }
{
    wide(two_at(s, at))
}

// Whether the number at a place is n.
pub fn is_two(s: &[u8], at: usize, n: usize) -> bool
    requires { at + 1 < length s.now }
    ensures { result ≡ eqb (two_at s.now at) n }
{
    number_at(s, at) == n
}

// Whether the byte at a place is n.
pub fn is_byte(s: &[u8], at: usize, n: usize) -> bool
    requires { at < length s.now }
    ensures { result ≡ eqb (byte_at s.now at) n }
{
    usize::from(s[at]) == n
}

// Whether numbers are those that are recorded at the front of some bytes.
pub fn same_numbers(numbers: &[usize], recorded: &[u8]) -> bool
    requires { 2 * length numbers.now ≤ length recorded.now }
    ensures { result ≡ same_bytes numbers.now (twos_of (length numbers.now) recorded.now) }
{
    for (i, n) in numbers.iter().enumerate() {
        if *n != number_at(recorded, 2 * i) {
            return false;
        }
    }
    true
}

// A run that has read nothing.
pub fn begun() -> Replayed
    ensures { result ≡ begun_of }
{
    Replayed {
        at: 0,
        records: 0,
        names: 0,
        bindings: 0,
        end: Ok(()),
    }
}

// The same counts, and nothing left to read.
fn stopped(run: Replayed, len: usize, end: Result<(), RunError>) -> Replayed
    ensures { result ≡ stopped_of run len end }
{
    Replayed {
        at: len,
        records: run.records,
        names: run.names,
        bindings: run.bindings,
        end,
    }
}

// The run after one more record of `len` bytes in all.
#[tactic(auto, unfolding(crate::specs::Run::after_of))]
pub fn after(run: Replayed, step: Result<Agreed, RecordError>, len: usize) -> Replayed
    requires { RunFits run step len }
    ensures { result ≡ after_of run step len }
{
    match step {
        Ok(record) => Replayed {
            at: run.at + record.size,
            records: run.records + 1,
            names: run.names + record.names,
            bindings: run.bindings + record.bindings,
            end: Ok(()),
        },
        Err(RecordError::Differs) => stopped(run, len, Err(RunError::Differs(run.at))),
        Err(RecordError::Cut) => stopped(run, len, Err(RunError::Cut(run.at))),
    }
}
