// The namespace resolver: its types, its built-in bindings, the form that each call tests first, and what the calls that
// change it answer. The changes themselves are functions of the crate `scope_change`.
//
// Ports `NamespaceBinding` and `NamespaceResolver` with its `default` (src/name.rs). The crate's `String` is a text of fixed
// size here, and its `Vec` a table of numbers: record i is one row of ROW numbers.
//
//     text         x m l h t t p .. x m l n s h t t p .. p v 0 0 0 ..
//                  |                |                    |   ^
//     start        0                39                   73  used (75)
//     prefix_len   3                5                    1
//     value_len    36               29                   1
//     level        0                0                    1
//
// A resolver is lent as its text, its records and its head. What is lent may be shorter than the capacity: what is missing is
// unused and zero, so that a call costs what is lent and no more.
#![tactic(auto)]

ghost use Rattle.std.specs.Prelude.{◌≡◌, true, ◌&&◌, leb, ◌+◌, ◌-◌, ◌≤◌, [], ◌∷◌, length, take, drop};
ghost use Rattle.scan.specs.Bytes.{same_bytes};
ghost use Rattle.scan.specs.Lists.{over};
ghost use Rattle.scope_table.specs.Lists.{all_zero, cut};
ghost use Rattle.scope_table.specs.Records.{row_at, record_at, row_of, value_start, value_end, prefix_in};
ghost use Rattle.scope_table.specs.Table.{TEXT, RECORDS, NUMBERS, built_in, built_in_rows, is_record, opens_built_in, is_chain, is_rising, is_within, is_table, valid_of, fresh_of};
ghost use Rattle.scope_table.specs.Answer.{change_numbers, form_number, refused_form, told_of};
ghost use Rattle.scope_table.specs.Lent.{holds_of, fits_of, given, fresh_in, form_of};

// The two arrays of a resolver: its text, and its records as numbers.
pub type Text = [u8; NamespaceResolver::TEXT];

pub type Records = [usize; NamespaceResolver::NUMBERS];

// One record, `NamespaceBinding` of src/name.rs: where the text of its binding starts, how long prefix and value are, and the
// level that it was made at.
#[derive(Clone, Copy)]
pub struct NamespaceBinding {
    pub start: usize,
    pub prefix_len: usize,
    pub value_len: usize,
    pub level: usize,
}

// What a resolver has beside its arrays.
#[derive(Clone, Copy)]
pub struct Head {
    // bytes of text and records in use
    pub used: usize,
    pub count: usize,
    // how many tags are open
    pub level: usize,
    // how many bindings there may be, the built-in ones not counted
    pub limit: usize,
}

// `NamespaceResolver` of src/name.rs.
#[derive(Clone, Copy)]
pub struct NamespaceResolver {
    // the text of each binding after that of the one before: its prefix, then its value
    pub text: Text,
    pub records: Records,
    pub head: Head,
}

// Why a call that changes a resolver does not: `NamespaceError` of src/name.rs, with the three refusals that fixed tables add,
// and two of lent memory alone, which no resolver of full size gives. Each case with an input that gives it. The two numbers
// of 12 to 15 are the bounds of the text that the crate's error holds: in the tag for `push`, in the argument itself for `add`.
#[derive(Clone, Copy)]
pub enum NamespaceError {
    // 12: `xmlns:xml="u"`, the value
    InvalidXmlPrefixBind(usize, usize),
    // 13: `xmlns:xmlns="u"`, the value
    InvalidXmlnsPrefixBind(usize, usize),
    // 14: `xmlns:p="http://www.w3.org/XML/1998/namespace"`, the prefix
    InvalidPrefixForXml(usize, usize),
    // 15: `xmlns:p="http://www.w3.org/2000/xmlns/"`, the prefix
    InvalidPrefixForXmlns(usize, usize),
    // 16: the 129th binding where the limit, which it holds, is 128
    TooManyBindings(usize),
    // 17: a tag within 65,535 open ones; that number
    TooDeeplyNested(usize),
    // 18: all 1,026 records are in use
    BindingTableFull,
    // 19: the 65,536 bytes of text do not hold prefix and value
    TextFull,
    // 20: a resolver that is not of the form
    BadResolver,
    // 98: what the call would leave is more than is lent; nothing is changed
    LendMore,
    // 99: what the head says is in use is not lent, or more than the capacity is; nothing is changed
    WrongLength,
}

// An answer, and the resolver that it leaves.
#[derive(Clone, Copy)]
pub struct Changed {
    pub answer: Result<(), NamespaceError>,
    pub resolver: NamespaceResolver,
}

// An answer, and the head that a call on lent memory leaves.
#[derive(Clone, Copy)]
pub struct Outcome {
    pub answer: Result<(), NamespaceError>,
    pub head: Head,
}

// Why a call does not go on after the test that it begins with.
#[derive(Clone, Copy)]
pub enum FormError {
    // 20: a resolver that is not of the form
    BadResolver,
    // 99: memory that does not hold what its head says
    WrongLength,
}

impl From<FormError> for NamespaceError {
    ghost from_gives = { λ e error. error ≡ refused_form e };

    fn from(e: FormError) -> NamespaceError {
        match e {
            FormError::BadResolver => NamespaceError::BadResolver,
            FormError::WrongLength => NamespaceError::WrongLength,
        }
    }
}

// An answer as numbers, for a function that can hand out no enum: its number, and its values, 0 where it has none.
#[derive(Clone, Copy)]
pub struct Told {
    pub number: usize,
    pub first: usize,
    pub second: usize,
}

impl NamespaceResolver {
    pub const TEXT: usize = 65536;

    pub const RECORDS: usize = 1026;
    // numbers of a record, and of all of them
    pub const ROW: usize = 4;

    pub const NUMBERS: usize = NamespaceResolver::ROW * NamespaceResolver::RECORDS;
    // `DEFAULT_MAX_NAMESPACE_BINDINGS`, src/name.rs
    pub const LIMIT: usize = 128;
    // the deepest level there is: `u16::MAX`
    pub const DEEPEST: usize = 65535;
    // `RESERVED_NAMESPACE_XML` and `RESERVED_NAMESPACE_XMLNS`, src/name.rs, as their text stands in a resolver
    pub const BUILT_IN: [u8; NamespaceResolver::BUILT_IN_LEN] =
        *b"xmlhttp://www.w3.org/XML/1998/namespacexmlnshttp://www.w3.org/2000/xmlns/";
    // the lengths of these two prefixes and URIs, where the second begins, how long all of it is, and how many there are
    pub const XML_PREFIX_LEN: usize = 3;

    pub const XML_URI_LEN: usize = 36;

    pub const XMLNS_PREFIX_LEN: usize = 5;

    pub const XMLNS_URI_LEN: usize = 29;

    pub const XMLNS_START: usize = 39;

    pub const BUILT_IN_LEN: usize = 73;

    pub const BUILT_INS: usize = 2;

    // The fresh resolver: `NamespaceResolver::default`, src/name.rs.
    pub fn fresh() -> Self
        ensures { result ≡ fresh_of }
    {
        let mut text = [0u8; NamespaceResolver::TEXT];
        let mut records = [0usize; NamespaceResolver::NUMBERS];
        let none = Head {
            used: 0,
            count: 0,
            level: 0,
            limit: 0,
        };
        let made = fresh_in(&mut text, &mut records, none);
        let head = made.head;
        NamespaceResolver {
            text,
            records,
            head,
        }
    }

    // Whether the resolver is of the form that every call asks for.
    pub fn valid(self) -> bool
        ensures { result ≡ valid_of self }
    {
        is_table(&self.text, &self.records, self.head)
    }
}

impl NamespaceBinding {
    // The prefix that a binding has in a text, none for a default: `NamespaceBinding::prefix`, src/name.rs.
    pub fn prefix(self, text: &[u8]) -> &[u8]
        requires { value_end self ≤ length text.now }
        ensures { result.now ≡ prefix_in text.now self }
    {
        let from = self.start;
        let to = from + self.prefix_len;
        &text[from..to]
    }
}

// Record i.
pub fn record_at(records: &[usize], i: usize) -> NamespaceBinding
    requires { row_at (i + 1) ≤ length records.now }
    ensures { result ≡ record_at records.now i }
{
    let row = NamespaceResolver::ROW * i;
    NamespaceBinding {
        start: records[row],
        prefix_len: records[row + 1],
        value_len: records[row + 2],
        level: records[row + 3],
    }
}

// Writes record i.
pub fn write_record(records: &mut [usize], i: usize, written: NamespaceBinding)
    requires { row_at (i + 1) ≤ length records.old }
    ensures { records.new ≡ over records.old (row_at i) (row_of written) }
{
    let row = NamespaceResolver::ROW * i;
    records[row] = written.start;
    records[row + 1] = written.prefix_len;
    records[row + 2] = written.value_len;
    records[row + 3] = written.level;
}

// Writes zeros into a text from `from` up to `to`, from where on there are only zeros.
pub fn clear_bytes(t: &mut [u8], from: usize, to: usize)
    requires { (to ≤ length t.old) × (all_zero (drop to t.old) ≡ true) }
    ensures { t.new ≡ cut t.old from }
{
    if from < to {
        t[from..to].fill(0);
    }
}

// Writes zeros into the records from record `from` up to record `to`, from where on there are only zeros.
pub fn clear_rows(records: &mut [usize], from: usize, to: usize)
    requires { (from ≤ to) × (row_at to ≤ length records.old) × (all_zero (drop (row_at to) records.old) ≡ true) }
    ensures { records.new ≡ cut records.old (row_at from) }
{
    let first = NamespaceResolver::ROW * from;
    let last = NamespaceResolver::ROW * to;
    records[first..last].fill(0);
}

// From record `from` on, whatever stands there.
pub fn clear_rows_from(records: &mut [usize], from: usize)
    requires { from ≤ RECORDS }
    ensures { records.new ≡ cut records.old (row_at from) }
{
    let first = NamespaceResolver::ROW * from;
    if first < records.len() {
        records[first..].fill(0);
    }
}

// What is left of `all` when `some` are taken, and 0 where there are fewer: `usize::saturating_sub`.
pub fn saturating_sub(all: usize, some: usize) -> usize
    ensures { result ≡ all - some }
{
    if some < all {
        return all - some;
    }
    0
}

// Whether a list of this length that is lent holds what is in use.
#[tactic(auto, unfolding(crate::specs::Lent::holds_of))]
fn holds(capacity: usize, lent: usize, in_use: usize) -> bool
    ensures { result ≡ holds_of capacity lent in_use }
{
    lent <= capacity && (in_use <= lent || capacity < in_use)
}

// Whether lent memory of these lengths holds what is in use.
pub fn fits(bytes: usize, numbers: usize, used: usize, count: usize) -> bool
    ensures { result ≡ fits_of bytes numbers used count }
{
    if NamespaceResolver::RECORDS < count {
        return holds(NamespaceResolver::TEXT, bytes, used) && numbers <= NamespaceResolver::NUMBERS;
    }
    holds(NamespaceResolver::TEXT, bytes, used)
        && holds(
            NamespaceResolver::NUMBERS,
            numbers,
            NamespaceResolver::ROW * count,
        )
}

// Whether a text is zero from `from` on, as far as it is lent. All bytes go into one by `|`, with no early exit, so that LLVM
// makes a vector loop of it: with much memory lent, this is most of what the test of a resolver costs.
fn zero_rest(t: &[u8], from: usize) -> bool
    ensures { result ≡ all_zero (drop from t.now) }
{
    let rest = t.get(from..).unwrap_or(&[]);
    rest.iter().fold(0, |bits, x| bits | *x) == 0
}

// The same. In a long text the vector loop begins at an index that is a multiple of 16: where the text itself begins at such an
// address, which nothing promises of a lent one, no vector lies across two lines of the cache, which would take longer to load.
// In a short one getting there costs more than it saves.
fn zero_bytes(t: &[u8], from: usize) -> bool
    ensures { result ≡ all_zero (drop from t.now) }
{
    if t.len() < 8192 {
        return zero_rest(t, from);
    }
    let mut bits: u8 = 0;
    for i in from..t.len() {
        if i % 16 == 0 {
            return bits == 0 && zero_rest(t, i);
        }
        bits |= t[i];
    }
    bits == 0
}

// The same of numbers: a row begins at a multiple of 32 bytes from the first. One function for both types would need a trait of
// `|` with its laws, which is longer than these two lines.
fn zero_numbers(t: &[usize], from: usize) -> bool
    ensures { result ≡ all_zero (drop from t.now) }
{
    let rest = t.get(from..).unwrap_or(&[]);
    rest.iter().fold(0, |bits, x| bits | *x) == 0
}

// Whether each record's text starts where the one before it ends, the last ends at `used`, and no level is below the one before it
// or above `top`. A length beyond `used` is found before it is added, so that no sum wraps. It is one pass with few branches a
// record, since with many bindings this is most of what the test of a resolver costs; so the last level alone is held against
// `top`, and both lengths against `used` at once, by their bits.
fn in_order(records: &[usize], used: usize, count: usize, top: usize) -> bool
    requires { (row_at count ≤ length records.now) × (used ≤ TEXT) × (count ≤ RECORDS) }
    ensures { result ≡ (is_chain (record_at records.now) used count && is_rising (record_at records.now) count top) }
{
    let mut at: usize = 0;
    let mut before: usize = 0;
    for i in 0..count {
        let b = record_at(records, i);
        let prefix_len = b.prefix_len;
        let value_len = b.value_len;
        let here = b.level;
        if b.start != at {
            return false;
        }
        if used < (prefix_len | value_len) {
            return false;
        }
        if here < before {
            return false;
        }
        before = here;
        at = at + prefix_len + value_len;
    }
    at == used && before <= top
}

// Whether two texts are the same. All bits that differ go into one byte, with no early exit, so that LLVM makes a vector loop
// of it: nearly every text that is asked about begins as it should. It goes by index, since a `zip` asks both texts at each byte
// whether they end.
fn same_all(x: &[u8], y: &[u8]) -> bool
    ensures { result ≡ same_bytes x.now y.now }
{
    if x.len() != y.len() {
        return false;
    }
    let mut bits: u8 = 0;
    for i in 0..x.len() {
        bits |= x[i] ^ y[i];
    }
    bits == 0
}

// Whether a text begins with the built-in one.
fn begins_built_in(text: &[u8]) -> bool
    ensures { result ≡ same_bytes (take 73 text.now) built_in }
{
    NamespaceResolver::BUILT_IN_LEN <= text.len()
        && same_all(
            &text[..NamespaceResolver::BUILT_IN_LEN],
            &NamespaceResolver::BUILT_IN,
        )
}

// Whether a record has these lengths and this level.
#[tactic(auto, unfolding(crate::specs::Table::is_record))]
fn is_record(b: NamespaceBinding, prefix_len: usize, value_len: usize, level: usize) -> bool
    ensures { result ≡ is_record b prefix_len value_len level }
{
    b.prefix_len == prefix_len && b.value_len == value_len && b.level == level
}

// Whether a resolver opens with the built-ins.
#[tactic(auto, unfolding(crate::specs::Table::opens_built_in))]
fn opens_built_in<'a>(text: &'a [u8], records: &'a [usize], count: usize) -> bool
    requires { row_at count ≤ length records.now }
    ensures { result ≡ opens_built_in text.now (record_at records.now) count }
{
    NamespaceResolver::BUILT_INS <= count
        && begins_built_in(text)
        && is_record(
            record_at(records, 0),
            NamespaceResolver::XML_PREFIX_LEN,
            NamespaceResolver::XML_URI_LEN,
            0,
        )
        && is_record(
            record_at(records, 1),
            NamespaceResolver::XMLNS_PREFIX_LEN,
            NamespaceResolver::XMLNS_URI_LEN,
            0,
        )
}

// Whether counts and level are within the capacity.
#[tactic(auto, unfolding(crate::specs::Table::is_within))]
fn is_within(used: usize, count: usize, level: usize) -> bool
    ensures { result ≡ is_within used count level }
{
    used <= NamespaceResolver::TEXT
        && count <= NamespaceResolver::RECORDS
        && level <= NamespaceResolver::DEEPEST
}

// Whether no call refuses what is lent with 20. What is cheap is tested first, by an `if` of its own: behind `&&` the check does
// not find from it that the other tests may be called.
#[tactic(auto, using(crate::proofs::Lists::and_swap), unfolding(crate::specs::Table::is_table, crate::specs::Table::is_clear))]
fn is_table<'a>(text: &'a [u8], records: &'a [usize], head: Head) -> bool
    requires { fits_of (length text.now) (length records.now) head.used head.count ≡ true }
    ensures { result ≡ is_table text.now records.now head }
{
    let used = head.used;
    let count = head.count;
    let level = head.level;
    if !is_within(used, count, level) {
        return false;
    }
    opens_built_in(text, records, count)
        && in_order(records, used, count, level)
        && zero_bytes(text, used)
        && zero_numbers(records, NamespaceResolver::ROW * count)
}

// What each call tests first: whether what the head says is in use is lent, and then whether the resolver that this stands for
// is of the form that refusal 20 asks for.
pub fn form_in<'a>(text: &'a [u8], records: &'a [usize], head: Head) -> Result<(), FormError>
    ensures { result ≡ form_of text.now records.now head }
{
    let used = head.used;
    let count = head.count;
    if !fits(text.len(), records.len(), used, count) {
        return Err(FormError::WrongLength);
    }
    if !is_table(text, records, head) {
        return Err(FormError::BadResolver);
    }
    Ok(())
}

// What the test of the form found, as a number, for a call that answers no more than this.
pub fn form_number(found: Result<(), FormError>) -> usize
    ensures { result ≡ form_number found }
{
    match found {
        Ok(()) => 0,
        Err(FormError::BadResolver) => 20,
        Err(FormError::WrongLength) => 99,
    }
}

// Whether no more is lent than the capacity.
fn within_capacity(bytes: usize, numbers: usize) -> bool
    ensures { result ≡ (leb bytes TEXT && leb numbers NUMBERS) }
{
    bytes <= NamespaceResolver::TEXT && numbers <= NamespaceResolver::NUMBERS
}

// Whatever the lent memory held: the fresh resolver stands there then. `head` comes back where nothing is written.
pub fn fresh_in(text: &mut [u8], records: &mut [usize], head: Head) -> Outcome
    ensures { given result.answer text.new records.new result.head
        ≡ fresh_in text.old records.old head }
{
    let bytes = text.len();
    let numbers = records.len();
    if !within_capacity(bytes, numbers) {
        return Outcome {
            answer: Err(NamespaceError::WrongLength),
            head,
        };
    }
    if !fits(
        bytes,
        numbers,
        NamespaceResolver::BUILT_IN_LEN,
        NamespaceResolver::BUILT_INS,
    ) {
        return Outcome {
            answer: Err(NamespaceError::LendMore),
            head,
        };
    }
    clear_bytes(text, 0, bytes);
    records.fill(0);
    write_built_in(text, records);
    Outcome {
        answer: Ok(()),
        head: Head {
            used: NamespaceResolver::BUILT_IN_LEN,
            count: NamespaceResolver::BUILT_INS,
            level: 0,
            limit: NamespaceResolver::LIMIT,
        },
    }
}

// Writes the built-ins, their text and their records.
fn write_built_in(text: &mut [u8], records: &mut [usize])
    requires { (73 ≤ length text.old) × (row_at 2 ≤ length records.old) }
    ensures { (text.new ≡ over text.old 0 built_in) × (records.new ≡ over records.old 0 built_in_rows) }
{
    let built_in = NamespaceResolver::BUILT_IN;
    scan::put(text, 0, &built_in);
    let xml = NamespaceBinding {
        start: 0,
        prefix_len: NamespaceResolver::XML_PREFIX_LEN,
        value_len: NamespaceResolver::XML_URI_LEN,
        level: 0,
    };
    write_record(records, 0, xml);
    let xmlns = NamespaceBinding {
        start: NamespaceResolver::XMLNS_START,
        prefix_len: NamespaceResolver::XMLNS_PREFIX_LEN,
        value_len: NamespaceResolver::XMLNS_URI_LEN,
        level: 0,
    };
    write_record(records, 1, xmlns);
}

// The numbers of an answer.
#[tactic(auto, unfolding(crate::specs::Answer::change_numbers))]
pub fn change_numbers(answer: Result<(), NamespaceError>) -> Told
    ensures { result ≡ told_of (change_numbers answer) }
{
    let Err(error) = answer else {
        return told_of(0, 0, 0);
    };
    match error {
        NamespaceError::InvalidXmlPrefixBind(a, e) => told_of(12, a, e),
        NamespaceError::InvalidXmlnsPrefixBind(a, e) => told_of(13, a, e),
        NamespaceError::InvalidPrefixForXml(a, e) => told_of(14, a, e),
        NamespaceError::InvalidPrefixForXmlns(a, e) => told_of(15, a, e),
        NamespaceError::TooManyBindings(limit) => told_of(16, limit, 0),
        NamespaceError::TooDeeplyNested(depth) => told_of(17, depth, 0),
        NamespaceError::BindingTableFull => told_of(18, 0, 0),
        NamespaceError::TextFull => told_of(19, 0, 0),
        NamespaceError::BadResolver => told_of(20, 0, 0),
        NamespaceError::LendMore => told_of(98, 0, 0),
        NamespaceError::WrongLength => told_of(99, 0, 0),
    }
}

// An answer's number and its values together.
pub fn told_of(number: usize, first: usize, second: usize) -> Told
    ensures { result ≡ told_of (number ∷ first ∷ second ∷ []) }
{
    Told {
        number,
        first,
        second,
    }
}
