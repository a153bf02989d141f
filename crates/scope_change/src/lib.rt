// The two ways in which a resolver's table changes: one binding more, and the records above a level dropped.
//
// Ports of `add` and `set_level` of `NamespaceResolver` what they do to the buffer and the bindings (src/name.rs). The
// functions work on lent memory that may be shorter than the capacity (scope_table, specs/Lent).
#![tactic(auto)]

ghost use Rattle.std.specs.Prelude.{◌≡◌, ◌+◌, ◌≤◌, Ok, length};
ghost use Rattle.scope_table.specs.Lists.{cut};
ghost use Rattle.scope_table.specs.Records.{row_at, record_at};
ghost use Rattle.scope_table.specs.Table.{RECORDS, resolver_of};
ghost use Rattle.scope_table.specs.Lent.{given, lent_of, form_of};
ghost use Rattle.scope_change.specs.Change.{bound_of, refusal_of, lent_refusal_of, append_of, kept_at, end_of, level_of};
ghost use Rattle.scope_change.specs.Asked.{HoldsBinding, CanAppend};

use scope_table::{Head, NamespaceBinding, NamespaceError, NamespaceResolver, Outcome};

// What may be in use at most, in records and in bytes of text: all that there is for a single resolver.
#[derive(Clone, Copy)]
pub struct Room {
    pub records: usize,
    pub bytes: usize,
}

// Refusals 16, 18, 19 for a binding of these lengths, each at its turn. The lengths are compared with
// what is free, one after the other, and never added: their sum might not be a number of 64 bits.
fn refusal(
    room: Room,
    head: Head,
    prefix_len: usize,
    value_len: usize,
) -> Result<(), NamespaceError>
    ensures { result ≡ refusal_of room head (prefix_len + value_len) }
{
    let limit = head.limit;
    let count = head.count;
    let used = head.used;
    let records = room.records;
    let bytes = room.bytes;
    if limit <= scope_table::saturating_sub(count, NamespaceResolver::BUILT_INS) {
        return Err(NamespaceError::TooManyBindings(limit));
    }
    if records <= count {
        return Err(NamespaceError::BindingTableFull);
    }
    if bytes < used {
        return Err(NamespaceError::TextFull);
    }
    let free = bytes - used;
    if free < prefix_len {
        return Err(NamespaceError::TextFull);
    }
    if free - prefix_len < value_len {
        return Err(NamespaceError::TextFull);
    }
    Ok(())
}

// The same on memory of these lengths: then it has to hold the binding.
fn lent_refusal(
    bytes: usize,
    numbers: usize,
    room: Room,
    head: Head,
    prefix_len: usize,
    value_len: usize,
) -> Result<(), NamespaceError>
    ensures { result ≡ lent_refusal_of bytes numbers room head (prefix_len + value_len) }
{
    let used = head.used;
    let count = head.count;
    refusal(room, head, prefix_len, value_len)?;
    let size = prefix_len + value_len;
    let end = used + size;
    let next = count + 1;
    if scope_table::fits(bytes, numbers, end, next) {
        return Ok(());
    }
    Err(NamespaceError::LendMore)
}

// A binding is written: its text after the text in use, its record after the records in use.
//
//     text    .. v 0 0 0 0 0        .. v p p u u 0
//                  |         ->          |   |   |
//                  used                used  value, then the text in use
fn write_binding<'p>(
    text: &mut [u8],
    records: &mut [usize],
    head: Head,
    prefix: &'p [u8],
    value: &'p [u8],
) -> Head
    requires { HoldsBinding (length text.old) (length records.old) head (length prefix.now + length value.now) }
    ensures { resolver_of text.new records.new result
        ≡ bound_of prefix.now value.now (resolver_of text.old records.old head) }
{
    let used = head.used;
    let count = head.count;
    let level = head.level;
    let limit = head.limit;
    let prefix_len = prefix.len();
    let value_len = value.len();
    let middle = used + prefix_len;
    let size = prefix_len + value_len;
    let end = used + size;
    let next = count + 1;
    scan::put(text, used, prefix);
    scan::put(text, middle, value);
    let written = NamespaceBinding {
        start: used,
        prefix_len,
        value_len,
        level,
    };
    scope_table::write_record(records, count, written);
    Head {
        used: end,
        count: next,
        level,
        limit,
    }
}

// One binding more, where there is room for it and what is lent holds it: what `NamespaceResolver::add`, src/name.rs, does
// with a binding that it takes.
pub fn append_in<'p>(
    text: &mut [u8],
    records: &mut [usize],
    head: Head,
    room: Room,
    prefix: &'p [u8],
    value: &'p [u8],
) -> Outcome
    requires { CanAppend (length text.old) (length records.old) head room }
    ensures { given result.answer text.new records.new result.head
        ≡ lent_of (append_of room prefix.now value.now) text.old records.old head }
{
    let prefix_len = prefix.len();
    let value_len = value.len();
    if let Err(refused) = lent_refusal(
        text.len(),
        records.len(),
        room,
        head,
        prefix_len,
        value_len,
    ) {
        return Outcome {
            answer: Err(refused),
            head,
        };
    }
    let head = write_binding(text, records, head, prefix, value);
    Outcome {
        answer: Ok(()),
        head,
    }
}

// How many of the first n records stay at a level: one more than the place that `rposition` finds in
// `NamespaceResolver::set_level`, src/name.rs. The built-ins, at level 0, stay at every level and are not asked.
fn kept(records: &[usize], n: usize, level: usize) -> usize
    requires n_in_bounds { row_at n ≤ length records.now }
    requires bound { 2 ≤ kept_at (record_at records.now) level n }
    ensures { result ≡ kept_at (record_at records.now) level n }
{
    for i in (NamespaceResolver::BUILT_INS..n).rev() {
        if scope_table::record_at(records, i).level <= level {
            return i + 1;
        }
    }
    NamespaceResolver::BUILT_INS
}

// Where the text of the first k records ends: where the next one starts, or at text used after the last.
fn text_end(records: &[usize], k: usize, count: usize, used: usize) -> usize
    requires { row_at count ≤ length records.now }
    ensures { result ≡ end_of (record_at records.now) k count used }
{
    if k < count {
        let b = scope_table::record_at(records, k);
        return b.start;
    }
    used
}

// The level is set to `to`, and the records above it are dropped with their text. It never needs more than is lent. The
// crate's branch for a level that no record is at or below, where everything goes, does not occur (`dead_clear` of crate
// `law_scopes`).
pub fn clear_above_in(text: &mut [u8], records: &mut [usize], head: Head, to: usize) -> Outcome
    requires { form_of text.old records.old head ≡ Ok tt }
    ensures { given result.answer text.new records.new result.head
        ≡ lent_of (level_of to) text.old records.old head }
{
    let used = head.used;
    let count = head.count;
    let limit = head.limit;
    let k = kept(records, count, to);
    let end = text_end(records, k, count, used);
    scope_table::clear_bytes(text, end, used);
    scope_table::clear_rows(records, k, count);
    Outcome {
        answer: Ok(()),
        head: Head {
            used: end,
            count: k,
            level: to,
            limit,
        },
    }
}

// A level is set, on any lent memory: `NamespaceResolver::set_level`, src/name.rs.
pub fn set_level_in(text: &mut [u8], records: &mut [usize], head: Head, to: u16) -> Outcome
    ensures { given result.answer text.new records.new result.head
        ≡ lent_of (level_of to) text.old records.old head }
{
    if let Err(wrong) = scope_table::form_in(text, records, head) {
        return Outcome {
            answer: Err(NamespaceError::from(wrong)),
            head,
        };
    }
    clear_above_in(text, records, head, usize::from(to))
}

// What was added after the first `used` bytes and `count` records is taken back.
pub fn take_back(text: &mut [u8], records: &mut [usize], used: usize, count: usize)
    requires { count ≤ RECORDS }
    ensures { (text.new ≡ cut text.old used) × (records.new ≡ cut records.old (row_at count)) }
{
    let bytes = text.len();
    scope_table::clear_bytes(text, used, bytes);
    scope_table::clear_rows_from(records, count);
}
