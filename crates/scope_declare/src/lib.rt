// Changing a resolver: `add`, `set_level`, `pop` and the limit of `NamespaceResolver`, src/name.rs.
//
// Each is there twice: on lent memory, where the work is done and nothing is copied (`add_in`, `pop_in`, and `set_level_in` of
// scope_change), and by value, where the new resolver is handed back. These test the form of the resolver first (refusal 20);
// `declare_in`, reading the level, and reading or setting the limit do not.
#![tactic(auto)]

ghost use Rattle.std.specs.Prelude.{◌≡◌, ◌-◌, length};
ghost use Rattle.scope_table.specs.Answer.{numbered_change};
ghost use Rattle.scope_table.specs.Lent.{given, lent_of};
ghost use Rattle.scope_change.specs.Change.{level_of};
ghost use Rattle.scope_change.specs.Asked.{CanAppend};
ghost use Rattle.scope_declare.specs.Declare.{judge_of, declare_of, add_of, pop_of, limited_of};

use name::{PrefixDeclaration, ReservedBinding};
use scope_change::Room;
use scope_table::{Changed, Head, NamespaceError, NamespaceResolver, Outcome};

// Where a prefix and a value stand in the caller's own bytes: what 12 to 15 hold.
#[derive(Clone, Copy)]
pub struct Places {
    pub prefix_start: usize,
    pub prefix_end: usize,
    pub value_start: usize,
    pub value_end: usize,
}

// Refusals 12 to 15, and the two declarations that add nothing: the arms of `NamespaceResolver::add`, src/name.rs, before
// the limit is looked at. What is left is a binding to be added, under so many bytes of the prefix, if any.
pub fn judge<'a>(
    declares: Option<PrefixDeclaration>,
    prefix: &'a [u8],
    value: &'a [u8],
    at: Places,
) -> Result<Option<usize>, NamespaceError>
    ensures { result ≡ judge_of declares prefix.now value.now at }
{
    match declares {
        None => return Ok(None),
        Some(PrefixDeclaration::Default) => return Ok(Some(0)),
        Some(PrefixDeclaration::Named) => {}
    }
    let check = name::check_named(prefix, value);
    match check {
        Ok(true) => Ok(Some(prefix.len())),
        Ok(false) => Ok(None),
        Err(ReservedBinding::InvalidXmlPrefixBind) => {
            Err(NamespaceError::InvalidXmlPrefixBind(at.value_start, at.value_end))
        }
        Err(ReservedBinding::InvalidXmlnsPrefixBind) => {
            Err(NamespaceError::InvalidXmlnsPrefixBind(at.value_start, at.value_end))
        }
        Err(ReservedBinding::InvalidPrefixForXml) => {
            Err(NamespaceError::InvalidPrefixForXml(at.prefix_start, at.prefix_end))
        }
        Err(ReservedBinding::InvalidPrefixForXmlns) => {
            Err(NamespaceError::InvalidPrefixForXmlns(at.prefix_start, at.prefix_end))
        }
    }
}

// A declaration, with no test of the form: what `add` does after it, and `push` for each attribute.
pub fn declare_in<'a>(
    text: &mut [u8],
    records: &mut [usize],
    head: Head,
    room: Room,
    declares: Option<PrefixDeclaration>,
    prefix: &'a [u8],
    value: &'a [u8],
    at: Places,
) -> Outcome
    requires { CanAppend (length text.old) (length records.old) head room }
    ensures { given result.answer text.new records.new result.head
        ≡ lent_of (declare_of room declares prefix.now value.now at) text.old records.old head }
{
    match judge(declares, prefix, value, at) {
        Err(error) => Outcome {
            answer: Err(error),
            head,
        },
        Ok(None) => Outcome {
            answer: Ok(()),
            head,
        },
        Ok(Some(n)) => {
            let bound = &prefix[..n];
            scope_change::append_in(text, records, head, room, bound, value)
        }
    }
}

// `NamespaceResolver::add`, src/name.rs, on lent memory. The prefix is looked at only for a `Named` declaration.
pub fn add_in<'a>(
    text: &mut [u8],
    records: &mut [usize],
    head: Head,
    declares: Option<PrefixDeclaration>,
    prefix: &'a [u8],
    value: &'a [u8],
) -> Outcome
    ensures { given result.answer text.new records.new result.head
        ≡ lent_of (add_of declares prefix.now value.now) text.old records.old head }
{
    if let Err(wrong) = scope_table::form_in(text, records, head) {
        return Outcome {
            answer: Err(NamespaceError::from(wrong)),
            head,
        };
    }
    let at = Places {
        prefix_start: 0,
        prefix_end: prefix.len(),
        value_start: 0,
        value_end: value.len(),
    };
    let room = Room {
        records: NamespaceResolver::RECORDS,
        bytes: NamespaceResolver::TEXT,
    };
    declare_in(text, records, head, room, declares, prefix, value, at)
}

// `NamespaceResolver::pop`, src/name.rs, on lent memory.
pub fn pop_in(text: &mut [u8], records: &mut [usize], head: Head) -> Outcome
    ensures { given result.answer text.new records.new result.head
        ≡ lent_of pop_of text.old records.old head }
{
    if let Err(wrong) = scope_table::form_in(text, records, head) {
        return Outcome {
            answer: Err(NamespaceError::from(wrong)),
            head,
        };
    }
    let to = scope_table::saturating_sub(head.level, 1);
    scope_change::clear_above_in(text, records, head, to)
}

// `NamespaceResolver::add`, src/name.rs.
pub fn add<'a>(
    r: NamespaceResolver,
    declares: Option<PrefixDeclaration>,
    prefix: &'a [u8],
    value: &'a [u8],
) -> Changed
    ensures { numbered_change result ≡ numbered_change (add_of declares prefix.now value.now r) }
{
    let mut text = r.text;
    let mut records = r.records;
    let head = r.head;
    let out = add_in(&mut text, &mut records, head, declares, prefix, value);
    let answer = out.answer;
    let left = out.head;
    Changed {
        answer,
        resolver: NamespaceResolver {
            text,
            records,
            head: left,
        },
    }
}

// `NamespaceResolver::set_level`, src/name.rs.
pub fn set_level(r: NamespaceResolver, to: u16) -> Changed
    ensures { numbered_change result ≡ numbered_change (level_of to r) }
{
    let mut text = r.text;
    let mut records = r.records;
    let head = r.head;
    let out = scope_change::set_level_in(&mut text, &mut records, head, to);
    let answer = out.answer;
    let left = out.head;
    Changed {
        answer,
        resolver: NamespaceResolver {
            text,
            records,
            head: left,
        },
    }
}

// `NamespaceResolver::pop`, src/name.rs.
pub fn pop(r: NamespaceResolver) -> Changed
    ensures { numbered_change result ≡ numbered_change (pop_of r) }
{
    let mut text = r.text;
    let mut records = r.records;
    let head = r.head;
    let out = pop_in(&mut text, &mut records, head);
    let answer = out.answer;
    let left = out.head;
    Changed {
        answer,
        resolver: NamespaceResolver {
            text,
            records,
            head: left,
        },
    }
}

// `NamespaceResolver::level`, src/name.rs.
pub fn level(r: NamespaceResolver) -> usize
    ensures { result ≡ r.head.level }
{
    r.head.level
}

// `NamespaceResolver::max_namespace_bindings`, src/name.rs.
pub fn max_namespace_bindings(r: NamespaceResolver) -> usize
    ensures { result ≡ r.head.limit }
{
    r.head.limit
}

// `NamespaceResolver::set_max_namespace_bindings`, src/name.rs.
pub fn set_max_namespace_bindings(r: NamespaceResolver, limit: usize) -> NamespaceResolver
    ensures { result ≡ limited_of limit r }
{
    let mut x = r;
    x.head.limit = limit;
    x
}
