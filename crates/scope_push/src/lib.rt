// A tag opens a scope: `NamespaceResolver::push`, src/name.rs.
//
//     a xmlns="u" xmlns:p="v" b='1' x xmlns:q="w"
//      |                             ^
//      from                          `x` has no `=`: the iterator refuses here, and reading stops, with success;
//                                    u and p are bound, q is not
//
// On lent memory (`push_in`) and by value (`push`), as the other changing calls.
#![tactic(auto)]

ghost use Rattle.std.specs.Prelude.{◌≡◌, length};
ghost use Rattle.scope_table.specs.Answer.{numbered_change};
ghost use Rattle.scope_table.specs.Lent.{given, lent_of};
ghost use Rattle.scope_change.specs.Change.{whole};
ghost use Rattle.scope_change.specs.Asked.{CanAppend};
ghost use Rattle.scope_push.specs.Push.{quoted_of, declaration_of, declare_one, tag_declarations, push_of};
ghost use Rattle.scope_push.specs.Run.{one_by_one};

use scope_change::Room;
use scope_declare::Places;
use scope_table::{Changed, Head, NamespaceError, NamespaceResolver, Outcome};
use tag_step::{Answer, Attr, Place, Span};

// One attribute, whose key and value stand at these spans of the tag, goes in if it is a declaration.
fn attribute<'a>(
    text: &mut [u8],
    records: &mut [usize],
    head: Head,
    key: &'a [u8],
    value: &'a [u8],
    key_at: Span,
    value_at: Span,
) -> Outcome
    requires { CanAppend (length text.old) (length records.old) head whole }
    ensures { given result.answer text.new records.new result.head
        ≡ lent_of (declare_one whole (declaration_of key.now value.now key_at value_at)) text.old records.old head }
{
    let declares = name::as_namespace_binding(key);
    let prefix = name::declared_prefix(key);
    let end = key_at.end;
    let at = Places {
        prefix_start: scope_table::saturating_sub(end, prefix.len()),
        prefix_end: end,
        value_start: value_at.start,
        value_end: value_at.end,
    };
    let room = Room {
        records: NamespaceResolver::RECORDS,
        bytes: NamespaceResolver::TEXT,
    };
    scope_declare::declare_in(text, records, head, room, declares, prefix, value, at)
}

// Where the key and the value of an attribute stand in the tag.
#[derive(Clone, Copy)]
struct Bounds {
    key: Span,
    value: Span,
}

// Those of an attribute in quotes: XML mode, in which the tag is read, has no other.
#[tactic(auto, unfolding(crate::specs::Push::quoted_of))]
fn quoted(answer: Answer) -> Option<Bounds>
    ensures { result ≡ quoted_of answer }
{
    match answer {
        Some(Ok(Attr::DoubleQ(key, value) | Attr::SingleQ(key, value))) => Some(Bounds {
            key,
            value,
        }),
        _ => None,
    }
}

// Each attribute of the tag in turn, up to the first refusal of the iterator, which is success, or of `add`, which is
// handed on with what went in before it; or until what is lent does not hold one.
fn take_all<'s>(
    text: &mut [u8],
    records: &mut [usize],
    head: Head,
    tag: &'s [u8],
    from: usize,
) -> Outcome
    requires { CanAppend (length text.old) (length records.old) head whole }
    ensures { given result.answer text.new records.new result.head
        ≡ one_by_one whole (tag_declarations tag.now from) text.old records.old head }
{
    let mut place = Place::Next(from);
    let mut left = head;
    // No `for` over a range: the loop counts no index, it steps the iterator until its end.
    loop {
        let step = tag_step::step_unchecked(tag, false, place);
        let answer = step.answer;
        let Some(found) = quoted(answer) else {
            return Outcome {
                answer: Ok(()),
                head: left,
            };
        };
        let added = attribute(
            text,
            records,
            left,
            tag_parts::key_part(tag, answer),
            tag_parts::value_part(tag, answer),
            found.key,
            found.value,
        );
        if added.answer.is_err() {
            return added;
        }
        left = added.head;
        place = step.place;
    }
}

// `NamespaceResolver::push`, src/name.rs, on lent memory. The attributes of the tag begin at `from`. Where what is lent does
// not hold all of it, nothing stays: the level is as it was, and what was added is taken back.
pub fn push_in<'s>(
    text: &mut [u8],
    records: &mut [usize],
    head: Head,
    tag: &'s [u8],
    from: usize,
) -> Outcome
    ensures { given result.answer text.new records.new result.head
        ≡ lent_of (push_of tag.now from) text.old records.old head }
{
    if let Err(wrong) = scope_table::form_in(text, records, head) {
        return Outcome {
            answer: Err(NamespaceError::from(wrong)),
            head,
        };
    }
    if NamespaceResolver::DEEPEST <= head.level {
        return Outcome {
            answer: Err(NamespaceError::TooDeeplyNested(NamespaceResolver::DEEPEST)),
            head,
        };
    }
    let mut raised = head;
    raised.level = head.level + 1;
    let out = take_all(text, records, raised, tag, from);
    let Err(refused) = out.answer else {
        return out;
    };
    let NamespaceError::LendMore = refused else {
        return out;
    };
    scope_change::take_back(text, records, head.used, head.count);
    Outcome {
        answer: Err(NamespaceError::LendMore),
        head,
    }
}

// `NamespaceResolver::push`, src/name.rs.
pub fn push(r: NamespaceResolver, tag: &[u8], from: usize) -> Changed
    ensures { numbered_change result ≡ numbered_change (push_of tag.now from r) }
{
    let mut text = r.text;
    let mut records = r.records;
    let head = r.head;
    let out = push_in(&mut text, &mut records, head, tag, from);
    let answer = out.answer;
    let left = out.head;
    Changed {
        answer,
        resolver: NamespaceResolver {
            text,
            records,
            head: left,
        },
    }
}
