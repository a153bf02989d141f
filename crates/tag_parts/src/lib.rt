// What is read off an answer of the iterator: the bytes of its key and of its value, and what a value says.
//
// Ports of `Attribute`, src/events/attributes.rs, its `key` and `value` as parts of the tag, and `as_bool`.
#![tactic(auto)]

ghost use Rattle.std.specs.Prelude.{◌≡◌};
ghost use Rattle.tag_parts.specs.Parts.{key_part, value_part, truth_of, truth_number};

use tag_step::{Answer, Attr};

// What a value says as a number, for an exported function, which hands out no `Option`: 0 a no, 1 a yes, 2 neither.
pub fn truth_number(truth: Option<bool>) -> usize
    ensures { result ≡ truth_number truth }
{
    match truth {
        Some(false) => 0,
        Some(true) => 1,
        None => 2,
    }
}

// The key of an answer that is an attribute, else nothing.
#[tactic(auto, unfolding(crate::specs::Parts::key_part))]
pub fn key_part(tag: &[u8], answer: Answer) -> &[u8]
    ensures { result.now ≡ key_part tag.now answer }
{
    match answer {
        Some(Ok(Attr::DoubleQ(key, _) | Attr::SingleQ(key, _) | Attr::Unquoted(key, _))) => {
            scan::inside(tag, key.start, key.end)
        }
        Some(Ok(Attr::Empty(key))) => scan::inside(tag, key.start, key.end),
        _ => &tag[..0],
    }
}

// The value of an answer that is an attribute, without its quotes, else nothing.
#[tactic(auto, unfolding(crate::specs::Parts::value_part))]
pub fn value_part(tag: &[u8], answer: Answer) -> &[u8]
    ensures { result.now ≡ value_part tag.now answer }
{
    match answer {
        Some(Ok(Attr::DoubleQ(_, value) | Attr::SingleQ(_, value) | Attr::Unquoted(_, value))) => {
            scan::inside(tag, value.start, value.end)
        }
        _ => &tag[..0],
    }
}

// What a value says, and None where it says neither: `Attribute::as_bool`.
#[tactic(auto, unfolding(crate::specs::Parts::truth_of, scan::specs::Bytes::bytes, scan::specs::Bytes::bytes_from))]
pub fn as_bool(value: &[u8]) -> Option<bool>
    ensures { result ≡ truth_of value.now }
{
    if scan::same(value, b"1") || scan::same(value, b"true") {
        return Some(true);
    }
    if scan::same(value, b"0") || scan::same(value, b"false") {
        return Some(false);
    }
    None
}
