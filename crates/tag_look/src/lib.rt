// How far a step looks, without taking it.
//
// A tag that arrives in pieces is read as far as it is held: a step that looks at or past the end of what is held has to wait for
// more. This is `look_of` of crates/tag_step/specs/Look.antt; it writes nothing, so that a reader which has to wait leaves
// everything as it was.
#![tactic(auto)]

ghost use Rattle.std.specs.Prelude.{◌≡◌, ◌<◌, ◌≤◌, length};
ghost use Rattle.tag_keys.specs.Keys.{KeysIn};
ghost use Rattle.tag_step.specs.Next.{keys_lent, check_of};
ghost use Rattle.tag_step.specs.Look.{look_value, look_by, look_of};

use tag_keys::{Hashed, KeyRefusal};
use tag_step::{KeyRead, Span, Standing};

// The last byte that the value after the `=` at `eq` has to know: its closing quote, the whitespace after it, or the byte that
// is no quote; the length, or past it, where that is not there.
#[tactic(auto, unfolding(tag_step::specs::Look::look_value, tag_step::specs::Look::look_from, tag_step::specs::Look::look_in))]
fn look_value(tag: &[u8], html: bool, eq: usize) -> usize
    requires { eq < length tag.now }
    ensures { result ≡ look_value tag.now html eq }
{
    let v = scan::content_from(tag, eq + 1);
    if v >= tag.len() {
        return v;
    }
    let b = tag[v];
    if tag_step::is_quote(b) {
        return scan::byte_from(tag, v + 1, b);
    }
    if html {
        return scan::whitespace_from(tag, v);
    }
    v
}

// The verdict on a key in the tag, before it is recorded.
pub fn check_in<'a>(
    tag: &[u8],
    starts: &'a [usize],
    ends: &'a [usize],
    hashes: &'a [u32],
    checks: bool,
    count: usize,
    key: Span,
) -> Result<usize, KeyRefusal>
    requires keys_in { KeysIn starts.now ends.now hashes.now count tag.now }
    requires start_lt_end { (key.start < key.end) × (key.end ≤ length tag.now) }
    ensures { result ≡ check_of tag.now checks (keys_lent starts.now ends.now hashes.now count) key }
{
    let hash = tag_keys::hash_for(tag, checks, key.start, key.end);
    let hashed = Hashed {
        start: key.start,
        end: key.end,
        hash,
    };
    tag_keys::check_unsifted(tag, starts, ends, hashes, checks, count, hashed)
}

// By the verdict on the key whose `=` stands at `eq`: the value of a key that is refused is not looked at.
#[tactic(auto, unfolding(tag_step::specs::Look::look_by))]
fn look_by(tag: &[u8], html: bool, eq: usize, verdict: Result<usize, KeyRefusal>) -> usize
    requires { eq < length tag.now }
    ensures { result ≡ look_by tag.now html eq verdict }
{
    match verdict {
        Ok(_) => look_value(tag, html, eq),
        Err(_) => eq,
    }
}

// How far the step looks that stands at this place with these recorded keys: a position below the length where it needs nothing
// that may follow the tag, else the length or one past it.
pub fn look_in<'a>(
    tag: &[u8],
    starts: &'a [usize],
    ends: &'a [usize],
    hashes: &'a [u32],
    at: Standing,
) -> usize
    requires { KeysIn starts.now ends.now hashes.now at.count tag.now }
    ensures { result ≡ look_of tag.now at.html at.checks (keys_lent starts.now ends.now hashes.now at.count) at.place }
{
    let place = at.place;
    let Some(from) = tag_step::recover(tag, place) else {
        return tag.len();
    };
    match tag_step::read_key(tag, from) {
        None => tag.len(),
        Some(KeyRead::Bare(_, after)) => after,
        Some(KeyRead::Valued(key, eq)) => {
            let verdict = check_in(tag, starts, ends, hashes, at.checks, at.count, key);
            look_by(tag, at.html, eq, verdict)
        }
    }
}
