// Asking a resolver what a name or a prefix is bound to: `resolve` and its kin of `NamespaceResolver`, src/name.rs, and a
// lookup turned into an optional namespace.
//
// An answer holds bounds: of the URI in the resolver's text, or of an unknown prefix in the name. `uri_part` and
// `prefix_part` hand back those bytes, the one as a part of the text and the other as a part of the name, each for as long
// as its own slice lives.
//
// Of the lookups, `resolve_in` and `resolve_prefix_in` take lent memory, and `resolve` and its kin a resolver by value; each
// tests the form of the resolver first (refusal 20). `name_among` is for a caller that has made that test. What takes an
// answer, as `namespace_of`, has no resolver to test.
#![tactic(auto)]

ghost use Rattle.std.specs.Prelude.{◌≡◌, Err, true, false, ◌≤◌, ◌<◌, length, take};
ghost use Rattle.name.specs.Split.{has_colon, prefix_of, local_of};
ghost use Rattle.scope_table.specs.Lists.{last_below};
ghost use Rattle.scope_table.specs.Records.{record_at};
ghost use Rattle.scope_table.specs.Table.{TEXT};
ghost use Rattle.scope_table.specs.Answer.{told_of};
ghost use Rattle.scope_table.specs.Lent.{lent};
ghost use Rattle.scope_lookup.specs.Inside.{Inside};
ghost use Rattle.scope_lookup.specs.Lookup.{has_prefix, is_default, counted, value_or, explicit_of, default_of, among_of, resolve_prefix_of, resolve_of, uri_part, prefix_part, namespace_of, resolved_numbers, namespace_numbers};
ghost use Rattle.scope_table.specs.declared.FormError.TheVariants.{WrongLength};
ghost use Rattle.scope_lookup.specs.declared.LookupError.TheVariants.{Form};

use scope_table::{FormError, Head, NamespaceResolver, Told};

// What a name resolves to: `ResolveResult` of src/name.rs. The bounds of `Bound` are in the resolver's text, those of `Unknown`
// in the name.
#[derive(Clone, Copy)]
pub enum ResolveResult {
    // `a` with no default, or within `xmlns=""`; as an attribute always
    Unbound,
    // `p:a` within `xmlns:p="v"`, and `a`, as an element, within `xmlns="v"`: where v stands
    Bound(usize, usize),
    // `p:a` with no `p`, or within `xmlns:p=""`; `:a` always: where the prefix stands
    Unknown(usize, usize),
}

// A namespace by where its URI stands in the resolver's text: `Namespace` of src/name.rs.
#[derive(Clone, Copy)]
pub struct Namespace {
    pub start: usize,
    pub end: usize,
}

// Why a lookup tells nothing of a name's namespace: the `NamespaceError` of `TryFrom<ResolveResult>`, src/name.rs, and the
// refusals of the resolver that was asked.
#[derive(Clone, Copy)]
pub enum LookupError {
    // 11: `p:a` where `p` is not bound: where the prefix stands in the name
    UnknownPrefix(usize, usize),
    // 20, 99
    Form(FormError),
}

impl From<FormError> for LookupError {
    ghost from_gives = { λ e answer. answer ≡ Form e };

    fn from(e: FormError) -> LookupError {
        LookupError::Form(e)
    }
}

// The last of the first `count` records with this prefix, the first `len` bytes of the name and not none. Lengths are compared
// first and then the last byte, since prefixes of one document differ most often at their ends: so most records cost no more.
fn last_with<'t, 'n>(
    text: &'t [u8],
    records: &'t [usize],
    count: usize,
    name: &'n [u8],
    len: usize,
) -> Option<usize>
    requires { Inside records.now count (length text.now) × (0 < len) × (len ≤ length name.now) }
    ensures { counted result ≡ last_below (λ i. has_prefix text.now (take len name.now) (record_at records.now i)) count }
{
    let last = name[len - 1];
    for i in (0..count).rev() {
        let b = scope_table::record_at(records, i);
        if b.prefix_len == len
            && text[b.start + len - 1] == last
            && scan::same_start(text, b.start, name, len)
        {
            return Some(i);
        }
    }
    None
}

// The same for the last default.
fn last_default(records: &[usize], count: usize) -> Option<usize>
    requires { Inside records.now count TEXT }
    ensures { counted result ≡ last_below (λ i. is_default (record_at records.now i)) count }
{
    for i in (0..count).rev() {
        if scope_table::record_at(records, i).prefix_len == 0 {
            return Some(i);
        }
    }
    None
}

// The value of the record that was found, or `other` where there is none or the value is empty: `NamespaceBinding::namespace`,
// src/name.rs.
#[tactic(auto, unfolding(crate::specs::Lookup::value_or))]
fn value_or(records: &[usize], other: ResolveResult, found: Option<usize>) -> ResolveResult
    requires { Inside records.now (counted found) TEXT }
    ensures { result ≡ value_or (record_at records.now) other (counted found) }
{
    let Some(i) = found else {
        return other;
    };
    let b = scope_table::record_at(records, i);
    if b.value_len == 0 {
        return other;
    }
    let from = b.start + b.prefix_len;
    ResolveResult::Bound(from, from + b.value_len)
}

// An explicit prefix: the first `len` bytes of the name.
fn explicit<'t, 'n>(
    text: &'t [u8],
    records: &'t [usize],
    count: usize,
    name: &'n [u8],
    len: usize,
) -> ResolveResult
    requires { Inside records.now count (length text.now) × (len ≤ length name.now) }
    ensures { result ≡ explicit_of text.now (record_at records.now) count (take len name.now) }
{
    let unknown = ResolveResult::Unknown(0, len);
    if len == 0 {
        return unknown;
    }
    let found = last_with(text, records, count, name, len);
    value_or(records, unknown, found)
}

// No prefix.
fn default(records: &[usize], count: usize, wanted: bool) -> ResolveResult
    requires { Inside records.now count TEXT }
    ensures { result ≡ default_of (record_at records.now) count wanted }
{
    if !wanted {
        return ResolveResult::Unbound;
    }
    let found = last_default(records, count);
    value_or(records, ResolveResult::Unbound, found)
}

// The arms of `NamespaceResolver::resolve_prefix`, src/name.rs, in a table of the right form.
fn among<'t, 'n>(
    text: &'t [u8],
    records: &'t [usize],
    count: usize,
    prefix: &'n [u8],
    named: bool,
    wanted: bool,
) -> ResolveResult
    requires { Inside records.now count (length text.now) }
    ensures { result ≡ among_of text.now (record_at records.now) count prefix.now named wanted }
{
    if named {
        return explicit(text, records, count, prefix, prefix.len());
    }
    default(records, count, wanted)
}

// A whole name, in a table of the right form: what stands before its first colon is the prefix. What looks up many names
// with one test of the resolver calls this for each.
pub fn name_among<'t, 'n>(
    text: &'t [u8],
    records: &'t [usize],
    count: usize,
    name: &'n [u8],
    wanted: bool,
) -> ResolveResult
    requires { Inside records.now count (length text.now) }
    ensures { result ≡ among_of text.now (record_at records.now) count (prefix_of name.now) (has_colon name.now) wanted }
{
    let at = name::colon_at(name);
    if at < name.len() {
        return explicit(text, records, count, name, at);
    }
    default(records, count, wanted)
}

// `NamespaceResolver::resolve_prefix`, src/name.rs, on lent memory: with `named`, a prefix that stands in a name, and else
// none, whatever `prefix` holds.
pub fn resolve_prefix_in<'t, 'n>(
    text: &'t [u8],
    records: &'t [usize],
    head: Head,
    prefix: &'n [u8],
    named: bool,
    wanted: bool,
) -> Result<ResolveResult, FormError>
    ensures { result ≡ lent (Err WrongLength) (resolve_prefix_of prefix.now named wanted) text.now records.now head }
{
    scope_table::form_in(text, records, head)?;
    Ok(among(text, records, head.count, prefix, named, wanted))
}

// `NamespaceResolver::resolve`, src/name.rs, on lent memory.
pub fn resolve_in<'t, 'n>(
    text: &'t [u8],
    records: &'t [usize],
    head: Head,
    name: &'n [u8],
    wanted: bool,
) -> Result<ResolveResult, FormError>
    ensures { result ≡ lent (Err WrongLength) (resolve_of name.now wanted) text.now records.now head }
{
    scope_table::form_in(text, records, head)?;
    Ok(name_among(text, records, head.count, name, wanted))
}

// `NamespaceResolver::resolve`, src/name.rs. What is handed back of the name is `local_part`.
pub fn resolve(r: NamespaceResolver, name: &[u8], wanted: bool) -> Result<ResolveResult, FormError>
    ensures { resolved_numbers result ≡ resolved_numbers (resolve_of name.now wanted r) }
{
    let head = r.head;
    resolve_in(&r.text, &r.records, head, name, wanted)
}

// `NamespaceResolver::resolve_element`, src/name.rs.
pub fn resolve_element(r: NamespaceResolver, name: &[u8]) -> Result<ResolveResult, FormError>
    ensures { resolved_numbers result ≡ resolved_numbers (resolve_of name.now true r) }
{
    let head = r.head;
    resolve_in(&r.text, &r.records, head, name, true)
}

// `NamespaceResolver::resolve_attribute`, src/name.rs.
pub fn resolve_attribute(r: NamespaceResolver, name: &[u8]) -> Result<ResolveResult, FormError>
    ensures { resolved_numbers result ≡ resolved_numbers (resolve_of name.now false r) }
{
    let head = r.head;
    resolve_in(&r.text, &r.records, head, name, false)
}

// `NamespaceResolver::resolve_prefix`, src/name.rs.
pub fn resolve_prefix(
    r: NamespaceResolver,
    prefix: &[u8],
    named: bool,
    wanted: bool,
) -> Result<ResolveResult, FormError>
    ensures { resolved_numbers result ≡ resolved_numbers (resolve_prefix_of prefix.now named wanted r) }
{
    let head = r.head;
    resolve_prefix_in(&r.text, &r.records, head, prefix, named, wanted)
}

// The URI that a lookup found: a part of the resolver's text.
#[tactic(auto, unfolding(crate::specs::Lookup::uri_part))]
pub fn uri_part<'t, 'n>(
    text: &'t [u8],
    name: &'n [u8],
    found: Result<ResolveResult, FormError>,
) -> &'t [u8]
    ensures { result.now ≡ uri_part text.now found }
{
    let Ok(ResolveResult::Bound(from, to)) = found else {
        return &text[..0];
    };
    scan::inside(text, from, to)
}

// The prefix that a lookup does not know: a part of the name.
#[tactic(auto, unfolding(crate::specs::Lookup::prefix_part))]
pub fn prefix_part<'t, 'n>(
    text: &'t [u8],
    name: &'n [u8],
    found: Result<ResolveResult, FormError>,
) -> &'n [u8]
    ensures { result.now ≡ prefix_part name.now found }
{
    let Ok(ResolveResult::Unknown(from, to)) = found else {
        return &name[..0];
    };
    scan::inside(name, from, to)
}

// The local part, which every lookup leaves of a name: `name::local_name`, beside the text.
pub fn local_part<'t, 'n>(text: &'t [u8], name: &'n [u8]) -> &'n [u8]
    ensures { result.now ≡ local_of name.now }
{
    name::local_name(name)
}

// `TryFrom<ResolveResult>` for `Option<Namespace>`, src/name.rs. Nothing is changed by it, whatever it answers.
#[tactic(auto, unfolding(crate::specs::Lookup::namespace_of, crate::specs::Lookup::namespace_numbers))]
pub fn namespace_of(
    found: Result<ResolveResult, FormError>,
) -> Result<Option<Namespace>, LookupError>
    ensures { namespace_numbers result ≡ namespace_numbers (namespace_of found) }
{
    match found? {
        ResolveResult::Bound(start, end) => Ok(Some(Namespace { start, end })),
        ResolveResult::Unbound => Ok(None),
        ResolveResult::Unknown(start, end) => Err(LookupError::UnknownPrefix(start, end)),
    }
}

// The numbers of what a name resolves to, for a function that can hand out no enum.
#[tactic(auto, unfolding(crate::specs::Lookup::resolved_numbers))]
pub fn resolved_numbers(found: Result<ResolveResult, FormError>) -> Told
    ensures { result ≡ told_of (resolved_numbers found) }
{
    match found {
        Ok(ResolveResult::Unbound) => scope_table::told_of(0, 0, 0),
        Ok(ResolveResult::Bound(from, to)) => scope_table::told_of(1, from, to),
        Ok(ResolveResult::Unknown(from, to)) => scope_table::told_of(2, from, to),
        Err(FormError::BadResolver) => scope_table::told_of(20, 0, 0),
        Err(FormError::WrongLength) => scope_table::told_of(99, 0, 0),
    }
}
