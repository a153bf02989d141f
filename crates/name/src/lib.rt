// Names: where a name splits, what it declares, and whether a declaration is allowed.
//
// Ports `QName`, `Prefix` and `PrefixDeclaration` of src/name.rs, and of `NamespaceResolver::add` the checks on a named
// prefix. A name is the caller's slice, and a part of a name is a part of that slice. The reserved prefixes and URIs
// stand here once each, as byte strings, in the four `is_` functions; specs/Reserved.antt has them as text.
#![tactic(auto)]

ghost use Rattle.std.specs.Prelude.{◌≡◌};
ghost use Rattle.name.specs.Split.{colon_at, colon_of, prefix_of, local_of, second_at, second_of, parts_of};
ghost use Rattle.name.specs.Reserved.{is_xml, is_xmlns, is_xml_uri, is_xmlns_uri};
ghost use Rattle.name.specs.Declares.{declares_of, declares_number, declared_prefix};
ghost use Rattle.name.specs.Bind.{reserved_bind, named_numbers};
ghost use Rattle.name.specs.Verdict.{verdict_named, verdict_default, verdict_of, verdict_number};

// Both parts of a name, as places in it. Where there is a colon the prefix is before it and the local part after it;
// where there is none, `local` is 0.
#[derive(Clone, Copy)]
pub struct Parts {
    pub colon: Option<usize>,
    pub local: usize,
}

// What a name declares when an attribute has it. The prefix of a `Named` one is `declared_prefix` of the same name. `a`,
// `xml` and `xmlnsa` declare nothing.
#[derive(Clone, Copy)]
pub enum PrefixDeclaration {
    // `xmlns`
    Default,
    // `xmlns:p`, and `xmlns:` whose prefix is empty
    Named,
}

// What a name declares as a number, for an exported function, which hands out no enum. The crate has no such number.
pub fn declares_number(declares: Option<PrefixDeclaration>) -> usize
    ensures { result ≡ declares_number declares }
{
    match declares {
        None => 0,
        Some(PrefixDeclaration::Default) => 1,
        Some(PrefixDeclaration::Named) => 2,
    }
}

// Why the rules on reserved prefixes and URIs refuse to bind a named prefix to a value: the four refusals are those of
// `NamespaceError`. The text that each holds there is the value in the first two, and the prefix in the last two.
#[derive(Clone, Copy)]
pub enum ReservedBinding {
    // `xml` to another URI
    InvalidXmlPrefixBind,
    // `xmlns` to anything
    InvalidXmlnsPrefixBind,
    // another prefix to the URI of `xml`
    InvalidPrefixForXml,
    // another prefix to the URI of `xmlns`
    InvalidPrefixForXmlns,
}

// A verdict as a number, for an exported function, which hands out no `Option`: 0 for no, 1 for yes, 2 where nothing is declared.
pub fn verdict_number(verdict: Option<bool>) -> usize
    ensures { result ≡ verdict_number verdict }
{
    verdict.map_or(2, usize::from)
}

// The place of the first colon, or the length where there is none: what `QName::index` looks for, src/name.rs.
pub fn colon_at(name: &[u8]) -> usize
    ensures { result ≡ colon_at name.now }
{
    scan::byte_near(name, b':')
}

// The first colon: `QName::index`, src/name.rs. `:a` has one at 0, so its prefix is there and empty; `a` has none, and no
// prefix.
//
//     a:b:c
//      ^
//      the answer
pub fn index(name: &[u8]) -> Option<usize>
    ensures { result ≡ colon_of name.now }
{
    let at = colon_at(name);
    (at < name.len()).then_some(at)
}

// The bytes before the first colon, none where there is no colon: `QName::prefix`, src/name.rs. Whether there is a
// prefix is what `index` answers.
//
//     a:b:c
//     ^
pub fn prefix(name: &[u8]) -> &[u8]
    ensures { result.now ≡ prefix_of name.now }
{
    match index(name) {
        Some(at) => &name[..at],
        None => &name[..0],
    }
}

// The bytes after the first colon, the whole name where there is none: `QName::local_name`, src/name.rs.
//
//     a:b:c
//       ^^^
pub fn local_name(name: &[u8]) -> &[u8]
    ensures { result.now ≡ local_of name.now }
{
    match index(name) {
        Some(at) => &name[at + 1..],
        None => name,
    }
}

// The place of the first colon of the local part, counted from the start of the name, or the name's length where there is
// none. The crate has no such answer.
pub fn second_at(name: &[u8]) -> usize
    ensures { result ≡ second_at name.now }
{
    let colons = scan::twice_near(name, b':');
    colons.second
}

// The first colon of the local part, and so the second of the name.
//
//     a:b:c
//        ^
//        the answer
pub fn second_colon(name: &[u8]) -> Option<usize>
    ensures { result ≡ second_of name.now }
{
    let at = second_at(name);
    (at < name.len()).then_some(at)
}

// Both parts, found by one look at the name: `QName::decompose`, src/name.rs.
pub fn decompose(name: &[u8]) -> Parts
    ensures { result ≡ parts_of name.now }
{
    let colon = index(name);
    Parts {
        colon,
        local: colon.map_or(0, |at| at + 1),
    }
}

// `Prefix::is_xml`, src/name.rs.
pub fn is_xml(prefix: &[u8]) -> bool
    ensures { result ≡ is_xml prefix.now }
{
    scan::same(prefix, b"xml")
}

// `Prefix::is_xmlns`, src/name.rs.
pub fn is_xmlns(prefix: &[u8]) -> bool
    ensures { result ≡ is_xmlns prefix.now }
{
    scan::same(prefix, b"xmlns")
}

// Whether a value is the URI of `xml`: `RESERVED_NAMESPACE_XML`, src/name.rs.
pub fn is_xml_uri(value: &[u8]) -> bool
    ensures { result ≡ is_xml_uri value.now }
{
    scan::same(value, b"http://www.w3.org/XML/1998/namespace")
}

// Whether a value is the URI of `xmlns`: `RESERVED_NAMESPACE_XMLNS`, src/name.rs.
pub fn is_xmlns_uri(value: &[u8]) -> bool
    ensures { result ≡ is_xmlns_uri value.now }
{
    scan::same(value, b"http://www.w3.org/2000/xmlns/")
}

// What a name declares, `None` for nothing: `QName::as_namespace_binding`, src/name.rs, in its order.
//
//     xmlns:p
//     |    ^
//     the reserved prefix, then its end, a colon, or another byte, which declares nothing
pub fn as_namespace_binding(name: &[u8]) -> Option<PrefixDeclaration>
    ensures { result ≡ declares_of name.now }
{
    if name.len() < 5 || !is_xmlns(&name[..5]) {
        return None;
    }
    if name.len() == 5 {
        return Some(PrefixDeclaration::Default);
    }
    (name[5] == b':').then_some(PrefixDeclaration::Named)
}

// The prefix that a name declares, with no bytes where it declares none: what `PrefixDeclaration::Named` holds in
// src/name.rs.
//
//     xmlns:p:q
//           ^^^
pub fn declared_prefix(name: &[u8]) -> &[u8]
    ensures { result.now ≡ declared_prefix name.now }
{
    match as_namespace_binding(name) {
        None => &name[..0],
        Some(PrefixDeclaration::Default) => &name[..0],
        Some(PrefixDeclaration::Named) => &name[6..],
    }
}

// What the reserved prefixes and URIs say of a named declaration: the `Named` arms of `NamespaceResolver::add`,
// src/name.rs, in their order. Where they refuse nothing, whether there is a binding to add: `xml` to its own URI is bound
// already.
pub fn check_named(prefix: &[u8], value: &[u8]) -> Result<bool, ReservedBinding>
    ensures { named_numbers result ≡ named_numbers (reserved_bind prefix.now value.now) }
{
    if is_xml(prefix) {
        if is_xml_uri(value) {
            return Ok(false);
        }
        return Err(ReservedBinding::InvalidXmlPrefixBind);
    }
    if is_xmlns(prefix) {
        return Err(ReservedBinding::InvalidXmlnsPrefixBind);
    }
    if is_xml_uri(value) {
        return Err(ReservedBinding::InvalidPrefixForXml);
    }
    if is_xmlns_uri(value) {
        return Err(ReservedBinding::InvalidPrefixForXmlns);
    }
    Ok(true)
}

// Whether Namespaces 1.0 allows a named prefix to be declared with a value. The crate has no such answer. It stays a function of its own:
// compiled into `verdict_of` it has every call save registers, those of names that declare nothing too.
#[inline(never)]
pub fn verdict_named(prefix: &[u8], value: &[u8]) -> bool
    ensures { result ≡ verdict_named prefix.now value.now }
{
    match check_named(prefix, value) {
        Ok(true) => value.len() != 0 && prefix.len() != 0 && index(prefix).is_none(),
        Ok(false) => true,
        Err(_) => false,
    }
}

// Whether Namespaces 1.0 allows a value as the default namespace: every value but the two reserved URIs.
pub fn verdict_default(value: &[u8]) -> bool
    ensures { result ≡ verdict_default value.now }
{
    !(is_xml_uri(value) || is_xmlns_uri(value))
}

// The verdict on an attribute, by its whole name: whether Namespaces 1.0 allows it as a declaration, and `None` for one that
// declares nothing.
pub fn verdict_of(name: &[u8], value: &[u8]) -> Option<bool>
    ensures { result ≡ verdict_of name.now value.now }
{
    match as_namespace_binding(name) {
        None => None,
        Some(PrefixDeclaration::Default) => Some(verdict_default(value)),
        Some(PrefixDeclaration::Named) => Some(verdict_named(declared_prefix(name), value)),
    }
}
