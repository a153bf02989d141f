// What the static library exports to look up all the names of a tag in one call (crates/export_names_c), for Rust or C to link. It
// stands apart from the other calls that ask a resolver, so that the lookup has one caller and is compiled into the loop over the names.
#![tactic(auto)]

ghost use Rattle.std.specs.Prelude.{◌≡◌};
ghost use Rattle.export_names.specs.Names.{alike_of, names, many_in};

use scope_table::FormError;

// Whether there are as many starts as ends, and as many places for each part of an answer.
#[tactic(auto, unfolding(crate::specs::Names::alike_of))]
fn alike<'n>(
    from: &'n [usize],
    to: &'n [usize],
    kinds: &'n [usize],
    begins: &'n [usize],
    ends: &'n [usize],
) -> bool
    ensures { result ≡ alike_of from.now to.now kinds.now begins.now ends.now }
{
    to.len() == from.len()
        && kinds.len() == from.len()
        && begins.len() == from.len()
        && ends.len() == from.len()
}

// The names of a tag, all by one test of the resolver. Name k is the tag's bytes from `from[k]` up to `to[k]`, and the first
// `elements` of them want the default. What `mz_resolve` would answer for it goes to `kinds[k]`, and the bounds to `begins[k]`
// and `ends[k]`. 0, 20, 99.
pub fn mz_resolve_all<'t, 'n>(
    text: &'t [u8],
    records: &'t [usize],
    head: &'t [usize; 4],
    tag: &'n [u8],
    from: &'n [usize],
    to: &'n [usize],
    elements: usize,
    kinds: &mut [usize],
    begins: &mut [usize],
    ends: &mut [usize],
) -> usize
    ensures { names result kinds.new begins.new ends.new
        ≡ many_in tag.now from.now to.now elements kinds.old begins.old ends.old
        text.now records.now head.now }
{
    if !alike(from, to, kinds, begins, ends) {
        return scope_table::form_number(Err(FormError::WrongLength));
    }
    let h = export_memory::head_from(head);
    let form = scope_table::form_in(text, records, h);
    let Ok(()) = form else {
        return scope_table::form_number(form);
    };
    for i in 0..from.len() {
        let name = scan::inside(tag, from[i], to[i]);
        let found = scope_lookup::name_among(text, records, h.count, name, i < elements);
        let told = scope_lookup::resolved_numbers(Ok(found));
        kinds[i] = told.number;
        begins[i] = told.first;
        ends[i] = told.second;
    }
    0
}
