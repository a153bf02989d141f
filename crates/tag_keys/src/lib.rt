// The recorded keys of the attribute iterator, on tables that the caller lends.
//
// Ports `IterState::check_for_duplicates`, src/events/attributes.rs. The crate's `keys: Vec<Range<usize>>` is here two
// tables of the keys' starts and ends and a count. Its hash set, from the 33rd key, is not ported: a third table keeps each
// key's hash, and a key is compared only with those of its own hash. `filtered_agrees` (proofs/Filter.antt) says that this
// finds what a comparison with every recorded key finds, whatever the hash.
#![tactic(auto)]

ghost use Rattle.std.specs.Prelude.{◌≡◌, false, ℕ, ◌+◌, ◌≤◌, ◌<◌, length};
ghost use Rattle.scan.specs.First.{first_to, pick};
ghost use Rattle.scan.specs.Bytes.{part};
ghost use Rattle.tag_keys.specs.Hash.{hash_of};
ghost use Rattle.tag_keys.specs.Sieve.{sieve_words, sieve_word, in_sieve, empty_sieve, sieved, sieve_of, sieved_in, SieveOf};
ghost use Rattle.tag_keys.specs.Keys.{KeysIn, holds, has_place, table_good, block, hash_is, hash_for, earlier_of, checked_by, checked_of, checked_numbers, recorded_in};

// How many keys can be recorded: `capacity` of specs/Keys.antt.
pub const CAPACITY: usize = 1024;

// How many kept hashes are asked together: `block` of specs/Keys.antt.
const BLOCK: usize = 16;

// How many words the sieve of the kept hashes has: `sieve_words` of specs/Sieve.antt.
pub const SIEVE_WORDS: usize = 32;

// A key: where it stands in the tag, and its hash.
#[derive(Clone, Copy)]
pub struct Hashed {
    pub start: usize,
    pub end: usize,
    pub hash: u32,
}

// Why a key that is due to be recorded is refused. Nothing is written then.
#[derive(Clone, Copy)]
pub enum KeyRefusal {
    // `a='1' a="2"`: it has the bytes of an earlier key, which starts here. Refusal 5.
    Same(usize),
    // It is new, and the tables hold `CAPACITY` keys already. Refusal 6.
    Full,
}

// Of FNV-1a with 32 bits: the number that it starts at, and its factor.
const BASIS: u32 = 2166136261;

const PRIME: u32 = 16777619;

// The hash of the bytes from `from` up to `to`: FNV-1a.
fn hash_of(tag: &[u8], from: usize, to: usize) -> u32
    requires { (from ≤ to) × (to ≤ length tag.now) }
    ensures { result ≡ hash_of (part tag.now from to) }
{
    let mut hash = BASIS;
    for b in &tag[from..to] {
        hash = (u32::from(*b) ^ hash).wrapping_mul(PRIME);
    }
    hash
}

// The hash of a key that is due to be checked. While checks are off none is asked for it, and it is 0.
pub fn hash_for(tag: &[u8], checks: bool, from: usize, to: usize) -> u32
    requires { (from ≤ to) × (to ≤ length tag.now) }
    ensures { result ≡ hash_for tag.now checks from to }
{
    if checks { hash_of(tag, from, to) } else { 0 }
}

// Whether a hash is among the `BLOCK` kept ones from index `i` on. All are asked, so that the machine asks several at once; only
// a "no" has to be sure, since a "yes" is looked at again.
fn block_has<'a>(hashes: &'a [u32], i: usize, hash: u32) -> bool
    requires { i + block ≤ length hashes.now }
    ensures { result ≡ false → (k : ℕ) → i ≤ k → k < i + block → hash_is hashes.now hash k ≡ false }
{
    let mut any = false;
    for kept in &hashes[i..i + BLOCK] {
        if *kept == hash {
            any = true;
        }
    }
    any
}

// The first kept hash from index `k` on that is `hash`; the count where none is. Blocks without it are passed over.
fn kept_from<'a>(hashes: &'a [u32], count: usize, k: usize, hash: u32) -> usize
    requires { (k ≤ count) × (count ≤ length hashes.now) }
    ensures { result ≡ first_to (hash_is hashes.now hash) k count }
{
    let mut i = k;
    // No `for` over blocks: the loop below begins where this one ends, so that `i` would be counted by hand all the same.
    'skip: while count - i >= BLOCK {
        if block_has(hashes, i, hash) {
            break 'skip;
        }
        i += BLOCK;
    }
    for j in i..count {
        if hashes[j] == hash {
            return j;
        }
    }
    count
}

// Whether a hash is in the sieve. Where it is not, no recorded key has that hash, and there is nothing to compare with.
fn in_sieve<'a>(sieve: &'a [u64], hash: u32) -> bool
    requires { length sieve.now ≡ sieve_words }
    ensures { result ≡ in_sieve sieve.now hash }
{
    (sieve[sieve_word(hash)] >> (hash % 64)) % 2 == 1
}

// The word of the sieve that has the bit of a hash: its index is below `SIEVE_WORDS`.
#[tactic(auto, unfolding(crate::specs::Sieve::sieve_word))]
fn sieve_word(hash: u32) -> usize
    ensures { result ≡ sieve_word hash }
{
    (hash / 64 % 32) as usize
}

// Sets the bit of a hash.
fn add_to_sieve<'a>(sieve: &'a mut [u64], hash: u32)
    requires { length sieve.old ≡ sieve_words }
    ensures { sieve.new ≡ sieved sieve.old hash }
{
    let at = sieve_word(hash);
    sieve[at] |= 1 << (hash % 64);
}

// Sets the bits of all kept hashes in an empty sieve.
pub fn sieve_kept<'a>(sieve: &mut [u64], hashes: &'a [u32], count: usize)
    requires sieve_value { sieve.old ≡ empty_sieve }
    requires count_in_bounds { count ≤ length hashes.now }
    ensures { sieve.new ≡ sieve_of hashes.now count }
{
    for hash in &hashes[..count] {
        add_to_sieve(sieve, *hash);
    }
}

// Where the oldest recorded key starts that has the bytes from `from` up to `to`, whose hash is `hash`. Those with another hash
// are passed over; then the lengths are compared, and the bytes from the last to the first, since the names that stand in one tag
// differ most often at their ends.
//
//     x:id="1" x:ref="2" x:id="3"
//     |        |         |   ^
//     0        1      from   to        the answer is the key at index 0
fn earlier_key<'a>(
    tag: &[u8],
    starts: &'a [usize],
    ends: &'a [usize],
    hashes: &'a [u32],
    count: usize,
    from: usize,
    to: usize,
    hash: u32,
) -> Option<usize>
    requires keys_in { KeysIn starts.now ends.now hashes.now count tag.now }
    requires from_lt_to { (from < to) × (to ≤ length tag.now) }
    requires hash_value { hash ≡ hash_of (part tag.now from to) }
    ensures { result ≡ earlier_of tag.now starts.now ends.now count from to }
{
    let len = to - from;
    let mut found = None;
    let mut k = 0;
    // No `for`: `k` goes on behind the key that was looked at, and no range gives those places.
    'keys: while k < count {
        let i = kept_from(hashes, count, k, hash);
        if i >= count {
            break 'keys;
        }
        k = i + 1;
        let start = starts[i];
        let end = ends[i];
        if end - start != len {
            continue 'keys;
        }
        for j in (0..len).rev() {
            if tag[start + j] != tag[from + j] {
                continue 'keys;
            }
        }
        found = Some(start);
        break 'keys;
    }
    found
}

// The same for a key with its hash, by the sieve first.
fn earlier_sifted<'a>(
    tag: &[u8],
    starts: &'a [usize],
    ends: &'a [usize],
    hashes: &'a [u32],
    sieve: &'a [u64],
    count: usize,
    key: Hashed,
) -> Option<usize>
    requires keys_in { KeysIn starts.now ends.now hashes.now count tag.now }
    requires start_lt_end { (key.start < key.end) × (key.end ≤ length tag.now) }
    requires hash_value { key.hash ≡ hash_of (part tag.now key.start key.end) }
    requires sieve_value { sieve.now ≡ sieve_of hashes.now count }
    ensures { result ≡ earlier_of tag.now starts.now ends.now count key.start key.end }
{
    if !in_sieve(sieve, key.hash) {
        return None;
    }
    earlier_key(
        tag, starts, ends, hashes, count, key.start, key.end, key.hash,
    )
}

// Whether the first `count` places of the tables hold keys of this tag, none of them empty, each with its own hash.
pub fn keys_good<'a>(
    tag: &[u8],
    starts: &'a [usize],
    ends: &'a [usize],
    hashes: &'a [u32],
    count: usize,
) -> bool
    ensures { result ≡ table_good tag.now starts.now ends.now hashes.now count }
{
    if count > CAPACITY || !holds(starts, ends, hashes, count) {
        return false;
    }
    for i in 0..count {
        let start = starts[i];
        let end = ends[i];
        if start >= end || end > tag.len() || hash_of(tag, start, end) != hashes[i] {
            return false;
        }
    }
    true
}

// Whether tables have places for so many keys.
pub fn holds<'a>(starts: &'a [usize], ends: &'a [usize], hashes: &'a [u32], count: usize) -> bool
    ensures { result ≡ holds starts.now ends.now hashes.now count }
{
    count <= starts.len() && count <= ends.len() && count <= hashes.len()
}

// The verdict on a key by what a search found: how many keys are recorded after it, or why it is refused.
#[tactic(auto, unfolding(crate::specs::Keys::checked_by))]
fn verdict(count: usize, earlier: Option<usize>) -> Result<usize, KeyRefusal>
    ensures { result ≡ checked_by count earlier }
{
    match earlier {
        Some(p) => Err(KeyRefusal::Same(p)),
        None if count >= CAPACITY => Err(KeyRefusal::Full),
        None => Ok(count + 1),
    }
}

// The verdict on a key: `IterState::check_for_duplicates`, src/events/attributes.rs, but for the recording, which is
// `record_key`. A key that is new gives how many are recorded with it: one more than before, or as many while checks are off.
// While checks are on the sieve is that of the kept hashes.
pub fn check_for_duplicates<'a>(
    tag: &[u8],
    starts: &'a [usize],
    ends: &'a [usize],
    hashes: &'a [u32],
    sieve: &'a [u64],
    checks: bool,
    count: usize,
    key: Hashed,
) -> Result<usize, KeyRefusal>
    requires keys_in { KeysIn starts.now ends.now hashes.now count tag.now }
    requires start_lt_end { (key.start < key.end) × (key.end ≤ length tag.now) }
    requires hash_value { key.hash ≡ hash_for tag.now checks key.start key.end }
    requires sieve_of { SieveOf checks sieve.now hashes.now count }
    ensures { checked_numbers result ≡ checked_numbers (checked_of tag.now checks starts.now ends.now count key.start key.end) }
{
    if !checks {
        return Ok(count);
    }
    verdict(
        count,
        earlier_sifted(tag, starts, ends, hashes, sieve, count, key),
    )
}

// The same without the sieve, for keys that come seldom: since the search has two callers so, it stays a function of its own, and
// the way to it by the sieve, which is short, is compiled into the loop over a tag.
pub fn check_unsifted<'a>(
    tag: &[u8],
    starts: &'a [usize],
    ends: &'a [usize],
    hashes: &'a [u32],
    checks: bool,
    count: usize,
    key: Hashed,
) -> Result<usize, KeyRefusal>
    requires keys_in { KeysIn starts.now ends.now hashes.now count tag.now }
    requires start_lt_end { (key.start < key.end) × (key.end ≤ length tag.now) }
    requires hash_value { key.hash ≡ hash_for tag.now checks key.start key.end }
    ensures { checked_numbers result ≡ checked_numbers (checked_of tag.now checks starts.now ends.now count key.start key.end) }
{
    if !checks {
        return Ok(count);
    }
    verdict(
        count,
        earlier_key(
            tag, starts, ends, hashes, count, key.start, key.end, key.hash,
        ),
    )
}

// Records a key that is new, at the first unused place, where the tables have that place; whether they have. While checks are
// off no key is recorded, and none wants a place.
pub fn record_key<'a>(
    starts: &'a mut [usize],
    ends: &'a mut [usize],
    hashes: &'a mut [u32],
    sieve: &'a mut [u64],
    checks: bool,
    count: usize,
    key: Hashed,
) -> bool
    requires { SieveOf checks sieve.old hashes.old count }
    ensures { (result ≡ has_place checks starts.old ends.old hashes.old count)
        × (starts.new ≡ pick result (recorded_in checks starts.old count key.start) starts.old)
        × (ends.new ≡ pick result (recorded_in checks ends.old count key.end) ends.old)
        × (hashes.new ≡ pick result (recorded_in checks hashes.old count key.hash) hashes.old)
        × (sieve.new ≡ pick result (sieved_in checks sieve.old key.hash) sieve.old) }
{
    if !checks {
        return true;
    }
    if count >= starts.len() || count >= ends.len() || count >= hashes.len() {
        return false;
    }
    starts[count] = key.start;
    ends[count] = key.end;
    hashes[count] = key.hash;
    add_to_sieve(sieve, key.hash);
    true
}
