// A dictionary of 64-bit keys, numbered from 0 by first appearance.
//
// It stands in a slice that the caller lends, and its links are places there: the project has no heap. With room for n keys it takes 5n places.
// From place 0 on stand n roots, one for each of n trees, which the caller clears at the beginning. From place n on each key has four numbers:
// its low half, its high half, and two links. The caller keeps the count of the keys, 0 at the beginning.
//
// A root or a link of 0 leads nowhere, any other to the key with the number one less. A search begins at the root of the key's tree and goes by
// the bits of the key that it looks for, the lowest first: past each other key the next bit chooses one of that key's two links. A new key is
// linked where the search for it ended.
//
// With as many trees as there is room for keys most searches are short, and none can be made long. A key that d links below a root lead to has
// the d lowest bits that chose the links, and so has the key that is looked for. After 64 links the two agree in every bit: a search follows a
// root and at most 64 links, however the keys are chosen. In a hash table, keys of one hash would make it as long as the table.
#![tactic(auto)]

ghost use Rattle.std.specs.Prelude.{◌≡◌, ◌+◌, ◌*◌, ◌≤◌, ◌<◌, length};
ghost use Rattle.dictionary.specs.Tree.{Tree, tree_of, added};
ghost use Rattle.dictionary.specs.KeyNumbered.{KeyNumbered};

// A key's number, and how many keys there are then.
#[derive(Clone, Copy)]
pub struct KeyNumber {
    pub number: u32,
    pub count: u32,
}

// The tree of a key: the number above the low half's lowest byte, that byte and the high half are added up, so that where such numbers are
// neighbours the roots are too.
#[tactic(auto, unfolding(crate::specs::Tree::tree_of))]
fn tree_of(n: usize, key: u64) -> usize
    requires { 0 < n }
    ensures { result ≡ tree_of n key }
{
    let low = key % 0x100000000;
    let high = key / 0x100000000;
    ((low / 256 + low % 256 + high) % n as u64) as usize
}

// Stores key `count`, with links that lead nowhere, and has the link at a place lead to it. The places must be there.
fn add_key(dict: &mut [u32], n: usize, link: usize, count: u32, key: u64)
    requires { (count < n) × (n ≤ 4294967295) × (5 * n ≤ length dict.old) × (link < length dict.old) }
    ensures { dict.new ≡ added n dict.old link count key }
{
    let at = n + 4 * count as usize;
    dict[link] = count + 1;
    dict[at] = (key % 0x100000000) as u32;
    dict[at + 1] = (key / 0x100000000) as u32;
    dict[at + 2] = 0;
    dict[at + 3] = 0;
}

// The number of a key, which joins the `count` keys of the dictionary if it is new. They must stand there as this function left them, and
// there must be room for one more.
pub fn number_key(dict: &mut [u32], n: usize, count: u32, key: u64) -> KeyNumber
    requires tree { Tree n dict.old count }
    requires count_lt_n { (count < n) × (n ≤ 4294967295) }
    ensures { KeyNumbered n dict.old count key dict.new result }
{
    let mut link = tree_of(n, key);
    let mut bits = key;
    // A search goes where the links lead, so no iterator counts its steps.
    while let Some(number) = dict[link].checked_sub(1) {
        let at = n + 4 * number as usize;
        if u64::from(dict[at + 1]) * 0x100000000 + u64::from(dict[at]) == key {
            return KeyNumber { number, count };
        }
        link = at + 2 + (bits % 2) as usize;
        bits /= 2;
    }
    add_key(dict, n, link, count, key);
    KeyNumber {
        number: count,
        count: count + 1,
    }
}
