// The sections of a Macondo file before its nodes.
ghost use Rattle.std.specs.Prelude.{◌≡◌, List, ◌∷◌, ◌++◌, map, ℕ, ◌+◌, ◌*◌, ◌≤◌, ◌<◌, length, get_or};
ghost use Rattle.std.proofs.lemmas.List.Edits.{sets};
ghost use Rattle.endian.specs.Bytes.{big_endian, big_endians};
ghost use Rattle.letter_sets.specs.SetNumbers.{sets_in};
ghost use Rattle.macondo_file.specs.File.{section};
ghost use Rattle.macondo_writing.specs.FileTables.{MadeOf};

use endian::{write_be_halves, write_be_u32, write_bytes};

// Writes the magic, the name's length, which must fit a byte, and the name; the bytes must be there.
pub(crate) fn write_opening(magic: u32, name: &[u8], file: &mut [u8])
    requires { (length name.now ≤ 255) × (5 + length name.now ≤ length file.old) }
    ensures { file.new ≡ sets file.old 0 (big_endian 4 magic ++ (length name.now ∷ name.now)) }
{
    write_be_u32(file, 0, magic);
    file[4] = name.len() as u8;
    write_bytes(file, 5, name);
}

// Writes what `number` makes of each entry of a list, one after the other; it must be defined there, and the bytes must be there.
pub(crate) fn write_each<F: Fn(u32) -> u32>(list: &[u32], number: F, file: &mut [u8], at: usize)
    requires defined { (i : ℕ) → i < length list.now → F.pre number (get_or list.now i 0) }
    requires room { at + 4 * length list.now ≤ length file.old }
    ensures { (vs : List ℕ) × MadeOf (F.post number) list.now vs × (file.new ≡ sets file.old at (big_endians 4 vs)) }
{
    for (i, x) in list.iter().enumerate() {
        write_be_u32(file, at + 4 * i, number(*x));
    }
}

// Writes the letters' code points; each must have a label, and the bytes must be there.
pub(crate) fn write_code_points(labels: &[u32], letters: &[u32], file: &mut [u8], at: usize)
    requires letters_bound { (length letters.now ≤ 50) × (at + 4 + 4 * length letters.now ≤ length file.old) }
    requires by_index { (i : ℕ) → i < length letters.now → get_or letters.now i 0 < length labels.now }
    ensures { file.new ≡ sets file.old at (section 4 (map (λ t. get_or labels.now t 0) letters.now)) }
{
    write_be_u32(file, at, letters.len() as u32);
    write_each(letters, |t| labels[t as usize], file, at + 4);
}

// Writes the first `count` letter sets of the work list for n nodes, which must hold them; the bytes must be there. A set has eight bytes from
// two entries, so `write_each` does not serve it. The list is the dictionary's, so how many sets it holds stands beside it.
pub(crate) fn write_sets(work: &[u32], n: usize, count: usize, file: &mut [u8], at: usize)
    requires { (n ≤ 16777216) × (count ≤ n) × (8 * n ≤ length work.now) × (at + 4 + 8 * count ≤ length file.old) }
    ensures { file.new ≡ sets file.old at (section 8 (sets_in n work.now count)) }
{
    write_be_u32(file, at, count as u32);
    for i in 0..count {
        let set = 4 * n + 4 * i;
        write_be_halves(file, at + 4 + 8 * i, work[set + 1], work[set]);
    }
}
