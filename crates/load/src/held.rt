// The bytes of a node that a piece began and the next one goes on with: an array with a count beside it, since the state that has them
// crosses the C interface and there is no heap.
ghost use Rattle.std.specs.Prelude.{◌≡◌, ◌++◌, ◌+◌, ◌<◌, ◌≤◌, length, get_or, take, drop};
ghost use Rattle.std.proofs.lemmas.List.Edits.{sets};
ghost use Rattle.endian.specs.Bytes.{node_at};
ghost use Rattle.load.specs.Loading.{zeros};

// Whether the places from at on are 0.
pub(crate) fn unused_zero(held: [u8; 3], at: usize) -> bool
    ensures { result ≡ zeros (drop at held) }
{
    held.iter().skip(at).all(|b| *b == 0)
}

// The bytes of piece put behind the first count held ones.
pub(crate) fn hold(held: [u8; 3], count: usize, piece: &[u8]) -> [u8; 3]
    requires { count + length piece.now ≤ 3 }
    ensures { (result ≡ sets held count piece.now) × (length held ≡ 3) }
{
    let mut next = held;
    endian::write_bytes(&mut next, count, piece);
    next
}

// The node that the held bytes begin and the piece completes.
pub(crate) fn joined_node(held: [u8; 3], count: usize, piece: &[u8]) -> u32
    requires { (count ≤ 3) × (4 ≤ count + length piece.now) }
    ensures { (result ≡ node_at (take count held ++ piece.now) 0) × (length held ≡ 3) }
{
    let byte = |j: usize| -> u8
        requires { (count ≤ 3) × (length held ≡ 3) × (j < count + length piece.now) }
        ensures { result ≡ get_or (take count held ++ piece.entry.now) j 0 }
    { if j < count { held[j] } else { piece[j - count] } };
    u32::from_le_bytes([byte(0), byte(1), byte(2), byte(3)])
}
