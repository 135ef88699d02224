// The first bytes of a text as one number, by which most ids are told apart.
ghost use Rattle.std.specs.Prelude.{◌≡◌, ◌<◌, get_or};
ghost use Rattle.grid_ids.specs.Front.{front_of, AreBytes};

// The byte at a place; zero where there is none.
fn byte_at(text: &[u8], place: usize) -> u64
    ensures byte { result ≡ get_or text.now place 0 }
    ensures few { result < 256 }
{
    if place < text.len() {
        u64::from(text[place])
    } else {
        0
    }
}

/// The first eight bytes as one number, of which the first weighs most; what is lacking counts as zero.
pub(crate) fn first_bytes(text: &[u8]) -> u64
    ensures front { result ≡ front_of text.now }
    ensures bytes { AreBytes text.now }
{
    let high = byte_at(text, 0) * 0x100_0000
        + byte_at(text, 1) * 0x1_0000
        + byte_at(text, 2) * 0x100
        + byte_at(text, 3);
    let low = byte_at(text, 4) * 0x100_0000
        + byte_at(text, 5) * 0x1_0000
        + byte_at(text, 6) * 0x100
        + byte_at(text, 7);
    high * 0x1_0000_0000 + low
}
