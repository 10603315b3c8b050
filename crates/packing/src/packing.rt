ghost use Rattle.std.specs.Prelude.{◌≡◌};
ghost use Rattle.packing.specs.Packed.{limit, length_words, words_for};

// How bytes go into words.
#[derive(Clone, Copy, PartialEq, Eq, Debug)]
pub enum Packing {
    // Two words of 4 bits for each byte, the low half first.
    Halves,
    // One word for each byte.
    Bytes,
    // One word for two bytes, the low byte first. An odd last byte has a word alone, with a 0 for the second byte.
    Pairs,
}

// Each word of a packing is below this.
pub(crate) fn limit(packing: Packing) -> u32
    ensures { result ≡ limit packing }
{
    match packing {
        Packing::Halves => 16,
        Packing::Bytes => 256,
        Packing::Pairs => 65536,
    }
}

// How many words so many bytes take.
pub fn words_for(packing: Packing, bytes: u32) -> usize
    ensures { result ≡ words_for packing bytes }
{
    let bytes = bytes as usize;
    match packing {
        Packing::Halves => 2 * bytes,
        Packing::Bytes => bytes,
        Packing::Pairs => (bytes + 1) / 2,
    }
}

// How many words hold the length of a file.
pub fn length_words(packing: Packing) -> usize
    ensures { result ≡ length_words packing }
{
    words_for(packing, 4)
}
