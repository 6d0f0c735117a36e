// Annex A3.2: the words of a file of samples or of codewords, low byte first.
#![tactic(auto)]

ghost use Rattle.std.specs.Prelude.{◌≡◌, ◌*◌, length};
ghost use Rattle.standard.specs.Files.{file_words, file_bytes};

// The words that the bytes stand for.
pub fn from_bytes(bytes: &[u8], words: &mut [i16])
    requires { length bytes.now ≡ 2 * length words.old }
    ensures { words.new ≡ file_words bytes.now }
{
    for (i, word) in words.iter_mut().enumerate() {
        *word = i16::from_le_bytes([bytes[2 * i], bytes[2 * i + 1]]);
    }
}

// The bytes of the words.
pub fn to_bytes(words: &[i16], bytes: &mut [u8])
    requires { length bytes.old ≡ 2 * length words.now }
    ensures { bytes.new ≡ file_bytes words.now }
{
    for (i, word) in words.iter().enumerate() {
        [bytes[2 * i], bytes[2 * i + 1]] = word.to_le_bytes();
    }
}
