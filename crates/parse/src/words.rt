// The words of a line: where one ends, and whether one is a given word.
ghost use Rattle.std.specs.Prelude.{◌≡◌, ◌<◌, length, IfSome};
ghost use Rattle.table.specs.Form.{same_bytes};
ghost use Rattle.parse.specs.Words.{first_space};

// The place of the first space. A call of its own, as where it is inlined its loop counts two or three numbers instead of one.
#[inline(never)]
pub fn first_space(line: &[u8]) -> Option<usize>
    ensures is { result ≡ first_space line.now }
    ensures within { IfSome result (λ i. i < length line.now) }
{
    line.iter().position(|byte| *byte == b' ')
}

// Whether a word has the bytes of another.
#[tactic(auto, using(crate::proofs::Sameness::same_pointwise))]
pub fn same_word(word: &[u8], other: &[u8]) -> bool
    ensures { result ≡ same_bytes word.now other.now }
{
    word == other
}
