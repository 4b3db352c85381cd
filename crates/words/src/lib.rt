// Bytes held against a word or a byte.
#![tactic(auto)]

ghost use Rattle.std.specs.Prelude.{◌≡◌, ℕ, Bool, not, ◌+◌, eqb, drop};
ghost use Rattle.words.specs.Words.{begins, every, run, blocks_of, first_at, is_word};

// A set of bytes, by a test.
pub trait Class: Copy {
    ghost has: { Self → ℕ → Bool };

    fn has(self, byte: u8) -> bool
        ensures { result ≡ has self byte };
}

// Every byte but this one.
#[derive(Clone, Copy)]
pub struct Except(pub u8);

impl Class for Except {
    ghost has = { λ class b. not (eqb b class.0) };

    fn has(self, byte: u8) -> bool {
        byte != self.0
    }
}

// The text begins with the word.
#[tactic(auto, using(crate::proofs::Laws::begins_by_start))]
pub fn begins_with(text: &[u8], word: &[u8]) -> bool
    ensures { result ≡ begins word.now text.now }
{
    text.starts_with(word)
}

// The text from `from` on; past its end nothing is left.
#[tactic(auto, using(crate::proofs::Laws::rest_part))]
pub fn rest_from(text: &[u8], from: usize) -> &[u8]
    ensures { result.now ≡ drop from text.now }
{
    &text[from.min(text.len())..]
}

// The word stands at `at`.
pub fn begins_at(text: &[u8], at: usize, word: &[u8]) -> bool
    ensures { result ≡ begins word.now (drop at text.now) }
{
    begins_with(rest_from(text, at), word)
}

// The text is the word.
pub fn is_word(text: &[u8], word: &[u8]) -> bool
    ensures { result ≡ is_word word.now text.now }
{
    if text.len() != word.len() {
        return false;
    }
    // byte by byte, since words are short: with `==` a message is judged in 2 to 3 hundredths more instructions
    for i in 0..word.len() {
        if text[i] != word[i] {
            return false;
        }
    }
    true
}

// How many bytes a walk passes at once where none of them stops it: as many as the machine compares in one go.
pub const BLOCK: usize = 16;

// Every byte of the block is of the class; there is no way out before the end, so that no byte waits for the one before it.
fn block_has<C: Class>(block: &[u8; BLOCK], class: C) -> bool
    ensures { result ≡ every (C.has class) block.now }
{
    block
        .iter()
        .fold(true, |so_far, byte| so_far & class.has(*byte))
}

// From `from` on, the start of the first block with a byte outside the class, or of what is no whole block.
pub fn blocks_from<C: Class>(text: &[u8], from: usize, class: C) -> usize
    ensures { result ≡ from + blocks_of (run (C.has class) (drop from text.now)) }
{
    let (blocks, _) = rest_from(text, from).as_chunks::<BLOCK>();
    from + BLOCK
        * blocks
            .iter()
            .take_while(|block| block_has(block, class))
            .count()
}

// The first place at or after `from` of a byte outside the class, or the text's end: for a place that is near, byte by byte.
pub fn run_from<C: Class>(text: &[u8], from: usize, class: C) -> usize
    ensures { result ≡ from + run (C.has class) (drop from text.now) }
{
    for at in from..text.len() {
        if !class.has(text[at]) {
            return at;
        }
    }
    from.max(text.len())
}

// The same for a place that is far: whole blocks first.
pub fn long_run_from<C: Class>(text: &[u8], from: usize, class: C) -> usize
    ensures { result ≡ from + run (C.has class) (drop from text.now) }
{
    run_from(text, blocks_from(text, from, class), class)
}

// The first place of the byte at or after `from`, or the text's end: for a place that is near, byte by byte.
pub fn byte_from(text: &[u8], from: usize, byte: u8) -> usize
    ensures { result ≡ from + first_at byte (drop from text.now) }
{
    run_from(text, from, Except(byte))
}

// The first place of the byte, or the text's length where it is not there: whole blocks first.
pub fn byte_at(text: &[u8], byte: u8) -> usize
    ensures { result ≡ first_at byte text.now }
{
    long_run_from(text, 0, Except(byte))
}
