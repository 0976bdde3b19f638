// Numbers in decimal, and the digits of hexadecimal.
ghost use Rattle.std.specs.Prelude.{◌≡◌, ◌≤◌, length, IfSome};
ghost use Rattle.model.specs.Parse.{digit, hex_digit, decimal_from, number};
ghost use Rattle.parse.specs.Digits.{optional};

// The most digits of a number (RULES, Lines 3).
const MOST_DIGITS: usize = 9;

// The digit that a byte is.
#[tactic(auto, unfolding(model::specs::Parse::digit))]
fn digit(byte: u8) -> Option<u8>
    ensures is { result ≡ optional (digit byte) }
    ensures low { IfSome result (λ figure. figure ≤ 9) }
{
    match byte {
        b'0'..=b'9' => Some(byte - b'0'),
        _ => None,
    }
}

// The hexadecimal digit that a byte is.
#[tactic(auto, unfolding(model::specs::Parse::digit, model::specs::Parse::hex_digit))]
pub fn hex_digit(byte: u8) -> Option<u8>
    ensures is { result ≡ optional (hex_digit byte) }
    ensures low { IfSome result (λ figure. figure ≤ 15) }
{
    match byte {
        b'a'..=b'f' => Some(byte - b'a' + 10),
        _ => digit(byte),
    }
}

// The number with these digits.
fn digits(word: &[u8]) -> Option<u32>
    requires { length word.now ≤ 9 }
    ensures { result ≡ optional (decimal_from 0 word.now) }
{
    let mut so_far: u32 = 0;
    for byte in word {
        let figure = digit(*byte)?;
        so_far = so_far * 10 + u32::from(figure);
    }
    Some(so_far)
}

// 1 to 9 digits, no needless leading zero.
pub fn number(word: &[u8]) -> Option<u32>
    ensures { result ≡ optional (number word.now) }
{
    if 1 < word.len() && word[0] == b'0' {
        return None;
    }
    match word.len() {
        1..=MOST_DIGITS => digits(word),
        _ => None,
    }
}
