//! Number words.

ghost use Rattle.std.specs.Prelude.{◌≡◌, ◌≤◌, ◌+◌, ◌*◌, ℕ, option_map};
ghost use Rattle.cp_text.specs.Numbers.{digits_value, number_of, kept_size, kept};

/// A number word: a sign and a size.
#[derive(Clone, Copy, Debug, PartialEq, Eq)]
pub struct Number {
    /// False behind a `-`.
    pub positive: bool,
    /// The value without its sign, or `None` where it is 2^64 or more.
    pub size: Option<u64>,
}

/// The number that a word says, or `None` where it is no number word. Of a value of any length no digit is kept.
pub fn parse_number(word: &[u8]) -> Option<Number>
    ensures { result ≡ option_map kept (number_of word.now) }
{
    if let [b'-', digits @ ..] = word {
        let number = read_digits(digits, false)?;
        return if number.size == Some(0) {
            None
        } else {
            Some(number)
        };
    }
    read_digits(word, true)
}

fn read_digits(digits: &[u8], positive: bool) -> Option<Number>
    ensures { result ≡ option_map (λ n. kept (record { positive = positive; size = n })) (digits_value digits.now) }
{
    if digits.is_empty() {
        return None;
    }
    let mut size = Some(0);
    let mut rest = digits;
    while let [byte, after @ ..] = rest {
        if !byte.is_ascii_digit() {
            return None;
        }
        size = with_digit(size, *byte - b'0');
        rest = after;
    }
    Some(Number { positive, size })
}

// The size of digits with one more behind them.
fn with_digit(size: Option<u64>, digit: u8) -> Option<u64>
    requires { digit ≤ 9 }
    ensures { (n : ℕ) → size ≡ kept_size n → result ≡ kept_size (10 * n + digit) }
{
    size?.checked_mul(10)?.checked_add(u64::from(digit))
}
