ghost use Rattle.std.specs.Prelude.{◌≡◌, ◌≤◌, ◌==◌, IfSome, IsTrue, drop, length, not};
ghost use Rattle.std.specs.Char.{is_ascii_digit};
ghost use Rattle.std.specs.List.{list_all, prefix_len};
ghost use Rattle.std.specs.Str.Parse.{digits_value};
ghost use Rattle.report_grammar.specs.steps.Lists.{from_byte, front_of};
ghost use Rattle.report_grammar.specs.steps.Reading.{Takes, a_number, a_word, digits_of, is_numeral, number_in};

/// What is left of a text.
#[derive(Drop)]
pub struct Cursor<'a> {
    rest: &'a [u8],
}

impl<'a> Cursor<'a> {
    pub fn new(text: &'a [u8]) -> Self
        ensures { result.rest.now ≡ text.entry.now }
    {
        Cursor { rest: text }
    }

    #[tactic(auto, unfolding(report_grammar::specs::steps::Reading::a_word))]
    pub fn word(&mut self, word: &[u8]) -> Option<()>
        ensures { Takes result self.new.rest.now (a_word word.now self.old.rest.now) }
    {
        self.rest = self.rest.strip_prefix(word)?;
        Some(())
    }

    #[tactic(auto, unfolding(report_grammar::specs::steps::Reading::a_number))]
    pub fn number(&mut self, most: u64) -> Option<u64>
        ensures takes { Takes result self.new.rest.now (a_number most self.old.rest.now) }
        ensures within { IfSome result (λ number. number ≤ most) }
    {
        let (digits, rest) = split_digits(self.rest);
        let number = number_in(digits, most)?;
        self.rest = rest;
        Some(number)
    }

    /// Takes the text up to a byte.
    pub fn up_to(&mut self, byte: u8) -> &'a [u8]
        ensures front { result.now ≡ front_of byte self.old.rest.now }
        ensures rest { self.new.rest.now ≡ from_byte byte self.old.rest.now }
    {
        let (front, rest) = split_before(self.rest, byte);
        self.rest = rest;
        front
    }

    /// What is left.
    pub fn rest(&self) -> &'a [u8]
        ensures { result.now ≡ self.now.rest.now }
    {
        self.rest
    }

    pub fn is_at_end(&self) -> bool
        ensures { result ≡ (length self.now.rest.now == 0) }
    {
        self.rest.is_empty()
    }
}

/// The digits in front, and what follows them.
#[tactic(auto, using(crate::proofs::Pieces::digits_taken))]
fn split_digits(text: &[u8]) -> (&[u8], &[u8])
    ensures front { result.0.now ≡ digits_of text.now }
    ensures back { result.1.now ≡ drop (prefix_len is_ascii_digit text.now) text.now }
    ensures digits { IsTrue (list_all is_ascii_digit result.0.now) }
{
    text.split_at(digit_count(text))
}

/// How many digits stand in front.
fn digit_count(text: &[u8]) -> usize
    ensures count { result ≡ prefix_len is_ascii_digit text.now }
    ensures within { result ≤ length text.now }
{
    let mut count = 0;
    for byte in text {
        if !byte.is_ascii_digit() {
            return count;
        }
        count += 1;
    }
    count
}

/// The text up to a byte, and the text from that byte on.
pub(crate) fn split_before(text: &[u8], byte: u8) -> (&[u8], &[u8])
    ensures front { result.0.now ≡ front_of byte text.now }
    ensures back { result.1.now ≡ from_byte byte text.now }
    ensures within { length result.1.now ≤ length text.now }
{
    text.split_at(length_before(text, byte))
}

/// How many bytes stand before this one.
fn length_before(text: &[u8], byte: u8) -> usize
    ensures count { result ≡ prefix_len (λ b. not (b == byte)) text.now }
    ensures within { result ≤ length text.now }
{
    let mut count = 0;
    for found in text {
        if *found == byte {
            return count;
        }
        count += 1;
    }
    count
}

pub(crate) fn are_digits(bytes: &[u8]) -> bool
    ensures { result ≡ list_all is_ascii_digit bytes.now }
{
    bytes.iter().all(|byte| byte.is_ascii_digit())
}

/// The number that digits say.
pub(crate) fn number_in(digits: &[u8], most: u64) -> Option<u64>
    requires { IsTrue (list_all is_ascii_digit digits.now) }
    ensures value { result ≡ number_in most digits.now }
    ensures within { IfSome result (λ number. number ≤ most) }
{
    if !is_numeral(digits) {
        return None;
    }
    let value = digits_value(digits);
    if value <= u128::from(most) {
        Some(value as u64)
    } else {
        None
    }
}

fn is_numeral(digits: &[u8]) -> bool
    ensures { result ≡ is_numeral digits.now }
{
    match digits.split_first() {
        Some((first, others)) => others.len() <= 19 && (*first != b'0' || others.is_empty()),
        None => false,
    }
}

fn digits_value(digits: &[u8]) -> u128
    requires few { length digits.now ≤ 20 }
    requires digits { IsTrue (list_all is_ascii_digit digits.now) }
    ensures { result ≡ digits_value 10 digits.now }
{
    let mut value = 0;
    for digit in digits {
        value = 10 * value + u128::from(*digit - b'0');
    }
    value
}
