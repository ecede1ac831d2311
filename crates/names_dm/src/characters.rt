ghost use Rattle.std.specs.Prelude.{◌≡◌};
ghost use Rattle.names_dm.specs.Characters.{between, is_ascii_digit, is_ascii_letter};
ghost use Rattle.names_dm.specs.Terminals.{is_letter_or_digit};

// Whether the character lies from the first to the last.
pub fn between(first: char, last: char, c: char) -> bool
    ensures { result ≡ between first last c }
{
    first <= c && c <= last
}

pub fn is_ascii_digit(c: char) -> bool
    ensures { result ≡ is_ascii_digit c }
{
    between('0', '9', c)
}

pub fn is_ascii_letter(c: char) -> bool
    ensures { result ≡ is_ascii_letter c }
{
    between('A', 'Z', c) | between('a', 'z', c)
}

pub fn is_letter_or_digit(c: char) -> bool
    ensures { result ≡ is_letter_or_digit c }
{
    is_ascii_letter(c) | is_ascii_digit(c)
}
