ghost use Rattle.std.specs.Prelude.{Bool, MatchOption};
ghost use Rattle.value_dm.specs.Spelling.{SpellsBoolean};

// The truth value that the text spells.
pub fn read_boolean(text: &str) -> Option<bool>
    ensures { MatchOption result ((b : Bool) → ¬ SpellsBoolean text.now b) (SpellsBoolean text.now) }
{
    if text.eq_ignore_ascii_case("true") {
        return Some(true);
    }
    if text.eq_ignore_ascii_case("t") {
        return Some(true);
    }
    if text.eq_ignore_ascii_case("1") {
        return Some(true);
    }
    if text.eq_ignore_ascii_case("false") {
        return Some(false);
    }
    if text.eq_ignore_ascii_case("f") {
        return Some(false);
    }
    if text.eq_ignore_ascii_case("0") {
        return Some(false);
    }
    None
}
