//! Which lines are good, and which is the bad one.
ghost use Rattle.std.specs.Prelude.{◌≡◌, ◌↔◌, ℕ, Some, Ok, Err};
ghost use Rattle.script.specs.FirstBadLine.{IsFirstBadLine, Leads};
ghost use Rattle.script.specs.Parts.{lines_of};
ghost use Rattle.script.specs.UnaryLines.{HasGoodInstances, IsGoodUnaryLine};
ghost use Rattle.script.specs.UnaryScript.{UnaryScriptValue, after_unary_line, empty_unary_script, unary_script_of};

/// A text writes a script exactly where its lines lead there from nothing, and has a bad line of a
/// number exactly where that line is bad and none before it is.
pub fn bad_line_is_the_first(text: &[u8])
    ensures script { (script : UnaryScriptValue) →
        (unary_script_of text.now ≡ Ok script)
        ↔ Leads after_unary_line empty_unary_script (lines_of text.now) script }
    ensures bad_line { (number : ℕ) → (unary_script_of text.now ≡ Err number)
        ↔ IsFirstBadLine after_unary_line empty_unary_script (lines_of text.now) number }
{}

/// A line leads from a script of good instances to the next exactly where it is empty or one of the
/// three lines: the words with one space between each two, and nothing else.
pub fn a_good_line_has_a_form(line: &[u8])
    ensures { (before after : UnaryScriptValue) → HasGoodInstances before.instances
        → (after_unary_line before line.now ≡ Some after) ↔ IsGoodUnaryLine before line.now after }
{}
