//! Which lines are good, and which is the bad one.
ghost use Rattle.std.specs.Prelude.{◌≡◌, ◌↔◌, ℕ, List, Some, Ok, Err};
ghost use Rattle.server_events.specs.Configs.{ConfigValue};
ghost use Rattle.server_events.specs.Limits.{LimitsValue};
ghost use Rattle.script.specs.FirstBadLine.{IsFirstBadLine, Leads};
ghost use Rattle.script.specs.Parts.{lines_of};
ghost use Rattle.script.specs.ReplayLines.{IsGoodReplayLine};
ghost use Rattle.script.specs.ReplayScript.{ReplayScriptValue, after_replay_line, configs_of_lines, empty_replay_script, replay_script_of};

/// A text writes a script exactly where its lines lead there from nothing, and has a bad line of a
/// number exactly where that line is bad and none before it is. An instance may build on one of any
/// line, a later one too.
pub fn bad_line_is_the_first(text: &[u8])
    ensures script { (limits : LimitsValue) (script : ReplayScriptValue) →
        (replay_script_of limits text.now ≡ Ok script)
        ↔ Leads (after_replay_line limits (configs_of_lines limits (lines_of text.now)))
        empty_replay_script (lines_of text.now) script }
    ensures bad_line { (limits : LimitsValue) (number : ℕ) →
        (replay_script_of limits text.now ≡ Err number)
        ↔ IsFirstBadLine (after_replay_line limits (configs_of_lines limits (lines_of text.now)))
        empty_replay_script (lines_of text.now) number }
{}

/// A line leads from a script to the next exactly where it is empty or one of the eight lines:
/// their words with one space between each two, and nothing else.
pub fn a_good_line_has_a_form(line: &[u8])
    ensures { (limits : LimitsValue) (all : List ConfigValue) (before after : ReplayScriptValue) →
        (after_replay_line limits all before line.now ≡ Some after)
        ↔ IsGoodReplayLine limits all before line.now after }
{}
