//! What holds of a whole run.

ghost use Rattle.std.specs.Prelude.{ℕ, List, Option};
ghost use Rattle.run_calls.specs.Calls.{FolderCall, ProgramCall, RunCall};
ghost use Rattle.runner.specs.Begun.{IsBegun};
ghost use Rattle.runner.specs.Runs.{IsStageOf};
ghost use Rattle.runner.specs.Steps.{Goes};
ghost use Rattle.run_calls.specs.Values.{PlaceValue, place_shown};
ghost use Rattle.runner.specs.Whole.{ExitsBy, GoesBy, IsPart, IsWhole, all_calls};
ghost use Rattle.run_calls.specs.declared.outcome.Exited.{Exited};
ghost use Rattle.run_calls.specs.declared.folder.Place.{Place};
ghost use Rattle.runner.specs.declared.stage.Stage.{Stage};
ghost use Rattle.runner.specs.declared.stage.Step.{Step};
ghost use Rattle.run_calls.specs.declared.task.Task.{Task};

/// However many calls it takes: from its start to its exit a run makes its task's tree, each node
/// once, starts its command once, looks at each output, and exits with what was answered. What a
/// call of `ask` adds is a part of it, whatever others asked in between. Before its exit it has made
/// a front of that tree, and started its command, or not yet, and nothing else.
pub fn a_run_is_whole()
    ensures part { (text : ℕ → List ℕ) (place : PlaceValue) (from : Stage) (to : Step)
        (f_before f_now : Option (List FolderCall)) (p_before p_now : Option (List ProgramCall))
        → Goes text place from to f_before f_now p_before p_now
        → IsPart text place from to f_before f_now p_before p_now }
    ensures whole { (text : ℕ → List ℕ) (place : Place) (task : Task) (from : Stage)
        (parts : List (List RunCall)) (exited : Exited) → IsStageOf from task
        → ExitsBy text (place_shown place) from parts exited
        → IsWhole text (place_shown place) task exited (all_calls parts) }
    ensures begun { (text : ℕ → List ℕ) (place : PlaceValue) (task : Task) (from : Stage)
        (to : Step) (calls : List RunCall) → IsStageOf from task → GoesBy text place from to calls
        → IsBegun text place task calls }
{}
