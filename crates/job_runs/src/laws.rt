//! What the definitions say, for every task.

ghost use Rattle.std.specs.Prelude.{◌≡◌, [], List, unwrap_or};
ghost use Rattle.std.specs.List.{filter_map};
ghost use Rattle.std.specs.Map.{lookup};
ghost use Rattle.digest.specs.declared.Digest.{Digest};
ghost use Rattle.digest.specs.Naming.{same_digest};
ghost use Rattle.instance_view.specs.Visible.{Blob};
ghost use Rattle.serve.specs.Happenings.{MarkedHappening, run_event};
ghost use Rattle.serve.specs.Served.{IsServed};
ghost use Rattle.server_events.specs.Configs.{ConfigValue};
ghost use Rattle.job_runs.specs.Clock.{NeverBack};
ghost use Rattle.job_runs.specs.Ran.{AreOfJobs};
ghost use Rattle.job_runs.specs.Texts.{numbered_text, text_number};

/// The text that a file has by the number of its digest is the text of its digest, and the empty
/// one where no text has it.
pub fn a_number_finds_the_text_of_its_digest()
    ensures { (texts : List Blob) (d : Digest) → numbered_text texts (text_number texts d)
        ≡ unwrap_or (lookup (same_digest d) texts) [] }
{}

/// Whatever was served while the clock never went back, what happened at the runs is of jobs: under
/// a number of an instance a task is ordered once at most, and what is lent under it is the task
/// that is to run under it then. The instances alone see to it. A job gets a number that none had
/// before, starts once, and runs until it is ordered to be killed or an outcome is told of it; and
/// an outcome of a job that runs is refused only where the clock went back.
pub fn what_is_served_is_of_jobs()
    ensures { (configs : List ConfigValue) (h : List MarkedHappening) → IsServed configs h
        → NeverBack 0 h → AreOfJobs (filter_map run_event h) }
{}
