//! What the definitions say.

ghost use Rattle.std.specs.Prelude.{◌≡◌, ◌≤◌, ◌⊎◌, ◌+◌, ℕ, Bool, List, [], Some, None, Ok, Err, codes, length, map};
ghost use Rattle.rpc.specs.declared.refusal.Refusal.{Refusal};
ghost use Rattle.digest.specs.declared.Digest.{Digest};
ghost use Rattle.job_queue.specs.Changes.{JobChange, jobs_after_all};
ghost use Rattle.job_queue.specs.Jobs.{Jobs, jobs_after_push};
ghost use Rattle.job_queue.specs.Order.{AreJobs};
ghost use Rattle.job_queue.specs.declared.queue.TheConstants.{MOST_RUNNING};
ghost use Rattle.execution_messages.specs.Progress.{EndValue};
ghost use Rattle.instance_view.specs.Visible.{Blob, visible_text};
ghost use Rattle.input_tree.specs.Listing.{Lookup};
ghost use Rattle.execution_messages.specs.Once.{IsEachOnce};
ghost use Rattle.execution.specs.Changes.{after_changes};
ghost use Rattle.execution.specs.Execute.{ExecuteAnswer, ExecutionState, execute};
ghost use Rattle.execution.specs.Job.{JobValue, TaskValue, kept_texts};
ghost use Rattle.execution.specs.Orders.{AreOrdered, orders_of, task_of};
ghost use Rattle.execution.specs.Preparing.{PreparedValue, job_of, met, prepared, task_read};
ghost use Rattle.execution.specs.Steps.{end_steps, jobs_after_steps, start_steps, tick_steps};
ghost use Rattle.execution.specs.Taking.{CanTake};
ghost use Rattle.execution.specs.Waiting.{number_named};

/// A call of Execute that is refused changes nothing, and takes no number.
pub fn a_refused_call_changes_nothing()
    ensures { (slots : ℕ) (s : ExecutionState) (skip : Bool) (d : Digest) (refusal : Refusal) →
        (execute slots s skip d).answer ≡ Err refusal → (execute slots s skip d).changes ≡ [] }
{}

/// A call of Execute that is answered takes one number, whatever the answer is: so numbers rise by
/// one, and none is given twice.
pub fn an_answer_takes_one_number()
    ensures { (slots : ℕ) (s : ExecutionState) (skip : Bool) (d : Digest) (a : ExecuteAnswer) →
        let x = execute slots s skip d in
        x.answer ≡ Ok a → (after_changes x.changes s).jobs.next ≡ s.jobs.next + 1 }
{}

/// A job keeps no text twice, however often it met its digest.
pub fn a_job_keeps_each_text_once()
    ensures { (look : Lookup) (met : List Digest) →
        IsEachOnce (map (λ (b : Blob). b.0) (kept_texts look met)) }
{}

/// What a job needs follows from the texts that it keeps alone: what is read off them is what its
/// action needed when it was asked for, whatever else was dropped since.
pub fn a_task_is_read_off_its_texts()
    ensures { (seen : List Blob) (d : Digest) (p : PreparedValue) →
        let look = λ (e : Digest). visible_text e seen in
        prepared look d ≡ Ok p →
        (job_of look d p).task ≡ task_read d (kept_texts look (met d p)) }
{}

/// The steps of an event keep the order of jobs, their numbers and the limits.
pub fn steps_keep_jobs()
    ensures tick { (slots moment : ℕ) (jobs : Jobs JobValue) → slots ≤ MOST_RUNNING →
        AreJobs jobs → AreJobs (jobs_after_steps (tick_steps slots moment jobs) jobs) }
    ensures end { (slots moment n : ℕ) (e : EndValue) (jobs : Jobs JobValue) →
        slots ≤ MOST_RUNNING → AreJobs jobs →
        AreJobs (jobs_after_steps (end_steps slots moment n e jobs) jobs) }
    ensures start { (slots moment : ℕ) (jobs : Jobs JobValue) → slots ≤ MOST_RUNNING →
        AreJobs jobs → AreJobs (jobs_after_steps (start_steps slots moment jobs) jobs) }
{}

/// The steps of an event can be taken.
pub fn steps_can_be_taken()
    ensures tick { (slots moment : ℕ) (jobs : Jobs JobValue) → slots ≤ MOST_RUNNING →
        AreJobs jobs → CanTake (tick_steps slots moment jobs) jobs }
    ensures end { (slots moment n : ℕ) (e : EndValue) (jobs : Jobs JobValue) →
        slots ≤ MOST_RUNNING → AreJobs jobs → CanTake (end_steps slots moment n e jobs) jobs }
    ensures start { (slots moment : ℕ) (jobs : Jobs JobValue) → slots ≤ MOST_RUNNING →
        AreJobs jobs → CanTake (start_steps slots moment jobs) jobs }
{}

/// No more jobs run after an event than there are slots, where no more ran before.
pub fn at_most_slots_run()
    ensures tick { (slots moment : ℕ) (jobs : Jobs JobValue) → AreJobs jobs →
        length jobs.running ≤ slots →
        length (jobs_after_steps (tick_steps slots moment jobs) jobs).running ≤ slots }
    ensures end { (slots moment n : ℕ) (e : EndValue) (jobs : Jobs JobValue) → AreJobs jobs →
        length jobs.running ≤ slots →
        length (jobs_after_steps (end_steps slots moment n e jobs) jobs).running ≤ slots }
    ensures start { (slots moment : ℕ) (jobs : Jobs JobValue) → AreJobs jobs →
        length jobs.running ≤ slots →
        length (jobs_after_steps (start_steps slots moment jobs) jobs).running ≤ slots }
{}

/// After an event as many jobs run as there are slots, or none waits.
pub fn no_slot_is_left_empty()
    ensures tick { (slots moment : ℕ) (jobs : Jobs JobValue) →
        let after = jobs_after_steps (tick_steps slots moment jobs) jobs in
        (slots ≤ length after.running) ⊎ (length after.waiting ≡ 0) }
    ensures end { (slots moment n : ℕ) (e : EndValue) (jobs : Jobs JobValue) →
        let after = jobs_after_steps (end_steps slots moment n e jobs) jobs in
        (slots ≤ length after.running) ⊎ (length after.waiting ≡ 0) }
    ensures start { (slots moment : ℕ) (jobs : Jobs JobValue) →
        let after = jobs_after_steps (start_steps slots moment jobs) jobs in
        (slots ≤ length after.running) ⊎ (length after.waiting ≡ 0) }
{}

/// At an event each job that times out is ordered to be ended, and each that starts is ordered to
/// be run, with its whole task; nothing else is ordered.
pub fn each_start_is_ordered()
    ensures tick { (slots moment : ℕ) (jobs : Jobs JobValue) →
        let steps = tick_steps slots moment jobs in
        AreOrdered (jobs_after_steps steps jobs) steps (orders_of steps jobs) }
    ensures end { (slots moment n : ℕ) (e : EndValue) (jobs : Jobs JobValue) →
        let steps = end_steps slots moment n e jobs in
        AreOrdered (jobs_after_steps steps jobs) steps (orders_of steps jobs) }
    ensures start { (slots moment : ℕ) (jobs : Jobs JobValue) →
        let steps = start_steps slots moment jobs in
        AreOrdered (jobs_after_steps steps jobs) steps (orders_of steps jobs) }
{}

/// The task of a number is that of the job that was pushed under it, whenever it runs: whatever
/// becomes of the jobs between two moments, a number has the same task at both, or none.
pub fn a_job_keeps_its_task()
    ensures pushed { (job : JobValue) (changes : List (JobChange JobValue)) (jobs : Jobs JobValue)
        (task : TaskValue) → AreJobs jobs →
        task_of jobs.next (jobs_after_all changes (jobs_after_push job jobs)) ≡ Some task →
        task ≡ job.task }
    ensures same { (n : ℕ) (changes : List (JobChange JobValue)) (jobs : Jobs JobValue)
        (task later : TaskValue) → AreJobs jobs → task_of n jobs ≡ Some task →
        task_of n (jobs_after_all changes jobs) ≡ Some later → later ≡ task }
{}

/// Names of Operations are read so.
pub fn names_are_read_so()
    ensures named { number_named (codes "operations/120") ≡ Some 120 }
    ensures leading { number_named (codes "operations/01") ≡ None }
    ensures nothing { number_named (codes "operations/") ≡ None }
    ensures other { number_named (codes "operation/1") ≡ None }
{}
