//! What holds of the jobs of an instance, whatever becomes of them.

ghost use Rattle.std.specs.Prelude.{◌≡◌, ◌≤◌, ◌+◌, ◌++◌, ◌^◌, ℕ, List, Some, false, length};
ghost use Rattle.std.specs.List.{AllByRecursion, list_any};
ghost use Rattle.std.specs.Map.{keys_of};
ghost use Rattle.job_queue.specs.Jobs.{Jobs, no_jobs, first_number, jobs_after_push, jobs_after_done, jobs_after_start, jobs_after_end, jobs_without, running_job};
ghost use Rattle.job_queue.specs.Changes.{JobChange, CanHappen, closes, consecutive, jobs_after, jobs_after_all, numbers_given, open_job};
ghost use Rattle.job_queue.specs.Order.{AreDistinct, AreJobs, AreRising, ended_numbers, open_numbers};
ghost use Rattle.job_queue.specs.Sums.{jobs_sum};
ghost use Rattle.job_queue.specs.declared.queue.TheConstants.{LAST_NUMBER, MOST_WAITING, MOST_RUNNING, MOST_ENDED};

/// Jobs are in order at first, and each change that the limits let happen leaves them so.
pub fn jobs_stay_in_order<J>()
    ensures none { AreJobs {J = J} no_jobs }
    ensures change { (change : JobChange J) (jobs : Jobs J) → AreJobs jobs →
        CanHappen change jobs → AreJobs (jobs_after change jobs) }
{}

/// The numbers that are given are 1, 2, 3 and so on: none is given twice, also not that of a job
/// that is forgotten.
pub fn a_number_is_given_once<J>()
    ensures from_one { (changes : List (JobChange J)) →
        let given = numbers_given changes no_jobs in given ≡ consecutive 1 (length given) }
    ensures rising { (changes : List (JobChange J)) → AreRising (numbers_given changes no_jobs) }
{}

/// A job is in one stage: no number stands twice among those that run, wait and have ended.
pub fn a_job_is_in_one_stage<J>()
    ensures { (jobs : Jobs J) → AreJobs jobs →
        AreDistinct (open_numbers jobs ++ ended_numbers jobs) }
{}

/// The job that starts next is the least-numbered of those that wait.
pub fn the_least_numbered_starts<J>()
    ensures { (n : ℕ) (jobs : Jobs J) → AreJobs jobs → first_number jobs.waiting ≡ Some n →
        AllByRecursion (λ m. n ≤ m) (keys_of jobs.waiting) }
{}

/// A job is found under its number from its push until it ends or is forgotten, and no other ever
/// is: what is found there later is the same job or none.
pub fn a_job_stays_the_same<J>()
    ensures pushed { (job : J) (changes : List (JobChange J)) (jobs : Jobs J) → AreJobs jobs →
        list_any (closes jobs.next) changes ≡ false →
        open_job jobs.next (jobs_after_all changes (jobs_after_push job jobs)) ≡ Some job }
    ensures same { (n : ℕ) (job other : J) (changes : List (JobChange J)) (jobs : Jobs J) →
        AreJobs jobs → open_job n jobs ≡ Some job →
        open_job n (jobs_after_all changes jobs) ≡ Some other → other ≡ job }
{}

/// What the jobs that wait and run hold grows by what a new one holds, and falls by what one holds
/// that ends or is forgotten; a start leaves it.
pub fn jobs_hold_what_they_keep<J>()
    ensures none { (f : J → ℕ) → jobs_sum f no_jobs ≡ 0 }
    ensures push { (f : J → ℕ) (job : J) (jobs : Jobs J) →
        jobs_sum f (jobs_after_push job jobs) ≡ jobs_sum f jobs + f job }
    ensures done { (f : J → ℕ) (operation : List ℕ) (jobs : Jobs J) →
        jobs_sum f (jobs_after_done operation jobs) ≡ jobs_sum f jobs }
    ensures start { (f : J → ℕ) (deadline : ℕ) (jobs : Jobs J) →
        jobs_sum f (jobs_after_start deadline jobs) ≡ jobs_sum f jobs }
    ensures end { (f : J → ℕ) (n : ℕ) (operation : List ℕ) (job : J) (jobs : Jobs J) →
        running_job n jobs ≡ Some job →
        jobs_sum f (jobs_after_end n operation jobs) + f job ≡ jobs_sum f jobs }
    ensures forget { (f : J → ℕ) (n : ℕ) (job : J) (jobs : Jobs J) →
        running_job n jobs ≡ Some job → jobs_sum f (jobs_without n jobs) + f job ≡ jobs_sum f jobs }
{}

/// How many jobs wait, run and are kept at most, and how many numbers there are.
pub fn limits_of_jobs()
    ensures waiting { MOST_WAITING ≡ 1000 }
    ensures running { MOST_RUNNING ≡ 64 }
    ensures ended { MOST_ENDED ≡ 256 }
    ensures numbers { LAST_NUMBER ≡ 2 ^ 63 }
{}
