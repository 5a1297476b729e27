//! What holds of the folders of runs.

ghost use Rattle.std.specs.Prelude.{◌≡◌, ◌<◌, ◌^◌, ℕ, List};
ghost use Rattle.run_folders.specs.Folders.{root_path};

/// In the folder of a start no two runs have one folder.
pub fn two_runs_have_two_folders()
    ensures { (start : List ℕ) (instance job other_instance other_job : ℕ)
        → instance < 2 ^ 32 → job < 2 ^ 64 → other_instance < 2 ^ 32 → other_job < 2 ^ 64
        → root_path start instance job ≡ root_path start other_instance other_job
        → (instance ≡ other_instance) × (job ≡ other_job) }
{}
