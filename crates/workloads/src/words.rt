use crate::failure::Failure;

/// A job that a user waits for.
#[derive(Clone, Copy, PartialEq, Eq)]
pub enum Job {
    /// Sweeps of scripts.
    Sweep,
    /// Scripts that are read and run, and what is printed.
    Run,
    /// Commands to lock tables, and what these show.
    Table,
    /// Hosts that start, look, submit and mark, one after the other, over the same disks.
    Look,
    /// Hosts that recover a long log without marks, of which a disk crashes and a disk is lost.
    Recover,
    /// Submissions through the locks of a cluster.
    Seats,
    /// Sessions that hand locks on.
    Hand,
}

impl Job {
    pub const ALL: [Job; 7] = [
        Job::Sweep,
        Job::Run,
        Job::Table,
        Job::Look,
        Job::Recover,
        Job::Seats,
        Job::Hand,
    ];

    pub fn name(self) -> &'static str {
        match self {
            Job::Sweep => "sweep",
            Job::Run => "run",
            Job::Table => "table",
            Job::Look => "look",
            Job::Recover => "recover",
            Job::Seats => "seats",
            Job::Hand => "hand",
        }
    }
}

/// How much is done of a job.
#[derive(Clone, Copy, PartialEq, Eq)]
pub enum Size {
    /// A small part, where nothing is timed.
    Small,
    /// All of it, which takes half a second or more.
    Whole,
}

impl Size {
    /// How often a part of a job is done that is done so often in the whole.
    pub fn rounds(self, whole: u32) -> u32 {
        match self {
            Size::Small => 1,
            Size::Whole => whole,
        }
    }

    /// How long an input is that is so long in the whole.
    pub fn length(self, whole: u16) -> u16 {
        match self {
            Size::Small => whole / 32,
            Size::Whole => whole,
        }
    }
}

/// What the program is asked to do.
#[derive(Clone, Copy, PartialEq, Eq)]
pub enum Task {
    /// A small part of each job.
    Each,
    /// A job, whose inputs are made from this number.
    One { job: Job, seed: u32 },
}

/// The task that the words name.
pub fn task_of(words: &[&str]) -> Result<Task, Failure> {
    match words {
        [] => Ok(Task::Each),
        [job, seed] => {
            let Some(job) = Job::ALL.into_iter().find(|each| each.name() == *job) else {
                return Err(Failure::Usage);
            };
            let Ok(seed) = seed.parse() else {
                return Err(Failure::Usage);
            };
            Ok(Task::One { job, seed })
        }
        _ => Err(Failure::Usage),
    }
}
